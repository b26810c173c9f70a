//! A row with a note of each kind, and the numbers of notes.
use crate::checks::{holds, must};
use cf_forms::{Answer, Form, Of};
use cf_model::{Attached, Event, Finished, Reply, Ticked};
use cf_notes::{Note, NoteWords, Noted, Notes, Timer, decode, encode};
use cf_plan::PlanBuilder;
use std::alloc::Global;
use std::process::Abort;

/// An entry of a row, with its note last.
#[derive(Clone, Copy)]
enum Put {
    /// Stage 0 has one more dependent of this form, as this stage, by the function of the same number.
    Attach(Form, u16, Note),
    /// This stage is finished with a link to stage 0, and that is answered so.
    Link(u16, Finished, Note),
    /// Stage 1 is failed with code 5, or was settled already.
    Fail(bool, Note),
    /// A tick at no moment.
    Tick(Note),
}

/// Entries from place 1 on, and what is noted of each stage behind them.
type Case = (&'static [Put], &'static [Noted]);

const CALLS: Note = Note::Calls { function: 8 };

const COMPOSES: Note = Note::Composes {
    function: 8,
    promise: 0,
};

/// A stage that has no function, and of which nothing else was noted.
const PLAIN: Noted = Noted {
    function: None,
    tries: None,
    promise: None,
    given: None,
    timer: None,
    abandoned: None,
};

/// One with a function that no note names.
const BY_WORD: Noted = Noted {
    function: Some(0),
    ..PLAIN
};

const APPLY: Noted = Noted {
    function: Some(7),
    ..PLAIN
};

const KEPT: [Put; 5] = [
    Put::Attach(Form::Apply, 2, Note::Tries { of: 1 }),
    Put::Attach(Form::Compose, 3, COMPOSES),
    Put::Link(3, Finished::Won, Note::Gives { stage: 2 }),
    Put::Tick(Note::Timer {
        stage: 2,
        moment: 40,
        gives: true,
    }),
    Put::Fail(true, Note::Abandons),
];

const NOTED: [Noted; 4] = [
    Noted {
        given: Some(2),
        ..PLAIN
    },
    Noted {
        abandoned: Some(5),
        ..APPLY
    },
    Noted {
        tries: Some(1),
        timer: Some(Timer {
            moment: 40,
            gives: true,
            place: 4,
        }),
        ..APPLY
    },
    Noted {
        function: Some(8),
        promise: Some(0),
        ..PLAIN
    },
];

const MISPLACED: [Put; 8] = [
    Put::Attach(Form::Apply, 2, COMPOSES),
    Put::Attach(Form::Compose, 3, CALLS),
    Put::Attach(Form::Apply, 4, Note::Tries { of: 9 }),
    Put::Link(2, Finished::Won, Note::Gives { stage: 1 }),
    Put::Link(3, Finished::Late, Note::Gives { stage: 1 }),
    Put::Tick(CALLS),
    Put::Fail(false, Note::Abandons),
    Put::Fail(true, CALLS),
];

const AS_BEFORE: [Noted; 5] = [PLAIN, APPLY, BY_WORD, BY_WORD, BY_WORD];

static CASES: [Case; 2] = [(&KEPT, &NOTED), (&MISPLACED, &AS_BEFORE)];

/// A note, and its numbers.
static NUMBERS: [(Note, u64, u64); 8] = [
    (Note::Nothing, 0, 0),
    (Note::Calls { function: u32::MAX }, 0x0100_0000_ffff_ffff, 0),
    (Note::Tries { of: 3 }, 0x0200_0003_0000_0000, 0),
    (
        Note::Composes {
            function: 9,
            promise: 2,
        },
        0x0300_0002_0000_0009,
        0,
    ),
    (Note::Gives { stage: 1 }, 0x0400_0001_0000_0000, 0),
    (
        Note::Timer {
            stage: 4095,
            moment: u64::MAX,
            gives: false,
        },
        0x0500_0fff_0000_0000,
        u64::MAX,
    ),
    (
        Note::Timer {
            stage: 4095,
            moment: u64::MAX,
            gives: true,
        },
        0x0600_0fff_0000_0000,
        u64::MAX,
    ),
    (Note::Abandons, 0x0700_0000_0000_0000, 0),
];

/// Numbers of no note.
static NO_NUMBERS: [(u64, u64); 6] = [
    (0, 1),
    (1, 0),
    (0x0100_0001_0000_0000, 0),
    (0x0201_0003_0000_0000, 0),
    (0x0700_0000_0000_0001, 0),
    (0x0800_0000_0000_0000, 0),
];

/// The notes of a source and an apply of it by function 7, with places for 5 stages more.
fn notes_of_plan(rt: &impl Abort, alloc: Global) -> Notes {
    let mut builder = PlanBuilder::new(alloc);
    must(rt, builder.stage(Form::Source, &[], None));
    must(rt, builder.stage(Form::Apply, &[0], Some(0)));
    let plan = must(rt, builder.build());
    holds(rt, plan.stages() == 2, "plan");
    let first = [Note::Nothing, Note::Calls { function: 7 }];
    must(rt, Notes::new(alloc, &plan, &first, 5))
}

/// The event of an entry, its reply, and its note.
fn entry_of(put: Put) -> (Event, Reply, Note) {
    match put {
        Put::Attach(form, at, note) => {
            let event = Event::Attach {
                who: 0,
                form,
                of: Of::One(0),
                function: Some(at),
            };
            (event, Reply::Attach(Attached::At(at)), note)
        }
        Put::Link(stage, finished, note) => {
            let event = Event::Finish {
                who: 0,
                stage,
                answer: Answer::Link(0),
            };
            (event, Reply::Finish(finished), note)
        }
        Put::Fail(is_settled_by_it, note) => {
            let event = Event::Fail {
                who: 0,
                stage: 1,
                code: 5,
            };
            (event, Reply::Flag(is_settled_by_it), note)
        }
        Put::Tick(note) => {
            let event = Event::Tick { who: 0, moment: 0 };
            (event, Reply::Tick(Ticked::Fired(0)), note)
        }
    }
}

/// Whether an entry finds room, and is taken.
fn is_taken(notes: &mut Notes, place: u64, put: Put) -> bool {
    if notes.room() == 0 {
        return false;
    }
    let (event, reply, note) = entry_of(put);
    notes.take(place, &event, &reply, note);
    true
}

/// Whether these entries are taken, and these notes are kept.
fn is_kept(notes: &mut Notes, case: &Case) -> bool {
    let (puts, wanted) = *case;
    let mut place: u64 = 0;
    for put in puts {
        place = place.wrapping_add(1);
        if !is_taken(notes, place, *put) {
            return false;
        }
    }
    notes.stages() == wanted
}

#[test]
fn keeps_what_the_notes_say(rt: HostRuntime) {
    for (at, case) in CASES.iter().enumerate() {
        let mut notes = notes_of_plan(&rt, rt.alloc());
        holds(&rt, is_kept(&mut notes, case), at);
    }
}

#[test]
fn finds_more_places(rt: HostRuntime) {
    let mut notes = notes_of_plan(&rt, rt.alloc());
    holds(
        &rt,
        notes.stages().len() == 2 && notes.room() == 5,
        "before",
    );
    must(&rt, notes.grow(9));
    holds(&rt, notes.room() == 14, "behind");
}

#[test]
fn reads_what_it_writes(rt: HostRuntime) {
    for (at, (note, what, moment)) in NUMBERS.iter().enumerate() {
        let words = NoteWords {
            what: *what,
            moment: *moment,
        };
        holds(
            &rt,
            encode(*note) == words && decode(words) == Some(*note),
            at,
        );
    }
    for (at, (what, moment)) in NO_NUMBERS.iter().enumerate() {
        let words = NoteWords {
            what: *what,
            moment: *moment,
        };
        holds(&rt, decode(words).is_none(), at);
    }
}
