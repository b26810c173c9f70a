//! Workers that keep what they are told and called with, beside what their passes hold.
ghost use Rattle.std.specs.Prelude.{◌≡◌, ◌+◌, ◌<◌, ◌≤◌, vec_len};

use crate::checks::{holds, must};
use crate::plans::{Row, Stages, plan_of};
use crate::pool::pools::{Opening, open};
use cf_desk::{Call, Kept, Rec};
use cf_forms::{Answer, Args, Form, Functions};
use cf_model::{Claimed, Reply};
use cf_outcome::Value;
use cf_pool::{Left, RaceTerms, Worker, race, run};
use std::alloc::Global;
use std::process::Abort;
use std::sync::Wait;
use std::thread::Threads;

/// What a worker was told, or called with.
#[derive(Clone, Copy, Drop, PartialEq)]
enum Note {
    Told { stage: u16, caller: u8 },
    Called { number: u16, args: Args },
}

/// Keeps all that happens to it, and whether memory for it was refused. Its functions answer how many notes it has by then, which
/// their arguments don't determine.
#[derive(Drop)]
struct Recorder {
    notes: Vec<Note>,
    lost: bool,
}

impl Recorder {
    fn keep(&mut self, note: Note) {
        if self.notes.push(note).is_err() {
            self.lost = true;
        }
    }
}

impl Functions for Recorder {
    ghost calls = { λ m number args answer n. Unit {0} };

    fn call(&mut self, number: u16, args: &Args) -> Answer {
        self.keep(Note::Called {
            number,
            args: *args,
        });
        answer_after(self.notes.len())
    }
}

impl Worker for Recorder {
    ghost use Rattle.std.specs.Prelude.{None};
    ghost use Rattle.std.proofs.Common.{refl};

    ghost answers = { λ m number args. None };

    ghost tells = { λ m stage caller n. Unit {0} };

    fn before(&mut self, stage: u16, caller: u8) {
        self.keep(Note::Told { stage, caller });
    }

    ghost means = { λ m n number args answer h. (tt, refl) };
}

/// What a function answers behind so many notes.
fn answer_after(notes: usize) -> Answer {
    Answer::Give(Value::Int(i32::try_from(notes).unwrap_or(0)))
}

/// Two supplies, each with a function of it. The function of stage i has the number 3 - i.
static ROWS: [Row<'static>; 4] = [
    (Form::Supply, &[], Some(3)),
    (Form::Supply, &[], Some(2)),
    (Form::Apply, &[0], Some(1)),
    (Form::Apply, &[1], Some(0)),
];

/// So many workers to which nothing has happened.
fn recorders(rt: &impl Abort, alloc: Global, count: u8) -> Vec<Recorder>
    ensures { vec_len result ≡ count }
{
    let mut workers = must(rt, Vec::with_capacity(alloc, count as usize));
    'workers: for _ in 0..count {
        let worker = Recorder {
            notes: Vec::new(alloc),
            lost: false,
        };
        must(rt, workers.push(worker));
    }
    workers
}

/// What a worker notes for a claim of this stage that was granted with these arguments: it is told, and then its function
/// called. The finish that follows has what that call answered.
fn are_of(notes: &[Note], at: usize, stage: u16, caller: u8, args: Args) -> bool {
    let told = Note::Told { stage, caller };
    let called = Note::Called {
        number: 3u16.wrapping_sub(stage),
        args,
    };
    notes.get(at) == Some(&told) && notes.get(at.wrapping_add(1)) == Some(&called)
}

/// Whether a record is of a claim or a finish.
fn is_work(record: Rec) -> bool {
    matches!(
        record,
        Rec::Did {
            call: Call::Claim(_) | Call::Finish(_, _),
            ..
        }
    )
}

/// Whether these are the notes for the claims that a pass was granted, and no others, each finish has what was answered, and the
/// pass has no records beside.
fn are_noted(notes: &[Note], kept: &Kept) -> bool {
    let mut at = 0usize;
    for record in &kept.records {
        if !is_work(*record) {
            return false;
        }
        if let Rec::Did {
            call: Call::Claim(stage),
            reply: Reply::Claim(Claimed::Granted(args)),
            ..
        } = *record
        {
            if !are_of(notes, at, stage, kept.caller, args) {
                return false;
            }
            at = at.wrapping_add(2);
        }
        if let Rec::Did {
            call: Call::Finish(_, answer),
            ..
        } = *record
        {
            if answer != answer_after(at) {
                return false;
            }
        }
    }
    at == notes.len()
}

/// Whether each worker noted what its pass was granted, and all of them eight notes for the four stages.
fn agree(left: &Left<Recorder>) -> bool {
    let mut all = 0usize;
    for (kept, worker) in left.closed.passes.iter().zip(left.workers.iter()) {
        if worker.lost || !are_noted(&worker.notes, kept) {
            return false;
        }
        all = all.wrapping_add(worker.notes.len());
    }
    all == 8
}

/// Each worker of a run of so many, and its caller, notes what its pass was granted.
fn check_run<R: Threads + Wait + Sync + Abort>(rt: &R, alloc: Global, workers: u8)
    requires { (0 < workers) × (workers ≤ 32) }
{
    let opening = Opening {
        stages: Stages::These(&ROWS),
        workers,
        log: 200,
        calls: 50,
        room: None,
    };
    let (desk, passes) = open(rt, alloc, opening);
    let hands = recorders(rt, alloc, workers + 1);
    let Some(left) = run(rt, desk, passes, hands).ok() else {
        panic!(rt; "a fault ended a run of {workers}");
    };
    holds(rt, agree(&left), ("run", workers));
    drop(left);
}

/// The same of a race.
fn check_race<R: Threads + Wait + Sync + Abort>(rt: &R, alloc: Global, workers: u8)
    requires { (0 < workers) × (workers ≤ 32) }
{
    let plan = plan_of(rt, alloc, &ROWS);
    holds(rt, plan.has_place(0), "place");
    let hands = recorders(rt, alloc, workers + 1);
    let terms = RaceTerms {
        plan,
        room: 0,
        steps: &[],
        workers,
    };
    let left = must(rt, race(rt, alloc, terms, hands));
    holds(rt, agree(&left), ("race", workers));
    drop(left);
}

#[test]
fn workers_note_what_their_passes_were_granted(rt: HostRuntime) {
    check_run(&rt, rt.alloc(), 1);
    check_race(&rt, rt.alloc(), 1);
    check_run(&rt, rt.alloc(), 4);
    check_race(&rt, rt.alloc(), 4);
}
