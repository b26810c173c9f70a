//! What happened, event by event.
ghost use Rattle.std.specs.Prelude.{◌≡◌, [], IfOk, OnOk, true};
ghost use Rattle.cf_forms.specs.Plans.{has_place, with_room};
ghost use Rattle.cf_model.specs.States.{start};
ghost use Rattle.cf_model.specs.declared.events.Reply.TheVariants.{Attach as Attaches};
ghost use Rattle.cf_model.specs.declared.replies.Attached.TheVariants.{StagesFull};
ghost use Rattle.cf_ledger.specs.Ledgers.{state_of};
ghost use Rattle.cf_telling.specs.Tales.{AreToldOf, IsAdded, TellsWord};

use crate::noting::Notes;
use cf_event::decode;
use cf_ledger::{Ledger, LedgerFault};
use cf_model::{Attached, Event, Reply, Stage};
use cf_plan::Plan;
use std::alloc::{AllocError, Global};

/// An event that was done.
#[derive(Drop)]
pub struct Entry {
    pub word: u64,
    pub event: Event,
    pub reply: Reply,
    /// The stages that it changed, each as it was then, and the one that it attached.
    pub changes: Vec<(u16, Stage)>,
}

/// What happened.
#[derive(Drop)]
pub struct Tale {
    pub plan: Plan,
    /// How many stages there was room for.
    pub room: u16,
    /// What each stage of the plan was before the first event.
    pub start: Vec<Stage>,
    pub entries: Vec<Entry>,
    pub notes: Notes,
    /// Why the next word isn't told, if there is one: no graph does it.
    pub stop: Option<LedgerFault>,
}

/// What the words of a plan's events did, with room for this many stages more, up to the first word that no graph does. It fails
/// only where there is no memory.
pub fn tale_of(alloc: Global, plan: &Plan, room: u16, words: &[u64]) -> Result<Tale, AllocError>
    requires place { has_place plan.now.stages room ≡ true }
    ensures { IfOk result (λ tale. AreToldOf (start (with_room plan.now room)) words.now tale.entries.items tale.stop) }
{
    let mut tale = opening_of(alloc, plan, room)?;
    match tale.do_all(alloc, plan, room, words) {
        Ok(()) => Ok(tale),
        Err(fault) => Err(fault),
    }
}

/// The tale of a plan to which nothing was done.
fn opening_of(alloc: Global, plan: &Plan, room: u16) -> Result<Tale, AllocError>
    ensures { IfOk result (λ tale. tale.entries.items ≡ []) }
{
    let plan = plan.share()?;
    let notes = Notes::new(alloc, &plan)?;
    Ok(Tale {
        plan,
        room,
        start: Vec::new(alloc),
        entries: Vec::new(alloc),
        notes,
        stop: None,
    })
}

impl Tale {
    /// Does the words to a new ledger of the plan, and notes what came of them.
    fn do_all(
        &mut self,
        alloc: Global,
        plan: &Plan,
        room: u16,
        words: &[u64],
    ) -> Result<(), AllocError>
        requires place { has_place plan.now.stages room ≡ true }
        requires empty { self.old.entries.items ≡ [] }
        ensures { OnOk result
            (AreToldOf (start (with_room plan.now room)) words.now self.new.entries.items self.new.stop) }
    {
        let mut ledger = Ledger::new(alloc, plan, room)?;
        note_start(&ledger, &mut self.start, &mut self.notes)?;
        self.stop = go_through(
            alloc,
            &mut ledger,
            words,
            &mut self.entries,
            &mut self.notes,
        )?;
        Ok(())
    }
}

/// Notes what each stage is before the first event.
fn note_start(
    ledger: &Ledger,
    start: &mut Vec<Stage>,
    notes: &mut Notes,
) -> Result<(), AllocError> {
    for i in 0..ledger.stages() {
        start.push(note_change(ledger, notes, i, 0))?;
    }
    Ok(())
}

/// Does the words, and adds an entry for each, up to the first that no graph does: why it doesn't.
fn go_through(
    alloc: Global,
    ledger: &mut Ledger,
    words: &[u64],
    entries: &mut Vec<Entry>,
    notes: &mut Notes,
) -> Result<Option<LedgerFault>, AllocError>
    requires { entries.old.items ≡ [] }
    ensures { IfOk result (λ stop. AreToldOf (state_of ledger.old) words.now entries.new.items stop) }
{
    for (place, word) in words.iter().enumerate() {
        // The words before this place are told.
        let _place = place;
        if let Some(why) = tell_word(alloc, ledger, *word, entries, notes)? {
            return Ok(Some(why));
        }
    }
    Ok(None)
}

/// Does a word, and adds an entry for it. If no graph does it, it says why.
fn tell_word(
    alloc: Global,
    ledger: &mut Ledger,
    word: u64,
    entries: &mut Vec<Entry>,
    notes: &mut Notes,
) -> Result<Option<LedgerFault>, AllocError>
    ensures { IfOk result (λ stop. TellsWord word (state_of ledger.old) entries.old.items stop
        (state_of ledger.new) entries.new.items) }
{
    let Some(event) = decode(word) else {
        return Ok(Some(LedgerFault::NoEvent));
    };
    match ledger.apply_other(word) {
        Ok(reply) => add(alloc, ledger, word, event, reply, entries, notes)?,
        Err(LedgerFault::NoRoom) => add_full(alloc, word, event, entries)?,
        Err(LedgerFault::NoMemory) => return Err(AllocError),
        Err(LedgerFault::NoEvent) => return Ok(Some(LedgerFault::NoEvent)),
        Err(LedgerFault::NoStage) => return Ok(Some(LedgerFault::NoStage)),
    }
    Ok(None)
}

/// Adds the event that a ledger did last, with the stages that it changed.
fn add(
    alloc: Global,
    ledger: &Ledger,
    word: u64,
    event: Event,
    reply: Reply,
    entries: &mut Vec<Entry>,
    notes: &mut Notes,
) -> Result<(), AllocError>
    ensures { OnOk result (IsAdded word event reply entries.old.items entries.new.items) }
{
    let place = entries.len().saturating_add(1);
    notes.note(alloc, place, event, reply)?;
    let changes = changes_of(alloc, ledger, notes, reply, place)?;
    entries.push(Entry {
        word,
        event,
        reply,
        changes,
    })?;
    Ok(())
}

/// Adds an event that changed nothing, since there was no room.
fn add_full(
    alloc: Global,
    word: u64,
    event: Event,
    entries: &mut Vec<Entry>,
) -> Result<(), AllocError>
    ensures { OnOk result (IsAdded word event (Attaches StagesFull) entries.old.items entries.new.items) }
{
    entries.push(Entry {
        word,
        event,
        reply: Reply::Attach(Attached::StagesFull),
        changes: Vec::new(alloc),
    })?;
    Ok(())
}

/// The stages that the event at a place changed, which a ledger did last.
fn changes_of(
    alloc: Global,
    ledger: &Ledger,
    notes: &mut Notes,
    reply: Reply,
    place: usize,
) -> Result<Vec<(u16, Stage)>, AllocError> {
    let news = news_of(alloc, ledger, reply)?;
    let mut changes = Vec::new(alloc);
    for i in news.iter() {
        changes.push((*i, note_change(ledger, notes, *i, place)))?;
    }
    Ok(changes)
}

/// What a stage is after the event at a place, which is noted.
fn note_change(ledger: &Ledger, notes: &mut Notes, i: u16, place: usize) -> Stage {
    let stage = stage_of(ledger, i);
    if let Stage::Settled(outcome) = stage {
        notes.settle(i, outcome, place);
    }
    stage
}

/// The stages that the last event changed, and the one that it attached.
fn news_of(alloc: Global, ledger: &Ledger, reply: Reply) -> Result<Vec<u16>, AllocError> {
    let mut news = Vec::new(alloc);
    let count = ledger.len();
    if count > 0 {
        for i in ledger.news(count - 1) {
            news.push(*i)?;
        }
    }
    if let Reply::Attach(Attached::At(i)) = reply {
        if !news.contains(&i) {
            news.push(i)?;
        }
    }
    Ok(news)
}

/// A stage's state by now; one that isn't there is pending.
fn stage_of(ledger: &Ledger, i: u16) -> Stage {
    if i < ledger.stages() {
        ledger.stage(i)
    } else {
        Stage::Pending
    }
}
