//! What the answers of a store do to a request. Each is to the question that is open.
ghost use Rattle.std.specs.Prelude.{◌≡◌, ◌≢◌, ◌<◌, IfErr, None, OnErr, OnOk, length};
ghost use Rattle.std.specs.Bool.{OnFalse, OnTrue};
ghost use Rattle.cf_part.specs.Parts.{IsClose, IsPut, IsRead};
ghost use Rattle.cf_host.specs.Requests.{OnWork, asked_in};
ghost use Rattle.cf_host.specs.Answering.{Breaking, Closing, Hearing, Landing, Meeting, Reading, Refusing, Waiting};
ghost use Rattle.cf_host.specs.Fitting.{TakesEntries};
ghost use Rattle.cf_host.specs.Hosts.{IsDropped, StaysShut};

use crate::order::NoAnswer;
use crate::request::Request;
use cf_notes::Note;
use cf_part::{Entry, Fault, Question};

/// How long a request isn't asked for behind a question that stayed without an answer, in milliseconds.
const PAUSE: u64 = 20;

impl Request {
    /// The answer to a read, or to a put whose place is taken: these entries stand there.
    pub(crate) fn hear(
        &mut self,
        now: u64,
        entries: &[Entry],
        notes: &[Note],
    ) -> Result<(), NoAnswer>
        requires { length notes.now ≡ length entries.now }
        ensures ok { OnOk result (OnWork (Hearing now entries.now notes.now) self.old self.new) }
        ensures why { IfErr result (λ why. why ≡ NoAnswer.Unfit) }
        ensures unfit { IfErr result (λ why. ¬ TakesEntries entries.now self.old) }
        ensures err { OnErr result (self.new ≡ self.old) }
    {
        let asked = self.asked();
        if is_read(asked) {
            self.read(now, entries, notes);
            return Ok(());
        }
        if !is_put(asked) || entries.is_empty() {
            return Err(NoAnswer::Unfit);
        }
        self.meet(now, entries, notes);
        Ok(())
    }

    /// These entries stand behind all that was seen.
    fn read(&mut self, now: u64, entries: &[Entry], notes: &[Note])
        requires asked { IsRead (asked_in self.old.work) }
        requires notes { length notes.now ≡ length entries.now }
        ensures { OnWork (Reading now entries.now notes.now) self.old self.new }
    {
        if let Some(work) = &mut self.work {
            match work.read(now, entries, notes) {
                Ok(()) => {}
                Err(_misfit) => {}
            }
        }
    }

    /// The put stands.
    pub(crate) fn stands(&mut self)
        requires { IsPut (asked_in self.old.work) }
        ensures { OnWork Landing self.old self.new }
    {
        if let Some(work) = &mut self.work {
            work.stands();
        }
    }

    /// These entries stand where the put was to stand.
    fn meet(&mut self, now: u64, entries: &[Entry], notes: &[Note])
        requires asked { IsPut (asked_in self.old.work) }
        requires some { 0 < length entries.now }
        requires notes { length notes.now ≡ length entries.now }
        ensures { OnWork (Meeting now entries.now notes.now) self.old self.new }
    {
        if let Some(work) = &mut self.work {
            match work.others(now, entries, notes) {
                Ok(_landed) => {}
                Err(_misfit) => {}
            }
        }
    }

    /// The put was refused.
    pub(crate) fn refused(&mut self, now: u64)
        requires { IsPut (asked_in self.old.work) }
        ensures { OnWork (Refusing now) self.old self.new }
    {
        if let Some(work) = &mut self.work {
            work.refused(now);
        }
    }

    /// It is closed with just what was seen, or more stands there.
    pub(crate) fn closed(&mut self, is_closed: bool)
        requires { IsClose (asked_in self.old.work) }
        ensures { OnWork (Closing is_closed) self.old self.new }
    {
        if let Some(work) = &mut self.work {
            work.closed(is_closed);
        }
    }

    /// No answer came.
    pub(crate) fn unknown(&mut self, now: u64)
        requires { self.old.work ≢ None }
        ensures { OnWork (Waiting now) self.old self.new }
    {
        if let Some(work) = &mut self.work {
            work.unknown(now);
        }
    }

    /// It isn't opened, and is asked for again later.
    pub(crate) fn stay_shut(&mut self, now: u64)
        requires { self.old.work ≡ None }
        ensures { StaysShut now self.old self.new }
    {
        self.is_asked = false;
        self.retry = now.saturating_add(PAUSE);
    }

    /// The store has no plan of it.
    pub(crate) fn lose(&mut self)
        requires { self.old.work ≡ None }
        ensures { IsDropped self.old self.new }
    {
        self.is_asked = false;
        self.is_dropped = true;
    }

    /// The store has it no more.
    pub(crate) fn dropped(&mut self)
        requires { self.old.work ≢ None }
        ensures { OnWork Breaking self.old self.new }
    {
        if let Some(work) = &mut self.work {
            work.breaks(Fault::Dropped);
        }
    }
}

/// Whether a read is asked for.
pub(crate) fn is_read(asked: Option<Question>) -> bool
    ensures read { OnTrue result (IsRead asked) }
    ensures other { OnFalse result (¬ IsRead asked) }
{
    match asked {
        Some(Question::Read { .. }) => true,
        _ => false,
    }
}

/// Whether a put is asked for.
pub(crate) fn is_put(asked: Option<Question>) -> bool
    ensures put { OnTrue result (IsPut asked) }
    ensures other { OnFalse result (¬ IsPut asked) }
{
    match asked {
        Some(Question::Put { .. }) => true,
        _ => false,
    }
}

/// Whether a close is asked for.
pub(crate) fn is_close(asked: Option<Question>) -> bool
    ensures close { OnTrue result (IsClose asked) }
    ensures other { OnFalse result (¬ IsClose asked) }
{
    match asked {
        Some(Question::Close { .. }) => true,
        _ => false,
    }
}
