//! What users call of a request that is opened, and what functions come to.
ghost use Rattle.std.specs.Prelude.{◌≡◌, ◌≢◌, ◌<◌, None, OnErr, OnOk, Some};
ghost use Rattle.std.specs.Bool.{OnFalse, OnTrue};
ghost use Rattle.cf_due.specs.Acts.{IsFitting};
ghost use Rattle.cf_part.specs.Parts.{later};
ghost use Rattle.cf_host.specs.Requests.{HasPlace, HasPlaces, IsCalledIn, OnWork};
ghost use Rattle.cf_host.specs.Asking.{Asking, CallEnding, Ending, Growing, IsFull, Wanting};

use crate::request::Request;
use cf_due::Act;
use cf_part::EndsWith;
use std::alloc::{AllocError, Global};

impl Request {
    /// A user asks for an act, and waits until a moment. It fails only where there is no memory, and then changes
    /// nothing.
    pub(crate) fn asks(&mut self, number: u64, act: Act, until: u64) -> Result<(), AllocError>
        requires opened { self.old.work ≢ None }
        requires fits { IsFitting act }
        ensures ok { OnOk result (OnWork (Asking number act until) self.old self.new) }
        ensures short { OnErr result (IsFull self.old.work) }
        ensures err { OnErr result (self.new ≡ self.old) }
    {
        match &mut self.work {
            Some(work) => work.asks(number, act, until),
            None => Ok(()),
        }
    }

    /// A user ends it, and waits until a moment. It fails only where there is no memory, and then changes nothing.
    pub(crate) fn ends(&mut self, number: u64, until: u64) -> Result<(), AllocError>
        requires { self.old.work ≢ None }
        ensures ok { OnOk result (OnWork (Ending number until) self.old self.new) }
        ensures short { OnErr result (IsFull self.old.work) }
        ensures err { OnErr result (self.new ≡ self.old) }
    {
        match &mut self.work {
            Some(work) => work.ends(number, until),
            None => Ok(()),
        }
    }

    /// Somebody waits for a stage.
    pub(crate) fn wants(&mut self, stage: u16)
        requires { HasPlace self.old.work stage }
        ensures { OnWork (Wanting stage (Some 0)) self.old self.new }
    {
        if let Some(work) = &mut self.work {
            work.wants(stage);
        }
    }

    /// Nobody waits for a stage any more.
    pub(crate) fn lets_go(&mut self, stage: u16)
        requires { HasPlace self.old.work stage }
        ensures { OnWork (Wanting stage None) self.old self.new }
    {
        if let Some(work) = &mut self.work {
            work.lets_go(stage);
        }
    }

    /// The payload of a stage that was to be shown couldn't be read.
    pub(crate) fn unread(&mut self, now: u64, stage: u16)
        requires { HasPlace self.old.work stage }
        ensures { OnWork (Wanting stage (Some (later now))) self.old self.new }
    {
        if let Some(work) = &mut self.work {
            work.unread(now, stage);
        }
    }

    /// Makes room for so many stages more. It fails only where there is no memory, and then changes nothing.
    pub(crate) fn grow(&mut self, alloc: Global, more: u16) -> Result<(), AllocError>
        requires { HasPlaces self.old.work more }
        ensures ok { OnOk result (OnWork (Growing more) self.old self.new) }
        ensures err { OnErr result (self.new ≡ self.old) }
    {
        match &mut self.work {
            Some(work) => work.grow(alloc, more),
            None => Ok(()),
        }
    }

    /// The function of a stage has ended.
    pub(crate) fn ended(&mut self, stage: u16, answer: EndsWith)
        requires { IsCalledIn self.old.work stage }
        ensures { OnWork (CallEnding stage answer) self.old self.new }
    {
        if let Some(work) = &mut self.work {
            work.ended(stage, answer);
        }
    }

    /// Whether it is opened and has a place for a stage.
    pub(crate) fn has_place(&self, stage: u16) -> bool
        ensures there { OnTrue result (HasPlace self.now.work stage) }
        ensures none { OnFalse result (¬ HasPlace self.now.work stage) }
    {
        match self.part() {
            Some(part) => part.has_place(stage),
            None => false,
        }
    }

    /// Whether it is opened and its plan has place for so many stages more.
    pub(crate) fn has_places(&self, more: u16) -> bool
        ensures there { OnTrue result (HasPlaces self.now.work more) }
        ensures none { OnFalse result (¬ HasPlaces self.now.work more) }
    {
        match self.part() {
            Some(part) => part.view().ledger().has_place(more),
            None => false,
        }
    }

    /// Whether the function of a stage was called and hasn't ended.
    pub(crate) fn is_running(&self, stage: u16) -> bool
        ensures runs { OnTrue result (IsCalledIn self.now.work stage) }
        ensures none { OnFalse result (¬ IsCalledIn self.now.work stage) }
    {
        match self.part() {
            Some(part) => part.is_running(stage),
            None => false,
        }
    }
}
