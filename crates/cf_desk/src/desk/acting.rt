//! The call that changes the graph.
ghost use Rattle.std.specs.Prelude.{IfErr, IfOk, IsTrue, MatchOption};
ghost use Rattle.cf_desk.specs.Faults.{HasRoom, IsFitting, KnowsStages};
ghost use Rattle.cf_desk.specs.Results.{DeskAnswers, CaughtUp, IsRecorded, Refuses};
ghost use Rattle.cf_desk.specs.Views.{Acts, FindsFull, IsAt, IsOwnEvent, IsSamePass, own_event};

use crate::desk::Desk;
use crate::faults::DeskFault;
use crate::pass::Pass;
use cf_model::{Call, Reply};

impl Desk {
    /// Does a call of the pass's caller: adds its event to the log and its record to the pass, and gives the reply. The
    /// pass is one of this desk's. If it doesn't know a stage that the call names, it looks once before it answers. A
    /// refused call adds nothing, but the pass may have seen more events: if it looked, or if the log is full.
    ///
    /// It is inlined into its callers, together with the graph's answer: where a caller's code fixes the kind of the call,
    /// nothing branches on the kind, and the record is written part by part.
    #[inline(always)]
    pub fn act(&self, p: &mut Pass, c: Call) -> Result<Reply, DeskFault>
        requires { IsAt self.now p.old }
        ensures same { IsSamePass p.old p.new }
        ensures done { IfOk result (λ reply. DeskAnswers self.now p.old c reply p.new) }
        ensures recorded { IfOk result (λ reply. IsRecorded p.old c reply p.new) }
        ensures refused { IfErr result (Refuses self.now p.old c p.new) }
    {
        let known = p.names(c);
        self.learn(p, known);
        if !p.names(c) {
            return Err(DeskFault::NoStage);
        }
        if !p.fits(c) {
            return Err(DeskFault::BadAttach);
        }
        if p.left() == 0 {
            return Err(DeskFault::PassFull);
        }
        match self.act_there(p, c) {
            Some(reply) => Ok(reply),
            None => Err(DeskFault::LogFull),
        }
    }

    /// Looks once, where the pass doesn't know a stage that it has to know.
    pub(crate) fn learn(&self, p: &mut Pass, known: bool)
        requires { IsAt self.now p.old }
        ensures { CaughtUp self.now (IsTrue known) p.old p.new }
    {
        if !known {
            self.catch_others(p);
        }
    }

    /// Does a call on stages that the pass knows, for whose record it has room. There is no reply where what it has then
    /// seen fills the log.
    #[inline(always)]
    fn act_there(&self, p: &mut Pass, c: Call) -> Option<Reply>
        requires table { IsAt self.now p.old }
        requires there { KnowsStages p.old c }
        requires fits { IsFitting p.old (own_event p.old c) }
        requires event { IsOwnEvent p.old c }
        requires room { HasRoom p.old }
        ensures { MatchOption result (FindsFull self.now p.old p.new) (λ reply. Acts p.old c reply p.new) }
    {
        let words = self.words();
        'next: while p.seen() < words {
            if let Some(reply) = self.add(p, c) {
                return Some(reply);
            }
        }
        None
    }
}
