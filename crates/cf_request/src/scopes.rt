//! Scopes: stages that are cancelled together.
//!
//! A scope is a stage of the request, a source as a rule, and has ended once that is settled. A stage is of a scope by a
//! join of one that cancels. So a scope within another is one whose stage is of the other, and no call but those of this
//! file knows that there are scopes.
ghost use Rattle.std.specs.Prelude.{◌≡◌, ◌↔◌, ◌+◌, ◌<◌, ◌≤◌, ◌∷◌, [], All, false, true, IfErr, IfOk, IsTrue, OnErr, OnOk};
ghost use Rattle.cf_ledger.specs.Ledgers.{stages_of, state_of};
ghost use Rattle.cf_forms.specs.Plans.{sources_of};
ghost use Rattle.cf_request.specs.Machines.{IsNoFollow, OnlyFinds, SetsOne, free_in, waiting_in};
ghost use Rattle.cf_request.specs.Rows.{AreCalls, nothing};
ghost use Rattle.cf_request.specs.Scopes.{AttachesIn, EndsScope, IsNoAttachIn, IsNoEnd, IsNoPut, IsNoScope, IsOf, MayAttach, MayNotAttach, PutsIn};
ghost use Rattle.cf_request.specs.Telling.{is_settled_in};

use crate::faults::{MachineFault, ScopeFault};
use crate::machine::Machine;
use crate::teller::Teller;
use cf_event::{LAST_CALLER, decode, encode};
use cf_forms::Of;
use cf_ledger::{Event, StepFault};

impl Machine {
    /// Attaches a stage by its word in a lane, and in a scope: it is cancelled once the scope has ended, if it is open
    /// then. It tells the stage. A scope that is attached so, which is a source, is within the other. It is refused for
    /// the first of: a scope that isn't there or has ended, a word that attaches none, a source that isn't there, the
    /// room, memory.
    pub fn attach_in(&mut self, word: u64, lane: u8, scope: u16) -> Result<u16, ScopeFault>
        requires { lane < self.old.teller.lanes.count }
        ensures done { IfOk result (λ stage. AttachesIn word lane scope self.old stage self.new) }
        ensures is_of { IfOk result (λ stage. IsOf self.new.follows scope stage) }
        ensures calls { OnOk result (AreCalls self.old (nothing ∷ nothing ∷ nothing ∷ []) self.new) }
        ensures refused { OnErr result (OnlyFinds self.old self.new) }
        ensures why { IfErr result (λ fault. IsNoAttachIn word scope self.old fault) }
    {
        let stage = self.teller().stages();
        check_scope(self.teller(), scope)?;
        check_attach(self.teller(), word)?;
        self.find_place()?;
        self.attach_found(word, lane);
        self.tie(stage, scope);
        Ok(stage)
    }

    /// A stage is of a scope from now on: it is cancelled once the scope has ended, if it is open then. It is refused for
    /// the first of: a stage that isn't there, a scope that has ended, memory.
    #[tactic(auto, using(crate::proofs::Ends::of_sets))]
    pub fn put_in(&mut self, stage: u16, scope: u16) -> Result<(), ScopeFault>
        ensures puts { OnOk result (PutsIn scope stage self.old self.new) }
        ensures is_of { OnOk result (IsOf self.new.follows scope stage) }
        ensures refused { OnErr result (OnlyFinds self.old self.new) }
        ensures why { IfErr result (λ fault. IsNoPut scope stage self.old fault) }
    {
        if stage >= self.teller().stages() {
            return Err(ScopeFault::NoStage);
        }
        check_scope(self.teller(), scope)?;
        match self.join_one(stage, scope, true) {
            Ok(()) => Ok(()),
            Err(_) => Err(ScopeFault::NoMemory),
        }
    }

    /// A scope ends from now on once a stage is settled, or at once if it is. It is refused as `follow` is.
    pub fn ends_with(&mut self, scope: u16, stage: u16) -> Result<(), MachineFault>
        ensures set { OnOk result (SetsOne scope stage true self.old self.new) }
        ensures refused { OnErr result (OnlyFinds self.old self.new) }
        ensures why { IfErr result (λ fault. IsNoFollow scope stage self.old fault) }
        ensures found { IfErr result (λ fault.
            fault ≡ MachineFault.NoStage → 1 + waiting_in self.old ≤ free_in self.new) }
    {
        self.join_one(scope, stage, true)
    }

    /// A caller ends a scope, if it hasn't ended: its stage is cancelled, and with it all open stages that are of it, or of
    /// a scope within it. It is refused for the first of: its caller's number, a scope that isn't there, memory.
    pub fn end_scope(&mut self, who: u8, scope: u16) -> Result<(), StepFault>
        ensures ends { OnOk result (EndsScope who scope self.old self.new) }
        ensures calls { OnOk result (AreCalls self.old (nothing ∷ []) self.new) }
        ensures refused { OnErr result (OnlyFinds self.old self.new) }
        ensures why { IfErr result (λ fault. IsNoEnd who scope self.old fault) }
    {
        if who > LAST_CALLER {
            return Err(StepFault::NoCaller);
        }
        if scope >= self.teller().stages() {
            return Err(StepFault::NoStage);
        }
        if self.teller().outcome(scope).is_some() {
            return Ok(());
        }
        let _lanes = self.lanes();
        let event = Event::Cancel { who, stage: scope };
        match self.apply(encode(&event), 0) {
            Ok(_) => {
                // Only here is it known that no stage within the scope is open.
                let _ended = self.teller();
                Ok(())
            }
            Err(_) => Err(StepFault::NoMemory),
        }
    }
}

/// Whether a scope is there and open.
fn check_scope(teller: &Teller, scope: u16) -> Result<(), ScopeFault>
    ensures there { OnOk result (scope < stages_of teller.now.ledger) }
    ensures open_now { OnOk result (is_settled_in (state_of teller.now.ledger).stages scope ≡ false) }
    ensures why { IfErr result (λ fault. IsNoScope scope (state_of teller.now.ledger) fault) }
{
    if scope >= teller.stages() {
        return Err(ScopeFault::NoStage);
    }
    if teller.outcome(scope).is_some() {
        return Err(ScopeFault::ScopeEnded);
    }
    Ok(())
}

/// Whether a word attaches a stage. It is refused for the first of: a word that attaches none, a source that isn't there,
/// the room.
fn check_attach(teller: &Teller, word: u64) -> Result<(), ScopeFault>
    ensures may { OnOk result (MayAttach word (state_of teller.now.ledger)) }
    ensures why { IfErr result (λ fault. MayNotAttach word (state_of teller.now.ledger) fault) }
{
    let Some(Event::Attach { of, .. }) = decode(word) else {
        return Err(ScopeFault::NoEvent);
    };
    if !are_below(of, teller.stages()) {
        return Err(ScopeFault::NoStage);
    }
    if teller.ledger().room() == 0 {
        return Err(ScopeFault::NoRoom);
    }
    Ok(())
}

/// Whether the sources of a stage are among so many.
fn are_below(of: Of, stages: u16) -> bool
    ensures { IsTrue result ↔ All (λ i. i < stages) (sources_of of) }
{
    match of {
        Of::None => true,
        Of::One(source) => source < stages,
        Of::Two(source, other) => source < stages && other < stages,
    }
}
