//! The machine.
ghost use Rattle.std.specs.Prelude.{◌≡◌, ◌↔◌, ◌≢◌, ◌⊎◌, ℕ, ◌+◌, ◌-◌, ◌^◌, ◌<◌, ◌≤◌, ◌++◌, ◌∷◌, [], All, IfErr, IfNone, IfOk, IfSome, IsTrue, None, OnErr, OnOk, Some, drop, false, length, replicate, take, true};
ghost use Rattle.cf_event.specs.Decoding.{event_of};
ghost use Rattle.cf_event.specs.Words.{word_of};
ghost use Rattle.cf_forms.specs.Plans.{has_place, with_room};
ghost use Rattle.cf_model.specs.States.{claim_at, start};
ghost use Rattle.cf_request.specs.Composing.{Composes, FinishesClaimed, Links, IsNoCompose, IsNoLink, IsShortToLink, LinksFound, MayLink, composes};
ghost use Rattle.cf_request.specs.Deadlines.{AreInOrder, Forgets, IsNextDue, NoneOpen};
ghost use Rattle.cf_request.specs.Gathering.{Gathers, IsNoGather, gathers, stages_for};
ghost use Rattle.cf_request.specs.Growing.{Grows, IsNoGrowth};
ghost use Rattle.cf_request.specs.Joins.{IsOfOne};
ghost use Rattle.cf_request.specs.Lanes.{IsIdle, NothingIsReady, ready_in};
ghost use Rattle.cf_request.specs.Ready.{IsLaneCount};
ghost use Rattle.cf_request.specs.Machines.{AppliesWord, CancelsAll, FindsFor, FindsToPass, GoesOn, IsNoCancel, IsNoDeadline, IsNoFollow, IsNoJoin, IsNoNext, IsNoPass, IsNoWord, IsShortFor, NoRelayFits, OnlyDeadlines, OnlyFinds, OnlyTeller, Passes, Refuses, Restarts, SetsDeadline, SetsFollow, SetsJoin, SetsOne, free_in, open_in, stages_in, state_in, waiting_in};
ghost use Rattle.cf_request.specs.Relays.{NoneBehind};
ghost use Rattle.cf_request.specs.Rows.{AreCalls, nothing, unclaimed};
ghost use Rattle.cf_request.specs.Scopes.{AttachesFound, FindsPlace, MayAttach, NoneOutlives, PutsIn};
ghost use Rattle.cf_request.specs.Telling.{AreFresh, AreSettled, IsOnce, is_settled_in, with_memory};

use crate::composing::{Composed, Composing, check_composing, check_linking, compose};
use crate::deadlines::{Deadline, come_by, next_open, pass, set, told_from};
use crate::faults::{JoinFault, MachineFault, ScopeFault};
use crate::gathering::{Gathering, check_gathering, gather};
use crate::growing::room_for;
use crate::joins::{Join, check_join, due_by};
use crate::lanes::{check_held, finish, finish_held, is_idle, take};
use crate::refusals::{Ending, end_all, open_stages};
use crate::relays::{Relays, catch_up, catch_up_with};
use crate::tallies::{Tallies, tally};
use crate::teller::Teller;
use cf_bits::BitSet;
use cf_event::LAST_CALLER;
use cf_forms::Answer;
use cf_ledger::{Finish, Held, Ledger, LedgerFault, Reply, StepFault, Taken};
use cf_model::{Claimed, Event, Finished};
use cf_plan::Plan;
use std::alloc::{AllocError, Global};
use std::collections::VecDeque;
use std::marker::Model;

/// What a caller is to do next.
#[derive(Clone, Copy, Debug, PartialEq, Eq)]
pub struct Next {
    /// How what was held is finished, if a stage was held.
    pub finish: Option<Finish>,
    /// What is claimed, if a stage of the lane was ready.
    pub taken: Option<Taken>,
}

/// The bound below which the numbers of all stages are.
const STAGES: u16 = 4096;

/// A request of a service.
///
/// A contract sees its teller with the lanes, which stages follow which, the deadlines in the order in which they come,
/// the last moment, the caller by whose words the machine settles stages itself, and for how many relays and deadlines
/// memory was found.
///
/// Deadlines of settled stages stay among the others until they come first or there is no place for a new one. So there
/// are never more than eight and twice as many as there ever were of open stages at once.
#[derive(Drop)]
pub struct Machine {
    teller: Teller,
    relays: Relays,
    tallies: Tallies,
    deadlines: VecDeque<Deadline>,
    moment: u64,
    own: u8,
}

impl Model for Machine {
    ghost use Rattle.cf_request.specs.Machines.{Machine};

    ghost Value = { Machine };

    ghost use Rattle.std.specs.Prelude.{vec_capacity};
    ghost use Rattle.std.specs.VecDeque.{deque_capacity};
    ghost use Rattle.cf_ledger.specs.Ledgers.{state_of};
    ghost use Rattle.cf_request.specs.Machines.{IsMachine};
    ghost use Rattle.cf_request.specs.Relays.{AreRelays, NoneBehind};
    ghost use Rattle.cf_request.specs.Tallies.{TalliesFit};

    ghost view = { λ m. record {
      teller = m.teller;
      follows = m.relays.follows.items;
      deadlines = m.deadlines.items;
      moment = m.moment;
      own = m.own;
      relay_places = vec_capacity m.relays.follows;
      deadline_places = deque_capacity m.deadlines;
    } };

    ghost invariant = { λ m. IsMachine m.teller m.relays.follows.items m.deadlines.items m.own
        × NoneBehind m.relays.follows.items (state_of m.teller.ledger).stages
        × AreRelays (state_of m.teller.ledger).stages m.relays.follows.items m.relays.followed m.relays.waiting
        × TalliesFit m.relays.follows.items m.relays.followed m.tallies m.teller };
}

impl Machine {
    /// The machine of a plan with room for so many stages more, and with the lanes of its stages, of which there are so
    /// many. Nothing follows, nothing is due, the moment is 0, and told are the stages that are settled from the start.
    /// It settles stages as this caller. It fails only where there is no memory.
    pub fn new(
        alloc: Global,
        plan: &Plan,
        room: u16,
        of: &[u8],
        lanes: u8,
        own: u8,
    ) -> Result<Machine, AllocError>
        requires place { has_place plan.now.stages room ≡ true }
        requires all { length of.now ≡ length plan.now.stages }
        requires lanes { IsLaneCount lanes }
        requires there { All (λ lane. lane < lanes) of.now }
        requires caller { own ≤ 63 }
        ensures ledger { IfOk result (λ m.
            m.teller.ledger ≡ record { plan = with_room plan.now room; events = []; free = 0 }) }
        ensures taken { IfOk result (λ m. m.teller.taken ≡ []) }
        ensures told { IfOk result (λ m. AreFresh [] (start (with_room plan.now room)).stages m.teller.told) }
        ensures lanes { IfOk result (λ m. m.teller.lanes ≡ record { of = of.now; count = lanes }) }
        ensures follows { IfOk result (λ m. m.follows ≡ []) }
        ensures deadlines { IfOk result (λ m. m.deadlines ≡ []) }
        ensures moment { IfOk result (λ m. m.moment ≡ 0) }
        ensures own { IfOk result (λ m. m.own ≡ own) }
    {
        let followed = BitSet::new(alloc, STAGES)?;
        let teller = Teller::new(alloc, plan, room, of, lanes)?;
        Ok(Machine {
            teller,
            relays: Relays {
                follows: Vec::new(alloc),
                followed,
                waiting: 0,
            },
            tallies: Tallies {
                spares: Vec::new(alloc),
                noted: 0,
            },
            deadlines: VecDeque::new(alloc),
            moment: 0,
            own,
        })
    }

    /// Finds memory for so many words to come. It fails only where there is no memory, and then changes nothing.
    pub fn reserve(&mut self, words: usize) -> Result<(), AllocError>
        ensures found { OnOk result (self.new ≡ record self.old { teller = with_memory words self.old.teller }) }
        ensures refused { OnErr result (self.new ≡ self.old) }
        ensures short { OnErr result (free_in self.old < words) }
    {
        self.teller.reserve(words)
    }

    /// Does a word as a ledger does; a stage that it attaches is this lane's. Then it settles the relays whose stages
    /// are settled. It is refused for the first of: memory for all of that, and a ledger's reasons. Where no relay can be
    /// open, want of memory is looked for last, as by a ledger.
    #[inline(always)]
    pub fn apply(&mut self, word: u64, lane: u8) -> Result<Reply, LedgerFault>
        requires { lane < self.old.teller.lanes.count }
        ensures done { IfOk result (λ reply. AppliesWord word lane self.old reply self.new) }
        ensures refused { OnErr result (OnlyFinds self.old self.new) }
        ensures why { IfErr result (λ fault. IsNoWord word self.old fault) }
        ensures found { IfErr result (λ fault.
            fault ≢ LedgerFault.NoMemory → waiting_in self.old ≤ free_in self.new) }
    {
        self.teller.reserve(words_beside(self.relays.waiting))?;
        let seen = self.teller.told().len();
        let reply = self.teller.apply(word, lane)?;
        self.relays.waiting = catch_up(
            &mut self.teller,
            &self.relays,
            &mut self.tallies,
            seen,
            self.own,
        );
        Ok(reply)
    }

    /// Does a claim, whose word this is, as `apply` does. Whoever has read the word already saves reading it again. It
    /// settles nothing, so it looks at no relay.
    #[inline(always)]
    pub fn apply_claim(&mut self, who: u8, stage: u16, word: u64) -> Result<Claimed, LedgerFault>
        requires read { event_of word ≡ Some (Event.Claim who stage) }
        requires named { word_of (Event.Claim who stage) ≡ word }
        ensures done { IfOk result (λ told.
            (lane : ℕ) → AppliesWord word lane self.old (Reply.Claim told) self.new) }
        ensures refused { OnErr result (OnlyFinds self.old self.new) }
        ensures why { IfErr result (λ fault. IsNoWord word self.old fault) }
        ensures found { IfErr result (λ fault.
            fault ≢ LedgerFault.NoMemory → waiting_in self.old ≤ free_in self.new) }
    {
        self.teller.reserve(words_beside(self.relays.waiting))?;
        let told = self.teller.claim_word(who, stage, word)?;
        Ok(told)
    }

    /// Does a finish, whose word this is, as `apply` does.
    #[inline(always)]
    pub fn apply_finish(
        &mut self,
        who: u8,
        stage: u16,
        answer: Answer,
        word: u64,
    ) -> Result<Finished, LedgerFault>
        requires read { event_of word ≡ Some (Event.Finish who stage answer) }
        requires named { word_of (Event.Finish who stage answer) ≡ word }
        ensures done { IfOk result (λ told.
            (lane : ℕ) → AppliesWord word lane self.old (Reply.Finish told) self.new) }
        ensures refused { OnErr result (OnlyFinds self.old self.new) }
        ensures why { IfErr result (λ fault. IsNoWord word self.old fault) }
        ensures found { IfErr result (λ fault.
            fault ≢ LedgerFault.NoMemory → waiting_in self.old ≤ free_in self.new) }
    {
        self.teller.reserve(words_beside(self.relays.waiting))?;
        let seen = self.teller.told().len();
        let told = self.teller.finish_word(who, stage, answer, word)?;
        self.relays.waiting = catch_up(
            &mut self.teller,
            &self.relays,
            &mut self.tallies,
            seen,
            self.own,
        );
        Ok(told)
    }

    /// A caller attaches a stage that gathers these sources, of which there may be any number: it settles as an allOf
    /// or an anyOf of all of them would. The first stage gathers two of them, and each stage behind it one more. The
    /// last of these is the root, which is told. Nothing else is done, and a row of calls that apply these words does
    /// the same. It is refused for the first of: its caller's number, a source that isn't there, the room, memory.
    pub fn gather(&mut self, who: u8, how: Gathering, sources: &[u16]) -> Result<u16, LedgerFault>
        ensures done { IfOk result (λ root. Gathers who how sources.now self.old root self.new) }
        ensures written { OnOk result (self.new.teller.ledger.events ≡ self.old.teller.ledger.events
            ++ gathers who how (stages_in self.old) sources.now) }
        ensures calls { OnOk result
            (AreCalls self.old (nothing ∷ replicate (stages_for sources.now) nothing) self.new) }
        ensures refused { OnErr result (self.new ≡ self.old) }
        ensures why { IfErr result (λ fault. IsNoGather who sources.now self.old fault) }
    {
        let count = check_gathering(&self.teller, who, sources)?;
        self.teller.reserve(count + self.relays.waiting)?;
        Ok(gather(&mut self.teller, who, how, sources))
    }

    /// A caller attaches a compose with a relay right below it, so that `link` can finish it with any stage. Both
    /// have the lane. Nothing else is done, and a row of calls that apply these two words does the same. It is refused
    /// for the first of: its caller's or the function's number, a source that isn't there, the room, memory.
    pub fn compose(
        &mut self,
        who: u8,
        how: Composing,
        source: u16,
        function: u16,
        lane: u8,
    ) -> Result<Composed, LedgerFault>
        requires { lane < self.old.teller.lanes.count }
        ensures done { IfOk result (λ composed. Composes who how source function lane self.old composed self.new) }
        ensures written { OnOk result (self.new.teller.ledger.events ≡ self.old.teller.ledger.events
            ++ composes who how source function) }
        ensures calls { OnOk result (AreCalls self.old (nothing ∷ nothing ∷ nothing ∷ []) self.new) }
        ensures refused { OnErr result (self.new ≡ self.old) }
        ensures why { IfErr result (λ fault. IsNoCompose who source function self.old fault) }
    {
        check_composing(&self.teller, who, source, function)?;
        self.teller.reserve(2 + self.relays.waiting)?;
        Ok(compose(&mut self.teller, who, how, source, function, lane))
    }

    /// A caller finishes a compose that it has claimed with any stage, which the compose's function answered: the relay
    /// follows that stage, and the compose is finished with a link to the relay. A compose that is finished with itself
    /// stays open, and so do those that are finished with each other. Nothing else is done, and a row of two calls does
    /// the same. It is refused for the first of: its caller's number; a stage that isn't there, or a relay that isn't
    /// below the compose; its claim; memory.
    pub fn link(&mut self, who: u8, composed: Composed, stage: u16) -> Result<Finish, StepFault>
        ensures done { IfOk result (λ finish. Links who composed stage self.old finish self.new) }
        ensures calls { OnOk result (AreCalls self.old (nothing ∷ nothing ∷ nothing ∷ []) self.new) }
        ensures refused { OnErr result (OnlyFinds self.old self.new) }
        ensures why { IfErr result (λ fault. IsNoLink who composed stage self.old fault) }
    {
        check_linking(&self.teller, who, composed, stage)?;
        self.find_two()?;
        self.link_found(who, composed, stage)
    }

    /// Finds memory for two words, and for one of each relay that may be open.
    fn find_two(&mut self) -> Result<(), AllocError>
        ensures finds { OnOk result (FindsFor 2 self.old self.new.teller) }
        ensures enough { OnOk result (2 + waiting_in self.new ≤ free_in self.new) }
        ensures same { OnOk result (OnlyTeller self.old self.new) }
        ensures refused { OnErr result (self.new ≡ self.old) }
        ensures short { OnErr result (IsShortFor 2 self.old) }
    {
        self.teller.reserve(2 + self.relays.waiting)?;
        Ok(())
    }

    /// Finishes a compose with any stage, where nothing stands against it, and memory was found for both words.
    fn link_found(&mut self, who: u8, composed: Composed, stage: u16) -> Result<Finish, StepFault>
        requires may { MayLink who composed stage (state_in self.old) }
        requires few { composed.stage ≤ 4095 }
        requires memory { 2 + waiting_in self.old ≤ free_in self.old }
        ensures done { IfOk result (λ finish. LinksFound who composed stage self.old finish self.new) }
        ensures refused { OnErr result (OnlyFinds self.old self.new) }
        ensures why { IfErr result (λ fault. fault ≡ StepFault.NoMemory) }
        ensures short { OnErr result (IsShortToLink self.old) }
    {
        match self.follow(composed.relay, stage) {
            Ok(()) => Ok(self.finish_claimed(who, composed)),
            Err(_) => Err(StepFault::NoMemory),
        }
    }

    /// Finishes a compose that the caller has claimed with a link to its relay, where memory was found for a word.
    fn finish_claimed(&mut self, who: u8, composed: Composed) -> Finish
        requires caller { who ≤ 63 }
        requires there { composed.stage < stages_in self.old }
        requires few { composed.stage ≤ 4095 }
        requires relay { composed.relay < composed.stage }
        requires held { claim_at (state_in self.old) composed.stage ≡ Some who }
        requires memory { 1 + waiting_in self.old ≤ free_in self.old }
        ensures { FinishesClaimed who composed self.old result self.new }
    {
        let seen = self.teller.told().len();
        let held = Held {
            stage: composed.stage,
            answer: Answer::Link(composed.relay),
        };
        let finish = finish(&mut self.teller, who, held);
        self.relays.waiting = catch_up(
            &mut self.teller,
            &self.relays,
            &mut self.tallies,
            seen,
            self.own,
        );
        finish
    }

    /// What a caller does next: it finishes what it holds, if it holds a stage. Then the relays whose stages are
    /// settled are settled, and it claims the lowest ready stage of its lane, if there is one. If it claims none, none
    /// is ready; if it claims one, fewer stages may be claimed, now or later. It is refused for the first of: memory
    /// for all of that, its caller's number, the stage that is held, its claim. If it holds nothing and none is ready,
    /// it needs no memory, and looks at no stage and no relay.
    #[inline(always)]
    pub fn next(&mut self, who: u8, lane: u8, held: Option<Held>) -> Result<Next, StepFault>
        requires { lane < self.old.teller.lanes.count }
        ensures done { IfOk result (λ next. GoesOn who lane held self.old next self.new) }
        ensures caller { OnOk result (who ≤ 63) }
        ensures none { IfOk result (λ next. IfNone next.taken (NothingIsReady self.new.teller lane)) }
        ensures fewer { IfOk result (λ next. IfSome next.taken (λ t.
            unclaimed (state_in self.new) < unclaimed (state_in self.old))) }
        ensures refused { OnErr result (OnlyFinds self.old self.new) }
        ensures why { IfErr result (λ fault. IsNoNext who lane held self.old fault) }
    {
        if is_idle(&self.teller, lane, held) {
            if LAST_CALLER < who {
                return Err(StepFault::NoCaller);
            }
            return Ok(Next {
                finish: None,
                taken: None,
            });
        }
        self.go_on(who, lane, held)
    }

    /// What `next` tells where nothing is held and no stage of the lane is ready: then it does nothing.
    #[inline(always)]
    pub fn rest(&self, who: u8, lane: u8) -> Next
        requires lane { lane < self.now.teller.lanes.count }
        requires caller { who ≤ 63 }
        requires idle { IsIdle lane None self.now.teller }
        ensures { GoesOn who lane None self.now result self.now }
    {
        // Nothing of the machine is asked, and only here is it known that no relay is open whose stage is settled.
        let _ = &self.relays;
        Next {
            finish: None,
            taken: None,
        }
    }

    /// The same where something is held, or a stage of the lane is ready.
    #[inline(always)]
    fn go_on(&mut self, who: u8, lane: u8, held: Option<Held>) -> Result<Next, StepFault>
        requires lane { lane < self.old.teller.lanes.count }
        requires busy { ¬ IsIdle lane held self.old.teller }
        ensures done { IfOk result (λ next. GoesOn who lane held self.old next self.new) }
        ensures caller { OnOk result (who ≤ 63) }
        ensures refused { OnErr result (OnlyFinds self.old self.new) }
        ensures why { IfErr result (λ fault. IsNoNext who lane held self.old fault) }
    {
        self.teller.reserve(2 + self.relays.waiting)?;
        check_held(&self.teller, who, held)?;
        let seen = self.teller.told().len();
        let finish = finish_held(&mut self.teller, who, held);
        self.relays.waiting = catch_up(
            &mut self.teller,
            &self.relays,
            &mut self.tallies,
            seen,
            self.own,
        );
        let taken = take(&mut self.teller, who, lane);
        Ok(Next { finish, taken })
    }

    /// How many lanes there are.
    #[inline(always)]
    pub fn lanes(&self) -> u8
        ensures count { result ≡ self.now.teller.lanes.count }
        ensures few { IsLaneCount result }
    {
        self.teller.lanes()
    }

    /// Whether there is such a lane.
    #[inline(always)]
    pub fn has_lane(&self, lane: u8) -> bool
        ensures { IsTrue result ↔ lane < self.now.teller.lanes.count }
    {
        self.teller.has_lane(lane)
    }

    /// How many stages of a lane are ready. It looks at no stage.
    #[inline(always)]
    pub fn ready(&self, lane: u8) -> u16
        requires { lane < self.now.teller.lanes.count }
        ensures { result ≡ ready_in self.now.teller lane }
    {
        self.teller.ready(lane)
    }

    /// A stage ends from now on as another does, if it is open when that one settles: it is a join of one. It is refused
    /// for the first of: memory for words, a stage that isn't there, memory for one join more.
    pub fn follow(&mut self, relay: u16, stage: u16) -> Result<(), MachineFault>
        ensures set { OnOk result (SetsFollow relay stage self.old self.new) }
        ensures refused { OnErr result (OnlyFinds self.old self.new) }
        ensures why { IfErr result (λ fault. IsNoFollow relay stage self.old fault) }
        ensures found { IfErr result (λ fault.
            fault ≡ MachineFault.NoStage → 1 + waiting_in self.old ≤ free_in self.new) }
    {
        self.join_one(relay, stage, false)
    }

    /// A stage ends from now on once its source is settled, and is cancelled then or not. It is refused as `follow` is.
    pub(crate) fn join_one(
        &mut self,
        stage: u16,
        source: u16,
        cancels: bool,
    ) -> Result<(), MachineFault>
        ensures set { OnOk result (SetsOne stage source cancels self.old self.new) }
        ensures refused { OnErr result (OnlyFinds self.old self.new) }
        ensures why { IfErr result (λ fault. IsNoFollow stage source self.old fault) }
        ensures found { IfErr result (λ fault.
            fault ≡ MachineFault.NoStage → 1 + waiting_in self.old ≤ free_in self.new) }
    {
        let join = self.join_of(stage, source, cancels);
        match self.join(join) {
            Ok(()) => Ok(()),
            Err(JoinFault::NoMemory) => Err(MachineFault::NoMemory),
            Err(_) => Err(MachineFault::NoStage),
        }
    }

    /// A join of one.
    fn join_of(&self, stage: u16, source: u16, cancels: bool) -> Join
        ensures { IsOfOne stage source cancels result }
    {
        Join {
            stage,
            wanted: 1,
            source,
            others: Vec::new(*self.relays.follows.allocator()),
            cancels,
        }
    }

    /// A stage ends from now on as soon as it is decided what a number of other stages come to, if it is open then. It is
    /// refused for the first of: memory for words, a stage that isn't there, a number that is 0 or more than all, memory
    /// for one join more.
    pub fn join(&mut self, join: Join) -> Result<(), JoinFault>
        ensures set { OnOk result (SetsJoin join self.old self.new) }
        ensures refused { OnErr result (OnlyFinds self.old self.new) }
        ensures why { IfErr result (λ fault. IsNoJoin join self.old fault) }
        ensures found { IfErr result (λ fault.
            fault ≢ JoinFault.NoMemory → 1 + waiting_in self.old ≤ free_in self.new) }
    {
        self.teller.reserve(1 + self.relays.waiting)?;
        check_join(&self.teller, &join)?;
        self.relays.follows.reserve(1)?;
        let is_due = due_by(&self.teller, &join).is_some();
        tally(
            &self.teller,
            &mut self.relays.followed,
            &mut self.tallies,
            &join,
        );
        self.relays.follows.push_reserved(join);
        self.relays.waiting += 1;
        self.relays.waiting = catch_up_with(&mut self.teller, &self.relays, is_due, self.own);
        Ok(())
    }

    /// Finds memory for two words and for one of each join that may be open, and a place for one join more.
    pub(crate) fn find_place(&mut self) -> Result<(), ScopeFault>
        ensures finds { OnOk result (FindsPlace self.old self.new) }
        ensures refused { OnErr result (OnlyFinds self.old self.new) }
        ensures why { IfErr result (λ fault. fault ≡ ScopeFault.NoMemory) }
        ensures short { OnErr result (IsShortFor 2 self.old ⊎ NoRelayFits self.old) }
    {
        self.teller.reserve(2 + self.relays.waiting)?;
        Ok(self.relays.follows.reserve(1)?)
    }

    /// Attaches a stage by its word, where nothing stands against it and memory was found.
    pub(crate) fn attach_found(&mut self, word: u64, lane: u8)
        requires lane { lane < self.old.teller.lanes.count }
        requires may { MayAttach word (state_in self.old) }
        requires memory { 2 + waiting_in self.old ≤ free_in self.old }
        ensures { AttachesFound word lane self.old self.new }
    {
        match self.teller.apply(word, lane) {
            Ok(_) => {}
            Err(_) => unreachable!(),
        }
    }

    /// A stage is of a scope from now on, where a place was found.
    pub(crate) fn tie(&mut self, stage: u16, scope: u16)
        requires stage { stage < stages_in self.old }
        requires scope { scope < stages_in self.old }
        requires open_still { is_settled_in (state_in self.old).stages scope ≡ false }
        requires place { length self.old.follows < self.old.relay_places }
        requires memory { 1 + waiting_in self.old ≤ free_in self.old }
        ensures { PutsIn scope stage self.old self.new }
    {
        // Only here is it known that no stage's number is above 4,095.
        let _stages = self.teller.stages();
        let tie = self.join_of(stage, scope, true);
        let relays = &mut self.relays;
        tally(&self.teller, &mut relays.followed, &mut self.tallies, &tie);
        relays.follows.push_reserved(tie);
        relays.waiting += 1;
    }

    /// A stage has to be settled by a moment, or else `pass` settles it. The deadline stands behind those that come up
    /// to its moment. It is refused for the first of: a stage that isn't there, memory.
    #[inline(always)]
    pub fn deadline(&mut self, deadline: Deadline) -> Result<(), MachineFault>
        ensures set { OnOk result (SetsDeadline deadline self.old self.new) }
        ensures refused { OnErr result (self.new ≡ self.old) }
        ensures why { IfErr result (λ fault. IsNoDeadline deadline self.old fault) }
    {
        if deadline.stage >= self.teller.stages() {
            return Err(MachineFault::NoStage);
        }
        set(&self.teller, &mut self.deadlines, deadline)?;
        Ok(())
    }

    /// Lets time pass up to a moment. It settles all open stages whose moment has come, in order of moment and then of
    /// setting, and before each of them, and at last, the relays whose stages are settled. It is refused for the first
    /// of: memory for all relays that may be open and for all deadlines that have come, a moment before the last one.
    pub fn pass(&mut self, moment: u64) -> Result<(), MachineFault>
        ensures passes { OnOk result (Passes moment self.old self.new) }
        ensures order { AreInOrder self.old.deadlines }
        ensures refused { OnErr result (OnlyFinds self.old self.new) }
        ensures why { IfErr result (λ fault. IsNoPass moment self.old fault) }
        ensures found { IfErr result (λ fault. fault ≡ MachineFault.Past → FindsToPass moment self.old self.new) }
    {
        let come = come_by(&self.deadlines, moment);
        self.teller.reserve(self.relays.waiting + come)?;
        if moment < self.moment {
            return Err(MachineFault::Past);
        }
        self.moment = moment;
        pass(
            &mut self.teller,
            &self.relays,
            &mut self.deadlines,
            moment,
            come,
            self.own,
        );
        Ok(())
    }

    /// The first deadline of an open stage, if there is one. No deadline of an open stage comes before it, and of those
    /// that come at the same moment it was set first. One that lies before the last moment is due at once: it is told with
    /// that moment. So `pass` to the moment that is told goes on. Those of settled stages that come before it are
    /// forgotten.
    #[inline(always)]
    pub fn next_deadline(&mut self) -> Option<Deadline>
        ensures next { IfSome result (λ d.
            IsNextDue self.old.moment self.old.deadlines (state_in self.old).stages d) }
        ensures onward { IfSome result (λ d. self.old.moment ≤ d.moment) }
        ensures none { IfNone result (NoneOpen self.old.deadlines (state_in self.old).stages) }
        ensures order { AreInOrder self.old.deadlines }
        ensures forgets { Forgets (state_in self.old).stages self.old.deadlines self.new.deadlines }
        ensures rest { OnlyDeadlines self.old self.new }
    {
        if self.deadlines.is_empty() {
            return None;
        }
        let next = next_open(&self.teller, &mut self.deadlines)?;
        Some(told_from(self.moment, next))
    }

    /// Nobody runs a lane any more: its ready stages fail with a code, from the lowest on, and before each of them,
    /// and at last, the relays whose stages are settled are settled. It fails only where there is no memory for all
    /// stages that are open.
    pub fn refuse(&mut self, lane: u8, code: u32) -> Result<(), AllocError>
        requires { lane < self.old.teller.lanes.count }
        ensures refuses { OnOk result (Refuses lane code self.old self.new) }
        ensures refused { OnErr result (OnlyFinds self.old self.new) }
        ensures why { OnErr result (free_in self.old < open_in self.old) }
    {
        self.teller.reserve(open_stages(&self.teller) as usize)?;
        end_all(
            &mut self.teller,
            &self.relays,
            Ending::OfLane { lane, code },
            self.own,
        );
        Ok(())
    }

    /// Cancels all open stages by words of a caller, from the lowest on, and before each of them, and at last, settles
    /// the relays whose stages are settled in its name. It is refused for the first of: memory for all stages that are
    /// open, its caller's number.
    pub fn cancel_all(&mut self, who: u8) -> Result<(), StepFault>
        ensures cancels { OnOk result (CancelsAll who self.old self.new) }
        ensures refused { OnErr result (OnlyFinds self.old self.new) }
        ensures why { IfErr result (λ fault. IsNoCancel who self.old fault) }
        ensures found { IfErr result (λ fault.
            fault ≡ StepFault.NoCaller → open_in self.old ≤ free_in self.new) }
    {
        self.teller.reserve(open_stages(&self.teller) as usize)?;
        if who > LAST_CALLER {
            return Err(StepFault::NoCaller);
        }
        end_all(&mut self.teller, &self.relays, Ending::OfAll, who);
        Ok(())
    }

    /// Makes room for as many stages more as there are by now, and for 16 at least, or else for as many as its plan has
    /// place for. It does all words again. It is refused for the first of: no place for one stage more, memory.
    pub fn grow(&mut self, alloc: Global) -> Result<(), MachineFault>
        ensures grows { OnOk result (Grows self.old self.new) }
        ensures refused { OnErr result (self.new ≡ self.old) }
        ensures why { IfErr result (λ fault. IsNoGrowth self.old.teller.ledger fault) }
    {
        let Some(more) = room_for(self.teller.ledger()) else {
            return Err(MachineFault::Full);
        };
        self.teller.grow(alloc, more)?;
        Ok(())
    }

    /// Starts again, as it was opened: nothing is done, follows or is due, and the moment is 0. The lanes of the plan's
    /// stages, the room and the memory stay. It takes no memory.
    pub fn restart(&mut self)
        ensures { Restarts self.old self.new }
    {
        self.teller.restart();
        self.relays.follows.clear();
        self.relays.followed.reset(STAGES);
        self.relays.waiting = 0;
        self.tallies.spares.clear();
        self.tallies.noted = 0;
        self.deadlines.clear();
        self.moment = 0;
    }

    /// The stages that were settled and not yet taken, in the order of the events that settled them. With those that
    /// were taken these are each settled stage, once.
    #[inline(always)]
    pub fn told(&self) -> &[u16]
        ensures told { result.now ≡ self.now.teller.told }
        ensures once { IsOnce (state_in self.now) (self.now.teller.taken ++ self.now.teller.told) }
        ensures order { AreSettled self.now.teller.ledger (self.now.teller.taken ++ self.now.teller.told) }
    {
        self.teller.told()
    }

    /// The first so many of what is told were taken, or all where fewer are told.
    #[inline(always)]
    pub fn took(&mut self, count: usize)
        ensures ledger { self.new.teller.ledger ≡ self.old.teller.ledger }
        ensures taken { self.new.teller.taken ≡ self.old.teller.taken ++ take count self.old.teller.told }
        ensures told { self.new.teller.told ≡ drop count self.old.teller.told }
        ensures lanes { self.new.teller.lanes ≡ self.old.teller.lanes }
        ensures rest { OnlyTeller self.old self.new }
    {
        self.teller.took(count);
    }

    /// The teller.
    #[inline(always)]
    pub(crate) fn teller(&self) -> &Teller
        ensures teller { result.now ≡ self.now.teller }
        ensures relays { NoneBehind self.now.follows (state_in self.now).stages }
        ensures scopes { NoneOutlives self.now.follows (state_in self.now) }
    {
        &self.teller
    }

    /// The ledger, with its words. No relay is open whose stage is settled, and no stage within a scope that has ended.
    pub fn ledger(&self) -> &Ledger
        ensures ledger { result.now ≡ self.now.teller.ledger }
        ensures relays { NoneBehind self.now.follows (state_in self.now).stages }
        ensures scopes { NoneOutlives self.now.follows (state_in self.now) }
    {
        self.teller().ledger()
    }
}

/// For how many words memory is found before a word, where so many relays may be open: its own, and one for each of
/// these. Where none is open, the word finds its own.
#[inline(always)]
fn words_beside(waiting: usize) -> usize
    requires { waiting < 2 ^ 63 }
    ensures enough { waiting ≤ result - 1 }
    ensures few { result ≤ 1 + waiting }
{
    if waiting == 0 { 0 } else { waiting + 1 }
}
