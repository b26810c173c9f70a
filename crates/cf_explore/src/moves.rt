//! Which moves there are in a situation, and where each leads.
ghost use Rattle.std.specs.Prelude.{◌≡◌, ◌+◌, ◌++◌, ◌≤◌, ◌<◌, IfOk, length, true, unwrap_or};
ghost use Rattle.std.specs.Option.{option_map_or};
ghost use Rattle.cf_forms.specs.Meanings.{meanings_of};
ghost use Rattle.cf_forms.specs.Plans.{function_at};
ghost use Rattle.cf_explore.specs.Programs.{hand_at, step_of};
ghost use Rattle.cf_explore.specs.Moves.{after_claim, after_finish, all_claims_by, call_by, callers_moves, claim_moves, call_event, claim_event, clock_moves, event_of, finish_by_hand, finish_event, is_end, moved, moves, moves_by_hand, own_moves, step_event, step_moves, stepped, tick_moves, worker_moves};

use crate::program::Program;
use crate::situation::Situation;
use crate::situation::changes::{next_moment, put_called, put_hand};
use crate::step::{Hand, Move, Step};
use cf_forms::{Answer, Args, Limit, StageFn};
use cf_model::{Call, Event, Stage, event_by};
use cf_outcome::Value;
use cf_reference::ReferenceGraph;
use std::alloc::{AllocError, Global};

impl Program {
    /// The moves that there are. It fails only where there is no memory.
    #[tactic(auto, unfolding(crate::specs::Moves::moves))]
    pub fn moves(&self, alloc: Global, s: &Situation) -> Result<Vec<Move>, AllocError>
        ensures { IfOk result (λ made. made.items ≡ moves self.now s.now) }
    {
        let mut made = self.own_moves(alloc, s)?;
        self.add_clock(&mut made, s)?;
        Ok(made)
    }

    /// Those of callers and workers.
    #[tactic(auto, unfolding(crate::specs::Moves::own_moves))]
    pub(crate) fn own_moves(&self, alloc: Global, s: &Situation) -> Result<Vec<Move>, AllocError>
        ensures { IfOk result (λ made. made.items ≡ own_moves self.now s.now) }
    {
        let mut made = Vec::new(alloc);
        self.add_callers(&mut made, s)?;
        self.add_workers(&mut made, s)?;
        Ok(made)
    }

    /// Whether nobody goes on, but perhaps a free clock.
    pub(crate) fn is_end(&self, alloc: Global, s: &Situation) -> Result<bool, AllocError>
        ensures { IfOk result (λ ends. ends ≡ is_end self.now s.now) }
    {
        let made = self.own_moves(alloc, s)?;
        Ok(made.is_empty())
    }

    /// Each caller's next step.
    fn add_callers(&self, made: &mut Vec<Move>, s: &Situation) -> Result<(), AllocError>
        ensures { IfOk result (λ _. made.new.items ≡ made.old.items ++ callers_moves self.now s.now) }
    {
        for c in 0..self.callers.len() as u8 {
            add_step(made, c, self.step(s, c))?;
        }
        Ok(())
    }

    /// What each worker may do.
    fn add_workers(&self, made: &mut Vec<Move>, s: &Situation) -> Result<(), AllocError>
        ensures { IfOk result (λ _. made.new.items ≡ made.old.items ++ worker_moves s.now self.now.workers) }
    {
        for w in 0..self.workers {
            add_by_hand(made, s, w)?;
        }
        Ok(())
    }

    /// The moment of the next limit, where the clock is free.
    fn add_clock(&self, made: &mut Vec<Move>, s: &Situation) -> Result<(), AllocError>
        ensures { IfOk result (λ _. made.new.items ≡ made.old.items ++ clock_moves self.now.free s.now.state) }
    {
        add_tick(made, self.free, s.graph.next_limit())
    }

    /// Where a move leads. It fails only where there is no memory.
    pub fn moved<F: StageFn>(
        &self,
        alloc: Global,
        functions: &[F],
        s: &Situation,
        by: Move,
    ) -> Result<Situation, AllocError>
        ensures { IfOk result (λ t. t ≡ moved (meanings_of F.meaning functions.now) self.now s.now by) }
    {
        let mut t = s.copy(alloc)?;
        self.make(alloc, functions, &mut t, by)?;
        Ok(t)
    }

    /// The event that a move is, if it is one. A read, a function's call and a call that the graph doesn't take are no events.
    pub fn event(&self, s: &Situation, by: Move) -> Option<Event>
        ensures { result ≡ event_of self.now s.now by }
    {
        match by {
            Move::Step(c) => step_event(self.step(s, c), s.graph.stages(), c),
            Move::Claim(w, i) => self.claim_event(w, i),
            Move::Call(_) => None,
            Move::Finish(w) => self.finish_event(s, w),
            Move::Tick => Some(Event::Tick {
                who: self.callers.len() as u8 + self.workers,
                moment: next_moment(&s.graph),
            }),
        }
    }

    /// The event of a worker's claim.
    fn claim_event(&self, w: u8, stage: u16) -> Option<Event>
        ensures { result ≡ claim_event self.now w stage }
    {
        if w < self.workers {
            Some(Event::Claim {
                who: self.callers.len() as u8 + w,
                stage,
            })
        } else {
            None
        }
    }

    /// The event of a worker's finish.
    fn finish_event(&self, s: &Situation, w: u8) -> Option<Event>
        ensures { result ≡ finish_event self.now w (hand_at s.now w) }
    {
        if w < self.workers {
            finish_by_hand(s.hand(w), self.callers.len() as u8 + w)
        } else {
            None
        }
    }

    /// Makes a move.
    #[tactic(auto, unfolding(crate::specs::Moves::moved))]
    fn make<F: StageFn>(
        &self,
        alloc: Global,
        functions: &[F],
        s: &mut Situation,
        by: Move,
    ) -> Result<(), AllocError>
        ensures { IfOk result (λ _. s.new ≡ moved (meanings_of F.meaning functions.now) self.now s.old by) }
    {
        match by {
            Move::Step(c) => self.make_step(alloc, s, c),
            Move::Claim(w, i) => {
                self.make_claim(s, w, i);
                Ok(())
            }
            Move::Call(w) => {
                make_call(functions, s, w);
                Ok(())
            }
            Move::Finish(w) => self.make_finish(alloc, s, w),
            Move::Tick => s.tick(alloc),
        }
    }

    /// A worker's claim.
    fn make_claim(&self, s: &mut Situation, w: u8, i: u16)
        ensures { s.new ≡ after_claim self.now s.old w i }
    {
        if w < self.workers {
            s.claim(w, self.callers.len() as u8 + w, i);
        }
    }

    /// A worker's finish.
    fn make_finish(&self, alloc: Global, s: &mut Situation, w: u8) -> Result<(), AllocError>
        ensures { IfOk result (λ _. s.new ≡ after_finish self.now s.old w) }
    {
        if w < self.workers {
            s.finish(alloc, w, self.callers.len() as u8 + w)?;
        }
        Ok(())
    }

    /// A caller's next step.
    fn make_step(&self, alloc: Global, s: &mut Situation, c: u8) -> Result<(), AllocError>
        ensures { IfOk result (λ _. s.new ≡ option_map_or (stepped s.old c) (step_of self.now s.old c) s.old) }
    {
        match self.step(s, c) {
            None => Ok(()),
            Some(Step::Do(call)) => {
                s.call(alloc, c, call)?;
                s.go_on(c);
                Ok(())
            }
            Some(Step::Look(_)) => {
                s.go_on(c);
                Ok(())
            }
            Some(Step::Join(i, most)) => {
                s.join(c, i, most);
                Ok(())
            }
        }
    }
}

/// The number of a stage's function, or 0.
fn function(graph: &ReferenceGraph, i: u16) -> u16
    ensures { result ≡ unwrap_or (function_at graph.now.plan.stages i) 0 }
{
    if graph.has(i) {
        graph.function(i).unwrap_or(0)
    } else {
        0
    }
}

/// What a worker may do by what it has in hand.
fn add_by_hand(made: &mut Vec<Move>, s: &Situation, w: u8) -> Result<(), AllocError>
    ensures { IfOk result (λ _. made.new.items ≡ made.old.items ++ moves_by_hand s.now w (hand_at s.now w)) }
{
    match s.hand(w) {
        Hand::Idle => add_claims(made, &s.graph, w),
        Hand::Granted(_, _) => {
            made.push(Move::Call(w))?;
            Ok(())
        }
        Hand::Called(_, _) => {
            made.push(Move::Finish(w))?;
            Ok(())
        }
    }
}

/// A worker's claims of ready stages.
fn add_claims(made: &mut Vec<Move>, graph: &ReferenceGraph, w: u8) -> Result<(), AllocError>
    ensures { IfOk result (λ _. made.new.items ≡ made.old.items ++ all_claims_by graph.now w) }
{
    for i in 0..graph.stages() {
        add_claim(made, w, i, graph.stage(i))?;
    }
    Ok(())
}

/// A worker's claim of a stage, if it is ready.
fn add_claim(made: &mut Vec<Move>, w: u8, i: u16, stage: Stage) -> Result<(), AllocError>
    ensures { IfOk result (λ _. made.new.items ≡ made.old.items ++ claim_moves w i stage) }
{
    match stage {
        Stage::Ready(_) => {
            made.push(Move::Claim(w, i))?;
            Ok(())
        }
        _ => Ok(()),
    }
}

/// A caller's next step, if it has one.
fn add_step(made: &mut Vec<Move>, c: u8, step: Option<Step>) -> Result<(), AllocError>
    ensures { IfOk result (λ _. made.new.items ≡ made.old.items ++ step_moves c step) }
{
    match step {
        None => Ok(()),
        Some(_) => {
            made.push(Move::Step(c))?;
            Ok(())
        }
    }
}

/// The moment of the next limit, where the clock is free and there is one.
fn add_tick(made: &mut Vec<Move>, free: bool, limit: Option<Limit>) -> Result<(), AllocError>
    ensures { IfOk result (λ _. made.new.items ≡ made.old.items ++ tick_moves free limit) }
{
    match limit {
        None => Ok(()),
        Some(_) => {
            if free {
                made.push(Move::Tick)?;
                Ok(())
            } else {
                Ok(())
            }
        }
    }
}

/// The event of a caller's step, if it has one and the graph takes it.
fn step_event(step: Option<Step>, stages: u16, c: u8) -> Option<Event>
    ensures { result ≡ step_event step stages c }
{
    match step {
        Some(Step::Do(call)) => call_event(call, stages, c),
        _ => None,
    }
}

/// The event of a caller's call, if the graph takes it.
fn call_event(call: Call, stages: u16, c: u8) -> Option<Event>
    ensures { result ≡ call_event call stages c }
{
    let event = event_by(c, call);
    if event.fits(stages) {
        Some(event)
    } else {
        None
    }
}

/// The event of a finish by what a worker has in hand.
fn finish_by_hand(hand: Hand, who: u8) -> Option<Event>
    ensures { result ≡ finish_by_hand hand who }
{
    match hand {
        Hand::Called(stage, answer) => Some(Event::Finish { who, stage, answer }),
        _ => None,
    }
}

/// A worker calls the function of the stage that it was granted.
fn make_call<F: StageFn>(functions: &[F], s: &mut Situation, w: u8)
    ensures { s.new ≡ call_by (meanings_of F.meaning functions.now) s.old w (hand_at s.old w) }
{
    if let Hand::Granted(i, args) = s.hand(w) {
        let given = answer(functions, function(&s.graph, i), args);
        put_hand(&mut s.hands, w as usize, Hand::Called(i, given));
        put_called(&mut s.called, i as usize);
    }
}

/// What the function of this number answers, nil where it isn't there.
fn answer<F: StageFn>(functions: &[F], number: u16, args: Args) -> Answer
    ensures { result ≡ meanings_of F.meaning functions.now number args }
{
    match functions.get(number as usize) {
        None => Answer::Give(Value::Nil),
        Some(function) => function.call(&args),
    }
}
