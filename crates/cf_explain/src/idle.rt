//! The steps that never do anything.
ghost use Rattle.std.specs.Prelude.{◌≡◌, ◌++◌, All, IfOk, OnOk, map};
ghost use Rattle.cf_explain.specs.Idles.{not_later};
ghost use Rattle.cf_explain.specs.Places.{place_of};
ghost use Rattle.cf_explain.specs.Remarks.{IsIdleIn};
ghost use Rattle.cf_explain.specs.Sights.{attached_to, bit_of, claimed_at, claimed_by, finished_at, finished_by, fired_to, idle_by, idle_claim, idle_event, idle_finish, idle_remarks, idles, idles_from, is_any_called, known_at, known_of, put_at, seen_after, seen_by, settled_at, settled_since, sight_of, since, ticked_by, untouched};

use crate::place::{Area, Place};
use crate::remark::{Idle, Remark};
use cf_forms::Limit;
use cf_model::Event;
use cf_plan::Plan;
use cf_script_reading::{Script, Step};
use std::alloc::{AllocError, Global};

/// The last position that there is a number for.
const LAST: usize = u32::MAX as usize;

/// What is known of a stage before a step, whatever its functions answer.
#[derive(Clone, Copy)]
struct StageSoFar {
    /// Whether it has a function.
    called: bool,
    /// The step since which it is settled for certain.
    settled: Option<u32>,
    /// The callers that may have claimed it, a bit for each.
    claims: u64,
}

/// What is known of all before a step.
#[derive(Drop)]
struct RunSoFar {
    stages: Vec<StageSoFar>,
    /// For how many stages more there is room.
    room: u16,
    /// The step of the last tick that wasn't past, and its moment.
    ticked: Option<(u32, u32)>,
}

/// What is remarked of the steps of a script that never do anything.
pub(crate) fn idle_steps(alloc: Global, script: Script) -> Result<Vec<Remark>, AllocError>
    ensures of_steps { IfOk result (λ v. All (IsIdleIn script.steps) v.items) }
    ensures exact { IfOk result (λ v. v.items ≡ idles script) }
{
    let (plan, room, _, steps) = script.into_parts();
    let seen = RunSoFar {
        stages: stages_of(alloc, &plan)?,
        room,
        ticked: None,
    };
    idle_of(alloc, seen, plan.limits(), &steps)
}

/// What is remarked of these steps.
fn idle_of(
    alloc: Global,
    mut seen: RunSoFar,
    limits: &[Limit],
    steps: &[Step],
) -> Result<Vec<Remark>, AllocError>
    ensures of_steps { IfOk result (λ v. All (IsIdleIn steps.now) v.items) }
    ensures exact { IfOk result (λ v. v.items ≡ idles_from limits.now (sight_of seen) 0 steps.now) }
{
    let mut remarks = Vec::new(alloc);
    'steps: for (k, step) in steps.iter().enumerate() {
        if k > LAST {
            return Ok(remarks);
        }
        remark_step(&seen, *step, k as u32, &mut remarks)?;
        seen.after_step(limits, *step, k as u32)?;
    }
    Ok(remarks)
}

/// Remarks step k, if it is known never to do anything.
fn remark_step(
    seen: &RunSoFar,
    step: Step,
    k: u32,
    remarks: &mut Vec<Remark>,
) -> Result<(), AllocError>
    ensures { OnOk result (remarks.new.items ≡ remarks.old.items ++ idle_remarks k (idle_by (sight_of seen.now) step)) }
{
    if let Some(why) = seen.idle(step) {
        remarks.push(idle(k, why))?;
    }
    Ok(())
}

/// The remark that step k never does anything.
fn idle(k: u32, why: Idle) -> Remark
    ensures { result ≡ Remark.Idle (place_of (Area.Step k)) why }
{
    Remark::Idle(Place::step(k as usize), why)
}

/// What is known of the stages of a plan before anything is done.
fn stages_of(alloc: Global, plan: &Plan) -> Result<Vec<StageSoFar>, AllocError>
    ensures { IfOk result (λ v. v.items ≡ map known_of plan.now.stages) }
{
    let mut stages = Vec::new(alloc);
    for i in 0..plan.stages() {
        stages.push(StageSoFar::new(plan.function(i).is_some()))?;
    }
    Ok(stages)
}

/// The bit of a caller.
fn bit(who: u8) -> u64
    ensures { result ≡ bit_of who }
{
    1u64.wrapping_shl(u32::from(who))
}

/// Whether some stage has a function.
fn is_any_called(stages: &[StageSoFar]) -> bool
    ensures { result ≡ is_any_called stages.now }
{
    'stages: for known in stages {
        if known.called {
            return true;
        }
    }
    false
}

impl StageSoFar {
    fn new(called: bool) -> StageSoFar
        ensures { result ≡ untouched called }
    {
        StageSoFar {
            called,
            settled: None,
            claims: 0,
        }
    }

    /// It is settled since step k at the latest.
    fn settled(self, k: u32) -> StageSoFar
        ensures { result ≡ settled_since k self }
    {
        StageSoFar {
            settled: Some(self.settled.unwrap_or(k)),
            ..self
        }
    }

    /// A caller may have claimed it.
    fn claimed(self, who: u8) -> StageSoFar
        ensures { result ≡ claimed_by who self }
    {
        if self.called && self.settled.is_none() {
            StageSoFar {
                claims: self.claims | bit(who),
                ..self
            }
        } else {
            self
        }
    }

    /// A caller hasn't claimed it any more.
    fn finished(self, who: u8) -> StageSoFar
        ensures { result ≡ finished_by who self }
    {
        StageSoFar {
            claims: self.claims & !bit(who),
            ..self
        }
    }

    /// That it is settled, if so.
    fn since(self) -> Option<Idle>
        ensures { result ≡ since self }
    {
        Some(Idle::Settled(self.settled?))
    }

    /// Why nobody can claim it, if so.
    fn idle_claim(self) -> Option<Idle>
        ensures { result ≡ idle_claim self }
    {
        if self.called {
            self.since()
        } else {
            Some(Idle::NoFunction)
        }
    }

    /// That this caller hasn't claimed it, if so.
    fn idle_finish(self, who: u8) -> Option<Idle>
        ensures { result ≡ idle_finish who self }
    {
        if self.claims & bit(who) == 0 {
            Some(Idle::NotClaimed)
        } else {
            None
        }
    }
}

impl RunSoFar {
    /// What is known of a stage.
    fn stage(&self, i: u16) -> StageSoFar
        ensures { result ≡ known_at self.now.stages.items i }
    {
        match self.stages.get(i as usize) {
            Some(known) => *known,
            None => StageSoFar::new(true),
        }
    }

    /// Why the step never does anything, if it is known not to.
    fn idle(&self, step: Step) -> Option<Idle>
        ensures { result ≡ idle_by (sight_of self.now) step }
    {
        match step {
            Step::Does(event) => self.idle_event(event),
            Step::Work => self.idle_work(),
            Step::Nudge(0) => Some(Idle::NoTurn),
            Step::Nudge(_) | Step::Asks(_) => None,
        }
    }

    /// That no stage has a function, if so.
    fn idle_work(&self) -> Option<Idle>
        ensures { result ≡ idle_by (sight_of self.now) Step.Work }
    {
        if is_any_called(&self.stages) {
            None
        } else {
            Some(Idle::NoWork)
        }
    }

    fn idle_event(&self, event: Event) -> Option<Idle>
        ensures { result ≡ idle_event (sight_of self.now) event }
    {
        match event {
            Event::Complete { stage, .. }
            | Event::Fail { stage, .. }
            | Event::FailAs { stage, .. }
            | Event::Cancel { stage, .. } => self.stage(stage).since(),
            Event::Claim { stage, .. } => self.stage(stage).idle_claim(),
            Event::Finish { who, stage, .. } => self.stage(stage).idle_finish(who),
            Event::Tick { moment, .. } => self.idle_tick(moment),
            Event::Attach { .. } if self.room == 0 => Some(Idle::NoRoom),
            Event::Attach { .. } => None,
        }
    }

    fn idle_tick(&self, now: u32) -> Option<Idle>
        ensures tells { result ≡ not_later self.now.ticked now }
    {
        match self.ticked {
            Some((k, before)) if now <= before => Some(Idle::NotLater(k)),
            _ => None,
        }
    }

    /// Takes step k.
    fn after_step(&mut self, limits: &[Limit], step: Step, k: u32) -> Result<(), AllocError>
        ensures { OnOk result (sight_of self.new ≡ seen_by limits.now step k (sight_of self.old)) }
    {
        match step {
            Step::Does(event) => self.after(limits, event, k),
            _ => Ok(()),
        }
    }

    /// Takes the event of step k.
    fn after(&mut self, limits: &[Limit], event: Event, k: u32) -> Result<(), AllocError>
        ensures { OnOk result (sight_of self.new ≡ seen_after limits.now event k (sight_of self.old)) }
    {
        match event {
            Event::Complete { stage, .. }
            | Event::Fail { stage, .. }
            | Event::FailAs { stage, .. }
            | Event::Cancel { stage, .. } => self.settle(stage, k),
            Event::Claim { who, stage } => self.claim(stage, who),
            Event::Finish { who, stage, .. } => self.finish(stage, who),
            Event::Tick { moment, .. } => self.tick(limits, moment, k),
            Event::Attach { function, .. } => return self.attach(function.is_some()),
        }
        Ok(())
    }

    /// Puts down what is known of a stage, if it is there.
    fn put(&mut self, stage: u16, known: StageSoFar)
        ensures { sight_of self.new ≡ put_at stage known (sight_of self.old) }
    {
        let i = stage as usize;
        if i < self.stages.len() {
            self.stages[i] = known;
        }
    }

    /// A stage is settled since step k at the latest.
    fn settle(&mut self, stage: u16, k: u32)
        ensures { sight_of self.new ≡ settled_at stage k (sight_of self.old) }
    {
        let known = self.stage(stage).settled(k);
        self.put(stage, known);
    }

    /// A caller may have claimed a stage.
    fn claim(&mut self, stage: u16, who: u8)
        ensures { sight_of self.new ≡ claimed_at stage who (sight_of self.old) }
    {
        let known = self.stage(stage).claimed(who);
        self.put(stage, known);
    }

    /// A caller hasn't claimed a stage any more.
    fn finish(&mut self, stage: u16, who: u8)
        ensures { sight_of self.new ≡ finished_at stage who (sight_of self.old) }
    {
        let known = self.stage(stage).finished(who);
        self.put(stage, known);
    }

    fn tick(&mut self, limits: &[Limit], now: u32, k: u32)
        ensures { sight_of self.new ≡ ticked_by (not_later self.old.ticked now) limits.now now k (sight_of self.old) }
    {
        if self.idle_tick(now).is_some() {
            return;
        }
        self.ticked = Some((k, now));
        self.fire(limits, now, k);
    }

    /// The stages of the limits up to this moment are settled.
    fn fire(&mut self, limits: &[Limit], now: u32, k: u32)
        ensures { sight_of self.new ≡ fired_to now k limits.now (sight_of self.old) }
    {
        'limits: for limit in limits {
            if limit.at <= now {
                self.settle(limit.stage, k);
            }
        }
    }

    fn attach(&mut self, called: bool) -> Result<(), AllocError>
        ensures { OnOk result (sight_of self.new ≡ attached_to called (sight_of self.old)) }
    {
        if self.room > 0 {
            self.stages.push(StageSoFar::new(called))?;
            self.room -= 1;
        }
        Ok(())
    }
}
