//! What is noted of each stage while the events are done.
use cf_forms::{Answer, Form, Of};
use cf_model::{Attached, Claimed, Event, Finished, Reply};
use cf_outcome::Outcome;
use cf_plan::Plan;
use std::alloc::{AllocError, Global};

/// A stage.
#[derive(Drop)]
pub struct Seen {
    pub form: Form,
    pub of: Vec<u16>,
    /// The place by which it is there.
    pub born: usize,
    /// What it settled with, and the place of the event by which it did.
    pub settled: Option<(Outcome, usize)>,
    /// Whether a call or its own function settled it.
    pub is_own: bool,
    /// The stage that its function named.
    pub linked: Option<u16>,
    /// The run of its function, by its number.
    pub run: Option<usize>,
    /// The stage from which its outcome came.
    pub from: Option<u16>,
    pub x: u32,
    pub y: u32,
}

/// A call of a stage's function.
#[derive(Clone, Copy)]
pub struct Run {
    pub who: u8,
    pub stage: u16,
    /// Places of the claim, and of the finish where there is one.
    pub claimed: usize,
    pub finished: Option<usize>,
    pub is_late: bool,
}

/// A stage takes the outcome of another, by the event at a place.
#[derive(Clone, Copy)]
pub struct Link {
    pub stage: u16,
    pub to: u16,
    pub place: usize,
}

/// What is noted.
#[derive(Drop)]
pub struct Notes {
    pub stages: Vec<Seen>,
    pub runs: Vec<Run>,
    pub links: Vec<Link>,
}

impl Notes {
    /// Of a plan, before the first event.
    pub(crate) fn new(alloc: Global, plan: &Plan) -> Result<Notes, AllocError> {
        let mut stages = Vec::new(alloc);
        for i in 0..plan.stages() {
            let mut of = Vec::new(alloc);
            for j in plan.sources(i) {
                of.push(*j)?;
            }
            stages.push(seen_first(plan.form(i), of, 0))?;
        }
        Ok(Notes {
            stages,
            runs: Vec::new(alloc),
            links: Vec::new(alloc),
        })
    }

    /// Notes an event at a place that was answered so.
    pub(crate) fn note(
        &mut self,
        alloc: Global,
        place: usize,
        event: Event,
        reply: Reply,
    ) -> Result<(), AllocError> {
        match (event, reply) {
            (Event::Complete { stage, .. }, Reply::Flag(true)) => self.own(stage),
            (Event::Fail { stage, .. }, Reply::Flag(true)) => self.own(stage),
            (Event::FailAs { stage, .. }, Reply::Flag(true)) => self.own(stage),
            (Event::Cancel { stage, .. }, Reply::Flag(true)) => self.own(stage),
            (Event::Claim { who, stage }, Reply::Claim(Claimed::Granted(_))) => {
                self.claimed(who, stage, place)?
            }
            (Event::Finish { who, stage, answer }, Reply::Finish(finished)) => {
                self.finished(who, stage, place, answer, finished)?
            }
            (Event::Attach { form, of, .. }, Reply::Attach(Attached::At(_))) => {
                let of = sources_of(alloc, of)?;
                self.stages.push(seen_first(form, of, place))?;
            }
            _ => {}
        }
        Ok(())
    }

    /// A call settled a stage.
    fn own(&mut self, stage: u16) {
        if let Some(seen) = self.stages.get_mut(stage as usize) {
            if seen.settled.is_none() {
                seen.is_own = true;
            }
        }
    }

    /// A caller was granted a stage's function.
    fn claimed(&mut self, who: u8, stage: u16, place: usize) -> Result<(), AllocError> {
        let number = self.runs.len();
        self.runs.push(Run {
            who,
            stage,
            claimed: place,
            finished: None,
            is_late: false,
        })?;
        if let Some(seen) = self.stages.get_mut(stage as usize) {
            seen.run = Some(number);
        }
        Ok(())
    }

    /// A caller handed in what a stage's function answered.
    fn finished(
        &mut self,
        who: u8,
        stage: u16,
        place: usize,
        answer: Answer,
        finished: Finished,
    ) -> Result<(), AllocError> {
        if finished == Finished::NotYours {
            return Ok(());
        }
        self.close_run(who, stage, place, finished == Finished::Late);
        if finished == Finished::Late {
            return Ok(());
        }
        match answer {
            Answer::Link(to) => {
                self.link(stage, to);
                self.links.push(Link { stage, to, place })?;
            }
            _ => self.own(stage),
        }
        Ok(())
    }

    fn close_run(&mut self, who: u8, stage: u16, place: usize, is_late: bool) {
        let Some(number) = self.run_of(stage) else {
            return;
        };
        if let Some(run) = self.runs.get_mut(number) {
            if run.who == who && run.finished.is_none() {
                run.finished = Some(place);
                run.is_late = is_late;
            }
        }
    }

    fn run_of(&self, stage: u16) -> Option<usize> {
        self.stages.get(stage as usize)?.run
    }

    fn link(&mut self, stage: u16, to: u16) {
        if let Some(seen) = self.stages.get_mut(stage as usize) {
            seen.linked = Some(to);
        }
    }

    /// A stage settled with this at a place: from where its outcome came, where it isn't its own.
    pub(crate) fn settle(&mut self, stage: u16, outcome: Outcome, place: usize) {
        let from = self.source_of(stage, outcome);
        if let Some(seen) = self.stages.get_mut(stage as usize) {
            seen.settled = Some((outcome, place));
            if !seen.is_own && is_raw(outcome) {
                seen.is_own = true;
            }
            seen.from = if seen.is_own { None } else { from };
        }
    }

    /// The stage that settled first, with the like of this outcome, of those from which a stage may have taken it.
    fn source_of(&self, stage: u16, outcome: Outcome) -> Option<u16> {
        let seen = self.stages.get(stage as usize)?;
        if let Some(j) = seen.linked {
            // One that it may not take from is a bad answer, which is its own.
            let (held, _) = self.settled_at(j)?;
            return if are_alike(held, outcome) {
                Some(j)
            } else {
                None
            };
        }
        let mut best = None;
        for j in seen.of.iter() {
            best = self.earlier(best, *j, outcome);
        }
        let (j, _) = best?;
        Some(j)
    }

    /// The one of two stages that settled first with the like of this outcome.
    fn earlier(
        &self,
        best: Option<(u16, usize)>,
        j: u16,
        outcome: Outcome,
    ) -> Option<(u16, usize)> {
        let Some((held, at)) = self.settled_at(j) else {
            return best;
        };
        if !are_alike(held, outcome) {
            return best;
        }
        match best {
            Some((_, least)) if least <= at => best,
            _ => Some((j, at)),
        }
    }

    /// What a stage settled with, and where.
    pub(crate) fn settled_at(&self, stage: u16) -> Option<(Outcome, usize)> {
        self.stages.get(stage as usize)?.settled
    }

    /// A stage that stands in for another has its outcome from that.
    pub fn relay(&mut self, stage: u16, to: u16) {
        let Some((theirs, _)) = self.settled_at(to) else {
            return;
        };
        if let Some(seen) = self.stages.get_mut(stage as usize) {
            if let Some((own, _)) = seen.settled {
                if stage < to && are_alike(own, theirs) {
                    seen.from = Some(to);
                }
            }
        }
    }
}

/// A stage of which nothing is noted yet.
fn seen_first(form: Form, of: Vec<u16>, born: usize) -> Seen {
    Seen {
        form,
        of,
        born,
        settled: None,
        is_own: false,
        linked: None,
        run: None,
        from: None,
        x: 0,
        y: 0,
    }
}

fn sources_of(alloc: Global, of: Of) -> Result<Vec<u16>, AllocError> {
    let mut list = Vec::new(alloc);
    match of {
        Of::None => {}
        Of::One(a) => list.push(a)?,
        Of::Two(a, b) => {
            list.push(a)?;
            list.push(b)?;
        }
    }
    Ok(list)
}

/// Whether it is a fault that no stage passed on.
fn is_raw(outcome: Outcome) -> bool {
    matches!(outcome, Outcome::Fault { wrapped: false, .. })
}

/// Whether they are one value, or faults of one cause.
fn are_alike(a: Outcome, b: Outcome) -> bool {
    match (a, b) {
        (Outcome::Value(v), Outcome::Value(w)) => v == w,
        (Outcome::Fault { cause, .. }, Outcome::Fault { cause: other, .. }) => cause == other,
        _ => false,
    }
}
