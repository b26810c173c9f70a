//! The treatment of one stage: it takes what the stages below it have, and keeps at which step.
ghost use Rattle.std.specs.Prelude.{◌≡◌, ◌<◌, ◌∷◌, [], All, IfNone, IfSome, Some, is_some, length, map, slice_set};
ghost use Rattle.std.specs.List.{list_all};
ghost use Rattle.cf_outcome.specs.declared.outcome.Outcome.TheVariants.{Value as Gives};
ghost use Rattle.cf_forms.specs.declared.forms.Due.TheVariants.{Needs};
ghost use Rattle.cf_forms.specs.Forms.{first_fault, due_of_both};
ghost use Rattle.cf_model.specs.declared.stage.Stage.TheVariants.{Linked, Pending};
ghost use Rattle.cf_core.specs.Keeping.Sound.{kept_at};
ghost use Rattle.cf_core.specs.Keeping.Taking.{IsTreatedAs, WouldBeReady, due_by, made_of, with_due_taken, with_link_taken};
ghost use Rattle.cf_core.specs.Keeping.Treatment.{became, dated_in, due_kept, earlier, earliest, latest, outcome_part, outcomes_in};
ghost use Rattle.cf_core.specs.Keeping.Offers.{takes_values, two_values};

use crate::cells::Cells;
use crate::kept::{KeptStage, Treated};
use cf_forms::{Args, Due, Form, due_one, due_two, is_decided_by_first};
use cf_model::Stage;
use cf_outcome::{Outcome, Value, is_exceptional, wrap};

/// Treats stage `m`, which waits, by its form and its sources, and writes what becomes of it part by part. It says what
/// that is.
#[inline(always)]
pub fn treat(kept: &mut Cells, form: Form, sources: &[u16], m: u16) -> Treated
    requires stage { m < length kept.old.items }
    requires sources { All (λ j. j < length kept.old.items) sources.now }
    ensures kept { IsTreatedAs form sources.now m kept.old.items kept.new.items }
    ensures told { result ≡ made_of ((kept_at kept.old.items m).stage) ((kept_at kept.new.items m).stage) }
    ensures room { kept.new.capacity ≡ kept.old.capacity }
{
    match kept.stage(m) {
        Stage::Pending => take_due(kept, form, sources, m),
        Stage::Linked(j) => take_linked(kept, j, m),
        _ => Treated::Same,
    }
}

/// Treats stage `m`, which waits, as `treat` does. But where a look tells with what its function is to be called, that is
/// told, and nothing is written. As the sweep that calls it, it is one function for each type of functions.
#[inline(always)]
pub fn offer<F>(kept: &mut Cells, form: Form, sources: &[u16], m: u16) -> Option<Args>
    requires stage { m < length kept.old.items }
    requires sources { All (λ j. j < length kept.old.items) sources.now }
    ensures told { IfSome result (λ args. WouldBeReady form sources.now m kept.old.items args) }
    ensures unwritten { IfSome result (λ args. kept.new ≡ kept.old) }
    ensures kept { IfNone result (IsTreatedAs form sources.now m kept.old.items kept.new.items) }
    ensures room { kept.new.capacity ≡ kept.old.capacity }
{
    if kept.is_pending(m) {
        offer_due::<F>(kept, form, sources, m)
    } else {
        treat(kept, form, sources, m);
        None
    }
}

/// Lets a pending stage take what its sources have, in the same way.
#[inline(always)]
fn offer_due<F>(kept: &mut Cells, form: Form, sources: &[u16], m: u16) -> Option<Args>
    requires stage { m < length kept.old.items }
    requires sources { All (λ j. j < length kept.old.items) sources.now }
    requires pending { (kept_at kept.old.items m).stage ≡ Pending }
    ensures told { IfSome result (λ args. (due_by kept.old.items form sources.now).0 ≡ Needs args) }
    ensures unwritten { IfSome result (λ args. kept.new ≡ kept.old) }
    ensures kept { IfNone result (kept.new.items ≡ with_due_taken kept.old.items form sources.now m) }
    ensures room { kept.new.capacity ≡ kept.old.capacity }
{
    if let [j] = sources {
        if is_decided_by_first(form) {
            return kept.offer_one(form, *j, m);
        }
    }
    match offered(kept, form, sources) {
        Some(args) => Some(args),
        None => {
            take_due(kept, form, sources, m);
            None
        }
    }
}

/// The values that both sources of a pending stage gave, where its function is to be called with them.
#[inline(always)]
#[tactic(auto, using(crate::proofs::Keeping::Offering::two_due))]
fn offered(kept: &Cells, form: Form, sources: &[u16]) -> Option<Args>
    requires sources { All (λ j. j < length kept.now.items) sources.now }
    ensures { IfSome result (λ args. (due_by kept.now.items form sources.now).0 ≡ Needs args) }
{
    if takes_values(form) {
        offered_two(kept, sources)
    } else {
        None
    }
}

/// Whether the function of a form is called with the values of both of its sources.
#[inline(always)]
fn takes_values(form: Form) -> bool
    ensures { result ≡ takes_values form }
{
    matches!(form, Form::Combine | Form::AcceptBoth)
}

/// The values that the two sources gave, as arguments.
#[inline(always)]
fn offered_two(kept: &Cells, sources: &[u16]) -> Option<Args>
    requires sources { All (λ j. j < length kept.now.items) sources.now }
    ensures { IfSome result (λ args. two_values (outcomes_in kept.now.items sources.now) ≡ Some args) }
{
    if let [a, b] = sources {
        if let Some(v) = value_below(kept, *a) {
            if let Some(w) = value_below(kept, *b) {
                return Some(Args::Two(v, w));
            }
        }
    }
    None
}

/// The value that a source gave.
#[inline(always)]
fn value_below(kept: &Cells, j: u16) -> Option<Value>
    requires { j < length kept.now.items }
    ensures { IfSome result (λ v. outcome_part (dated_in kept.now.items j) ≡ Some (Gives v)) }
{
    kept.value(j)
}

/// The outcome of a settled stage, with the step at which it settled.
#[inline(always)]
fn dated(kept: &Cells, j: u16) -> Option<(Outcome, u32)>
    requires { j < length kept.now.items }
    ensures { result ≡ dated_in kept.now.items j }
{
    match kept.outcome(j) {
        Some(o) => Some((o, kept.step(j))),
        None => None,
    }
}

/// The outcome of a settled stage with its step, if there is such a stage.
fn dated_if(kept: &Cells, j: u16) -> Option<(Outcome, u32)>
    ensures { result ≡ dated_in kept.now.items j }
{
    if (j as usize) < kept.len() {
        dated(kept, j)
    } else {
        None
    }
}

/// Lets a stage that is linked to a stage below take what that one has.
fn take_linked(kept: &mut Cells, j: u16, m: u16) -> Treated
    requires stage { m < length kept.old.items }
    requires linked { (kept_at kept.old.items m).stage ≡ Linked j }
    ensures kept { kept.new.items ≡ with_link_taken kept.old.items j m }
    ensures told { result ≡ became ((kept_at kept.new.items m).stage) }
    ensures room { kept.new.capacity ≡ kept.old.capacity }
{
    if let Some((o, settled)) = dated_if(kept, j) {
        let step = kept.step(m).max(settled);
        kept.settle(m, wrap(o), step);
        return Treated::Settled;
    }
    Treated::Same
}

/// Lets a pending stage take what its sources have.
#[inline(always)]
fn take_due(kept: &mut Cells, form: Form, sources: &[u16], m: u16) -> Treated
    requires stage { m < length kept.old.items }
    requires sources { All (λ j. j < length kept.old.items) sources.now }
    requires pending { (kept_at kept.old.items m).stage ≡ Pending }
    ensures kept { kept.new.items ≡ with_due_taken kept.old.items form sources.now m }
    ensures told { result ≡ became ((kept_at kept.new.items m).stage) }
    ensures room { kept.new.capacity ≡ kept.old.capacity }
{
    if let [j] = sources {
        if is_decided_by_first(form) {
            return kept.take_one(form, *j, m);
        }
    }
    match form {
        Form::Source => take(kept, Due::Waits, 0, m),
        Form::Supply | Form::RunAsync => take(kept, Due::Needs(Args::None), 0, m),
        Form::Combine | Form::AcceptBoth | Form::RunBoth => match due_both(kept, form, sources) {
            Due::Settles(o) => {
                let at = latest(kept, sources);
                take(kept, Due::Settles(o), at, m)
            }
            Due::Needs(args) => take(kept, Due::Needs(args), 0, m),
            Due::Waits => take(kept, Due::Waits, 0, m),
        },
        Form::AllOf => {
            if all_settled(kept, sources) {
                let due = Due::Settles(joint_outcome(kept, sources));
                let at = latest(kept, sources);
                take(kept, due, at, m)
            } else {
                take(kept, Due::Waits, 0, m)
            }
        }
        _ => match earliest(kept, sources) {
            None => take(kept, Due::Waits, 0, m),
            Some((o, at)) => take(kept, due_one(form, o), at, m),
        },
    }
}

/// Lets a pending stage take what is due, where this is the step at which it settles.
#[inline(always)]
fn take(kept: &mut Cells, due: Due, at: u32, m: u16) -> Treated
    requires stage { m < length kept.old.items }
    requires pending { (kept_at kept.old.items m).stage ≡ Pending }
    ensures kept { kept.new.items ≡ slice_set kept.old.items m (due_kept due at (kept_at kept.old.items m).step) }
    ensures told { result ≡ became ((kept_at kept.new.items m).stage) }
    ensures room { kept.new.capacity ≡ kept.old.capacity }
{
    match due {
        Due::Waits => Treated::Same,
        Due::Settles(o) => {
            kept.settle(m, o, at);
            Treated::Settled
        }
        Due::Needs(args) => {
            kept.make_ready(m, args);
            Treated::Ready
        }
    }
}

/// A pending stage by what is due, and by the step at which it settles.
pub fn keep(due: Due, at: u32, step: u32) -> KeptStage
    ensures { result ≡ due_kept due at step }
{
    match due {
        Due::Waits => KeptStage {
            stage: Stage::Pending,
            step,
        },
        Due::Settles(o) => KeptStage {
            stage: Stage::Settled(o),
            step: at,
        },
        Due::Needs(args) => KeptStage {
            stage: Stage::Ready(args),
            step,
        },
    }
}

/// Of two the one with the lower step, and the first one where they are equal.
fn earlier(x: Option<(Outcome, u32)>, y: Option<(Outcome, u32)>) -> Option<(Outcome, u32)>
    ensures { result ≡ earlier x y }
{
    match (x, y) {
        (None, _) => y,
        (Some(_), None) => x,
        (Some(a), Some(b)) => { if a.1 <= b.1 { x } else { y } }
    }
}

/// The source that settled first. Most forms have one.
fn earliest(kept: &Cells, sources: &[u16]) -> Option<(Outcome, u32)>
    requires { All (λ j. j < length kept.now.items) sources.now }
    ensures { result ≡ earliest (map (dated_in kept.now.items) sources.now) }
{
    if let [j] = sources {
        return dated(kept, *j);
    }
    let mut first = None;
    for j in sources {
        first = earlier(first, dated(kept, *j));
    }
    first
}

/// The greatest step of the sources.
fn latest(kept: &Cells, sources: &[u16]) -> u32
    requires { All (λ j. j < length kept.now.items) sources.now }
    ensures { result ≡ latest (map (dated_in kept.now.items) sources.now) }
{
    let mut last = 0;
    for j in sources {
        if let Some((_, step)) = dated(kept, *j) {
            last = step.max(last);
        }
    }
    last
}

/// The outcome of a source.
pub fn outcome_below(kept: &Cells, j: u16) -> Option<Outcome>
    requires { j < length kept.now.items }
    ensures { result ≡ outcome_part (dated_in kept.now.items j) }
{
    kept.outcome(j)
}

/// What a form of two sources that waits for both does.
pub fn due_both(kept: &Cells, form: Form, sources: &[u16]) -> Due
    requires { All (λ j. j < length kept.now.items) sources.now }
    ensures { result ≡ due_of_both form (outcomes_in kept.now.items sources.now) }
{
    if let [a, b] = sources {
        let first = outcome_below(kept, *a);
        let second = outcome_below(kept, *b);
        due_if_both(form, first, second)
    } else {
        Due::Waits
    }
}

/// What such a form does by the outcomes of its two sources.
fn due_if_both(form: Form, first: Option<Outcome>, second: Option<Outcome>) -> Due
    ensures { result ≡ due_of_both form (first ∷ second ∷ []) }
{
    match (first, second) {
        (Some(a), Some(b)) => due_two(form, a, b),
        _ => Due::Waits,
    }
}

/// Whether all sources are settled.
pub fn all_settled(kept: &Cells, sources: &[u16]) -> bool
    requires { All (λ j. j < length kept.now.items) sources.now }
    ensures { result ≡ list_all is_some (outcomes_in kept.now.items sources.now) }
{
    for j in sources {
        if outcome_below(kept, *j).is_none() {
            return false;
        }
    }
    true
}

/// The fault at the lowest place, wrapped, or nil where none has failed.
pub fn joint_outcome(kept: &Cells, sources: &[u16]) -> Outcome
    requires { All (λ j. j < length kept.now.items) sources.now }
    ensures { result ≡ first_fault (outcomes_in kept.now.items sources.now) }
{
    for j in sources {
        if let Some(o) = outcome_below(kept, *j) {
            if is_exceptional(o) {
                return wrap(o);
            }
        }
    }
    Outcome::Value(Value::Nil)
}
