//! What a stage takes when it is attached: what its sources hold then, in argument order.
ghost use Rattle.std.specs.Prelude.{◌≡◌, ◌<◌, All, is_some, length};
ghost use Rattle.std.specs.List.{list_any};
ghost use Rattle.cf_forms.specs.Forms.{first_there, follows};
ghost use Rattle.cf_core.specs.Keeping.Attaching.{attached_kept, takes_now};
ghost use Rattle.cf_core.specs.Keeping.Treatment.{outcomes_in};

use crate::cells::Cells;
use crate::kept::KeptStage;
use crate::treat::{all_settled, due_both, joint_outcome, keep, outcome_below};
use cf_forms::{Args, Due, Form, due_one, starts};
use cf_outcome::Outcome;

/// Whether the stage takes something: it starts by itself, or one of its sources is settled.
pub fn takes_now(kept: &Cells, form: Form, sources: &[u16]) -> bool
    requires { All (λ j. j < length kept.now.items) sources.now }
    ensures { result ≡ takes_now kept.now.items form sources.now }
{
    starts(form, sources) || any_settled(kept, sources)
}

/// What the stage is then, where this is the step of its attaching.
pub fn attached(kept: &Cells, form: Form, sources: &[u16], step: u32) -> KeptStage
    requires { All (λ j. j < length kept.now.items) sources.now }
    ensures { result ≡ attached_kept kept.now.items form sources.now step }
{
    keep(due_now(kept, form, sources), step, 0)
}

/// What the stage does by what its sources hold.
fn due_now(kept: &Cells, form: Form, sources: &[u16]) -> Due
    requires { All (λ j. j < length kept.now.items) sources.now }
    ensures { result ≡ follows form (outcomes_in kept.now.items sources.now) }
{
    match form {
        Form::Source => Due::Waits,
        Form::Supply | Form::RunAsync => Due::Needs(Args::None),
        Form::Combine | Form::AcceptBoth | Form::RunBoth => due_both(kept, form, sources),
        Form::AllOf => {
            if all_settled(kept, sources) {
                Due::Settles(joint_outcome(kept, sources))
            } else {
                Due::Waits
            }
        }
        _ => match first_there(kept, sources) {
            None => Due::Waits,
            Some(o) => due_one(form, o),
        },
    }
}

/// Whether one of these stages is settled.
fn any_settled(kept: &Cells, sources: &[u16]) -> bool
    requires { All (λ j. j < length kept.now.items) sources.now }
    ensures { result ≡ list_any is_some (outcomes_in kept.now.items sources.now) }
{
    for j in sources {
        if outcome_below(kept, *j).is_some() {
            return true;
        }
    }
    false
}

/// The outcome of the first of these stages that is settled.
fn first_there(kept: &Cells, sources: &[u16]) -> Option<Outcome>
    requires { All (λ j. j < length kept.now.items) sources.now }
    ensures { result ≡ first_there (outcomes_in kept.now.items sources.now) }
{
    for j in sources {
        if let Some(o) = outcome_below(kept, *j) {
            return Some(o);
        }
    }
    None
}
