//! What a stage takes from its sources.
ghost use Rattle.std.specs.Prelude.{◌≡◌, is_some, if◌then◌else◌};
ghost use Rattle.std.specs.List.{list_all};
ghost use Rattle.cf_forms.specs.declared.forms.Due.TheVariants.{Waits, Settles};
ghost use Rattle.cf_forms.specs.Forms.{due_of_both, due_of_first, first_fault, first_there, follows};

use cf_forms::{Args, Due, Form, due_one, due_two};
use cf_outcome::{Outcome, Value, is_exceptional, wrap};

/// What a stage of this form does when its sources have these outcomes, or none.
pub fn follows(form: Form, outcomes: &[Option<Outcome>]) -> Due
    ensures { result ≡ follows form outcomes.now }
{
    match form {
        Form::Source => Due::Waits,
        Form::Supply | Form::RunAsync => Due::Needs(Args::None),
        Form::Combine | Form::AcceptBoth | Form::RunBoth => by_both(form, outcomes),
        Form::AllOf => by_all(outcomes),
        _ => by_first(form, outcomes),
    }
}

/// It waits for the first outcome.
fn by_first(form: Form, outcomes: &[Option<Outcome>]) -> Due
    ensures { result ≡ due_of_first form (first_there outcomes.now) }
{
    for o in outcomes {
        if let Some(o) = o {
            return due_one(form, *o);
        }
    }
    Due::Waits
}

/// It waits for both outcomes.
fn by_both(form: Form, outcomes: &[Option<Outcome>]) -> Due
    ensures { result ≡ due_of_both form outcomes.now }
{
    if let [Some(a), Some(b)] = outcomes {
        due_two(form, *a, *b)
    } else {
        Due::Waits
    }
}

/// It waits for all outcomes.
fn by_all(outcomes: &[Option<Outcome>]) -> Due
    ensures { result ≡ (if list_all is_some outcomes.now then Settles (first_fault outcomes.now) else Waits) }
{
    if all_there(outcomes) {
        Due::Settles(lowest_fault(outcomes))
    } else {
        Due::Waits
    }
}

/// Whether all are there.
fn all_there(outcomes: &[Option<Outcome>]) -> bool
    ensures { result ≡ list_all is_some outcomes.now }
{
    for o in outcomes {
        if o.is_none() {
            return false;
        }
    }
    true
}

/// The fault at the lowest place, wrapped, or nil where none has failed.
fn lowest_fault(outcomes: &[Option<Outcome>]) -> Outcome
    ensures { result ≡ first_fault outcomes.now }
{
    for o in outcomes {
        if let Some(o) = o {
            if is_exceptional(*o) {
                return wrap(*o);
            }
        }
    }
    Outcome::Value(Value::Nil)
}
