//! What a script is read for.
ghost use Rattle.std.specs.Prelude.{◌≡◌};
ghost use Rattle.cf_script_reading.specs.Purposes.{takes, takes_in_race};

use crate::script::Step;
use cf_model::Event;

/// What a script is read for, which decides the steps that it may have.
#[derive(Clone, Copy)]
pub(crate) enum Purpose {
    /// To be run: it may have every step.
    Run,
    /// To be raced: it may have what caller 0 completes, fails, cancels and attaches, and its ticks, since the rest is
    /// the workers' own.
    Race,
}

impl Purpose {
    /// Whether a script that is read for this may have the step.
    pub(crate) fn takes(self, step: Step) -> bool
        ensures { result ≡ takes self step }
    {
        match self {
            Purpose::Run => true,
            Purpose::Race => is_for_race(step),
        }
    }
}

/// Whether a race takes the step.
fn is_for_race(step: Step) -> bool
    ensures { result ≡ takes_in_race step }
{
    match step {
        Step::Does(
            Event::Complete { who, .. }
            | Event::Fail { who, .. }
            | Event::FailAs { who, .. }
            | Event::Cancel { who, .. }
            | Event::Tick { who, .. }
            | Event::Attach { who, .. },
        ) => who == 0,
        _ => false,
    }
}
