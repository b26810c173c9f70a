//! What is to stand next.
ghost use Rattle.std.specs.Prelude.{◌≡◌};
ghost use Rattle.cf_turn.specs.Turns.{putting_for, putting_of};

use cf_due::{Acting, Due};
use cf_notes::Want;
use cf_part::PutOf;

/// The words of a put with their notes, and what it is of.
#[derive(Clone, Copy)]
pub(crate) struct Putting {
    pub(crate) first: Want,
    pub(crate) second: Option<Want>,
    pub(crate) of: PutOf,
}

/// The put of what is due.
pub(crate) fn putting_of(due: Due) -> Putting
    ensures { result ≡ putting_of due }
{
    match due {
        Due::Finish(finishing) => Putting {
            first: finishing.finish,
            second: finishing.claim,
            of: PutOf::Finish {
                stage: finishing.stage,
            },
        },
        Due::Abandon(want)
        | Due::Link(want)
        | Due::Cancel(want)
        | Due::Timer(want)
        | Due::Claim(want) => Putting {
            first: want,
            second: None,
            of: PutOf::Rest,
        },
    }
}

/// The put of an act.
pub(crate) fn putting_for(acting: Acting) -> Putting
    ensures { result ≡ putting_for acting }
{
    Putting {
        first: acting.first,
        second: acting.second,
        of: PutOf::Act,
    }
}
