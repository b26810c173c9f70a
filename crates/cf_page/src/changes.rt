//! What became of stages, as JSON.
use cf_model::Stage;
use cf_outcome::{Cause, Outcome};
use cf_telling::{Notes, People, Text, write_name, write_outcome, write_passed};

/// Adds what has become of a stage: its number, that of its state, and what there is to say of it.
pub(crate) fn write_change(out: &mut Text, notes: &Notes, people: &People, i: u16, stage: Stage) {
    out.add_with("[", i);
    out.add_with(",", code_of(stage));
    out.add(",\"");
    match stage {
        Stage::Settled(outcome) => {
            write_outcome(out, people, outcome);
            write_passed(out, notes, i, outcome);
        }
        Stage::Linked(j) => {
            out.add("takes the outcome of ");
            write_name(out, notes, people, j);
        }
        _ => {}
    }
    out.add("\"]");
}

/// The number by which the page knows a state.
pub(crate) fn code_of(stage: Stage) -> u8 {
    match stage {
        Stage::Settled(Outcome::Value(_)) => 0,
        Stage::Settled(Outcome::Fault { cause, .. }) => match cause {
            Cause::Cancelled => 2,
            Cause::TimedOut(_) => 3,
            _ => 1,
        },
        Stage::Ready(_) => 4,
        Stage::Claimed => 5,
        Stage::Linked(_) => 6,
        Stage::Pending => 7,
    }
}
