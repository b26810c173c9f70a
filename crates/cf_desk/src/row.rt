//! The row of words, its rule, and what each step tells.
use crate::opened::OpenedPlan;
use atomic_table::{Join, Play, Split, TableRule};
use cf_model::Event;
use std::collections::LinkedList;

/// What a desk is opened with: its plan with the room for more stages, and the numbers of its callers and functions.
#[derive(Drop)]
pub struct DeskConfig {
    pub plan: OpenedPlan,
    pub callers: u8,
    pub functions: u32,
}

/// What the row is told when it is made.
#[derive(Drop)]
pub struct LogConfig {
    pub setting: DeskConfig,
    pub words: u16,
}

/// What a pass knows of the log. No value of it is made.
pub struct CallerView {
    /// What the desk was opened with.
    pub setting: DeskConfig,
    /// The pass's caller.
    pub caller: u8,
    /// The events that it has seen, from the first on.
    pub seen: LinkedList<Event>,
    /// The looks that met an empty next word: of each, how many events the pass had seen by then.
    pub looks: LinkedList<u16>,
    /// A number of words that are filled: any that the log has reached. No step changes it.
    pub filled: u16,
    /// The looks that were made before so many words were. No step changes them.
    pub before: LinkedList<u16>,
}

/// What a seat knows: for each pass that it stands for, what that pass knows.
pub type SeatView = LinkedList<CallerView>;

/// The rule of the row.
pub struct RowRule;

impl TableRule<u8, SeatView, LogConfig> for RowRule {
    ghost use Rattle.cf_desk.specs.Rule.{holds, first};

    ghost holds = { holds };

    ghost first = { first };
}

/// A load of the next word.
pub struct Looks;

impl Play<u8, SeatView> for Looks {
    ghost use Rattle.cf_desk.specs.Rule.{looks_next};

    ghost then = { looks_next };
}

/// An exchange of the next word.
pub struct Adds;

impl Play<u8, SeatView> for Adds {
    ghost use Rattle.cf_desk.specs.Rule.{adds_next};

    ghost then = { adds_next };
}

/// A load that levels what the passes of one seat have seen.
pub struct Levels;

impl Play<u8, SeatView> for Levels {
    ghost use Rattle.cf_desk.specs.Rule.{levels};

    ghost then = { levels };
}

/// A load of a place that was seen.
pub struct Finds;

impl Play<u8, SeatView> for Finds {
    ghost use Rattle.cf_desk.specs.Rule.{finds};

    ghost then = { finds };
}

/// A load with a new seat, which stands for no pass.
pub struct Sits;

impl Play<u8, SeatView> for Sits {
    ghost use Rattle.cf_desk.specs.Rule.{sits};

    ghost then = { sits };
}

/// The new seat has the first pass.
pub struct GivesFirst;

impl Split<SeatView> for GivesFirst {
    ghost use Rattle.cf_desk.specs.Rule.{head_of, rest_of};

    ghost left = { rest_of };

    ghost right = { head_of };
}

/// The new seat has all but the first pass.
pub struct KeepsFirst;

impl Split<SeatView> for KeepsFirst {
    ghost use Rattle.cf_desk.specs.Rule.{head_of, rest_of};

    ghost left = { head_of };

    ghost right = { rest_of };
}

/// The new seat knows what the pass has seen, and stands for none.
pub struct Notes;

impl Split<SeatView> for Notes {
    ghost use Rattle.cf_desk.specs.Rule.{note_of};

    ghost left = { λ v. v };

    ghost right = { note_of };
}

/// The seat stands for the passes of both.
pub struct StandsForBoth;

impl Join<SeatView> for StandsForBoth {
    ghost use Rattle.std.specs.Prelude.{[], ◌++◌};

    ghost both = { λ v w. v ++ w };

    ghost spent = { [] };
}
