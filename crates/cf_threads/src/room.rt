//! Which host it is.
use std::marker::Brand;

/// Names one host: what its slips belong to, the machine with which it began, as whom its threads claim, and how many
/// parts its keeper has.
pub trait Room {
    ghost use Rattle.std.specs.Prelude.{ℕ};
    ghost use Rattle.atomic_table.specs.Seated.{TableId};
    ghost use Rattle.cf_request.specs.Machines.{Machine};
    ghost use Rattle.cf_threads.specs.declared.place.Place.{Place};

    ghost table: { TableId };

    ghost start: { Machine };

    ghost place: { Place };

    ghost parts: { ℕ };
}

impl Room for Brand {
    ghost use Rattle.cf_threads.specs.Rooms.{no_machine, no_place, no_table};

    ghost table = { no_table };

    ghost start = { no_machine };

    ghost place = { no_place };

    ghost parts = { 0 };
}
