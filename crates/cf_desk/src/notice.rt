//! What a pass had seen, as a value that goes from thread to thread.
use crate::row::SeatView;
use atomic_table::Seat;
use std::marker::Model;

/// What a pass had seen when it gave this notice (`Desk::notice`). At run time it is a count, for which a seat at the row
/// vouches. It may be sent to another thread, through a channel or behind a lock, but can't be written to a file. Whoever
/// heeds it has to know that it is of the same desk; a lock or a channel by itself doesn't tell that.
#[derive(Drop)]
pub struct Notice {
    pub(crate) seat: Seat<u8, SeatView>,
    pub(crate) count: u16,
}

impl Model for Notice {
    ghost use Rattle.cf_desk.specs.Views.{Notice, known_at};

    ghost Value = { Notice };

    ghost use Rattle.cf_desk.specs.Desks.{NoticeKept};

    ghost view = { λ n. record { table = n.seat.table_id; seen = (known_at n.seat.me).seen } };

    ghost invariant = { NoticeKept };
}
