//! The calls by which a pass lets another, on whatever thread, see what it has seen.
ghost use Rattle.std.specs.Prelude.{◌≡◌};
ghost use Rattle.cf_desk.specs.Views.{Heeds, IsAt, IsSamePass, seen_by};

use crate::desk::Desk;
use crate::notice::Notice;
use crate::pass::Pass;
use crate::row::Notes;

impl Desk {
    /// What the pass, which is one of this desk's, has seen so far. It adds neither an event nor a record.
    pub fn notice(&self, p: &mut Pass) -> Notice
        requires { IsAt self.now p.old }
        ensures same { p.new ≡ p.old }
        ensures table { result.table ≡ self.now.table }
        ensures seen { result.seen ≡ seen_by p.old }
    {
        Notice {
            seat: self.table.shared.split_seat::<Notes>(&mut p.seat),
            count: p.count,
        }
    }

    /// Lets a pass of this desk see all that the pass which gave the notice had seen by then. So each later call of this
    /// pass comes after all of that (`laws::calls_come_after_what_was_seen`). It adds neither an event nor a record.
    pub fn heed(&self, p: &mut Pass, notice: Notice)
        requires table { IsAt self.now p.old × (notice.table ≡ self.now.table) }
        ensures same { IsSamePass p.old p.new }
        ensures heeds { Heeds p.old notice p.new }
    {
        let Notice { mut seat, count } = notice;
        self.level(&mut p.seat, &mut seat);
        let to = p.count.max(count);
        self.catch_up(&mut p.seat, &mut p.replica, p.count, to);
        p.count = to;
    }
}
