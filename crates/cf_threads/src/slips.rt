//! What carries facts out of a lock: slips, of no bytes. The keeper's lies under the lock and knows all turns that were
//! taken, and each thread's knows those that this thread took. Once all are back in one, they are compared.
ghost use Rattle.std.specs.Prelude.{◌≡◌, ◌∷◌, ◌<◌, ◌++◌, ◌-◌, ℕ, IfOk, [], true};
ghost use Rattle.crossbeam_utils.specs.Seq.{IsSamePass, cell_view};
ghost use Rattle.cf_threads.specs.Slips.{AreAmong, IsFair, IsKeeper, IsSlip, all_parts, keeper, slip, with_slip};
ghost use Rattle.cf_threads.specs.Turns.{Holds, weigh};
ghost use Rattle.cf_threads.specs.declared.turn.Turn.{Turn};

use crate::turn::Turn;
use atomic_table::{Join, Split};
use crossbeam_utils::atomic::seq_cell::{Pass, RuledSeqCell};
use crossbeam_utils::rule::{Outcome, Protocol};
use std::alloc::{AllocError, Global};
use std::collections::LinkedList;
use std::marker::{Brand, PhantomData};
use std::sync::Wait;

/// What a slip knows. No value of it is made.
pub struct View {
    /// How many parts of the right to know the whole it has.
    pub parts: u64,
    /// Whether it is the keeper's.
    pub keeps: bool,
    /// All turns that were taken, if it is the keeper's.
    pub all: LinkedList<Turn>,
    /// The turns that were taken with it.
    pub mine: LinkedList<Turn>,
}

/// What was taken with all slips together is what was taken.
pub struct Shares;

impl Protocol<[u64; 1], View> for Shares {
    ghost use Rattle.std.specs.Prelude.{[]};
    ghost use Rattle.cf_threads.specs.Slips.{IsShared, all_parts, keeper};

    ghost holds = { IsShared };

    ghost first = { keeper all_parts [] };
}

/// Which turn is taken.
pub trait Which {
    ghost use Rattle.cf_threads.specs.declared.turn.Turn.{Turn};

    ghost turn: { Turn };
}

impl Which for Brand {
    ghost use Rattle.cf_threads.specs.Slips.{no_turn};

    ghost turn = { no_turn };
}

/// The turn is taken.
struct Takes<W> {
    which: PhantomData<W>,
}

impl<W: Which> Outcome<[u64; 1], View> for Takes<W> {
    ghost use Rattle.cf_threads.specs.Slips.{TakesTurn};

    ghost then = { TakesTurn W.turn };
}

/// What was taken is compared.
struct Compares;

impl Outcome<[u64; 1], View> for Compares {
    ghost use Rattle.cf_threads.specs.Slips.{IsCompared};

    ghost then = { IsCompared };
}

/// A part goes to another slip, with what was taken.
struct Part;

impl Split<View> for Part {
    ghost use Rattle.cf_threads.specs.Slips.{slip, without_slip};

    ghost left = { without_slip };

    ghost right = { λ v. slip v.mine };
}

impl Join<View> for Part {
    ghost use Rattle.cf_threads.specs.Slips.{spent, with_slip};

    ghost both = { with_slip };

    ghost spent = { spent };
}

/// What all slips of one host belong to.
pub type Cell = RuledSeqCell<[u64; 1], View, Shares, 1>;

/// A slip: the keeper's, or a thread's.
pub type Slip = Pass<[u64; 1], View>;

/// The first slip, with every part, and what it belongs to. It fails only where there is no memory.
pub fn open(alloc: Global) -> Result<(Cell, Slip), AllocError>
    ensures { IfOk result (λ r. (r.1.table_id ≡ r.0.table.shared.table_id) × (cell_view r.1 ≡ keeper all_parts [])) }
{
    Cell::ruled(alloc, [0])
}

/// A new slip, of one part, with which nothing was taken.
pub fn cut(cell: &Cell, all: &mut Slip) -> Slip
    requires own { all.old.table_id ≡ cell.now.table.shared.table_id }
    requires keeper { IsKeeper (cell_view all.old) × (0 < (cell_view all.old).parts) }
    ensures kept { IsSamePass all.old all.new
        × (cell_view all.new ≡ keeper ((cell_view all.old).parts - 1) (cell_view all.old).all) }
    ensures given { (result.table_id ≡ all.old.table_id) × (result.me.1 ≡ []) × (cell_view result ≡ slip []) }
{
    cell.split_pass::<Part>(all)
}

/// Notes a turn as taken with a slip, beside the keeper's. What the thread brought is what it held.
pub fn note<R: Wait>(rt: &R, cell: &Cell, all: &mut Slip, mine: Slip, turn: &Turn) -> Slip
    requires own { all.old.table_id ≡ cell.now.table.shared.table_id }
    requires keeper { IsKeeper (cell_view all.old) }
    requires slip { (mine.table_id ≡ all.old.table_id) × (mine.me.1 ≡ []) × IsSlip (cell_view mine) }
    requires holds { Holds turn.now.held (cell_view mine).mine }
    ensures kept { IsSamePass all.old all.new
        × (cell_view all.new ≡ keeper (cell_view all.old).parts ((cell_view all.old).all ++ turn.now ∷ [])) }
    ensures given { (result.table_id ≡ all.old.table_id) × (result.me.1 ≡ [])
        × (cell_view result ≡ slip ((cell_view mine).mine ++ turn.now ∷ [])) }
    ensures among { AreAmong ((cell_view mine).mine ++ turn.now ∷ []) ((cell_view all.old).all ++ turn.now ∷ []) }
{
    cell.join_pass::<Part>(all, mine);
    take_turn::<Brand, R>(rt, cell, all, turn);
    cell.split_pass::<Part>(all)
}

/// Notes a turn as taken with a slip that knows all.
fn take_turn<W: Which, R: Wait>(rt: &R, cell: &Cell, all: &mut Slip, turn: &Turn)
    requires own { all.old.table_id ≡ cell.now.table.shared.table_id }
    requires keeps { ((cell_view all.old).keeps ≡ true) × (0 < (cell_view all.old).parts) }
    requires turn { turn.now ≡ W.turn }
    requires fair { IsFair (cell_view all.old).parts ((cell_view all.old).mine ++ turn.now ∷ []) }
    ensures same { IsSamePass all.old all.new }
    ensures taken { cell_view all.new ≡ record (cell_view all.old) {
      all = (cell_view all.old).all ++ turn.now ∷ [];
      mine = (cell_view all.old).mine ++ turn.now ∷ [];
    } }
    ensures among { AreAmong ((cell_view all.old).mine ++ turn.now ∷ [])
        ((cell_view all.old).all ++ turn.now ∷ []) }
{
    let _turn = turn;
    cell.load_as::<Takes<W>, R>(rt, all);
}

/// Takes a slip back.
pub fn take_back(cell: &Cell, all: &mut Slip, mine: Slip)
    requires own { all.old.table_id ≡ cell.now.table.shared.table_id }
    requires slip { (mine.table_id ≡ all.old.table_id) × (mine.me.1 ≡ []) }
    ensures { IsSamePass all.old all.new × (cell_view all.new ≡ with_slip (cell_view all.old) (cell_view mine)) }
{
    cell.join_pass::<Part>(all, mine);
}

/// Compares what was taken with all slips together, once they are back.
pub fn compare<R: Wait>(rt: &R, cell: &Cell, all: &mut Slip)
    requires own { all.old.table_id ≡ cell.now.table.shared.table_id }
    requires whole { ((cell_view all.old).keeps ≡ true) × ((cell_view all.old).parts ≡ all_parts) }
    ensures same { IsSamePass all.old all.new × (cell_view all.new ≡ cell_view all.old) }
    ensures each { (weight : Turn → ℕ) →
        weigh weight (cell_view all.old).mine ≡ weigh weight (cell_view all.old).all }
{
    cell.load_as::<Compares, R>(rt, all);
}
