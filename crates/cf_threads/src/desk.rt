//! What lies under the lock: a request's machine, and the keeper's slip, which knows all turns that threads took.
ghost use Rattle.std.specs.Prelude.{◌≡◌, ◌+◌, ◌<◌, ◌≤◌, ◌==◌, ◌++◌, ◌∷◌, IfErr, IfNone, IfOk, OnErr, None, []};
ghost use Rattle.cf_request.specs.Lanes.{NothingIsReady};
ghost use Rattle.cf_request.specs.Machines.{IsNoNext, OnlyFinds};
ghost use Rattle.crossbeam_utils.specs.Seq.{cell_view};
ghost use Rattle.cf_threads.specs.Desks.{IsKept, IsQuiet};
ghost use Rattle.cf_threads.specs.Slips.{IsSlip, keeper, slip};
ghost use Rattle.cf_threads.specs.Turns.{AreTurns, GoesOnWith, Holds, Steps, held_in, one, weigh_held, weigh_told};

use crate::news::News;
use crate::place::Place;
use crate::room::Room;
use crate::slips::{Cell, Slip, note};
use crate::turn::Turn;
use cf_request::laws::calls_add_behind;
use cf_request::{Held, Machine, Next, StepFault, Taken};
use std::marker::{Model, PhantomData};
use std::sync::Wait;

/// A machine under a lock. A contract sees the machine, and the turns that have led to it.
#[derive(Drop)]
pub struct Desk<B: Room> {
    machine: Machine,
    all: Slip,
    /// How many threads hold a stage.
    busy: u64,
    room: PhantomData<B>,
}

impl<B: Room> Model for Desk<B> {
    ghost use Rattle.cf_threads.specs.Desks.{Book};

    ghost Value = { Book };

    ghost use Rattle.std.specs.Prelude.{◌≡◌};
    ghost use Rattle.crossbeam_utils.specs.Seq.{cell_view};
    ghost use Rattle.cf_threads.specs.Desks.{IsKept};
    ghost use Rattle.cf_threads.specs.Slips.{keeper};

    ghost view = { λ d. record { machine = d.machine; turns = (cell_view d.all).all } };

    ghost invariant = { λ d. (d.all.table_id ≡ B.table) × (cell_view d.all ≡ keeper B.parts (cell_view d.all).all)
        × IsKept B.place B.start d.busy (record { machine = d.machine; turns = (cell_view d.all).all }) };
}

/// What a turn gives: the job that is to be done next, if there is one, or why nothing was done; the thread's slip; and
/// news for those that rest.
pub struct Told {
    pub next: Result<Option<Taken>, StepFault>,
    pub mine: Slip,
    pub news: Option<News>,
}

impl<B: Room> Desk<B> {
    /// The desk of a machine, with the keeper's slip.
    pub fn new(machine: Machine, all: Slip) -> Desk<B>
        requires start { machine ≡ B.start }
        requires all { (all.table_id ≡ B.table) × (cell_view all ≡ keeper B.parts []) }
        ensures { result ≡ record { machine = machine; turns = [] } }
    {
        Desk {
            machine,
            all,
            busy: 0,
            room: PhantomData,
        }
    }

    /// The machine and the keeper's slip. The slip knows the turns that have led to the machine.
    pub fn into_parts(self) -> (Machine, Slip)
        ensures machine { result.0 ≡ self.machine }
        ensures all { (result.1.table_id ≡ B.table) × (cell_view result.1 ≡ keeper B.parts self.turns) }
        ensures are { AreTurns B.place B.start self.turns self.machine }
        ensures quiet { IsQuiet B.place.lane self }
    {
        let Desk {
            machine,
            all,
            busy: _,
            room: _,
        } = self;
        (machine, all)
    }

    /// A thread's turn, as the machine's `next`, noted in the thread's slip. If the thread held a stage, there is news:
    /// others may find a stage ready, or nothing to wait for.
    pub fn turn<R: Wait>(
        &mut self,
        rt: &R,
        cell: &Cell,
        place: Place,
        held: Option<Held>,
        mine: Slip,
    ) -> Told
        requires cell { cell.now.table.shared.table_id ≡ B.table }
        requires place { (place ≡ B.place) × (place.lane < B.start.teller.lanes.count) }
        requires mine { (mine.table_id ≡ B.table) × (mine.me.1 ≡ []) × IsSlip (cell_view mine) }
        requires holds { Holds held (cell_view mine).mine }
        ensures next { Steps place held self.old.machine result.next self.new.machine }
        ensures none { IfOk result.next (λ taken. IfNone taken (NothingIsReady self.new.machine.teller place.lane)) }
        ensures turns { self.new.turns ≡ self.old.turns ++ (record { held = held; next = result.next }) ∷ [] }
        ensures mine { (result.mine.table_id ≡ B.table) × (result.mine.me.1 ≡ []) }
        ensures noted { cell_view result.mine
            ≡ slip ((cell_view mine).mine ++ (record { held = held; next = result.next }) ∷ []) }
        ensures news { IfNone result.news (held ≡ None) }
    {
        calls_add_behind();
        let next = step(&mut self.machine, place, held);
        let turn = Turn { held, next };
        let mine = note(rt, cell, &mut self.all, mine, &turn);
        self.busy = count_busy(self.busy, &turn);
        Told {
            next,
            mine,
            news: news_of(&held),
        }
    }

    /// Whether no thread holds a stage.
    pub fn is_left(&self) -> bool
        ensures { result ≡ (held_in self.now.turns == 0) }
    {
        self.busy == 0
    }
}

/// The machine's step.
fn step(machine: &mut Machine, place: Place, held: Option<Held>) -> Result<Option<Taken>, StepFault>
    requires { place.lane < machine.old.teller.lanes.count }
    ensures next { IfOk result (λ taken. GoesOnWith place held machine.old taken machine.new) }
    ensures none { IfOk result (λ taken. IfNone taken (NothingIsReady machine.new.teller place.lane)) }
    ensures refused { OnErr result (OnlyFinds machine.old machine.new) }
    ensures why { IfErr result (λ fault. IsNoNext place.who place.lane held machine.old fault) }
{
    match machine.next(place.who, place.lane, held) {
        Ok(next) => Ok(next.taken),
        Err(fault) => Err(fault),
    }
}

/// How many threads hold a stage after a turn.
fn count_busy(busy: u64, turn: &Turn) -> u64
    requires some { weigh_held one turn.now.held ≤ busy }
    requires few { busy + weigh_told one turn.now.next ≤ 4096 + weigh_held one turn.now.held }
    ensures { result + weigh_held one turn.now.held ≡ busy + weigh_told one turn.now.next }
{
    let rest = match turn.held {
        Some(_) => busy - 1,
        None => busy,
    };
    match turn.next {
        Ok(Some(_)) => rest + 1,
        _ => rest,
    }
}

/// There is news if a stage was held.
fn news_of(held: &Option<Held>) -> Option<News>
    ensures { IfNone result (held.now ≡ None) }
{
    match held {
        Some(_) => Some(News::new()),
        None => None,
    }
}
