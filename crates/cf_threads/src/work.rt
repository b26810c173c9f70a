//! What one thread does.
ghost use Rattle.std.specs.Prelude.{◌≡◌, ◌<◌, []};
ghost use Rattle.crossbeam_utils.specs.Seq.{cell_view};
ghost use Rattle.cf_threads.specs.Slips.{IsSlip, slip};
ghost use Rattle.cf_threads.specs.Turns.{Holds};
ghost use Rattle.cf_threads.specs.Works.{HasWorked, TakesNext};

use crate::bell::Bell;
use crate::desk::{Desk, Told};
use crate::place::Place;
use crate::room::Room;
use crate::slips::{Cell, Slip};
use cf_forms::Functions;
use cf_request::{Held, StepFault, Taken};
use std::sync::{Mutex, Wait};

/// What threads share: what their slips belong to, the machine under its lock, and where they rest.
#[derive(Drop)]
pub struct Host<'a, B: Room> {
    pub cell: &'a Cell,
    pub desk: &'a Mutex<Desk<B>>,
    pub bell: &'a Bell,
}

/// Why a thread has stopped, and what it holds, which stays claimed.
#[derive(Clone, Copy, Debug, PartialEq, Eq)]
pub struct Stopped {
    pub fault: StepFault,
    pub held: Option<Held>,
}

/// Takes the lock, finishes what is held, and claims a stage. As long as none is ready and another thread holds one, it
/// rests, and then holds nothing.
fn take_next<B: Room, R: Wait>(
    rt: &R,
    host: &Host<'_, B>,
    place: Place,
    held: Option<Held>,
    mine: Slip,
) -> (Result<Option<Taken>, Stopped>, Slip)
    requires cell { host.now.cell.now.table.shared.table_id ≡ B.table }
    requires place { (place ≡ B.place) × (place.lane < B.start.teller.lanes.count) }
    requires mine { (mine.table_id ≡ B.table) × (mine.me.1 ≡ []) × IsSlip (cell_view mine) }
    requires holds { Holds held (cell_view mine).mine }
    ensures mine { (result.1.table_id ≡ B.table) × (result.1.me.1 ≡ []) × IsSlip (cell_view result.1) }
    ensures next { TakesNext held (cell_view mine).mine result.0 (cell_view result.1).mine }
{
    let mut seen = host.desk.lock(rt);
    let mut holds = held;
    let mut mine = mine;
    'turns: for _ in rt.forever() {
        let Told {
            next,
            mine: back,
            news,
        } = seen.turn(rt, host.cell, place, holds, mine);
        host.bell.ring(news);
        mine = back;
        match next {
            Ok(None) => {
                if seen.is_left() {
                    return (Ok(None), mine);
                }
            }
            Ok(Some(taken)) => return (Ok(Some(taken)), mine),
            Err(fault) => return (Err(Stopped { fault, held: holds }), mine),
        }
        holds = None;
        seen = host.bell.rest(rt, seen, place.lane);
    }
    unreachable!()
}

/// Works until no stage of the lane is ready and no thread holds one: takes a stage under the lock, calls its function
/// outside of it, and finishes the stage with the answer under the lock, when it takes the next. If a step is refused,
/// it stops and says why.
pub fn work<B: Room, F: Functions, R: Wait>(
    rt: &R,
    host: &Host<'_, B>,
    place: Place,
    functions: &mut F,
    mine: Slip,
) -> (Option<Stopped>, Slip)
    requires cell { host.now.cell.now.table.shared.table_id ≡ B.table }
    requires place { (place ≡ B.place) × (place.lane < B.start.teller.lanes.count) }
    requires mine { (mine.table_id ≡ B.table) × (mine.me.1 ≡ []) × (cell_view mine ≡ slip []) }
    ensures mine { (result.1.table_id ≡ B.table) × (result.1.me.1 ≡ []) × IsSlip (cell_view result.1) }
    ensures worked { HasWorked F.calls functions.old (cell_view result.1).mine functions.new result.0 }
{
    let mut holds = None;
    let mut mine = mine;
    'jobs: for _ in rt.forever() {
        let (next, back) = take_next(rt, host, place, holds, mine);
        mine = back;
        match next {
            Ok(Some(taken)) => {
                let answer = functions.call(taken.function.unwrap_or(0), &taken.args);
                holds = Some(Held {
                    stage: taken.stage,
                    answer,
                });
            }
            Ok(None) => return (None, mine),
            Err(stopped) => return (Some(stopped), mine),
        }
    }
    unreachable!()
}
