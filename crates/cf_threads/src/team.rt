//! Threads that run a request together.
ghost use Rattle.std.specs.Prelude.{◌≡◌, ◌+◌, ◌-◌, ◌<◌, ◌≤◌, ℕ, All, IfOk, [], vec_capacity, vec_len};
ghost use Rattle.std.specs.List.{AllZip};
ghost use Rattle.crossbeam_utils.specs.Seq.{cell_view};
ghost use Rattle.cf_threads.specs.Slips.{all_parts, keeper, slip};
ghost use Rattle.cf_threads.specs.Teams.{BelongsTo, HasEnded, IsBack, IsDealt, IsLeft, RanTogether, turns_of};
ghost use Rattle.cf_threads.specs.Turns.{weigh};
ghost use Rattle.cf_threads.specs.declared.turn.Turn.{Turn};

use crate::bell::Bell;
use crate::desk::Desk;
use crate::place::Place;
use crate::room::Room;
use crate::slips::{Cell, Slip, compare, cut, open, take_back};
use crate::turn::Turn;
use crate::work::{Host, Stopped, work};
use cf_forms::Functions;
use cf_request::Machine;
use cf_request::laws::each_stage_is_run_once;
use std::alloc::{AllocError, Global};
use std::marker::Brand;
use std::snapshot::Snapshot;
use std::sync::{Mutex, Wait};
use std::thread;
use std::thread::Threads;

/// What a thread leaves: its functions, why it has stopped, if it was refused a step, and which turns it took.
#[derive(Drop)]
pub struct Worked<F> {
    pub functions: F,
    pub stopped: Option<Stopped>,
    pub turns: Snapshot<Slip>,
}

/// What all threads leave, each in the place of its functions.
#[derive(Drop)]
pub struct Left<F> {
    pub machine: Machine,
    pub workers: Vec<Worked<F>>,
}

/// What a thread leaves, with its slip.
#[derive(Drop)]
pub struct Ended<F> {
    pub functions: F,
    pub stopped: Option<Stopped>,
    pub mine: Slip,
}

/// Starts a thread for each of these functions. The threads run the stages of a lane of a machine, under one lock, until
/// none is ready and no thread holds one. Each job that the machine told is called once, by one of them, with its own
/// arguments, its stage is finished with what that call answered, and nothing else is called. A thread stops early only
/// if the machine refuses it a step, and then it says why. It fails only where there is no memory.
pub fn run<R: Threads + Wait + Sync, F: Functions + Send + Drop>(
    rt: &R,
    alloc: Global,
    machine: Machine,
    place: Place,
    hands: Vec<F>,
) -> Result<Left<F>, AllocError>
    requires lane { place.lane < machine.teller.lanes.count }
    requires few { vec_len hands < 4096 }
    ensures { IfOk result (λ left. RanTogether F.calls place machine hands.items left.machine left.workers.items) }
{
    let (cell, all) = open(alloc)?;
    run_in::<Brand, R, F>(rt, &cell, all, machine, place, hands)
}

/// The same, where the slips belong to this cell.
fn run_in<B: Room + Send + Sync, R: Threads + Wait + Sync, F: Functions + Send + Drop>(
    rt: &R,
    cell: &Cell,
    all: Slip,
    machine: Machine,
    place: Place,
    hands: Vec<F>,
) -> Result<Left<F>, AllocError>
    requires own { (cell.now.table.shared.table_id ≡ B.table) × (all.table_id ≡ B.table) }
    requires whole { cell_view all ≡ keeper all_parts [] }
    requires start { (machine ≡ B.start) × (place ≡ B.place) }
    requires parts { B.parts + vec_len hands ≡ all_parts }
    requires few { vec_len hands < 4096 }
    requires lane { place.lane < B.start.teller.lanes.count }
    ensures { IfOk result (λ left. RanTogether F.calls place machine hands.items left.machine left.workers.items) }
{
    each_stage_is_run_once();
    let alloc = *hands.allocator();
    let count = hands.len();
    let jobs = Vec::with_capacity(alloc, count)?;
    let back = Vec::with_capacity(alloc, count)?;
    let mut all = all;
    let jobs = deal(cell, &mut all, hands, jobs);
    let desk = Desk::<B>::new(machine, all);
    let (desk, ended) = spread(rt, cell, desk, place, jobs)?;
    let (machine, mut all) = desk.into_parts();
    let workers = take_all_back(cell, &mut all, ended, back);
    compare(rt, cell, &mut all);
    Ok(Left { machine, workers })
}

/// Gives each of these functions a slip.
fn deal<F: Drop>(
    cell: &Cell,
    all: &mut Slip,
    hands: Vec<F>,
    mut jobs: Vec<(F, Slip)>,
) -> Vec<(F, Slip)>
    requires own { all.old.table_id ≡ cell.now.table.shared.table_id }
    requires whole { cell_view all.old ≡ keeper all_parts [] }
    requires few { vec_len hands < 4096 }
    requires none { jobs.items ≡ [] }
    requires room { vec_len hands ≤ vec_capacity jobs }
    ensures kept { (all.new.table_id ≡ all.old.table_id) × (cell_view all.new ≡ keeper (all_parts - vec_len hands) []) }
    ensures each { AllZip (IsDealt all.old.table_id) hands.items result.items }
{
    let mut rest = hands.into_iter();
    'next: while let Some(one) = rest.next() {
        let mine = cut(cell, all);
        jobs.push_reserved((one, mine));
    }
    jobs
}

/// Lets each of these functions work on a thread of its own, and joins them all.
fn spread<B: Room + Send + Sync, R: Threads + Wait + Sync, F: Functions + Send + Drop>(
    rt: &R,
    cell: &Cell,
    desk: Desk<B>,
    place: Place,
    jobs: Vec<(F, Slip)>,
) -> Result<(Desk<B>, Vec<Ended<F>>), AllocError>
    requires cell { cell.now.table.shared.table_id ≡ B.table }
    requires place { (place ≡ B.place) × (place.lane < B.start.teller.lanes.count) }
    requires jobs { All (λ job. BelongsTo B.table job.1 × (cell_view job.1 ≡ slip [])) jobs.items }
    ensures each { IfOk result (λ r. AllZip (HasEnded F.calls B.table) jobs.items r.1.items) }
{
    let lock = Mutex::new(desk);
    let bell = Bell::new();
    let desk = &lock;
    let rung = &bell;
    let ended = thread::map_vec(
        rt,
        jobs,
        &|job: (F, Slip)| -> Ended<F>
            requires cell { cell.now.table.shared.table_id ≡ B.table }
            requires place { (place ≡ B.place) × (place.lane < B.start.teller.lanes.count) }
            requires job { BelongsTo B.table job.1 × (cell_view job.1 ≡ slip []) }
            ensures { HasEnded F.calls B.table job result }
        { work_as(rt, cell, desk, rung, place, job) },
    )?;
    Ok((lock.into_inner(), ended))
}

/// Works with these functions and a slip.
fn work_as<B: Room, F: Functions, R: Wait>(
    rt: &R,
    cell: &Cell,
    desk: &Mutex<Desk<B>>,
    bell: &Bell,
    place: Place,
    job: (F, Slip),
) -> Ended<F>
    requires cell { cell.now.table.shared.table_id ≡ B.table }
    requires place { (place ≡ B.place) × (place.lane < B.start.teller.lanes.count) }
    requires job { BelongsTo B.table job.1 × (cell_view job.1 ≡ slip []) }
    ensures { HasEnded F.calls B.table job result }
{
    let (mut functions, mine) = job;
    let host = Host { cell, desk, bell };
    let (stopped, mine) = work(rt, &host, place, &mut functions, mine);
    Ended {
        functions,
        stopped,
        mine,
    }
}

/// Takes the slips of all threads back.
fn take_all_back<F: Drop>(
    cell: &Cell,
    all: &mut Slip,
    ended: Vec<Ended<F>>,
    mut back: Vec<Worked<F>>,
) -> Vec<Worked<F>>
    requires own { all.old.table_id ≡ cell.now.table.shared.table_id }
    requires slips { All (IsBack all.old.table_id) ended.items }
    requires keeper { ((cell_view all.old).mine ≡ []) × (back.items ≡ []) }
    requires room { vec_len ended ≤ vec_capacity back }
    ensures same { (all.new.table_id ≡ all.old.table_id) × ((cell_view all.new).keeps ≡ (cell_view all.old).keeps)
        × ((cell_view all.new).all ≡ (cell_view all.old).all) }
    ensures parts { (cell_view all.new).parts ≡ (cell_view all.old).parts + vec_len ended }
    ensures weighs { (weight : Turn → ℕ) → weigh weight (cell_view all.new).mine
        ≡ weigh (λ w. weigh weight (turns_of w)) result.items }
    ensures workers { AllZip IsLeft ended.items result.items }
{
    let mut rest = ended.into_iter();
    'next: while let Some(one) = rest.next() {
        let Ended {
            functions,
            stopped,
            mine,
        } = one;
        let turns = Snapshot::of(&mine);
        take_back(cell, all, mine);
        back.push_reserved(Worked {
            functions,
            stopped,
            turns,
        });
    }
    back
}
