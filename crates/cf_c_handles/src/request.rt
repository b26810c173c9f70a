//! One request of a service as a machine, which tells each settled stage once.
ghost use Rattle.std.specs.Prelude.{◌≡◌, ◌↔◌, All, IsTrue, length, true};
ghost use Rattle.cf_request.specs.Deadlines.{Forgets};
ghost use Rattle.cf_request.specs.Machines.{OnlyDeadlines, state_in};
ghost use Rattle.cf_request.specs.Telling.{is_settled_in};
ghost use Rattle.cf_ledger.specs.Ledgers.{state_of};
ghost use Rattle.cf_c_handles.specs.Ledgers.{AreWritten};
ghost use Rattle.cf_c_handles.specs.RequestCalls.{machine_code};
ghost use Rattle.cf_c_handles.specs.Todos.{AreWanted, IsNextMoment, SaysNext, TellsInto, is_wanted_below, news_of};
ghost use Rattle.cf_c_handles.specs.Requests.{AreBelow, AreLanes, RequestOf, told_in};

pub mod asking;
pub mod composing;
pub mod doing;
pub mod gathering;
pub mod joining;
pub mod row;
mod words;

use crate::code::Code;
use crate::handle::object::Object;
use crate::values::request::{CfRequestSizes, CfTodo, CfTold, put_told};
use cf_plan::Plan;
use cf_request::{Ledger, Machine, MachineFault};
use std::alloc::Global;

/// The number of lanes that a request may have.
const MOST_LANES: u8 = 16;

/// Stands for the next moment where no open stage has a deadline.
const NEVER: u64 = 18_446_744_073_709_551_615;

/// The request of a plan with these sizes, and with the lanes of its stages.
pub fn request_of(
    alloc: Global,
    held: &Object,
    sizes: CfRequestSizes,
    lanes: &[u8],
) -> Result<Object, Code>
    ensures { RequestOf sizes lanes.now held.now result }
{
    let Object::Plan(plan) = held else {
        return Err(Code::WrongKind);
    };
    if !plan.has_place(sizes.room) {
        return Err(Code::Room);
    }
    if !are_lanes(plan, sizes.lanes, lanes) {
        return Err(Code::Lanes);
    }
    if !are_below(sizes.lanes, lanes) {
        return Err(Code::NoLane);
    }
    if sizes.own > 63 {
        return Err(Code::NoWord);
    }
    let machine = Machine::new(alloc, plan, sizes.room, lanes, sizes.lanes, sizes.own)?;
    Ok(Object::Request(machine))
}

/// Whether there are 1 to 16 lanes, and as many are named as the plan has stages.
fn are_lanes(plan: &Plan, count: u8, lanes: &[u8]) -> bool
    ensures { IsTrue result ↔ AreLanes plan.now count lanes.now }
{
    1 <= count && count <= MOST_LANES && lanes.len() == plan.stages() as usize
}

/// Whether each of these is one of so many lanes.
fn are_below(count: u8, lanes: &[u8]) -> bool
    ensures { IsTrue result ↔ AreBelow count lanes.now }
{
    lanes.iter().all(|lane| *lane < count)
}

/// The code of the fault for which a machine does nothing.
#[inline(always)]
fn machine_code(fault: MachineFault) -> Code
    ensures { result ≡ machine_code fault }
{
    match fault {
        MachineFault::NoMemory => Code::NoMemory,
        MachineFault::NoStage => Code::NoStage,
        MachineFault::Past => Code::PastMoment,
        MachineFault::Full => Code::Room,
    }
}

/// Writes the stages that are told as far as the row reaches, and what is to be done next, and takes these stages.
#[inline(always)]
#[tactic(auto, using(crate::proofs::Requests::takes_so_many, crate::proofs::Requests::takes_none, crate::proofs::Requests::told_settled))]
fn tell_into(machine: &mut Machine, row: &mut [CfTold], todo: &mut CfTodo)
    ensures { TellsInto machine.old (row.old, todo.old) (row.new, todo.new) machine.new }
{
    say_next(machine, todo);
    let told = machine.told();
    if told.is_empty() {
        return;
    }
    write_stages(machine.ledger(), told, row);
    machine.took(row.len());
}

/// Writes what is to be done next.
#[inline(always)]
fn say_next(machine: &mut Machine, todo: &mut CfTodo)
    ensures { SaysNext machine.old todo.old todo.new machine.new }
{
    todo.told = machine.told().len();
    let wanted = write_ready(machine, todo);
    let moment = next_moment(machine);
    let moved = moment != todo.moment;
    todo.moment = moment;
    todo.news = news_of(wanted, moved);
}

/// Writes of each lane how many stages are ready beyond the jobs on their way, and says whether there are any.
#[inline(always)]
fn write_ready(machine: &Machine, todo: &mut CfTodo) -> bool
    ensures ready { AreWanted machine.now todo.old.jobs todo.old.ready todo.new.ready }
    ensures wanted { result ≡ is_wanted_below machine.now todo.old.jobs machine.now.teller.lanes.count }
    ensures rest { todo.new ≡ record todo.old { ready = todo.new.ready } }
{
    // There is a first lane, and mostly no other.
    let lanes = machine.lanes();
    let first = machine.ready(0).saturating_sub(todo.jobs[0]);
    todo.ready[0] = first;
    let mut wanted = first != 0;
    'each: for lane in 1..lanes {
        let k = lane as usize;
        let more = machine.ready(lane).saturating_sub(todo.jobs[k]);
        todo.ready[k] = more;
        wanted = wanted || more != 0;
    }
    wanted
}

/// The moment at which time has to pass next.
#[inline(always)]
fn next_moment(machine: &mut Machine) -> u64
    ensures moment { IsNextMoment machine.old result }
    ensures forgets { Forgets (state_in machine.old).stages machine.old.deadlines machine.new.deadlines }
    ensures rest { OnlyDeadlines machine.old machine.new }
{
    match machine.next_deadline() {
        Some(deadline) => deadline.moment,
        None => NEVER,
    }
}

/// What is new: stages that are ready (1), and another moment (2).
#[inline(always)]
fn news_of(wanted: bool, moved: bool) -> u32
    ensures { result ≡ news_of wanted moved }
{
    u32::from(wanted) + 2 * u32::from(moved)
}

/// Writes these stages, which are settled, with their claims and outcomes, as far as the row reaches.
#[inline(always)]
fn write_stages(ledger: &Ledger, stages: &[u16], row: &mut [CfTold])
    requires { All (λ i. is_settled_in (state_of ledger.now).stages i ≡ true) stages.now }
    ensures { AreWritten (told_in (state_of ledger.now)) stages.now row.old row.new }
{
    let reach = stages.len().min(row.len());
    'each: for k in 0..reach {
        put_stage(&mut row[k], ledger, stages[k]);
    }
}

/// Writes a settled stage with its claim and its outcome.
#[inline(always)]
#[tactic(auto, using(crate::proofs::Requests::settled_there, crate::proofs::Requests::stop_told))]
fn put_stage(told: &mut CfTold, ledger: &Ledger, stage: u16)
    requires { is_settled_in (state_of ledger.now).stages stage ≡ true }
    ensures { told.new ≡ told_in (state_of ledger.now) stage }
{
    put_told(told, stage, ledger.claimant(stage), ledger.outcome(stage));
}
