//! What a service writes that shares a graph between callers and relies on what they were told.
//!
//! `take_turns` opens a desk for two callers with room for one more stage. One caller completes a stage; the other cancels
//! it and attaches a stage to it. Both look at what came of it, and the desk is closed. `take_turns` promises that there
//! was one history. The promise is `ToldOneHistory` of `cf_desk`: the product's own statement, `IsOneHistory`, of a closed
//! desk. It follows from the contracts of the calls that are made, and from nothing else. `headline` promises what closing
//! any desk gives, `running` what a run of plain work ends as, and `racing` what a race leaves. `hosting` runs a request
//! over a machine, for threads, clocks and waiters of any kind, and `keeping` says what the machine keeps meanwhile.
//! `calls` makes any row of a machine's calls, and lets time pass. `rows` has a store in memory, and asks it again for a
//! put whose answer was lost, and in `sharing` two sessions claim stages over it. `processes` leads several hosts at a
//! request in memory (`stored`), move by move.
#![tactic(auto)]

pub mod calls;
mod fault;
pub mod headline;
pub mod hosting;
pub mod keeping;
pub mod processes;
pub mod racing;
pub mod rows;
pub mod running;
pub mod sharing;
pub mod stored;

ghost use Rattle.std.specs.Prelude.{◌≡◌, All, IfOk};
ghost use Rattle.cf_desk.specs.Closings.{ShowsOneHistory, ToldOneHistory};
ghost use Rattle.cf_forms.specs.Plans.{with_room};
ghost use Rattle.cf_example.specs.Settled.{SettlersStay};

use cf_desk::{Call, Closed, Desk, DeskFault, DeskGrowth, DeskSizes, Pass};
use cf_forms::{Form, Of};
use cf_model::Ask;
use cf_outcome::Value;
use cf_plan::Plan;
pub use fault::Fault;
use std::alloc::Global;

/// Two callers, a log of 16 events, and 16 records for each caller.
const SIZES: DeskSizes = DeskSizes {
    callers: 2,
    log: 16,
    calls: 16,
};

/// Room for one stage more, and functions 0 to 15.
const GROWTH: DeskGrowth = DeskGrowth {
    room: 1,
    functions: 16,
};

/// Lets two callers share a graph of this plan with room for one stage more: caller 0 completes stage 0 with this value,
/// caller 1 cancels it and attaches an apply of it, with function 0, and both look at what came of it. What they were told
/// stands in the closed desk, and is one history: the one that was told `true` settled the stage, and no other was.
pub fn take_turns(alloc: Global, plan: Plan, value: Value) -> Result<Closed, Fault>
    ensures one { IfOk result (ToldOneHistory (with_room plan 1) 16) }
    ensures shows { IfOk result (ShowsOneHistory (with_room plan 1)) }
    ensures settlers { IfOk result SettlersStay }
{
    let (desk, mut first, mut second) = open_two(alloc, plan)?;
    act_and_look(&desk, &mut first, &mut second, value)?;
    close_two(alloc, desk, first, second)
}

/// A desk of this plan with room for one stage more, and the passes of its two callers.
fn open_two(alloc: Global, plan: Plan) -> Result<(Desk, Pass, Pass), Fault>
    ensures plan { IfOk result (λ r. r.0.setting.plan ≡ with_room plan 1) }
    ensures setting { IfOk result (λ r. (r.0.setting.callers ≡ 2) × (r.0.setting.functions ≡ 16)) }
    ensures table { IfOk result (λ r. (r.1.table ≡ r.0.table) × (r.2.table ≡ r.0.table)) }
{
    let (desk, mut passes) = Desk::open_growing(alloc, plan, SIZES, GROWTH)?;
    let second = last_of(&desk, &mut passes)?;
    let first = last_of(&desk, &mut passes)?;
    Ok((desk, first, second))
}

/// The calls of each caller, and then a look of each, the second one's after they have met.
fn act_and_look(
    desk: &Desk,
    first: &mut Pass,
    second: &mut Pass,
    value: Value,
) -> Result<(), DeskFault>
    requires { (first.old.table ≡ desk.now.table) × (second.old.table ≡ desk.now.table) }
    ensures { (first.new.table ≡ desk.now.table) × (second.new.table ≡ desk.now.table) }
{
    desk.act(first, Call::Complete(0, value))?;
    desk.act(second, Call::Cancel(0))?;
    desk.act(second, Call::Attach(Form::Apply, Of::One(0), Some(0)))?;
    desk.read(first, Ask::Outcome(0))?;
    desk.meet(first, second);
    desk.join(second, 0, 1)?;
    Ok(())
}

/// Closes a desk of two callers.
fn close_two(alloc: Global, desk: Desk, first: Pass, second: Pass) -> Result<Closed, Fault>
    requires callers { desk.setting.callers ≡ 2 }
    requires table { (first.table ≡ desk.table) × (second.table ≡ desk.table) }
    ensures one { IfOk result (ToldOneHistory desk.setting.plan desk.setting.functions) }
    ensures shows { IfOk result (ShowsOneHistory desk.setting.plan) }
    ensures settlers { IfOk result SettlersStay }
{
    let passes = match vec![in alloc; first, second] {
        Ok(passes) => passes,
        Err(_) => return Err(Fault::NoMemory),
    };
    Ok(desk.close(passes)?)
}

/// The last of these passes of a desk.
fn last_of(desk: &Desk, passes: &mut Vec<Pass>) -> Result<Pass, Fault>
    requires { All (λ p. p.table ≡ desk.now.table) passes.old.items }
    ensures pass { IfOk result (λ p. p.table ≡ desk.now.table) }
    ensures rest { All (λ p. p.table ≡ desk.now.table) passes.new.items }
{
    passes.pop().ok_or(Fault::NoMemory)
}
