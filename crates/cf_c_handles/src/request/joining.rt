//! How a stage of a request behind a handle is set as a join of others.
ghost use Rattle.std.specs.Prelude.{◌≡◌, ◌↔◌, ℕ, ◌<◌, ◌∷◌, IfErr, IfOk, IsTrue, OnErr, length};
ghost use Rattle.cf_c_handles.specs.RequestJoins.{AreEnough, IsJoinOf, JoinsIn, JoinsOrNot, join_code};
ghost use Rattle.cf_c_handles.specs.declared.handle.object.Object.TheVariants.{Request as HeldRequest};

use crate::code::Code;
use crate::handle::object::Object;
use crate::request::tell_into;
use crate::values::request::{CfRequestJoining, CfTodo, CfTold};
use cf_request::{Join, JoinFault, Machine};
use std::alloc::{AllocError, Global};

/// From now on a stage ends as soon as it is decided what these stages come to.
pub fn join(
    alloc: Global,
    held: &mut Object,
    step: &CfRequestJoining,
    sources: &[u16],
    row: &mut [CfTold],
    todo: &mut CfTodo,
) -> Result<(), Code>
    ensures { JoinsIn step.now sources.now held.old (row.old, todo.old) result held.new (row.new, todo.new) }
{
    let Object::Request(machine) = held else {
        return Err(Code::WrongKind);
    };
    if !are_enough(step, sources) {
        return Err(Code::NoQuorum);
    }
    let join = join_of(alloc, step, sources)?;
    join_so(machine, join, step, sources, row, todo)
}

/// The same with the join made of them.
fn join_so(
    machine: &mut Machine,
    join: Join,
    step: &CfRequestJoining,
    sources: &[u16],
    row: &mut [CfTold],
    todo: &mut CfTodo,
) -> Result<(), Code>
    requires { IsJoinOf step.now sources.now join }
    ensures { JoinsOrNot step.now sources.now machine.old (row.old, todo.old) result (HeldRequest machine.new)
        (row.new, todo.new) }
{
    let _asked = step;
    let _of = sources;
    match machine.join(join) {
        Err(fault) => Err(join_code(fault)),
        Ok(()) => {
            tell_into(machine, row, todo);
            Ok(())
        }
    }
}

/// Whether it wants one of these at least, and all at most.
fn are_enough(step: &CfRequestJoining, sources: &[u16]) -> bool
    ensures { IsTrue result ↔ AreEnough step.now sources.now }
{
    0 < step.wanted && step.wanted as usize <= sources.len()
}

/// The join of a stage by these, of which there is one at least.
fn join_of(alloc: Global, step: &CfRequestJoining, sources: &[u16]) -> Result<Join, AllocError>
    requires { 0 < length sources.now }
    ensures made { IfOk result (λ join. IsJoinOf step.now sources.now join) }
    ensures refused { OnErr result (1 < length sources.now) }
{
    let others = others_of(alloc, sources)?;
    Ok(Join {
        stage: step.stage,
        wanted: step.wanted,
        source: sources[0],
        others,
        cancels: step.cancels != 0,
    })
}

/// All but the first of these. For none it takes no memory.
#[tactic(auto, using(crate::proofs::Requests::one_alone))]
fn others_of(alloc: Global, sources: &[u16]) -> Result<Vec<u16>, AllocError>
    requires { 0 < length sources.now }
    ensures made { IfOk result (λ others. (source : ℕ) × (sources.now ≡ source ∷ others.items)) }
    ensures refused { OnErr result (1 < length sources.now) }
{
    if sources.len() == 1 {
        return Ok(Vec::new(alloc));
    }
    Vec::from_slice(alloc, &sources[1..])
}

/// The code of the fault for which no join is set.
fn join_code(fault: JoinFault) -> Code
    ensures { result ≡ join_code fault }
{
    match fault {
        JoinFault::NoMemory => Code::NoMemory,
        JoinFault::NoStage => Code::NoStage,
        JoinFault::NoQuorum => Code::NoQuorum,
    }
}
