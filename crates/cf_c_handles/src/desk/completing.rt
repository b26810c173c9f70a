//! A row of stages that a caller of a desk completes.
ghost use Rattle.std.specs.Prelude.{◌≡◌};
ghost use Rattle.cf_desk.specs.Views.{IsSamePass};
ghost use Rattle.cf_c_handles.specs.DeskTasks.{CompletesMany, IsRow};

use crate::code::{Code, desk_code};
use crate::handle::object::Object;
use crate::values::{CfGiven, value_of};
use cf_desk::{Call, Desk, Pass};

/// Completes stages one after another, up to the first that is refused, and tells how many were completed.
#[tactic(auto, using(crate::proofs::DeskSteps::many_at))]
pub fn complete_many(held: &mut Object, given: &[CfGiven], done: &mut usize) -> Result<(), Code>
    ensures { CompletesMany given.now held.old done.old result held.new done.new }
{
    let Object::Caller(caller) = held else {
        return Err(Code::WrongKind);
    };
    complete_row(&caller.desk, &mut caller.pass, given, done)
}

/// The same by a pass of a desk.
#[tactic(auto, using(crate::proofs::DeskSteps::completed_more, crate::proofs::DeskSteps::row_done, crate::proofs::DeskSteps::row_refused))]
fn complete_row(
    desk: &Desk,
    pass: &mut Pass,
    given: &[CfGiven],
    done: &mut usize,
) -> Result<(), Code>
    requires { pass.old.table ≡ desk.now.table }
    ensures same { IsSamePass pass.old pass.new }
    ensures row { IsRow desk.now given.now pass.old result pass.new done.new }
{
    'each: for k in 0..given.len() {
        let CfGiven { stage, value } = given[k];
        let call = Call::Complete(stage, value_of(value));
        if let Err(fault) = desk.act(pass, call) {
            *done = k;
            return Err(desk_code(fault));
        }
    }
    *done = given.len();
    Ok(())
}
