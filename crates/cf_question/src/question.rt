//! A question.
ghost use Rattle.std.specs.Prelude.{◌≡◌, true};
ghost use Rattle.cf_forms.specs.Plans.{has_place};

use crate::joined::StepText;
use cf_explore::{Condition, Program};
use cf_plan::Plan;
use cf_script_reading::Func;

/// A program whose orders are searched, and what must hold of them.
#[derive(Drop)]
pub struct Question {
    pub program: Program,
    /// Functions by their numbers.
    pub functions: Vec<Func>,
    /// What must hold.
    pub conditions: Vec<Condition>,
    /// The text of each: `never`, `always` or `possible`, and its facts.
    pub texts: Vec<String>,
    /// The plan. The program has a share of its own.
    pub(crate) plan: Plan,
    pub(crate) room: u16,
    /// Callers, and with them workers.
    pub(crate) callers: u8,
    pub(crate) hands: u8,
    /// The script's members but its steps, without the braces.
    pub(crate) head: String,
    /// Each caller's steps, as a script has them.
    pub(crate) steps: Vec<Vec<StepText>>,
    pub ghost place: { has_place plan.stages room ≡ true },
}
