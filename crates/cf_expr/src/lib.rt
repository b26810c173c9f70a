//! What a quiet plain graph holds: the expression of each stage.
//!
//! The expression of a stage (`expr`) is the outcome that follows from the meanings of the functions and from what the
//! sources are settled with. It knows no states, no claims and no order of work.
//!
//! The theorem: after a plain history that ends quiet, the outcome of each stage is its expression's.
//!
//! - A history is plain (`IsPlain`, `IsPlainPlan`) if no stage is an either form or an anyOf, only sources are settled
//!   from outside and none before it is there, no limit comes due, and each finish that wins has the answer that the
//!   function means.
//! - It ends quiet (`IsQuiet`) if no stage is ready or claimed any more.
//!
//! So the outcomes are the same for every order of work, and for any number of workers. The plan is the one that was
//! reached: the attached stages are in it, and the theorem covers them too.
//!
//! Each function here is a law: it does nothing, and its contract is the statement. The statements use the same
//! definitions as the contracts of `cf_core`, so they are about its calls: `answered` says what a graph replies to each
//! call, and in which state the call leaves it.
#![tactic(auto)]

ghost use Rattle.cf_expr.specs.Examples.{PremisesAreMet, PremisesAreNeeded};
ghost use Rattle.cf_expr.specs.Laws.{PlainPartsJoin, QuietIsExpression, WorkKeepsExpressions};
ghost use Rattle.cf_expr.specs.Stagewise.{NewStatesByStage};

/// After a plain history that ends quiet, the outcome of each stage, attached ones among them, is its expression's in the
/// plan that was reached.
pub fn quiet_stages_hold_their_expressions()
    ensures { QuietIsExpression }
{}

/// Claims and finishes change no expression, whoever does them, in whatever order and wherever they stand: two histories
/// that differ in them alone have the same expressions.
pub fn work_keeps_expressions()
    ensures { WorkKeepsExpressions }
{}

/// A plain history goes on plainly where what comes next is plain by what was granted before.
pub fn plain_parts_join()
    ensures { PlainPartsJoin }
{}

/// Once a stage is settled, each stage has taken what its sources then have, or the stage that it is linked to.
pub fn new_states_are_by_stage()
    ensures { NewStatesByStage }
{}

/// The premises of the law of expressions can be met, by a history in which stages settle, and by one in which the plan
/// grows.
pub fn quiet_plain_histories_exist()
    ensures { PremisesAreMet }
{}

/// Outcomes can differ from the expressions where a function answers what it doesn't mean, in a plan with an either form,
/// before the history is quiet, where another stage than a source is settled from outside, where a source is before it is
/// attached, and where a limit comes due.
pub fn other_histories_leave_their_expressions()
    ensures { PremisesAreNeeded }
{}
