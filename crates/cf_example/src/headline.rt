//! The headline, a sentence each: what closing a desk gives whoever relies on it. Each sentence is a definition of
//! `specs/Headline`, and a clause of `close_all`. Each clause follows from the contract of `Desk::close` and from nothing
//! else: only the last, of who settled a stage, has a proof.
//!
//! The plan in a clause is the desk's, with its room. So all of it also holds where callers attach stages.
ghost use Rattle.std.specs.Prelude.{◌≡◌, All, IfOk, IsOkAnd, OnOk, length, true};
ghost use Rattle.cf_forms.specs.Plans.{has_place, with_room};
ghost use Rattle.cf_desk.specs.Closings.{ToldOneHistory};
ghost use Rattle.cf_example.specs.Accounts.{AddsTwo, SaysWhatIsKept};
ghost use Rattle.cf_example.specs.Headline.{AnswersAreTheGraphs, CallersHaveOneEach, CallsStandAtTheirPlaces, CallsStandOnce, EventsAreTaken, GraphIsAfterEvents, NobodyElseStands, PassesStand, PlacesNeverGoBack, QuietGraphHoldsExpressions, StagesAreClaimedOnce, StagesSettleOnce};
ghost use Rattle.cf_example.specs.Settled.{SettlersStay};
ghost use Rattle.cf_history.specs.declared.verdict.Verdict.TheVariants.{Fits};

use cf_desk::{Call, CloseFault, Closed, Desk, DeskFault, Pass};
use cf_history::laws::one_histories_fit;
use cf_history::{History, Verdict, check};
use cf_model::Reply;
use cf_plan::Plan;
use std::alloc::{AllocError, Global};

/// Closes a desk. It never fails where it gets every pass of the desk.
pub fn close_all(desk: Desk, passes: Vec<Pass>) -> Result<Closed, CloseFault>
    requires table { All (λ p. p.table ≡ desk.table) passes.items }
    requires all { length passes.items ≡ desk.setting.callers }
    // A stage settles at most once: the outcome that it has after some events, it has after all later ones.
    ensures settled_once { IfOk result (StagesSettleOnce desk.setting.plan) }
    // Of all claims of a stage at most one is granted.
    ensures claimed_once { IfOk result (StagesAreClaimedOnce desk.setting.plan) }
    // Each caller's changing calls are its events in the history: all of them, once each, in the caller's order.
    ensures calls_once { IfOk result CallsStandOnce }
    // Each of them stands at the place that its record tells.
    ensures at_their_places { IfOk result CallsStandAtTheirPlaces }
    // Each reply is the sequential graph's after the events before its place, and each look's answer is the graph's at its place.
    ensures answers { IfOk result (AnswersAreTheGraphs desk.setting.plan) }
    // What a caller was told never goes back in the order of events.
    ensures in_order { IfOk result PlacesNeverGoBack }
    // Nobody else's event stands in the history, and the graph takes each as those before it leave it.
    ensures nobody_else { IfOk result NobodyElseStands }
    ensures taken { IfOk result (EventsAreTaken desk.setting.plan desk.setting.functions) }
    // It succeeds, and the graph is as the events leave it. A quiet plain graph holds its expressions' outcomes.
    ensures graph { IsOkAnd result (GraphIsAfterEvents desk.setting.plan) }
    ensures expressed { IfOk result (QuietGraphHoldsExpressions desk.setting.plan) }
    // Each pass is taken once: in its place stand its caller and its records. And each caller has one of them.
    ensures taken_in_turn { IfOk result (PassesStand passes.items) }
    ensures one_each { OnOk result (CallersHaveOneEach desk.setting.callers passes.items) }
    // Whoever was told `true` has settled the stage, and nobody settles it again.
    ensures settlers { IfOk result SettlersStay }
{
    match desk.close(passes) {
        Ok(closed) => Ok(closed),
        Err(fault) => Err(fault),
    }
}

/// One caller's two calls in a row: two records are added, the second one's place behind the first one's.
pub fn act_twice(
    desk: &Desk,
    pass: &mut Pass,
    one: Call,
    other: Call,
) -> Result<(Reply, Reply), DeskFault>
    requires { pass.old.table ≡ desk.now.table }
    ensures { IfOk result (λ replies. AddsTwo pass.old one other replies pass.new) }
{
    let first = desk.act(pass, one)?;
    let second = desk.act(pass, other)?;
    Ok((first, second))
}

/// An account that says what a closed desk hands out, of the plan and room that the desk was opened with, is judged to fit.
pub fn is_judged_to_fit(
    alloc: Global,
    plan: &Plan,
    room: u16,
    closed: &Closed,
    account: &History,
) -> Result<Verdict, AllocError>
    requires place { has_place plan.now.stages room ≡ true }
    requires one { ToldOneHistory (with_room plan.now room) account.now.functions closed.now }
    requires says { SaysWhatIsKept (with_room plan.now room) closed.now account.now }
    ensures { IfOk result (λ verdict. verdict ≡ Fits) }
{
    one_histories_fit();
    check(alloc, plan, room, account)
}
