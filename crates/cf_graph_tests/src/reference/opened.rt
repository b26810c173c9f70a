//! Graphs whose stages are all there at the opening.
use crate::checks::{holds, must};
use crate::reference::both::{Both, answer, assert_alike, nudge};
use crate::reference::calls::call_of;
use crate::reference::plans::{New, PAIRS, larger_plan, new_choice, numbers_of, pair_of, plan_of};
use cf_core::Graph;
use cf_plan::Plan;
use cf_reference::ReferenceGraph;
use rand_core::Rng;
use std::alloc::Global;
use std::process::Abort;

/// How many lists of calls are run on each small plan, and how many calls each has.
const LISTS: u32 = 4;

const CALLS: u32 = 16;

/// How many larger plans there are, and how many calls are done on each.
const LARGER_PLANS: u32 = 4000;

const LARGER_CALLS: u32 = 32;

/// The graph of a plan, and its reference graph.
fn both_of(rt: &impl Abort, alloc: Global, plan: &Plan) -> Both {
    let graph = must(rt, Graph::new(alloc, must(rt, plan.copy())));
    let reference = must(rt, ReferenceGraph::start(alloc, must(rt, plan.copy())));
    Both { graph, reference }
}

/// Lets the graph take up to three turns, does the call of a number on both, and looks at all stages now and then.
fn call_both(rt: &impl Abort, alloc: Global, both: &mut Both, x: u32) {
    let stages = both.graph.stages();
    nudge(rt, &mut both.graph, x >> 9 & 3);
    answer(rt, alloc, both, call_of(stages, x));
    if x >> 30 == 0 {
        assert_alike(rt, both, stages);
    }
}

/// Does a list of calls on both, and looks at all stages now and then and at the end. The graph of the plan has taken no
/// more turns than there may be.
fn call_all(rt: &impl Abort, alloc: Global, both: &mut Both, plan: &Plan, list: u32, calls: u32) {
    let mut numbers = numbers_of(list);
    for _ in 0..calls {
        call_both(rt, alloc, both, numbers.next_u32());
    }
    assert_alike(rt, both, plan.stages());
    let is_within = both.graph.turns() <= plan.edges() as u64 + plan.stages() as u64;
    holds(rt, is_within, ("list", list));
}

/// Does so on new graphs of a plan, and counts the replies that were compared.
fn compare(rt: &impl Abort, alloc: Global, plan: &Plan, list: u32, calls: u32) -> u32 {
    let mut both = both_of(rt, alloc, plan);
    call_all(rt, alloc, &mut both, plan, list, calls);
    drop(both);
    calls
}

/// Runs all lists on the plan of these stages, the one with this number, counted from 1, and counts the replies.
fn compare_all(rt: &impl Abort, alloc: Global, news: &[New], number: u32) -> u32 {
    let plan = plan_of(rt, alloc, news);
    let mut replies = 0u32;
    for list in 0..LISTS {
        let list = number.wrapping_mul(LISTS).wrapping_add(list);
        replies = replies.wrapping_add(compare(rt, alloc, &plan, list, CALLS));
    }
    drop(plan);
    replies
}

#[test]
fn one_stage_over_two_sources(rt: HostRuntime) {
    let (mut plans, mut replies) = (0u32, 0u32);
    for number in 0..19 * 7 {
        if let Some(new) = new_choice(number / 7, 2, (number % 7) as u16) {
            plans = plans.wrapping_add(1);
            replies = replies.wrapping_add(compare_all(&rt, rt.alloc(), &[new], plans));
        }
    }
    holds(&rt, plans == 57 && replies == 3648, (plans, replies));
}

#[test]
fn two_stages_over_two_sources(rt: HostRuntime) {
    let (mut plans, mut replies) = (0u32, 0u32);
    for number in 0..PAIRS {
        if let Some(news) = pair_of(number) {
            plans = plans.wrapping_add(1);
            replies = replies.wrapping_add(compare_all(&rt, rt.alloc(), &news, plans));
        }
    }
    holds(&rt, plans == 6099 && replies == 390336, (plans, replies));
}

/// Does a list of calls on the larger plan of a number.
fn compare_larger(rt: &impl Abort, alloc: Global, number: u32) {
    let plan = larger_plan(rt, alloc, number);
    compare(rt, alloc, &plan, number, LARGER_CALLS);
    drop(plan);
}

#[test]
fn larger_plans(rt: HostRuntime) {
    for number in 0..LARGER_PLANS {
        compare_larger(&rt, rt.alloc(), number);
    }
}
