//! Graphs to which stages are attached between the calls.
ghost use Rattle.std.specs.Prelude.{◌<◌, ◌≡◌, true};
ghost use Rattle.cf_forms.specs.Plans.{has_place};

use crate::checks::{holds, must};
use crate::reference::both::{Both, answer, assert_alike, nudge};
use crate::reference::calls::{call_of, caller_of, finishing};
use crate::reference::plans::{New, PAIRS, larger_plan, new_of, numbers_of, pair_of, two_sources};
use cf_core::Graph;
use cf_forms::Of;
use cf_model::{Attached, Event, Reply};
use cf_plan::Plan;
use cf_reference::ReferenceGraph;
use rand_core::Rng;
use std::alloc::Global;
use std::process::Abort;

/// How many lists of calls are run on each two attached stages, and how many calls each has.
const LISTS: usize = 2;

const CALLS: u32 = 16;

/// How many plans there are to which stages are attached by rule, and how many calls are done on each.
const PLANS: u32 = 2000;

const LARGER_CALLS: u32 = 40;

/// A plan has place for so many stages more.
fn check_place(rt: &impl Abort, plan: &Plan, room: u16)
    ensures { has_place plan.now.stages room ≡ true }
{
    holds(
        rt,
        plan.stages() <= 4080 && plan.edges() <= 16352 && room <= 16,
        room,
    );
}

/// The graph of a plan, with room for so many stages.
fn graph_of(rt: &impl Abort, alloc: Global, plan: &Plan, room: u16) -> Graph {
    let plan = must(rt, plan.copy());
    check_place(rt, &plan, room);
    must(rt, Graph::new_growing(alloc, plan, room))
}

/// The same, and the reference graph.
fn both_of(rt: &impl Abort, alloc: Global, plan: &Plan, room: u16) -> Both {
    let graph = graph_of(rt, alloc, plan, room);
    let plan = must(rt, plan.copy());
    check_place(rt, &plan, room);
    let reference = must(rt, ReferenceGraph::start_growing(alloc, plan, room));
    Both { graph, reference }
}

/// Attaches a stage to both, and says what was answered.
fn attach_to_both(rt: &impl Abort, alloc: Global, both: &mut Both, new: New) -> Attached {
    let New { form, of, function } = new;
    let event = Event::Attach {
        who: 1,
        form,
        of,
        function,
    };
    let told = match answer(rt, alloc, both, event) {
        Reply::Attach(told) => Some(told),
        _ => None,
    };
    holds(rt, both.graph.stages() == both.reference.stages(), "stages");
    must(rt, told.ok_or("another reply"))
}

/// Claims a ready stage of both, and finishes it, by the bits of a number.
fn work_on(rt: &impl Abort, alloc: Global, both: &mut Both, stage: u16, x: u32) {
    let who = caller_of(x);
    answer(rt, alloc, both, Event::Claim { who, stage });
    answer(rt, alloc, both, finishing(who, stage, x));
}

/// Does the call of a number on both, or works on the lowest ready stage, if there is one.
fn call(rt: &impl Abort, alloc: Global, both: &mut Both, x: u32) {
    let stages = both.graph.stages();
    let ready = both.reference.lowest_ready();
    if x >> 28 >= 5 {
        answer(rt, alloc, both, call_of(stages, x));
    } else if let Some(stage) = ready {
        work_on(rt, alloc, both, stage, x);
    }
}

/// Lets the graph take up to three turns, does the call of a number, and looks at all stages now and then.
fn nudged_call(rt: &impl Abort, alloc: Global, both: &mut Both, x: u32) {
    let stages = both.graph.stages();
    nudge(rt, &mut both.graph, x >> 9 & 3);
    call(rt, alloc, both, x);
    if x >> 26 & 3 == 0 {
        assert_alike(rt, both, stages);
    }
}

/// A stage that is attached to both before the call of this step, and what is answered.
#[derive(Clone, Copy)]
struct Due {
    step: u32,
    new: New,
    told: Attached,
}

/// Attaches the stages of this step, which are answered so.
fn attach_due(rt: &impl Abort, alloc: Global, both: &mut Both, dues: &[Due], step: u32) {
    for due in dues {
        if due.step == step {
            holds(
                rt,
                attach_to_both(rt, alloc, both, due.new) == due.told,
                step,
            );
        }
    }
}

/// Lets the graph take up to three turns, attaches the stages of this step, and does the call of a number.
fn do_step(rt: &impl Abort, alloc: Global, both: &mut Both, dues: &[Due], step: u32, x: u32) {
    nudge(rt, &mut both.graph, x >> 16 & 3);
    attach_due(rt, alloc, both, dues, step);
    nudged_call(rt, alloc, both, x);
}

/// The two stages, each before a step by the bits of a number, and the first once more behind all steps, when there is no
/// room.
fn dues_of(news: [New; 2], x: u32) -> [Due; 3] {
    let first = x >> 29;
    let second = first + 1 + (x >> 27 & 3);
    let [new, other] = news;
    [
        Due {
            step: first,
            new,
            told: Attached::At(2),
        },
        Due {
            step: second,
            new: other,
            told: Attached::At(3),
        },
        Due {
            step: CALLS,
            new,
            told: Attached::StagesFull,
        },
    ]
}

/// Does one list of calls on both, and attaches two stages in between, for which there is room, and then one for which
/// there is none. At the end it looks at all stages.
fn do_steps(rt: &impl Abort, alloc: Global, both: &mut Both, news: [New; 2], list: u32) {
    let mut numbers = numbers_of(list);
    let dues = dues_of(news, numbers.next_u32());
    for step in 0..CALLS {
        let x = numbers.next_u32();
        do_step(rt, alloc, both, &dues, step, x);
    }
    attach_due(rt, alloc, both, &dues, CALLS);
    assert_alike(rt, both, 4);
}

/// Does so on new graphs of a plan.
fn compare_attached(rt: &impl Abort, alloc: Global, plan: &Plan, news: [New; 2], list: u32) {
    let mut both = both_of(rt, alloc, plan, 2);
    do_steps(rt, alloc, &mut both, news, list);
    drop(both);
}

/// Compares each pair of stages, attached to this plan, by so many lists, and counts the lists.
fn compare_pairs(rt: &impl Abort, alloc: Global, plan: &Plan) -> u32 {
    let mut lists = 0u32;
    for number in 0..PAIRS * LISTS {
        if let Some(news) = pair_of(number / LISTS) {
            lists = lists.wrapping_add(1);
            compare_attached(rt, alloc, plan, news, lists);
        }
    }
    lists
}

#[test]
fn two_stages_are_attached(rt: HostRuntime) {
    let plan = two_sources(&rt, rt.alloc());
    let lists = compare_pairs(&rt, rt.alloc(), &plan);
    drop(plan);
    holds(&rt, lists == 12198, lists);
}

/// What was attached: by what its sources held, a bit for each form that had such ones, and how often there was no room.
#[derive(Drop)]
struct Seen {
    forms: [u32; 4],
    attached: u32,
    full: u32,
}

/// Keeps that a stage of the form at this place was attached, or that there was no room.
fn see(seen: &mut Seen, told: Attached, kind: usize, place: u32)
    requires { kind < 4 }
{
    match told {
        Attached::At(_) => {
            seen.forms[kind] |= 1 << (place % 19);
            seen.attached = seen.attached.wrapping_add(1);
        }
        Attached::StagesFull => {
            seen.full = seen.full.wrapping_add(1);
        }
    }
}

/// Whether no source is there, or none, some or all of them are settled.
fn kind_of(reference: &ReferenceGraph, of: Of) -> usize
    ensures { result < 4 }
{
    match of {
        Of::None => 0,
        Of::One(a) => { if settled(reference, a) { 3 } else { 1 } }
        Of::Two(a, b) => {
            let first = settled(reference, a);
            if first != settled(reference, b) {
                2
            } else if first {
                3
            } else {
                1
            }
        }
    }
}

/// Whether a stage is settled.
fn settled(reference: &ReferenceGraph, i: u16) -> bool {
    reference.has(i) && reference.outcome(i).is_some()
}

/// Attaches the stage of a number to both, and keeps what was seen.
fn attach_by(rt: &impl Abort, alloc: Global, both: &mut Both, seen: &mut Seen, x: u32) {
    let (place, new) = new_of(x, both.graph.stages());
    let kind = kind_of(&both.reference, new.of);
    let told = attach_to_both(rt, alloc, both, new);
    see(seen, told, kind, place);
}

/// Lets the graph take up to three turns, attaches the stage of a number at times, and does the call of another.
fn grow(rt: &impl Abort, alloc: Global, both: &mut Both, seen: &mut Seen, x: u32, y: u32) {
    nudge(rt, &mut both.graph, x >> 9 & 3);
    if x >> 28 < 3 {
        attach_by(rt, alloc, both, seen, x);
    }
    nudged_call(rt, alloc, both, y);
}

/// Does one list of calls on both, between which stages are attached, and looks at all stages at the end.
fn grow_all(rt: &impl Abort, alloc: Global, both: &mut Both, seen: &mut Seen, number: u32) {
    let mut numbers = numbers_of(number);
    for _ in 0..LARGER_CALLS {
        let x = numbers.next_u32();
        let y = numbers.next_u32();
        grow(rt, alloc, both, seen, x, y);
    }
    let stages = both.graph.stages();
    assert_alike(rt, both, stages);
}

/// Does so on new graphs of a plan, in some of which there is less room than stages that are attached.
fn compare_growing(rt: &impl Abort, alloc: Global, plan: &Plan, seen: &mut Seen, number: u32) {
    let mut both = both_of(rt, alloc, plan, (number % 9) as u16);
    grow_all(rt, alloc, &mut both, seen, number);
    drop(both);
}

/// Two sources, or the larger plan of an odd number.
fn plan_by(rt: &impl Abort, alloc: Global, number: u32) -> Plan {
    if number & 1 == 0 {
        two_sources(rt, alloc)
    } else {
        larger_plan(rt, alloc, number)
    }
}

/// Compares on all plans.
fn compare_plans(rt: &impl Abort, alloc: Global, seen: &mut Seen) {
    for number in 0..PLANS {
        let plan = plan_by(rt, alloc, number);
        compare_growing(rt, alloc, &plan, seen, number);
        drop(plan);
    }
}

/// Whether so many stages were attached, of these forms.
fn has_seen(seen: &Seen) -> bool {
    seen.forms == [0x30007, 0x7fff8, 0x30fc0, 0x7fff8] && seen.attached == 7439 && seen.full == 7664
}

#[test]
fn stages_are_attached_by_rule(rt: HostRuntime) {
    let mut seen = Seen {
        forms: [0; 4],
        attached: 0,
        full: 0,
    };
    compare_plans(&rt, rt.alloc(), &mut seen);
    holds(&rt, has_seen(&seen), (seen.attached, seen.full));
}
