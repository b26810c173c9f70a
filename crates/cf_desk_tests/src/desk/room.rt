//! Desks with room for more stages, of each size up to the greatest, and those that are refused.
ghost use Rattle.std.specs.Prelude.{◌≡◌};

use crate::checks::{must, same};
use crate::desk::desks::{last_of, open_growing};
use crate::desk::growing::ATTACHES;
use crate::plans::{SOURCE, plan_of};
use cf_desk::{Closed, Desk, DeskGrowth, DeskSizes, OpenFault, Pass};
use cf_forms::Form;
use cf_model::{Attached, Reply};
use cf_plan::{Plan, PlanBuilder};
use std::alloc::Global;
use std::process::Abort;

/// Whether so many sources are attached behind one stage, and the next finds no room.
fn fills_room(desk: &Desk, p: &mut Pass, room: u16) -> bool
    requires { p.old.table ≡ desk.now.table }
    ensures { p.new.table ≡ p.old.table }
{
    for stage in 1..=room {
        if desk.act(p, ATTACHES) != Ok(Reply::Attach(Attached::At(stage))) {
            return false;
        }
    }
    desk.act(p, ATTACHES) == Ok(Reply::Attach(Attached::StagesFull))
}

/// Whether a desk of one source with so much room is filled, and the desk, closed.
fn filled(rt: &impl Abort, alloc: Global, room: u16, functions: u32) -> (bool, Closed) {
    let plan = plan_of(rt, alloc, &SOURCE);
    let sizes = DeskSizes {
        callers: 1,
        log: 4_096,
        calls: 4_096,
    };
    let growth = DeskGrowth { room, functions };
    let (desk, mut passes) = open_growing(rt, alloc, plan, sizes, growth);
    let mut pass = last_of(rt, &desk, &mut passes);
    let fills = fills_room(&desk, &mut pass, room);
    let passes = must(rt, vec![in alloc; pass]);
    (fills, must(rt, desk.close(passes)))
}

/// A desk of one source with so much room can be opened and filled, and has as many stages and events then.
fn check_room(rt: &impl Abort, alloc: Global, room: u16, functions: u32) {
    let (fills, closed) = filled(rt, alloc, room, functions);
    let all = room as usize + 1;
    let told = (fills, closed.graph.stages() as usize, closed.history.len());
    drop(closed);
    same(rt, told, (true, all, all));
}

/// The same with no functions and with the most, and with the most room in place of more.
fn check_both(rt: &impl Abort, alloc: Global, size: u32) {
    let room = size.min(4_095) as u16;
    check_room(rt, alloc, room, 0);
    check_room(rt, alloc, room, 65_536);
}

#[test]
fn any_room_is_there(rt: HostRuntime) {
    for bits in 0..=12u32 {
        let power = 1u32 << bits;
        check_both(&rt, rt.alloc(), power - 1);
        check_both(&rt, rt.alloc(), power);
        check_both(&rt, rt.alloc(), power + 1);
    }
}

/// A source, and a stage of these sources.
fn with_sources(rt: &impl Abort, alloc: Global, of: &[u16]) -> Plan {
    let mut builder = PlanBuilder::new(alloc);
    must(rt, builder.stage(Form::Source, &[], None));
    must(rt, builder.stage(Form::AllOf, of, None));
    must(rt, builder.build())
}

/// A plan of a source, and a stage of so many sources.
fn with_edges(rt: &impl Abort, alloc: Global, edges: u16) -> Plan {
    let of = must(rt, vec![in alloc; 0u16; edges as usize]);
    with_sources(rt, alloc, &of)
}

/// A plan of supplies with these functions.
fn supplies(rt: &impl Abort, alloc: Global, functions: &[u16]) -> Plan {
    let mut builder = PlanBuilder::new(alloc);
    for function in functions {
        must(rt, builder.stage(Form::Supply, &[], Some(*function)));
    }
    must(rt, builder.build())
}

/// How a desk is asked for: its callers, its log, its records, its room and its functions.
#[derive(Clone, Copy)]
struct Sizes(u8, u16, u16, u16, u32);

/// How many functions a desk of a plan has where it is asked for with these sizes, or why it isn't opened.
fn opened(alloc: Global, plan: Plan, sizes: Sizes) -> Result<u32, OpenFault> {
    let Sizes(callers, log, calls, room, functions) = sizes;
    let sizes = DeskSizes {
        callers,
        log,
        calls,
    };
    match Desk::open_growing(alloc, plan, sizes, DeskGrowth { room, functions }) {
        Ok(opened) => {
            let number = opened.0.functions();
            drop(opened);
            Ok(number)
        }
        Err(fault) => Err(fault),
    }
}

/// Edges, room, and what the smallest desk of a plan with so many edges answers that is asked for with so much.
static ROOMS: [(u16, u16, Result<u32, OpenFault>); 10] = [
    (0, 4_094, Ok(0)),
    (0, 4_095, Err(OpenFault::Room)),
    (0, 65_535, Err(OpenFault::Room)),
    (8_196, 4_094, Ok(0)),
    (8_197, 4_094, Err(OpenFault::Room)),
    (16_382, 1, Ok(0)),
    (16_382, 2, Err(OpenFault::Room)),
    (16_383, 1, Err(OpenFault::Room)),
    (16_384, 0, Ok(0)),
    (16_384, 1, Err(OpenFault::Room)),
];

#[test]
fn refuses_too_much_room(rt: HostRuntime) {
    for (edges, room, answer) in &ROOMS {
        let plan = with_edges(&rt, rt.alloc(), *edges);
        same(
            &rt,
            opened(rt.alloc(), plan, Sizes(1, 1, 1, *room, 0)),
            *answer,
        );
    }
    let source = plan_of(&rt, rt.alloc(), &SOURCE);
    let told = opened(rt.alloc(), source, Sizes(1, 1, 1, 4_096, 0));
    same(&rt, told, Err(OpenFault::Room));
}

/// How many functions the smallest desk of a plan without room has.
fn functions_of(rt: &impl Abort, alloc: Global, plan: Plan) -> u32 {
    let sizes = DeskSizes {
        callers: 1,
        log: 1,
        calls: 1,
    };
    let opened = must(rt, Desk::open(alloc, plan, sizes));
    let number = opened.0.functions();
    drop(opened);
    number
}

/// The functions of supplies, and the least number that they are below.
static BOUNDS: [(&[u16], u32); 4] = [
    (&[0], 1),
    (&[7, 2], 8),
    (&[2, 7], 8),
    (&[65_535, 1], 65_536),
];

/// What the smallest desk with room for one stage answers that is asked for with so many functions.
fn asked(rt: &impl Abort, alloc: Global, functions: &[u16], number: u32) -> Result<u32, OpenFault> {
    let plan = supplies(rt, alloc, functions);
    opened(alloc, plan, Sizes(1, 1, 1, 1, number))
}

/// A desk of these supplies has so many functions without room, and wants as many with it.
fn check_bound(rt: &impl Abort, alloc: Global, functions: &[u16], bound: u32) {
    same(
        rt,
        functions_of(rt, alloc, supplies(rt, alloc, functions)),
        bound,
    );
    let few = asked(rt, alloc, functions, bound.wrapping_sub(1));
    same(rt, few, Err(OpenFault::Functions));
    same(rt, asked(rt, alloc, functions, bound), Ok(bound));
}

#[test]
fn refuses_too_few_functions(rt: HostRuntime) {
    for (functions, bound) in &BOUNDS {
        check_bound(&rt, rt.alloc(), functions, *bound);
    }
}

/// Sizes, and what is told of them.
static WRONG: [(Sizes, OpenFault); 6] = [
    (Sizes(0, 0, 0, 4_096, 0), OpenFault::Callers),
    (Sizes(65, 0, 0, 4_096, 0), OpenFault::Callers),
    (Sizes(1, 0, 0, 4_096, 0), OpenFault::Log),
    (Sizes(64, 1, 0, 4_096, 0), OpenFault::Calls),
    (Sizes(64, 1, 1, 4_096, 0), OpenFault::Room),
    (Sizes(64, 1, 1, 4_095, 0), OpenFault::Functions),
];

#[test]
fn the_first_wrong_count_is_told(rt: HostRuntime) {
    for (sizes, fault) in &WRONG {
        let plan = supplies(&rt, rt.alloc(), &[0]);
        same(&rt, opened(rt.alloc(), plan, *sizes), Err(*fault));
    }
}
