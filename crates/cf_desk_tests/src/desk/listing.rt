//! The listing of docs/RATTLE.md, which shows what stands here from `source_and_apply` on; `sweeps/pages` compares the two.
ghost use Rattle.std.specs.Prelude.{◌≡◌, All, length};

use cf_core::Graph;
use cf_desk::{Call, Desk, DeskSizes, Pass};
use cf_forms::{Answer, Args, Form};
use cf_model::{Claimed, Finished};
use cf_outcome::{Outcome, Value};
use cf_plan::{Plan, PlanBuilder, PlanFault};
use std::alloc::Global;
use std::test::Fail;
use std::thread;
use std::thread::Threads;

/// A source, and a function over it.
fn source_and_apply(alloc: Global) -> Result<Plan, PlanFault> {
    let mut builder = PlanBuilder::new(alloc);
    builder.stage(Form::Source, &[], None)?;
    builder.stage(Form::Apply, &[0], Some(0))?;
    builder.build()
}

/// Whether completing the source makes the function ready, and its answer settles the stage.
fn is_worked(graph: &mut Graph) -> bool {
    let granted = Claimed::Granted(Args::One(Value::Int(3)));
    graph.has(1)
        && graph.complete(0, Value::Int(3))
        && graph.claim(0, 1) == granted
        && graph.has(1)
        && graph.finish(0, 1, Answer::Give(Value::Int(8))) == Finished::Won
        && graph.has(1)
        && graph.outcome(1) == Some(Outcome::Value(Value::Int(8)))
}

#[test]
fn calls_the_graph(rt: HostRuntime) -> Result<(), Fail> {
    let mut graph = Graph::new(rt.alloc(), source_and_apply(rt.alloc())?)?;
    assert!(rt; is_worked(&mut graph));
    Ok(())
}

fn complete_by_each<R: Threads + Sync>(rt: &R, desk: &Desk, passes: &mut [Pass])
    requires { All (λ p. p.table ≡ desk.now.table) passes.old }
    ensures table { All (λ p. p.table ≡ desk.now.table) passes.new }
    ensures count { length passes.new ≡ length passes.old }
{
    thread::for_each_mut(
        rt,
        passes,
        2,
        &|_, pass| {
            let _ = desk.act(pass, Call::Complete(0, Value::Int(3)));
        },
    );
}

#[test]
fn calls_the_desk(rt: HostRuntime) -> Result<(), Fail> {
    let plan = source_and_apply(rt.alloc())?;
    let sizes = DeskSizes {
        callers: 2,
        log: 8,
        calls: 4,
    };
    let (desk, mut passes) = Desk::open(rt.alloc(), plan, sizes)?;
    complete_by_each(&rt, &desk, passes.as_mut_slice());
    let closed = desk.close(passes)?;
    assert_eq!(rt; closed.history.len(), 2);
    Ok(())
}
