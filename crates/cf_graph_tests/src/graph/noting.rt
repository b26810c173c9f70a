//! Functions that remember: which are called, with what, and in which order.
ghost use Rattle.std.specs.Prelude.{⊤};

use cf_core::Graph;
use cf_forms::{Answer, Args, Functions};
use cf_outcome::Value;
use std::alloc::Global;

/// Functions that keep which was called with what, in turn. Each gives how many calls there were by then.
#[derive(Drop)]
struct Noting {
    calls: Vec<(u16, Args)>,
    count: i32,
}

impl Functions for Noting {
    ghost calls = { λ _ _ _ _ _. ⊤ };

    fn call(&mut self, number: u16, args: &Args) -> Answer {
        self.count = self.count.wrapping_add(1);
        match self.calls.push((number, *args)) {
            Ok(()) => Answer::Give(Value::Int(self.count)),
            Err(_) => Answer::Throw(0),
        }
    }
}

/// Whether work calls these functions with these arguments, and says how many.
fn calls(graph: &mut Graph, noting: &mut Noting, all: &[(u16, Args)], count: usize) -> bool {
    graph.work(5, noting) as usize == count && noting.calls.as_slice() == all
}

/// Whether work calls these functions with these arguments, and work after it none.
pub(crate) fn notes(alloc: Global, graph: &mut Graph, all: &[(u16, Args)]) -> bool {
    let mut noting = Noting {
        calls: Vec::new(alloc),
        count: 0,
    };
    let called = calls(graph, &mut noting, all, all.len());
    let called_again = !calls(graph, &mut noting, all, 0);
    drop(noting);
    called && !called_again
}
