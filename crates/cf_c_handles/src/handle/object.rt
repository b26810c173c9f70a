//! What stands behind a handle.
ghost use Rattle.std.specs.Prelude.{◌≡◌, ◌<◌, ◌≤◌, All, length, vec_capacity};
ghost use Rattle.std.specs.Arc.{arc_value};
ghost use Rattle.cf_c_handles.specs.Records.{CallsHaveWords, HasWord};

use cf_core::{Graph, Sweep};
use cf_desk::{Closed, Desk, Notice, Pass};
use cf_host::Host;
use cf_ledger::Ledger;
use cf_plan::{Plan, PlanBuilder};
use cf_request::Machine;
use cf_row::Row;
use cf_telling::{People, Tale};
use std::alloc::Global;
use std::mem;
use std::sync::Arc;

/// What stands behind a handle. Each call asks which of these it is, and refuses a handle of another kind.
#[derive(Drop)]
pub enum Object {
    /// A plan that is being built.
    Builder(PlanBuilder),
    /// A plan that is built, of which any number of graphs and desks may be opened.
    Plan(Plan),
    /// A graph that one caller has alone.
    Graph(Graph),
    /// A graph that is lent to a sweep.
    Sweep(Sweep),
    /// A graph with the words of all that was done to it.
    Ledger(Ledger),
    /// One request of a service as a machine.
    Request(Machine),
    /// One session's view of a row in a store.
    Row(Row),
    /// What happened to a request, to be told. In a box, so that no other handle takes more memory.
    History(Box<History>),
    /// All requests of a store that a process works on. In a box for the same reason.
    Host(Box<Host>),
    /// A caller of a graph that several share.
    Caller(Caller),
    /// What a caller had seen, for another one to heed.
    Notice(Noted),
    /// Callers that were given back, of a desk that is being closed.
    Closing(Closing),
    /// A closed desk.
    Closed(ClosedDesk),
}

/// What happened to a request, and what is said of it for people.
#[derive(Drop)]
pub struct History {
    pub(crate) tale: Tale,
    pub(crate) people: People,
}

/// A pass and its desk, which all callers share.
#[derive(Drop)]
pub struct Caller {
    pub(crate) desk: Arc<Desk, Global>,
    pub(crate) pass: Pass,
    pub ghost own: { pass.table ≡ (arc_value desk).table },
}

/// A notice and its desk.
#[derive(Drop)]
pub struct Noted {
    pub(crate) desk: Arc<Desk, Global>,
    pub(crate) notice: Notice,
    pub ghost own: { notice.table ≡ (arc_value desk).table },
}

/// Passes that were given back, and their desk. There is room for the passes of all callers.
#[derive(Drop)]
pub struct Closing {
    pub(crate) desk: Arc<Desk, Global>,
    pub(crate) passes: Vec<Pass>,
    pub ghost own: { All (λ p. p.table ≡ (arc_value desk).table) passes.items },
    pub ghost room: { (arc_value desk).setting.callers ≤ vec_capacity passes },
}

/// A closed desk. Its history is no longer than a log may be, and each of its events and each call of its records has a word.
#[derive(Drop)]
pub struct ClosedDesk {
    pub(crate) closed: Closed,
    pub ghost short: { length closed.history.items < 65536 },
    pub ghost events: { All HasWord closed.history.items },
    pub ghost calls: { All CallsHaveWords closed.passes.items },
}

/// Takes what is held. An empty builder is left, which takes no memory.
pub(crate) fn take(alloc: Global, held: &mut Object) -> Object
    ensures { result ≡ held.old }
{
    mem::replace(held, Object::Builder(PlanBuilder::new(alloc)))
}

/// Puts this in the place of what is held, which is freed.
pub(crate) fn hold(held: &mut Object, now: Object)
    ensures { held.new ≡ now }
{
    drop(mem::replace(held, now))
}

/// That a handle may go to another thread.
#[inline(always)]
pub(crate) fn assert_send<T: Send + Drop>(held: Box<T>) -> Box<T>
    ensures { result ≡ held }
{
    held
}
