//! The graph of a plan, kept so that it answers by the definitions of `cf_model`.
//!
//! `cf_model` says what a graph means. A contract sees of a `Graph` the `State` of that crate, in which all
//! consequences have come to pass, how many turns were taken, and the lowest stage that a turn is left for.
//! `Graph::answer` does any call, given as an `Event`, and `Graph::tell` answers any question, given as an `Ask`.
//! `Graph::work` claims and finishes ready stages until there is none, and calls the function of each of them once. It
//! takes any `Functions`: those of a list, which remember nothing (`Each`), or closures that count, print or keep what
//! they are called with. A graph that was opened with room takes more stages by `Graph::attach`; its plan has grown
//! then.
//!
//! # How it is kept
//!
//! The graph does only what a question needs, and leaves the rest for later. `specs/Keeping` has the definitions of
//! this part, `propagation` its laws.
//!
//! What waits: a stage that settles marks the pending stages that name it as a source and the stages that are linked to
//! it, and does no more. A pending or linked stage without a mark has nothing to take: what its sources or its target
//! hold now leaves it waiting. So where nothing is marked, nothing is due.
//!
//! A turn is the treatment of the lowest marked stage: the stage takes what the stages below it hold by then, and if
//! that settles it, it marks others in the same way. A call on a stage first treats the marked stages up to that one,
//! the lowest first. `Graph::lowest_ready` treats those below the lowest ready stage, and `Graph::nudge` takes turns
//! ahead of time.
//!
//! The marks don't matter to the meaning: the state that a contract sees is what treating every stage, in rising
//! number, leads to (`settled_view`), whether it is marked or not. A turn changes nothing of that state. Settling a
//! stage leads to the same state as settling it with all consequences at once. A claim, or a link to a stage that isn't
//! settled, changes its own stage alone. Sources and targets are lower than the stage that takes from them. So where no
//! stage up to a given one is marked, that stage is kept as it is in the state, and a call on it answers by the state.
//!
//! Why an either form that is treated late still takes the source that settled first: each settled stage keeps the step
//! at which it settled. A call that settles or links a stage is one step, and a consequence has the step of what it
//! comes from: the later of two, the latest of all of an allOf, the earliest of an either form or an anyOf. Of sources
//! that settled in one step the first in argument order is taken. While an either form is pending, none of its sources
//! has settled, so the first to settle decides it: this is a law
//! (`cf_model::laws::pending_stages_have_no_settled_source`).
//!
//! How `Graph::work` finds what is to be done: it finds the first few stages by the marks, as a caller would. Where
//! there are more, it goes up through all stages once, treats each that waits and serves each that is ready then (a
//! sweep, `specs/Keeping/Sweeps`). A stage takes from lower stages alone. So no stage below the one at hand is or will
//! be marked or ready, and the one at hand is the lowest. In a sweep neither the marks nor the ready stages are
//! written: at its end there are none.
//!
//! What bounds the work: each mark comes from an edge of the plan whose source settles, from a link whose target settles,
//! or from the start, each once. So since the opening, or the last restart, there are at most as many turns as the plan has
//! edges and stages, which a contract sees as `turns`.
//!
//! How a stage is attached, where a graph was opened with room: all that waits is treated first, so that the sources
//! hold what they will hold. Then the stage is appended and takes that in one turn, in argument order; a stage that has
//! nothing to take stays pending, without a turn. Its own turn and the marks that can still come of it are at most its
//! edges and one, so the bound above holds for the plan as it has grown.
//!
//! How a call tells what it changed (`Graph::answer_telling`): where no turn is left, what is kept is the state. An
//! event moves its own stage alone, and a turn moves the stage that it treats; neither moves one back (`rank`). A turn is
//! that of the lowest marked stage, and marks stages above it alone. So the stages that have moved are written as they
//! move, and rise. A tick fires several limits, which may move one stage several times: it sets flags, and writes the
//! stages whose flags are set at its end.
//!
//! How a graph starts again (`Graph::restart`): the attached stages are taken out, the stages of the opening are kept as ones
//! that were never treated, and sets and lists are emptied, all of it in place. By `cf_model::laws::grown_plans_reopen_as_they_were`
//! the graph is then what it was at its opening, with all of its room.
//!
//! No call but `Graph::new`, `Graph::new_growing` and `Graph::growing_of` takes memory: the marks and the ready stages are
//! sets of bits (`cf_bits`), the stages linked to a stage are a list threaded through arrays (`Links`), so that none is
//! searched for, and each stage that may be attached has its place reserved.
#![tactic(auto)]

mod attach;
mod cell;
mod cells;
mod graph;
mod kept;
mod links;
mod mark;
pub mod propagation;
mod stages;
mod treat;

pub use graph::lending::{Stop, Sweep};
pub use graph::{Graph, GraphFault};
