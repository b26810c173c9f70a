//! Forms of stages, and what their functions take and answer.
ghost use Rattle.std.specs.Prelude.{◌≡◌, ◌↔◌, IsTrue, length};
ghost use Rattle.cf_forms.specs.Plans.{AreBelow, sources_of};

use cf_outcome::{Outcome, Value};

/// How a stage depends on its sources, named for the methods of Java SE 17's `CompletionStage` and
/// `CompletableFuture`. Each form but `Source`, `AllOf` and `AnyOf` has a function.
#[derive(Clone, Copy, Debug, PartialEq, Eq)]
pub enum Form {
    /// No source and no function: a new `CompletableFuture`, settled only by its callers.
    Source,
    /// No source: `supplyAsync`.
    Supply,
    /// No source: `runAsync`.
    RunAsync,
    /// One source: `thenApply`.
    Apply,
    /// One source: `thenAccept`.
    Accept,
    /// One source: `thenRun`.
    ThenRun,
    /// Two sources, both of which it waits for: `thenCombine`.
    Combine,
    /// Two sources, both of which it waits for: `thenAcceptBoth`.
    AcceptBoth,
    /// Two sources, both of which it waits for: `runAfterBoth`.
    RunBoth,
    /// Two sources, of which the first to settle decides: `applyToEither`.
    ApplyEither,
    /// Two sources, of which the first to settle decides: `acceptEither`.
    AcceptEither,
    /// Two sources, of which the first to settle decides: `runAfterEither`.
    RunEither,
    /// One source; its function names the stage that it takes its outcome from: `thenCompose`.
    Compose,
    /// One source, whose fault its function is told, too: `handle`.
    Handle,
    /// One source, whose outcome it keeps: `whenComplete`.
    WhenComplete,
    /// One source, whose fault alone its function is told: `exceptionally`.
    Exceptionally,
    /// Any number of sources, all of which it waits for: `allOf`.
    AllOf,
    /// Any number of sources, of which the first to settle decides: `anyOf`.
    AnyOf,
    /// One source, whose fault alone its function is told; the function names the stage that it takes its outcome
    /// from: `exceptionallyCompose`.
    ExceptionallyCompose,
}

/// The sources of a stage that is attached to a graph, in the order of its arguments. One may stand twice.
#[derive(Clone, Copy, Debug, PartialEq, Eq)]
pub enum Of {
    /// No source.
    None,
    /// This one.
    One(u16),
    /// These two.
    Two(u16, u16),
}

impl Of {
    /// How many sources they are.
    pub fn count(self) -> u16
        ensures { result ≡ length (sources_of self) }
    {
        match self {
            Of::None => 0,
            Of::One(_) => 1,
            Of::Two(_, _) => 2,
        }
    }

    /// Whether a plan with so many stages has them all.
    pub fn are_below(self, stages: u16) -> bool
        ensures { IsTrue result ↔ AreBelow stages self }
    {
        match self {
            Of::None => true,
            Of::One(a) => a < stages,
            Of::Two(a, b) => a < stages && b < stages,
        }
    }
}

/// What a stage's function is called with.
#[derive(Clone, Copy, Debug, PartialEq, Eq)]
pub enum Args {
    /// Nothing, as a `Supplier` or a `Runnable`.
    None,
    /// The value of the source.
    One(Value),
    /// The values of both sources, in their order.
    Two(Value, Value),
    /// The outcome of the source, as it is stored.
    Got(Outcome),
}

/// What a stage's function answers.
#[derive(Clone, Copy, Debug, PartialEq, Eq)]
pub enum Answer {
    /// It returns this value.
    Give(Value),
    /// It throws, with this code.
    Throw(u32),
    /// It returns the stage of this number, as the functions of `thenCompose` and `exceptionallyCompose` do.
    Link(u16),
}

/// What a stage does by its sources.
#[derive(Clone, Copy, Debug, PartialEq, Eq)]
pub enum Due {
    /// It waits for a source.
    Waits,
    /// It settles with this outcome, and its function isn't called.
    Settles(Outcome),
    /// Its function is to be called with these arguments.
    Needs(Args),
}

/// Where a stage's answer lands.
#[derive(Clone, Copy, Debug, PartialEq, Eq)]
pub enum Landing {
    /// The stage settles with this outcome.
    Settles(Outcome),
    /// The stage takes the outcome of this one, which is lower, once that is settled.
    Links(u16),
}
