//! The shapes of graphs that are measured.
use cf_forms::Form;
use cf_plan::{Plan, PlanBuilder, PlanFault};
use std::alloc::Global;
use std::fmt;
use std::io::Error;

/// The shape of a graph.
#[derive(Clone, Copy, PartialEq, Eq)]
pub(crate) enum Shape {
    /// A source, and behind each stage an apply of it. The source is completed.
    Chain,
    /// The same, and the source is failed.
    FailedChain,
    /// A source, and all others are applies of it.
    FanOut,
    /// Sources, and combines of two stages each up to the root.
    CombineTree,
    /// Sources, and one allOf over all of them.
    AllOf,
}

impl fmt::Display for Shape {
    fn fmt<W: fmt::Write>(&self, f: &mut fmt::Formatter<W>) -> fmt::Result {
        let name = match self {
            Shape::Chain => "chain",
            Shape::FailedChain => "failed chain",
            Shape::FanOut => "fan-out",
            Shape::CombineTree => "combine tree",
            Shape::AllOf => "allOf",
        };
        f.write_str(name)
    }
}

/// How many of so many stages are sources.
pub(crate) fn sources_of(shape: Shape, stages: u16) -> u16 {
    match shape {
        Shape::Chain | Shape::FailedChain | Shape::FanOut => stages.min(1),
        Shape::CombineTree => (stages / 2).saturating_add(1).min(stages),
        Shape::AllOf => stages.saturating_sub(1),
    }
}

/// That a plan of a shape was refused, which none is but for want of memory.
pub(crate) fn no_plan() -> Error {
    Error::other("the plan was refused")
}

/// The plan of a shape.
pub(crate) fn plan_of(alloc: Global, shape: Shape, stages: u16) -> Result<Plan, PlanFault> {
    let mut builder = PlanBuilder::with_room(alloc, stages, stages.saturating_mul(2))?;
    match add_all(alloc, &mut builder, shape, stages) {
        Ok(()) => builder.build(),
        Err(fault) => Err(fault),
    }
}

fn add_all(
    alloc: Global,
    builder: &mut PlanBuilder,
    shape: Shape,
    stages: u16,
) -> Result<(), PlanFault> {
    let mut all = Vec::new(alloc);
    add_listed(builder, &mut all, shape, stages)
}

/// Adds all stages, and lists the sources of an allOf.
fn add_listed(
    builder: &mut PlanBuilder,
    all: &mut Vec<u16>,
    shape: Shape,
    stages: u16,
) -> Result<(), PlanFault> {
    let sources = sources_of(shape, stages);
    if shape == Shape::AllOf {
        all.reserve(sources as usize)?;
    }
    for i in 0..stages {
        if i < sources {
            add_source(builder, all, shape, i)?;
        } else {
            add(builder, shape, i, sources, all.as_slice())?;
        }
    }
    Ok(())
}

/// Adds a source, and lists it where it is an allOf's.
fn add_source(
    builder: &mut PlanBuilder,
    all: &mut Vec<u16>,
    shape: Shape,
    i: u16,
) -> Result<(), PlanFault> {
    builder.stage(Form::Source, &[], None)?;
    if shape == Shape::AllOf {
        all.push(i)?;
    }
    Ok(())
}

/// Adds stage `i`, which is no source.
fn add(
    builder: &mut PlanBuilder,
    shape: Shape,
    i: u16,
    sources: u16,
    all: &[u16],
) -> Result<(), PlanFault> {
    match shape {
        Shape::Chain | Shape::FailedChain => {
            builder.stage(Form::Apply, &[i.saturating_sub(1)], Some(0))?
        }
        Shape::FanOut => builder.stage(Form::Apply, &[0], Some(0))?,
        Shape::CombineTree => {
            let left = i.saturating_sub(sources).saturating_mul(2);
            builder.stage(Form::Combine, &[left, left.saturating_add(1)], Some(0))?
        }
        Shape::AllOf => builder.stage(Form::AllOf, all, None)?,
    };
    Ok(())
}
