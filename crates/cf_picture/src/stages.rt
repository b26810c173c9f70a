//! Stages, as nodes with the edges that lead to them.
ghost use Rattle.std.specs.Prelude.{◌<◌, length};

use crate::edges::{write_links, write_sources};
use crate::fate::{Fate, fate_of, look_of, write_fate};
use crate::functions::write_function;
use crate::kinds::shape_of;
use crate::names::write_name;
use crate::notes::Notes;
use cf_core::Graph;
use cf_forms::{Form, Of};
use cf_model::Event;
use cf_plan::Plan;
use cf_script_reading::{Func, Step};
use std::alloc::AllocError;

/// What is known of all stages, beside the graph.
#[derive(Clone, Copy)]
pub(crate) struct Context<'a> {
    pub(crate) functions: &'a [Func],
    pub(crate) notes: &'a Notes,
    pub(crate) names: &'a [String],
}

/// A stage as its script says it.
#[derive(Clone, Copy)]
struct Said<'a> {
    number: u16,
    name: &'a str,
    form: Form,
    function: Option<Func>,
}

/// Adds the stages of the plan that the script begins with.
pub(crate) fn write_opening(
    text: &mut String,
    graph: &mut Graph,
    context: Context<'_>,
    plan: &Plan,
) -> Result<(), AllocError> {
    for i in 0..plan.stages() {
        if graph.has(i) {
            let said = Said {
                number: i,
                name: name_of(context.names, i),
                form: plan.form(i),
                function: function_of(context.functions, plan.function(i)),
            };
            write_stage(text, graph, context.notes, said, plan.sources(i))?;
        }
    }
    Ok(())
}

/// Adds the stages that the steps attached: behind `first` others as many as there are, in the order in which they came.
pub(crate) fn write_attached(
    text: &mut String,
    graph: &mut Graph,
    context: Context<'_>,
    first: u16,
    steps: &[Step],
) -> Result<(), AllocError> {
    let mut number = first;
    for step in steps {
        if let Step::Does(
            Event::Attach {
                form,
                of,
                function,
                ..
            },
        ) = *step
        {
            if number < graph.stages() {
                let said = Said {
                    number,
                    name: name_of(context.names, number),
                    form,
                    function: function_of(context.functions, function),
                };
                write_stage_of(text, graph, context.notes, said, of)?;
                number += 1;
            }
        }
    }
    Ok(())
}

/// The function of this number.
fn function_of(functions: &[Func], number: Option<u16>) -> Option<Func> {
    functions.get(number? as usize).copied()
}

/// The name of a stage, empty where it has none.
fn name_of(names: &[String], i: u16) -> &str {
    match names.get(i as usize) {
        Some(name) => name.as_str(),
        None => "",
    }
}

/// Adds a stage with these sources.
fn write_stage_of(
    text: &mut String,
    graph: &mut Graph,
    notes: &Notes,
    said: Said<'_>,
    of: Of,
) -> Result<(), AllocError>
    requires { said.number < length graph.old.state.plan.stages }
{
    match of {
        Of::None => write_stage(text, graph, notes, said, &[]),
        Of::One(a) => write_stage(text, graph, notes, said, &[a]),
        Of::Two(a, b) => write_stage(text, graph, notes, said, &[a, b]),
    }
}

/// Adds a stage: its node, and the edges from its sources and from what it is linked to.
fn write_stage(
    text: &mut String,
    graph: &mut Graph,
    notes: &Notes,
    said: Said<'_>,
    sources: &[u16],
) -> Result<(), AllocError>
    requires { said.number < length graph.old.state.plan.stages }
{
    let note = notes.of(said.number);
    let fate = fate_of(graph, note, said.number);
    write_node(text, said, fate)?;
    write_sources(text, said.form, sources, said.number)?;
    write_links(text, said.form, note.link, said.function, said.number)
}

/// Adds the node of a stage.
fn write_node(text: &mut String, said: Said<'_>, fate: Fate) -> Result<(), AllocError> {
    write!(text, "  s{} [label=\"{} ", said.number, said.number)?;
    write_name(text, said.name)?;
    write!(text, "{}", said.form.name())?;
    if let Some(function) = said.function {
        write_function(text, function)?;
    }
    write!(text, "\\n")?;
    write_fate(text, fate)?;
    writeln!(
        text,
        "\", shape={}, {}];",
        shape_of(said.form),
        look_of(fate)
    )
}
