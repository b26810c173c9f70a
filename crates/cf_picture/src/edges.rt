//! Edges to a stage: from its sources, and from the stages that it may take its outcome from.
use crate::kinds::is_ordered;
use cf_forms::{Form, composes};
use cf_script_reading::Func;
use std::alloc::AllocError;

/// Adds an edge from each source, in the order of arguments.
pub(crate) fn write_sources(
    text: &mut String,
    form: Form,
    sources: &[u16],
    i: u16,
) -> Result<(), AllocError> {
    for (k, j) in sources.iter().enumerate() {
        write_source(text, form, k, *j, i)?;
    }
    Ok(())
}

/// Adds the edge from source j, the argument behind k others, to stage i.
fn write_source(text: &mut String, form: Form, k: usize, j: u16, i: u16) -> Result<(), AllocError> {
    if is_ordered(form) {
        let place = if k == 0 { 1u8 } else { 2 };
        writeln!(text, "  s{j} -> s{i} [label=\"{place}\"];")
    } else {
        writeln!(text, "  s{j} -> s{i};")
    }
}

/// Adds the links of a stage that takes the outcome of another: from the one that a finish linked it to, and else from each
/// that its function names.
pub(crate) fn write_links(
    text: &mut String,
    form: Form,
    linked: Option<u16>,
    function: Option<Func>,
    i: u16,
) -> Result<(), AllocError> {
    if !composes(form) {
        return Ok(());
    }
    match (linked, function) {
        (Some(j), _) => write_link(text, j, i),
        (None, Some(Func::Goto(j))) => write_link(text, j, i),
        (None, Some(Func::Select(j, k))) => {
            write_link(text, j, i)?;
            write_link(text, k, i)
        }
        _ => Ok(()),
    }
}

/// Adds the link of stage i to stage j, which has to be lower: to another it can't be linked.
fn write_link(text: &mut String, j: u16, i: u16) -> Result<(), AllocError> {
    if j < i {
        writeln!(text, "  s{j} -> s{i} [label=\"link\", style=dashed];")
    } else {
        Ok(())
    }
}
