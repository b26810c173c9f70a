//! Limits, as notes beside their stages.
use cf_forms::{Limit, LimitKind};
use std::alloc::AllocError;

/// Adds a note for each limit, in firing order.
pub(crate) fn write_limits(text: &mut String, limits: &[Limit]) -> Result<(), AllocError> {
    for (k, limit) in limits.iter().enumerate() {
        write_limit(text, k, *limit)?;
    }
    Ok(())
}

/// Adds the note of the limit that fires behind k others.
fn write_limit(text: &mut String, k: usize, limit: Limit) -> Result<(), AllocError> {
    let Limit { stage, at, kind } = limit;
    match kind {
        LimitKind::Timeout(0) => write!(text, "  l{k} [label=\"timeout {at}\"")?,
        LimitKind::Timeout(code) => write!(text, "  l{k} [label=\"timeout {at} code {code}\"")?,
        LimitKind::Give(v) => write!(text, "  l{k} [label=\"complete {at} value {v}\"")?,
    }
    writeln!(text, ", shape=note, style=solid, fontsize=9];")?;
    writeln!(text, "  l{k} -> s{stage} [style=dotted, arrowhead=none];")
}
