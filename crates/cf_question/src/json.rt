//! What was found, as JSON.
use crate::ends::Grouped;
use crate::question::Question;
use crate::telling::{Standing, standing_of};
use crate::witness::{OrderShape, witness_of};
use cf_explore::{Found, Witness};
use cf_outcome::Outcome;
use cf_text::write_settled;
use std::alloc::{AllocError, Global};

/// What was found as one JSON object, each order with its account and its script.
pub fn json_of(
    alloc: Global,
    question: &Question,
    found: &Found,
    groups: &[Grouped],
) -> Result<String, AllocError> {
    let mut out = String::new(alloc);
    write!(
        out,
        "{{\"situations\":{},\"moves\":{},\"whole\":{},\n\"ends\":[",
        found.trail.len(),
        found.moves.saturating_sub(1),
        found.whole
    )?;
    write_ends(alloc, &mut out, question, found, groups)?;
    write!(out, "],\n\"conditions\":[")?;
    write_all_asked(alloc, &mut out, question, found)?;
    writeln!(out, "]}}")?;
    Ok(out)
}

fn write_ends(
    alloc: Global,
    out: &mut String,
    question: &Question,
    found: &Found,
    groups: &[Grouped],
) -> Result<(), AllocError> {
    for (k, group) in groups.iter().enumerate() {
        if k > 0 {
            out.push(',')?;
        }
        write_end(alloc, out, question, found, group)?;
    }
    Ok(())
}

fn write_all_asked(
    alloc: Global,
    out: &mut String,
    question: &Question,
    found: &Found,
) -> Result<(), AllocError> {
    for k in 0..question.texts.len() {
        if k > 0 {
            out.push(',')?;
        }
        write_asked(alloc, out, question, found, k)?;
    }
    Ok(())
}

/// Adds an end. The number of orders is a text, since readers of JSON lose digits of large numbers.
fn write_end(
    alloc: Global,
    out: &mut String,
    question: &Question,
    found: &Found,
    group: &Grouped,
) -> Result<(), AllocError> {
    write!(
        out,
        "\n{{\"orders\":\"{}\",\"more\":{},\"outcomes\":{{",
        group.orders,
        group.orders == u128::MAX
    )?;
    write_outcomes(out, &group.outcomes)?;
    out.push('}')?;
    write_order(alloc, out, question, found, group.witness)?;
    out.push('}')
}

fn write_outcomes(out: &mut String, outcomes: &[(u16, Option<Outcome>)]) -> Result<(), AllocError> {
    let mut comma = "";
    for (i, outcome) in outcomes.iter() {
        write!(out, "{comma}\"{i}\":\"")?;
        write_settled(out, *outcome)?;
        out.push('"')?;
        comma = ",";
    }
    Ok(())
}

/// Adds something that must hold.
fn write_asked(
    alloc: Global,
    out: &mut String,
    question: &Question,
    found: &Found,
    k: usize,
) -> Result<(), AllocError> {
    let (Some(text), Some(condition)) = (question.texts.get(k), question.conditions.get(k)) else {
        return Ok(());
    };
    let decided = found.decisions.get(k).copied().flatten();
    let holds = match standing_of(condition.how, decided.is_some(), found.whole) {
        Standing::Holds => "true",
        Standing::Fails => "false",
        Standing::Open => "null",
    };
    let (word, facts) = text.split_once(' ').unwrap_or(("", "null"));
    write!(
        out,
        "\n{{\"how\":\"{word}\",\"facts\":{facts},\"holds\":{holds}"
    )?;
    if let Some(witness) = decided {
        write_order(alloc, out, question, found, witness)?;
    }
    out.push('}')
}

/// Adds an order.
fn write_order(
    alloc: Global,
    out: &mut String,
    question: &Question,
    found: &Found,
    witness: Witness,
) -> Result<(), AllocError> {
    write!(out, ",\"moves\":{},\n\"account\":", witness.moves)?;
    write_retold(alloc, out, question, found, witness, OrderShape::Account)?;
    out.push_str(",\n\"script\":")?;
    write_retold(alloc, out, question, found, witness, OrderShape::Script)
}

/// Adds what is told of an order.
fn write_retold(
    alloc: Global,
    out: &mut String,
    question: &Question,
    found: &Found,
    witness: Witness,
    shape: OrderShape,
) -> Result<(), AllocError> {
    let text = witness_of(alloc, question, found, witness, shape)?;
    out.push_str(&text)
}
