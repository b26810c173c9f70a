//! What was found, as text.
use crate::ends::Grouped;
use crate::question::Question;
use cf_explore::{Found, How, Witness};
use cf_text::write_settled;
use std::alloc::{AllocError, Global};

/// Whether something that must hold does.
#[derive(Clone, Copy, PartialEq, Eq)]
pub enum Standing {
    /// It does: all orders were seen, and it holds of each. For `possible` an order shows it.
    Holds,
    /// It doesn't: an order shows it. For `possible` all orders were seen, and none shows it.
    Fails,
    /// Nobody knows: no order that was seen decides it, and not all were seen.
    Open,
}

/// Whether it does, by whether an order decides it and whether all orders were seen.
pub fn standing_of(how: How, is_decided: bool, is_whole: bool) -> Standing {
    match (how, is_decided, is_whole) {
        (How::Possible, true, _) => Standing::Holds,
        (How::Possible, false, true) => Standing::Fails,
        (_, true, _) => Standing::Fails,
        (_, false, true) => Standing::Holds,
        (_, false, false) => Standing::Open,
    }
}

/// What was found, in lines.
pub fn text_of(
    alloc: Global,
    question: &Question,
    found: &Found,
    groups: &[Grouped],
) -> Result<String, AllocError> {
    let mut out = String::new(alloc);
    write_found(&mut out, found, groups)?;
    write_all_asked(&mut out, question, found, groups.len())?;
    Ok(out)
}

/// Adds how much was seen, and the ends.
fn write_found(out: &mut String, found: &Found, groups: &[Grouped]) -> Result<(), AllocError> {
    write_seen(out, found)?;
    for (k, group) in groups.iter().enumerate() {
        write_end(out, k, group)?;
    }
    Ok(())
}

/// Adds how each that must hold stands, where the first order that decides one has this number.
fn write_all_asked(
    out: &mut String,
    question: &Question,
    found: &Found,
    first: usize,
) -> Result<(), AllocError> {
    let mut number = first;
    for (k, (text, condition)) in question
        .texts
        .iter()
        .zip(question.conditions.iter())
        .enumerate()
    {
        let decided = found.decisions.get(k).copied().flatten();
        let stands = standing_of(condition.how, decided.is_some(), found.whole);
        write_asked(out, text, stands)?;
        write_by(out, decided, number)?;
        if decided.is_some() {
            number = number.saturating_add(1);
        }
    }
    Ok(())
}

/// Adds how much was seen.
fn write_seen(out: &mut String, found: &Found) -> Result<(), AllocError> {
    let situations = found.trail.len();
    let most = found.moves.saturating_sub(1);
    if found.whole {
        writeln!(
            out,
            "{situations} situations: all orders, of at most {most} moves"
        )
    } else {
        writeln!(
            out,
            "{situations} situations, not all: the orders of at most {most} moves"
        )
    }
}

/// Adds an end: how many orders lead to it, and the outcomes.
fn write_end(out: &mut String, k: usize, group: &Grouped) -> Result<(), AllocError> {
    write!(out, "end {k}: ")?;
    write_count(out, group.orders)?;
    writeln!(out, ", the first of {} moves", group.witness.moves)?;
    for (i, outcome) in group.outcomes.iter() {
        write!(out, "  stage {i} ")?;
        write_settled(out, *outcome)?;
        out.push('\n')?;
    }
    Ok(())
}

/// Adds a number of orders.
fn write_count(out: &mut String, orders: u128) -> Result<(), AllocError> {
    match orders {
        u128::MAX => write!(out, "more than {} orders", u128::MAX - 1),
        1 => write!(out, "1 order"),
        _ => write!(out, "{orders} orders"),
    }
}

/// Adds how something that must hold stands.
fn write_asked(out: &mut String, asked: &str, stands: Standing) -> Result<(), AllocError> {
    let word = match stands {
        Standing::Holds => "holds",
        Standing::Fails => "fails",
        Standing::Open => "open",
    };
    write!(out, "{word}: {asked}")
}

/// Adds the number of the order that decides it, if one does.
fn write_by(out: &mut String, decided: Option<Witness>, number: usize) -> Result<(), AllocError> {
    if let Some(witness) = decided {
        write!(out, ", by order {number} of {} moves", witness.moves)?;
    }
    out.push('\n')
}
