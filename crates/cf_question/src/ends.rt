//! Ends by the outcomes of some stages.
use cf_explore::{End, Found, Witness};
use cf_outcome::Outcome;
use std::alloc::{AllocError, Global};

/// The ends in which the stages that are asked for have these outcomes: how many orders lead to them, and one of the shortest
/// orders.
#[derive(Drop)]
pub struct Grouped {
    /// Stages with their outcomes.
    pub outcomes: Vec<(u16, Option<Outcome>)>,
    pub orders: u128,
    pub witness: Witness,
}

/// The ends by these stages' outcomes, or by those of all stages.
pub fn grouped_by(
    alloc: Global,
    found: &Found,
    of: Option<&[u16]>,
) -> Result<Vec<Grouped>, AllocError> {
    let mut groups: Vec<Grouped> = Vec::new(alloc);
    for end in found.ends.iter() {
        add(alloc, &mut groups, end, of)?;
    }
    Ok(groups)
}

/// Adds an end to those with the same outcomes, or behind all others.
fn add(
    alloc: Global,
    groups: &mut Vec<Grouped>,
    end: &End,
    of: Option<&[u16]>,
) -> Result<(), AllocError> {
    let outcomes = told(alloc, end.outcomes.as_slice(), of)?;
    for group in groups.iter_mut() {
        if group.outcomes == outcomes {
            group.orders = group.orders.saturating_add(end.orders);
            group.witness = shorter(group.witness, end.witness);
            return Ok(());
        }
    }
    groups.push(Grouped {
        outcomes,
        orders: end.orders,
        witness: end.witness,
    })?;
    Ok(())
}

fn shorter(one: Witness, other: Witness) -> Witness {
    if other.moves < one.moves { other } else { one }
}

/// The outcomes of the stages that are asked for.
fn told(
    alloc: Global,
    outcomes: &[Option<Outcome>],
    of: Option<&[u16]>,
) -> Result<Vec<(u16, Option<Outcome>)>, AllocError> {
    let mut told = Vec::new(alloc);
    let count = match of {
        None => outcomes.len(),
        Some(of) => of.len(),
    };
    for k in 0..count {
        let i = asked_at(of, k);
        told.push((i, outcomes.get(usize::from(i)).copied().flatten()))?;
    }
    Ok(told)
}

/// The k-th stage that is asked for.
fn asked_at(of: Option<&[u16]>, k: usize) -> u16 {
    match of {
        None => u16::try_from(k).unwrap_or(u16::MAX),
        Some(of) => of.get(k).copied().unwrap_or(u16::MAX),
    }
}
