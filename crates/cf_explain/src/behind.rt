//! The limits that never fire, since another settles their stage first.
ghost use Rattle.std.specs.Prelude.{◌≡◌, ◌++◌, IfOk, OnOk, option_map};
ghost use Rattle.serde_json.specs.View.{items_view, view};
ghost use Rattle.cf_explain.specs.Limits.{behinds, behinds_from, fires_before, firing_of, firings_of, first_from, number_in, remarks_of_limit};

use crate::place::Place;
use crate::remark::Remark;
use crate::unread::items;
use serde_json::Value as Json;
use std::alloc::{AllocError, Global};

/// When a limit fires, and on which stage.
#[derive(Clone, Copy)]
pub(crate) struct Firing {
    pub(crate) stage: u64,
    pub(crate) at: u64,
}

/// Remarks the limits of a script that is right whose stage another limit settles before they could.
pub(crate) fn remark_behind(
    alloc: Global,
    json: &Json,
    remarks: &mut Vec<Remark>,
) -> Result<(), AllocError>
    ensures { OnOk result (remarks.new.items ≡ remarks.old.items ++ behinds (view json.now)) }
{
    let firings = firings_of(alloc, items(json.get("limits")))?;
    remark_all(&firings, remarks)
}

/// When these limits fire.
fn firings_of(alloc: Global, limits: &[Json]) -> Result<Vec<Firing>, AllocError>
    ensures { IfOk result (λ v. v.items ≡ firings_of (items_view limits.now)) }
{
    let mut firings = Vec::new(alloc);
    'limits: for limit in limits {
        firings.push(firing_of(limit))?;
    }
    Ok(firings)
}

/// When a limit fires, as it is written.
fn firing_of(limit: &Json) -> Firing
    ensures { result ≡ firing_of (view limit.now) }
{
    Firing {
        stage: number_in(limit.get("stage")),
        at: number_in(limit.get("at")),
    }
}

fn number_in(said: Option<&Json>) -> u64
    ensures { result ≡ number_in (option_map (λ v. view v.now) said.entry) }
{
    match said {
        Some(json) => json.as_u64().unwrap_or(0),
        None => 0,
    }
}

/// Remarks each limit whose stage another settles before it could.
fn remark_all(firings: &[Firing], remarks: &mut Vec<Remark>) -> Result<(), AllocError>
    ensures { OnOk result (remarks.new.items ≡ remarks.old.items ++ behinds_from firings.now 0 firings.now) }
{
    'limits: for (k, limit) in firings.iter().enumerate() {
        remark_limit(firings, k, *limit, remarks)?;
    }
    Ok(())
}

/// Remarks limit k, if another settles its stage before it could.
fn remark_limit(
    firings: &[Firing],
    k: usize,
    limit: Firing,
    remarks: &mut Vec<Remark>,
) -> Result<(), AllocError>
    ensures { OnOk result (remarks.new.items ≡ remarks.old.items ++ remarks_of_limit firings.now k limit) }
{
    if let Some(j) = first_before(firings, k, limit) {
        remarks.push(Remark::Behind(Place::limit(k), Place::limit(j)))?;
    }
    Ok(())
}

/// Whether limit j settles the stage of limit k before that could: it fires earlier, or at the same moment and stands before
/// it.
fn fires_before(j: usize, other: Firing, k: usize, limit: Firing) -> bool
    ensures { result ≡ fires_before j other k limit }
{
    other.stage == limit.stage && (other.at < limit.at || other.at == limit.at && j < k)
}

/// The first limit that settles the stage of limit k before that could.
fn first_before(firings: &[Firing], k: usize, limit: Firing) -> Option<usize>
    ensures { result ≡ first_from 0 firings.now k limit }
{
    'others: for (j, other) in firings.iter().enumerate() {
        if fires_before(j, *other, k, limit) {
            return Some(j);
        }
    }
    None
}
