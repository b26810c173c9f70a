//! Which sources a plan has, and how often it is copied.
use crate::plan::tables::Row;
use cf_forms::Of;
use cf_plan::Plan;
use std::alloc::Global;

/// Which sources are below so many stages.
pub(super) const BELOW: [Row; 6] = [
    Row::Below(Of::None, 0, true),
    Row::Below(Of::One(0), 0, false),
    Row::Below(Of::One(3), 4, true),
    Row::Below(Of::Two(3, 3), 4, true),
    Row::Below(Of::Two(4, 3), 4, false),
    Row::Below(Of::Two(3, 4), 4, false),
];

/// Whether a plan can be copied so often, while all copies are kept.
pub(crate) fn copies(alloc: Global, plan: &Plan, times: u32) -> bool {
    let mut copies = Vec::new(alloc);
    for _ in 0..times {
        let Ok(copy) = plan.copy() else {
            return false;
        };
        if copies.push(copy).is_err() {
            return false;
        }
    }
    true
}
