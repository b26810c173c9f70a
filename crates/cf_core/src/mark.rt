//! The marking of stages that wait for treatment.
ghost use Rattle.std.specs.Prelude.{◌≡◌, ◌<◌, ◌≤◌, All, [], length, slice_set};
ghost use Rattle.cf_core.specs.Keeping.Links.{list_at};
ghost use Rattle.cf_core.specs.Keeping.Sound.{mark_all, mark_one};

use crate::cells::Cells;
use crate::links::Links;
use cf_bits::BitSet;
use cf_plan::AttachedDependents;

/// Marks a stage, if it waits.
#[inline(always)]
pub fn mark(kept: &Cells, marks: &mut BitSet, i: u16)
    requires stage { i < length kept.now.items }
    requires all { length marks.old ≡ length kept.now.items }
    ensures { marks.new ≡ mark_one kept.now.items i marks.old }
{
    if kept.is_waiting(i) {
        marks.insert(i);
    }
}

/// Marks those of these stages that wait. Where there is one at most, as most often, it needs no call of its own.
#[inline(always)]
pub fn mark_few(kept: &Cells, marks: &mut BitSet, stages: &[u16])
    requires stages { All (λ i. i < length kept.now.items) stages.now }
    requires all { length marks.old ≡ length kept.now.items }
    ensures { marks.new ≡ mark_all kept.now.items stages.now marks.old }
{
    match stages {
        [] => {}
        [i] => mark(kept, marks, *i),
        _ => mark_each(kept, marks, stages),
    }
}

/// Marks those of these stages that wait.
pub fn mark_each(kept: &Cells, marks: &mut BitSet, stages: &[u16])
    requires stages { All (λ i. i < length kept.now.items) stages.now }
    requires all { length marks.old ≡ length kept.now.items }
    ensures marks { marks.new ≡ mark_all kept.now.items stages.now marks.old }
    ensures all { length marks.new ≡ length kept.now.items }
{
    for i in stages {
        mark(kept, marks, *i);
    }
}

/// Marks those of these stages that wait, one after another.
#[inline(always)]
pub fn mark_attached_dependents(kept: &Cells, marks: &mut BitSet, stages: AttachedDependents<'_>)
    requires stages { All (λ i. i < length kept.now.items) stages }
    requires all { length marks.old ≡ length kept.now.items }
    ensures marks { marks.new ≡ mark_all kept.now.items stages.entry marks.old }
    ensures all { length marks.new ≡ length kept.now.items }
{
    let mut rest = stages;
    while let Some(i) = rest.pop() {
        mark(kept, marks, i);
    }
}

/// Marks those of the stages linked to `target` that wait, and empties its list.
#[inline(always)]
pub fn mark_linked(kept: &Cells, marks: &mut BitSet, links: &mut Links, target: u16)
    requires target { target < length kept.now.items }
    requires all { length marks.old ≡ length kept.now.items }
    requires linked { All (λ i. i < length kept.now.items) (list_at links.old target) }
    ensures marks { marks.new ≡ mark_all kept.now.items (list_at links.old target) marks.old }
    ensures links { links.new ≡ slice_set links.old target [] }
{
    while let Some(i) = links.pop(target) {
        mark(kept, marks, i);
    }
}
