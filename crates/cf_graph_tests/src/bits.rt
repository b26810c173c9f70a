//! Each call over the borders of words and at the greatest length, as rows.
use cf_bits::BitSet;
use std::process::Abort;
use std::test::Fail;

/// A call of a set, with its answer last where it has one.
#[derive(Clone, Copy)]
enum Step {
    Insert(u16),
    Remove(u16),
    Grow,
    Reset(u16),
    Lowest(Option<u16>),
    Contains(u16, bool),
    Bound(u16),
}

/// Changes a set, or asks it. It says whether the call may be made, and is answered so.
fn is_answered(set: &mut BitSet, step: Step) -> bool {
    match step {
        Step::Insert(i) if i < set.bound() => set.insert(i),
        Step::Remove(i) if i < set.bound() => set.remove(i),
        Step::Grow if set.bound() < 4096 => set.grow(),
        Step::Reset(bound) if bound <= 4096 => set.reset(bound),
        Step::Lowest(answer) => return set.lowest() == answer,
        Step::Contains(i, answer) => return i < set.bound() && set.contains(i) == answer,
        Step::Bound(answer) => return set.bound() == answer,
        _ => return false,
    }
    true
}

/// The set takes these steps, and each is answered as it says.
fn take(rt: &impl Abort, set: &mut BitSet, steps: &[Step]) {
    for (at, step) in steps.iter().enumerate() {
        assert!(rt; is_answered(set, *step), "step {at}");
    }
}

#[test]
fn finds_the_least_number(rt: HostRuntime) -> Result<(), Fail> {
    let steps = [
        Step::Lowest(None),
        Step::Insert(4095),
        Step::Lowest(Some(4095)),
        Step::Insert(64),
        Step::Lowest(Some(64)),
        Step::Insert(63),
        Step::Lowest(Some(63)),
        Step::Insert(0),
        Step::Lowest(Some(0)),
        Step::Bound(4096),
        Step::Contains(63, true),
        Step::Contains(65, false),
        Step::Remove(0),
        Step::Lowest(Some(63)),
        Step::Remove(63),
        Step::Lowest(Some(64)),
        Step::Remove(64),
        Step::Lowest(Some(4095)),
        Step::Remove(4095),
        Step::Lowest(None),
    ];
    let mut set = BitSet::new(rt.alloc(), 4096)?;
    take(&rt, &mut set, &steps);
    Ok(())
}

#[test]
fn grows_by_a_number_that_is_not_in(rt: HostRuntime) -> Result<(), Fail> {
    let steps = [
        Step::Grow,
        Step::Grow,
        Step::Bound(65),
        Step::Lowest(None),
        Step::Insert(64),
        Step::Lowest(Some(64)),
    ];
    let mut set = BitSet::new(rt.alloc(), 63)?;
    take(&rt, &mut set, &steps);
    Ok(())
}

#[test]
fn resets_to_the_empty_set(rt: HostRuntime) -> Result<(), Fail> {
    let steps = [
        Step::Insert(0),
        Step::Insert(65),
        Step::Insert(4095),
        Step::Reset(70),
        Step::Bound(70),
        Step::Lowest(None),
        Step::Contains(65, false),
        Step::Insert(66),
        Step::Lowest(Some(66)),
        Step::Reset(4096),
        Step::Bound(4096),
        Step::Lowest(None),
        Step::Contains(4095, false),
    ];
    let mut set = BitSet::new(rt.alloc(), 4096)?;
    take(&rt, &mut set, &steps);
    Ok(())
}
