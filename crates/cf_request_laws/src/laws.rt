//! The contract of each function is the statement, and its body is empty.
ghost use Rattle.cf_request_laws.specs.Roots.{AllOfRootsAreAsOne, AnyOfRootsHaveTheFirst, RootsAreInTime, RootsEndAsOne};

/// After any row of calls behind a gather, the root waits as one stage over all sources would, or it has what that stage takes
/// where it is settled. One case is left out: while both waited, one of the stages that gather was settled by an event behind
/// which its own sources leave it waiting, or by a tick.
pub fn roots_end_as_one()
    ensures { RootsEndAsOne }
{}

/// A root of allOf has at any time what one stage of allOf over all sources would have, but for that case.
pub fn all_of_roots_are_as_one()
    ensures { AllOfRootsAreAsOne }
{}

/// A root of anyOf has the outcome of a source that was settled first in the order of events, and is open while none is, but
/// for that case. Where several were settled by one event, or before they were gathered, it is the first of them in the row of
/// sources, as `roots_end_as_one` says.
pub fn any_of_roots_have_the_first()
    ensures { AnyOfRootsHaveTheFirst }
{}

/// In each case the root is settled once one stage over all sources would be. So of allOf it is open only while a
/// source is, and of anyOf only while all are.
pub fn roots_are_in_time()
    ensures { RootsAreInTime }
{}
