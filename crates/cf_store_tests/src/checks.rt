//! How a test says what it wants: each call ends the test where that doesn't hold. The same in line is a way out, and dear to prove.
ghost use Rattle.std.specs.Prelude.{◌≡◌, IsTrue, Ok};

use std::fmt::Debug;
use std::process::Abort;

/// This holds. The name tells what doesn't.
pub(crate) fn holds<N: Debug + Drop>(rt: &impl Abort, is_so: bool, name: N)
    ensures { IsTrue is_so }
{
    assert!(rt; is_so, "{name:?}");
}

/// What was answered, which is no error.
pub(crate) fn must<T: Drop, E: Debug + Drop>(rt: &impl Abort, told: Result<T, E>) -> T
    ensures { told ≡ Ok result }
{
    match told {
        Ok(told) => told,
        Err(fault) => panic!(rt; "{fault:?}"),
    }
}
