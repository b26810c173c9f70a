//! What stands in a row beside a word.

/// What stands in a row beside a word, in numbers.
///
/// A function is named by a number of each process's own: the host translates the names that stand in the store. 0 is a
/// function that the process doesn't know.
#[derive(Clone, Copy, Debug, PartialEq, Eq)]
pub enum Note {
    Nothing,
    /// Beside an attach: the function of the stage.
    Calls {
        function: u32,
    },
    /// Beside an attach: the stage has the function of this one, which it tries again.
    Tries {
        of: u16,
    },
    /// Beside the attach of a stage that composes: its function, and the promise that is settled as the stage is that
    /// the function gives.
    Composes {
        function: u32,
        promise: u16,
    },
    /// Beside the finish of a stage that composes, which links it to its promise: the stage that its function gave.
    Gives {
        stage: u16,
    },
    /// Beside a tick: the stage is settled at a moment of the store's clock, in milliseconds, if it isn't settled by
    /// then. It is completed with the payload that stands there, or else times out.
    Timer {
        stage: u16,
        moment: u64,
        gives: bool,
    },
    /// Beside a fail: the stage is failed since the session that has it is gone.
    Abandons,
}
