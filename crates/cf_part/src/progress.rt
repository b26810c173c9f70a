//! How far the call of a stage's function has come in this process.

/// How far the call of a stage's function has come in this process. It only goes on, from above downwards.
#[derive(Clone, Copy, Debug, PartialEq, Eq)]
pub enum Progress {
    /// It wasn't told to call the function.
    NotCalled,
    /// The function was called and hasn't ended.
    Runs,
    /// Neither has it ended, and the process was told that the stage was settled otherwise.
    Stopped,
    /// The function has ended.
    Ended,
}
