//! What the notes of a row say of one stage.

/// When a stage is settled, if it isn't settled by then.
#[derive(Clone, Copy, Debug, PartialEq, Eq)]
pub struct Timer {
    /// The moment, in milliseconds on the store's clock.
    pub moment: u64,
    /// Whether the stage is completed with the payload at the place. Else it times out.
    pub gives: bool,
    /// The place of the timer's entry, counted from 1.
    pub place: u64,
}

/// What the notes of a row say of one stage.
#[derive(Clone, Copy, Debug, PartialEq, Eq)]
pub struct Noted {
    /// Its function: 0 where the process doesn't know it, and none where the stage has no function.
    pub function: Option<u32>,
    /// The stage that it tries again.
    pub tries: Option<u16>,
    /// The promise that is settled as the stage is that its function gives.
    pub promise: Option<u16>,
    /// Of a promise: the stage that was given, as which it is settled.
    pub given: Option<u16>,
    /// When it is settled, if it isn't settled by then. What was said last counts.
    pub timer: Option<Timer>,
    /// The code of the word by which it was failed since its session was gone.
    pub abandoned: Option<u32>,
}
