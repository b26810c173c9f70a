//! How much a desk holds.

/// How much a desk holds. The memory for all of it is taken when the desk is opened.
#[derive(Clone, Copy, Debug, Drop, PartialEq, Eq)]
pub struct DeskSizes {
    /// How many callers share the desk, 1 to 64. Any other number is answered by `OpenFault::Callers`. Callers are numbered
    /// from 0, and each has one pass.
    pub callers: u8,
    /// How many words the log has, 1 to 65,535. Each event takes one. 0 is answered by `OpenFault::Log`. Once the log is
    /// full, a call that would add an event is answered by `DeskFault::LogFull`. A word takes 8 bytes.
    pub log: u16,
    /// How many records each pass may hold, 1 to 65,535: one for each call that was answered. 0 is answered by
    /// `OpenFault::Calls`. Once a pass is full, its next call is answered by `DeskFault::PassFull`.
    pub calls: u16,
}

/// How far a desk may grow: what callers may attach while they share it.
#[derive(Clone, Copy, Debug, Drop, PartialEq, Eq)]
pub struct DeskGrowth {
    /// How many stages callers may attach. 0 lets them attach none. With the plan's own stages there may be at most
    /// `MAX_STAGES`, and with two edges for each attached stage at most `MAX_EDGES` edges. A larger number is answered by
    /// `OpenFault::Room`.
    pub room: u16,
    /// How many functions there are, numbered from 0. Each function of the plan has a lower number than this, or the opening
    /// is answered by `OpenFault::Functions`. A stage with any other function is refused when it is attached, by
    /// `DeskFault::BadAttach`.
    pub functions: u32,
}
