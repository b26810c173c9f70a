//! How the stages of a plan are kept.
use cf_forms::Form;

/// One stage. Its sources are those from `first` up to `end` of the plan's one block of sources, in which the sources
/// of all stages stand one after another.
#[derive(Clone, Copy)]
pub(crate) struct Row {
    pub(crate) form: Form,
    pub(crate) function: Option<u16>,
    pub(crate) first: u32,
    pub(crate) end: u32,
}
