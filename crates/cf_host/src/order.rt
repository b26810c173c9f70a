//! What a process has to do next, and why a call is refused.
use crate::news::Look;
use cf_forms::Args;
use cf_part::{Question, Shown};
use cf_turn::Told;

/// What a process has to do next. A question or a call is answered by its ticket.
#[derive(Clone, Copy, Debug, PartialEq, Eq)]
pub enum Order {
    /// Beat, and ask the store for all sessions' beats and for its clock.
    Beats {
        ticket: u64,
    },
    /// Ask the store which requests are new or have more words.
    News {
        ticket: u64,
        look: Look,
    },
    /// Ask the store for a request: its plan, the notes of its stages, and whether it is a flow's.
    Open {
        ticket: u64,
        request: u64,
    },
    /// Ask the store this of a request's row. The entries of a put are those of the request's part.
    Row {
        ticket: u64,
        request: u64,
        question: Question,
    },
    /// Call the function of a stage with these arguments.
    Call {
        ticket: u64,
        request: u64,
        stage: u16,
        function: u32,
        args: Args,
    },
    /// The stage of this call was settled otherwise: its function may end.
    Stop {
        ticket: u64,
    },
    /// Tell those who wait for a stage.
    Show {
        request: u64,
        stage: u16,
        shown: Shown,
    },
    /// Tell a user what became of the act that has this ticket.
    Tell {
        ticket: u64,
        told: Told,
    },
    /// Nothing is to be done before this moment, unless an answer or a call comes.
    Sleep {
        until: u64,
    },
}

/// Why an answer is refused. It changes nothing then.
#[derive(Clone, Copy, Debug, PartialEq, Eq)]
pub enum NoAnswer {
    /// No such ticket is open, as behind its answer.
    NoTicket,
    /// The ticket is of another kind of question.
    Unfit,
    /// There is no memory. The ticket stays open.
    NoMemory,
}

/// Why a user's call is refused. It changes nothing then.
#[derive(Clone, Copy, Debug, PartialEq, Eq)]
pub enum NoCall {
    /// The process doesn't work on such a request, or hasn't opened it.
    NotOpen,
    /// The request has no such stage, or no place for so many stages more, or the act doesn't fit its form.
    Unfit,
    /// There is no memory.
    NoMemory,
}
