//! What a host of a store has to do next, as C has it.
ghost use Rattle.std.specs.Prelude.{◌≡◌};
ghost use Rattle.cf_c_handles.specs.HostOrders.{as_order, fault_number, no_act_number, ordering, told_as, with_look, with_question, with_shown};

use crate::values::{CfArgs, CfOutcome, as_args, as_outcome};
use cf_due::NoAct;
use cf_forms::Args;
use cf_host::{Look, Order};
use cf_part::{Fault, Question, Shown};
use cf_turn::Told;

/// What a host has to do next.
///
/// | Order | `kind` | Besides |
/// |---|---|---|
/// | sleep | 0 | until a `moment` |
/// | beat, and ask for all beats and for the clock | 1 | `ticket` |
/// | ask which requests are open | 2 | `ticket` |
/// | ask which requests changed behind a mark | 3 | `ticket`, `moment` for the mark |
/// | ask for a request's plan | 4 | `ticket`, `request` |
/// | ask which entries stand in its row | 5 | `ticket`, `request`, from a `place` on |
/// | put entries there | 6 | `ticket`, `request`, at a `place` |
/// | close it | 7 | `ticket`, `request`, if so many entries stand there: `place` |
/// | call a function | 8 | `ticket`, `request`, `stage`, `function`, `args` |
/// | a function may end | 9 | the `ticket` of its call |
/// | tell those who wait for a stage | 10 | `request`, `stage`, `outcome`, or `told` where there is none |
/// | tell the user of an act | 11 | its `ticket`, `told`, `stage` |
///
/// What an order doesn't have is 0.
#[repr(C)]
#[derive(Clone, Copy)]
pub struct CfHostOrder {
    pub kind: u32,
    pub told: u32,
    pub ticket: u64,
    pub request: u64,
    pub stage: u16,
    pub function: u32,
    pub place: usize,
    pub moment: u64,
    pub args: CfArgs,
    pub outcome: CfOutcome,
}

/// An order for C.
pub(crate) fn as_order(order: Order) -> CfHostOrder
    ensures { result ≡ as_order order }
{
    match order {
        Order::Sleep { until } => CfHostOrder {
            moment: until,
            ..ordering(0, 0, 0)
        },
        Order::Beats { ticket } => ordering(1, ticket, 0),
        Order::News { ticket, look } => with_look(look, ticket),
        Order::Open { ticket, request } => ordering(4, ticket, request),
        Order::Row {
            ticket,
            request,
            question,
        } => with_question(question, ticket, request),
        Order::Call {
            ticket,
            request,
            stage,
            function,
            args,
        } => CfHostOrder {
            stage,
            function,
            args: as_args(args),
            ..ordering(8, ticket, request)
        },
        Order::Stop { ticket } => ordering(9, ticket, 0),
        Order::Show {
            request,
            stage,
            shown,
        } => with_shown(shown, stage, ordering(10, 0, request)),
        Order::Tell { ticket, told } => told_as(told, ordering(11, ticket, 0)),
    }
}

/// An order of this kind with nothing else.
fn ordering(kind: u32, ticket: u64, request: u64) -> CfHostOrder
    ensures { result ≡ ordering kind ticket request }
{
    CfHostOrder {
        kind,
        told: 0,
        ticket,
        request,
        stage: 0,
        function: 0,
        place: 0,
        moment: 0,
        args: as_args(Args::None),
        outcome: as_outcome(None),
    }
}

/// The order to look at what is new.
fn with_look(look: Look, ticket: u64) -> CfHostOrder
    ensures { result ≡ with_look look ticket }
{
    match look {
        Look::Whole => ordering(2, ticket, 0),
        Look::Since(mark) => CfHostOrder {
            moment: mark,
            ..ordering(3, ticket, 0)
        },
    }
}

/// The order to ask this of a request's row.
fn with_question(question: Question, ticket: u64, request: u64) -> CfHostOrder
    ensures { result ≡ with_question question ticket request }
{
    let (kind, place) = match question {
        Question::Read { at } => (5, at),
        Question::Put { at } => (6, at),
        Question::Close { at } => (7, at),
    };
    CfHostOrder {
        place,
        ..ordering(kind, ticket, request)
    }
}

/// The order to show a stage so.
fn with_shown(shown: Shown, stage: u16, order: CfHostOrder) -> CfHostOrder
    ensures { result ≡ with_shown shown stage order }
{
    match shown {
        Shown::Outcome(outcome) => CfHostOrder {
            stage,
            outcome: as_outcome(Some(outcome)),
            ..order
        },
        Shown::Fault(fault) => CfHostOrder {
            stage,
            told: fault_number(fault),
            ..order
        },
    }
}

/// The order to tell a user this.
fn told_as(told: Told, order: CfHostOrder) -> CfHostOrder
    ensures { result ≡ told_as told order }
{
    let (told, stage) = match told {
        Told::Stands { stage } => (0, stage),
        Told::Closed => (1, 0),
        Told::Refused => (2, 0),
        Told::Unknown => (3, 0),
        Told::Not(why) => (no_act_number(why), 0),
        Told::Ended(fault) => (fault_number(fault), 0),
    };
    CfHostOrder {
        told,
        stage,
        ..order
    }
}

/// The number of the reason for which nothing is put.
fn no_act_number(why: NoAct) -> u32
    ensures { result ≡ no_act_number why }
{
    match why {
        NoAct::NoStage => 4,
        NoAct::NoRoom => 5,
        NoAct::NoTry => 6,
        NoAct::Settled { is_as_asked: false } => 7,
        NoAct::Settled { is_as_asked: true } => 8,
        NoAct::Runs => 9,
    }
}

/// The number of the reason for which nothing goes on in a request.
pub(crate) fn fault_number(fault: Fault) -> u32
    ensures { result ≡ fault_number fault }
{
    match fault {
        Fault::Broken => 10,
        Fault::Dropped => 11,
        Fault::Payload => 12,
    }
}
