//! Each call once, as a host makes them.
use crate::checks::holds;
use cf_host::{Asked, Look, News, Reading, Tickets};
use std::alloc::AllocError;

#[test]
fn a_timer_comes_by_the_stores_clock(rt: HostRuntime) {
    let reading = Reading {
        shown: 5000,
        asked: 10,
        now: 30,
    };
    let has_come = reading.has_come(5000) & !reading.has_come(5001);
    let after = reading.moment_after(40, 100) == Some(5130);
    let never = reading.moment_after(40, u64::MAX).is_none();
    let is_due = reading.due_at(5130) == 160;
    holds(&rt, has_come & after & never & is_due, "reading");
}

#[test]
fn each_ticket_is_answered_once(rt: HostRuntime) -> Result<(), AllocError> {
    let mut tickets = Tickets::new(rt.alloc());
    tickets.reserve()?;
    let beats = tickets.open(Asked::Beats, 5);
    tickets.reserve()?;
    let call = Asked::Call {
        request: 7,
        stage: 2,
    };
    let call = tickets.open(call, 6);
    let is_open = tickets.find(call.number) == Some(call);
    holds(
        &rt,
        is_open & (tickets.call_of(7, 2) == call.number),
        "open",
    );
    tickets.close(call.number);
    let is_closed = tickets.find(call.number).is_none() & (tickets.call_of(7, 2) == 0);
    let others = tickets.find(beats.number) == Some(beats);
    holds(&rt, is_closed & others, "closed");
    Ok(())
}

/// What is asked of the news at a moment.
#[derive(Clone, Copy)]
enum Step {
    /// A look, or none.
    Asks(Option<Look>),
    /// A look, which is answered with this mark.
    Reads(Look, u64),
    Silence,
    Stir,
    WantAll,
}

static STEPS: [(u64, Step); 10] = [
    (0, Step::Asks(Some(Look::Whole))),
    (0, Step::Asks(None)),
    (10, Step::Silence),
    (29, Step::Asks(None)),
    (30, Step::Reads(Look::Whole, 9)),
    (229, Step::Asks(None)),
    (230, Step::Reads(Look::Since(9), 11)),
    (231, Step::Stir),
    (231, Step::WantAll),
    (231, Step::Reads(Look::Whole, 12)),
];

/// Whether this look is asked for, and answered with this mark.
fn is_read(news: &mut News, now: u64, wanted: Look, mark: u64) -> bool {
    match news.question(now) {
        Some(look) => {
            news.take_answer(now, mark);
            look == wanted
        }
        None => false,
    }
}

/// Takes a step, and says whether a question is answered so.
fn is_asked(news: &mut News, now: u64, step: Step) -> bool {
    match step {
        Step::Asks(wanted) => return news.question(now) == wanted,
        Step::Reads(wanted, mark) => return is_read(news, now, wanted, mark),
        Step::Silence => news.take_silence(now),
        Step::Stir => news.stir(now),
        Step::WantAll => news.want_all(),
    }
    true
}

#[test]
fn looks_begin_at_the_mark(rt: HostRuntime) {
    let mut news = News::new();
    for (at, (now, step)) in STEPS.iter().enumerate() {
        holds(&rt, is_asked(&mut news, *now, *step), at);
    }
}
