//! Several processes at one request of a store in memory, led move by move in any order: answers may be lost, functions end
//! late or never. What is concluded follows from the contracts of a host's calls, and from laws of hosts.
ghost use Rattle.std.specs.Prelude.{◌≡◌, ◌<◌, ◌≤◌, [], ◌∷◌, All, IfNone, IfOk, IfSome, OnOk, Some, length};
ghost use Rattle.cf_part.specs.Rows.{IsApart};
ghost use Rattle.cf_host.specs.Keeping.{IsAskedFor};
ghost use Rattle.cf_host.specs.Laws.{called_in};
ghost use Rattle.cf_example.specs.Processes.{AreLed, GoesOn, Grows, HasPut, HasSeen, HasTaken, IsAsked, IsLed, Leads, Stored, Turns, called_by_all};

use crate::stored::Stored;
use cf_host::laws::{
    one_process_calls_each_function_of_a_request, questions_are_behind_all_that_is_seen,
};
use cf_host::{EndsWith, Host, Length, Order, Question};
use std::alloc::{AllocError, Global};

/// How many functions of a process run at once, and for how long a session may be silent, in milliseconds.
const THREADS: usize = 2;

const LEASE: u64 = 10000;

/// A process of a session, with the stages whose functions it was told to call.
#[derive(Drop)]
pub struct Worker {
    pub session: u64,
    pub host: Host,
    pub called: Vec<u16>,
}

/// What happens next to a process.
#[derive(Clone, Copy)]
pub enum Move {
    /// It takes a turn. The store does what it asks, and answers.
    Turns,
    /// The same, but the answer is lost.
    Loses,
    /// The function of a call ends, and comes to this.
    Ends { ticket: u64, answer: EndsWith },
    /// Somebody waits for a stage.
    Wants { stage: u16 },
}

/// What happens to which process, by a moment of all clocks.
#[derive(Clone, Copy)]
pub struct Step {
    pub worker: usize,
    pub now: u64,
    pub does: Move,
}

/// Leads processes of these sessions through these steps, at a request of which anything may stand in the row by now. No
/// function of it is called twice, by whichever of them.
pub fn lead(
    alloc: Global,
    stored: &mut Stored,
    sessions: &[u64],
    steps: &[Step],
) -> Result<Vec<Worker>, AllocError>
    requires apart { IsApart sessions.now }
    requires few { All (λ s. s < 549755813888) sessions.now }
    ensures grows { OnOk result (Grows stored.old stored.new) }
    ensures led { IfOk result (λ workers. AreLed stored.new sessions.now workers.items) }
    ensures once { IfOk result (λ workers. IsApart (called_by_all workers.items)) }
{
    one_process_calls_each_function_of_a_request();
    let mut workers = start(alloc, stored, sessions)?;
    lead_all(stored, sessions, &mut workers, steps)?;
    Ok(workers)
}

/// A process for each session.
fn start(alloc: Global, stored: &Stored, sessions: &[u64]) -> Result<Vec<Worker>, AllocError>
    requires { All (λ s. s < 549755813888) sessions.now }
    ensures { IfOk result (λ workers. AreLed stored.now sessions.now workers.items) }
{
    let mut workers = Vec::new(alloc);
    for session in sessions {
        workers.push(Worker::new(alloc, stored, *session))?;
    }
    Ok(workers)
}

/// Does these steps, one after another.
fn lead_all(
    stored: &mut Stored,
    sessions: &[u64],
    workers: &mut Vec<Worker>,
    steps: &[Step],
) -> Result<(), AllocError>
    requires { AreLed stored.old sessions.now workers.old.items }
    ensures grows { OnOk result (Grows stored.old stored.new) }
    ensures led { OnOk result (AreLed stored.new sessions.now workers.new.items) }
{
    for step in steps {
        do_step(stored, sessions, workers, *step)?;
    }
    Ok(())
}

/// Does a step of a process that is there.
fn do_step(
    stored: &mut Stored,
    sessions: &[u64],
    workers: &mut Vec<Worker>,
    step: Step,
) -> Result<(), AllocError>
    requires { AreLed stored.old sessions.now workers.old.items }
    ensures grows { OnOk result (Grows stored.old stored.new) }
    ensures led { OnOk result (AreLed stored.new sessions.now workers.new.items) }
{
    if step.worker >= workers.len() {
        return Ok(());
    }
    do_move(stored, &mut workers[step.worker], step.now, step.does)
}

/// Does a process's move.
fn do_move(stored: &mut Stored, worker: &mut Worker, now: u64, does: Move) -> Result<(), AllocError>
    requires { IsLed stored.old worker.old }
    ensures { OnOk result (Leads stored.old worker.old stored.new worker.new) }
{
    match does {
        Move::Turns => take_turn(stored, worker, now, true),
        Move::Loses => take_turn(stored, worker, now, false),
        Move::Ends { ticket, answer } => {
            worker.ends(ticket, answer);
            Ok(())
        }
        Move::Wants { stage } => {
            worker.wants(stored.number(), stage);
            Ok(())
        }
    }
}

/// A process takes a turn, and the store does what it asks.
fn take_turn(
    stored: &mut Stored,
    worker: &mut Worker,
    now: u64,
    is_answered: bool,
) -> Result<(), AllocError>
    requires { IsLed stored.old worker.old }
    ensures { OnOk result (Leads stored.old worker.old stored.new worker.new) }
{
    questions_are_behind_all_that_is_seen();
    let order = worker.turn(stored.number(), now)?;
    serve(stored, worker, now, order, is_answered)
}

/// The store does what a process asks, and answers, unless the answer is lost.
fn serve(
    stored: &mut Stored,
    worker: &mut Worker,
    now: u64,
    order: Order,
    is_answered: bool,
) -> Result<(), AllocError>
    requires led { IsLed stored.old worker.old }
    requires asked { IsAsked order worker.old.host }
    ensures { OnOk result (Leads stored.old worker.old stored.new worker.new) }
{
    match order {
        Order::Row {
            ticket,
            request,
            question,
        } => {
            if request != stored.number() {
                worker.loses(ticket);
                return Ok(());
            }
            serve_row(stored, worker, now, ticket, question, is_answered)
        }
        order => {
            serve_other(stored, worker, now, order, is_answered);
            Ok(())
        }
    }
}

/// The same, where the row isn't asked for.
fn serve_other(stored: &Stored, worker: &mut Worker, now: u64, order: Order, is_answered: bool)
    requires { IsLed stored.now worker.old }
    ensures { Leads stored.now worker.old stored.now worker.new }
{
    match order {
        Order::Beats { ticket } => worker.beats(now, ticket, is_answered),
        Order::News { ticket, .. } => {
            worker.news(now, ticket, stored.number(), stored.len(), is_answered);
        }
        Order::Open { ticket, request } => {
            if request == stored.number() && is_answered {
                worker.opens(stored, ticket);
            } else {
                worker.lacks(now, ticket);
            }
        }
        _ => {}
    }
}

/// The store does what a process asks of the request's row.
fn serve_row(
    stored: &mut Stored,
    worker: &mut Worker,
    now: u64,
    ticket: u64,
    question: Question,
    is_answered: bool,
) -> Result<(), AllocError>
    requires led { IsLed stored.old worker.old }
    requires asked { IsAskedFor worker.old.host stored.old.number ticket question }
    ensures { OnOk result (Leads stored.old worker.old stored.new worker.new) }
{
    match question {
        Question::Put { at } => serve_put(stored, worker, now, ticket, at, is_answered),
        Question::Read { at } => {
            serve_read(stored, worker, now, ticket, at, is_answered);
            Ok(())
        }
        Question::Close { at } => {
            let is_closed = at == stored.len();
            worker.closes(now, ticket, is_closed, is_answered);
            Ok(())
        }
    }
}

/// The store puts a process's words, or tells what stands at their place.
fn serve_put(
    stored: &mut Stored,
    worker: &mut Worker,
    now: u64,
    ticket: u64,
    place: usize,
    is_answered: bool,
) -> Result<(), AllocError>
    requires led { IsLed stored.old worker.old }
    requires seen { HasSeen stored.old.number place worker.old.host }
    ensures { OnOk result (Leads stored.old worker.old stored.new worker.new) }
{
    let Some(part) = worker.host.part(stored.number()) else {
        return Ok(());
    };
    if stored.put(place, part.put(), part.wants_of_put())? {
        worker.stands(now, ticket, stored.number(), is_answered);
        return Ok(());
    }
    serve_read(stored, worker, now, ticket, place, is_answered);
    Ok(())
}

/// The store tells what stands behind so many entries.
fn serve_read(
    stored: &Stored,
    worker: &mut Worker,
    now: u64,
    ticket: u64,
    place: usize,
    is_answered: bool,
)
    requires led { IsLed stored.now worker.old }
    requires seen { HasSeen stored.now.number place worker.old.host }
    ensures { Leads stored.now worker.old stored.now worker.new }
{
    if place > stored.len() || !is_answered {
        worker.lacks(now, ticket);
        return;
    }
    worker.hears(now, ticket, stored, place);
}

/// The stage of a request whose function is to be called.
fn stage_called(order: Order, number: u64) -> Option<u16>
    ensures some { IfSome result (λ stage. called_in number (Some order) ≡ stage ∷ []) }
    ensures none { IfNone result (called_in number (Some order) ≡ []) }
{
    let Order::Call { request, stage, .. } = order else {
        return None;
    };
    if request != number {
        return None;
    }
    Some(stage)
}

impl Worker {
    /// A process that works on nothing yet, and takes up what it hears of.
    fn new(alloc: Global, stored: &Stored, session: u64) -> Worker
        requires { session < 549755813888 }
        ensures session { result.session ≡ session }
        ensures led { IsLed stored.now result }
    {
        Worker {
            session,
            host: Host::new(alloc, session, THREADS, LEASE, true),
            called: Vec::new(alloc),
        }
    }

    /// What it has to do next. If it is to call a function of the request, that is noted.
    fn turn(&mut self, number: u64, now: u64) -> Result<Order, AllocError>
        ensures { IfOk result (λ order. Turns number now order self.old self.new) }
    {
        self.called.reserve(1)?;
        let order = self.host.turn(now)?;
        if let Some(stage) = stage_called(order, number) {
            self.called.push_reserved(stage);
        }
        Ok(order)
    }

    /// The function of a call ends, if it runs.
    fn ends(&mut self, ticket: u64, answer: EndsWith)
        ensures { GoesOn self.old self.new }
    {
        let _ = self.host.ended(ticket, answer);
    }

    /// Somebody waits for a stage.
    fn wants(&mut self, request: u64, stage: u16)
        ensures { GoesOn self.old self.new }
    {
        let _ = self.host.wants(request, stage);
    }

    /// No answer comes.
    fn lacks(&mut self, now: u64, ticket: u64)
        ensures { GoesOn self.old self.new }
    {
        let _ = self.host.unknown(now, ticket);
    }

    /// The store has no such request.
    fn loses(&mut self, ticket: u64)
        ensures { GoesOn self.old self.new }
    {
        let _ = self.host.dropped(ticket);
    }

    /// Nobody else beats.
    fn beats(&mut self, now: u64, ticket: u64, is_answered: bool)
        ensures { GoesOn self.old self.new }
    {
        if is_answered {
            let _ = self.host.beats(now, ticket, &[], now);
        } else {
            self.lacks(now, ticket);
        }
    }

    /// So many words stand in the row of a request.
    fn news(&mut self, now: u64, ticket: u64, request: u64, words: usize, is_answered: bool)
        ensures { GoesOn self.old self.new }
    {
        if is_answered {
            let lengths = [Length { request, words }];
            let _ = self.host.news(now, ticket, &lengths, now);
        } else {
            self.lacks(now, ticket);
        }
    }

    /// The store has the request, which isn't a flow's.
    fn opens(&mut self, stored: &Stored, ticket: u64)
        requires { IsLed stored.now self.old }
        ensures { Leads stored.now self.old stored.now self.new }
    {
        let _ = self.host.opened(ticket, stored.plan(), stored.notes(), stored.room(), false);
    }

    /// The request is closed with just what was seen, or more stands there.
    fn closes(&mut self, now: u64, ticket: u64, is_closed: bool, is_answered: bool)
        ensures { GoesOn self.old self.new }
    {
        if is_answered {
            let _ = self.host.closed(ticket, is_closed);
        } else {
            self.lacks(now, ticket);
        }
    }

    /// It hears what stands behind so many entries, which are all that it has seen.
    fn hears(&mut self, now: u64, ticket: u64, stored: &Stored, place: usize)
        requires place { place ≤ length stored.now.row }
        requires led { IsLed stored.now self.old }
        requires seen { HasSeen stored.now.number place self.old.host }
        ensures { Leads stored.now self.old stored.now self.new }
    {
        let entries = stored.read(place);
        let notes = stored.said(place);
        let _ = self.host.entries(now, ticket, entries, notes);
        self.took_what_it_saw(stored.number());
    }

    /// Its put stands in the row of a request.
    fn stands(&mut self, now: u64, ticket: u64, number: u64, is_answered: bool)
        ensures session { self.new.session ≡ self.old.session }
        ensures led { (s : Stored) → s.number ≡ number → HasPut s self.old.host → IsLed s self.old → IsLed s self.new }
    {
        if is_answered {
            let _ = self.host.stands(ticket);
            self.took_what_it_saw(number);
        } else {
            self.lacks(now, ticket);
        }
    }

    /// Its graph took all that it has seen of a request.
    fn took_what_it_saw(&self, number: u64)
        ensures { HasTaken number self.now.host }
    {
        if let Some(part) = self.host.part(number) {
            // (the contract of `ledger` says so)
            let replica = part.view();
            let _ = replica.ledger();
        }
    }
}
