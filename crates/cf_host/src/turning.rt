//! What a process does next.
ghost use Rattle.std.specs.Prelude.{◌≡◌, ◌<◌, ◌&&◌, IfNone, IfOk, IfSome, OnErr, length, nat_lt, not};
ghost use Rattle.cf_host.specs.Hosts.{AllRest, AsksBeats, AsksNews, AsksOpen, BeatsAreDue, FirstTurns, IsToOpen, IsToOpenAt, MayClaim, NoLookIsDue, NoneToOpen, Orders, OrdersTurn, RestsIn, WorksNothing, beats_at_in, beats_sooner, until_of};
ghost use Rattle.std.specs.Bool.{OnFalse, OnTrue};
ghost use Rattle.cf_host.specs.Requests.{OnWork};
ghost use Rattle.cf_host.specs.Tickets.{IsReady};
ghost use Rattle.cf_turn.specs.Turns.{Turns, moment_of};

use crate::busy::free_threads;
use crate::host::Host;
use crate::order::Order;
use crate::pulse::Pulse;
use crate::request::Request;
use crate::ticket::Asked;
use crate::tickets::Tickets;
use crate::timers::{first_moment, first_wake};
use cf_turn::Turn;
use cf_watch::Watch;
use std::alloc::AllocError;

/// The first turn that a request's work has.
#[derive(Clone, Copy, Debug, PartialEq, Eq)]
pub(crate) struct Turned {
    pub(crate) request: u64,
    pub(crate) turn: Turn,
}

impl Host {
    /// What the process has to do next, by a moment of its own clock. It is asked again until it tells to sleep. It fails
    /// only where there is no memory for a ticket, and then changes nothing. The memory of tickets that were closed serves
    /// others.
    pub fn turn(&mut self, now: u64) -> Result<Order, AllocError>
        ensures orders { IfOk result (λ order. Orders self.old now order self.new) }
        ensures err { OnErr result (self.new ≡ self.old) }
        ensures short { OnErr result (¬ IsReady self.old.tickets) }
    {
        self.tickets.reserve()?;
        Ok(self.next(now))
    }

    /// The same, where there is a place for a ticket.
    fn next(&mut self, now: u64) -> Order
        requires { IsReady self.old.tickets }
        ensures { Orders self.old now result self.new }
    {
        if let Some(order) = self.beat(now) {
            return order;
        }
        if let Some(order) = self.look(now) {
            return order;
        }
        if let Some(order) = self.open(now) {
            return order;
        }
        if let Some(order) = self.work(now) {
            return order;
        }
        Order::Sleep {
            until: self.until(now),
        }
    }

    /// Asks for the beats, where that is due. The next look is at all.
    fn beat(&mut self, now: u64) -> Option<Order>
        requires { IsReady self.old.tickets }
        ensures orders { IfSome result (λ order. Orders self.old now order self.new) }
        ensures none { IfNone result (¬ BeatsAreDue self.old now) }
        ensures unchanged { IfNone result (self.new ≡ self.old) }
    {
        if self.pulse.is_asked || now < self.beats_at() {
            return None;
        }
        self.pulse = self.pulse.asked(now, self.lease);
        self.news.want_all();
        let ticket = self.tickets.open(Asked::Beats, now);
        Some(Order::Beats {
            ticket: ticket.number,
        })
    }

    /// When the beats are asked for next.
    fn beats_at(&self) -> u64
        ensures { result ≡ beats_at_in self.now }
    {
        let timer = first_moment(&self.requests, self.pulse.clock());
        self.pulse.due_at(timer)
    }

    /// Looks what is new, where that is due.
    fn look(&mut self, now: u64) -> Option<Order>
        requires ready { IsReady self.old.tickets }
        requires beats { ¬ BeatsAreDue self.old now }
        ensures orders { IfSome result (λ order. Orders self.old now order self.new) }
        ensures none { IfNone result (NoLookIsDue self.old now) }
        ensures unchanged { IfNone result (self.new ≡ self.old) }
    {
        let look = self.news.question(now)?;
        let ticket = self.tickets.open(Asked::News, now);
        Some(Order::News {
            ticket: ticket.number,
            look,
        })
    }

    /// Opens the first request that is to be opened.
    fn open(&mut self, now: u64) -> Option<Order>
        requires ready { IsReady self.old.tickets }
        requires beats { ¬ BeatsAreDue self.old now }
        requires news { NoLookIsDue self.old now }
        ensures orders { IfSome result (λ order. Orders self.old now order self.new) }
        ensures none { IfNone result (NoneToOpen now (length self.old.requests) self.old.requests) }
        ensures unchanged { IfNone result (self.new ≡ self.old) }
    {
        let place = next_to_open(&self.requests, now)?;
        let request = self.requests[place].number;
        self.requests[place].is_asked = true;
        let ticket = self.tickets.open(Asked::Open { request }, now);
        Some(Order::Open {
            ticket: ticket.number,
            request,
        })
    }

    /// Does what the first work has to do that has anything to do.
    fn work(&mut self, now: u64) -> Option<Order>
        requires ready { IsReady self.old.tickets }
        requires beats { ¬ BeatsAreDue self.old now }
        requires news { NoLookIsDue self.old now }
        requires opens { NoneToOpen now (length self.old.requests) self.old.requests }
        ensures orders { IfSome result (λ order. Orders self.old now order self.new) }
        ensures none { IfNone result (WorksNothing self.old now self.new) }
    {
        let may_claim = self.may_claim();
        let clock = self.pulse.clock();
        let turned = first_turn(&mut self.requests, now, &self.watch, clock, may_claim)?;
        self.pulse = beats_sooner(self.pulse, self.is_taken_for_gone, now, turned.turn);
        Some(order_of(&mut self.tickets, now, turned.request, turned.turn))
    }

    /// Whether a stage may be claimed.
    fn may_claim(&self) -> bool
        ensures { MayClaim self.now result }
    {
        let free = free_threads(&self.requests, self.threads);
        may_claim(self.is_stopping, self.is_taken_for_gone, free)
    }

    /// When something is to be done next, without an answer or a call.
    fn until(&self, now: u64) -> u64
        ensures { result ≡ until_of now self.now }
    {
        let beats = if self.pulse.is_asked {
            u64::MAX
        } else {
            self.beats_at()
        };
        let news = if self.news.is_asked() {
            u64::MAX
        } else {
            self.news.due()
        };
        let wake = first_wake(&self.requests, now);
        beats.min(news).min(wake.min(self.tickets.patience()))
    }
}

/// Whether a stage may be claimed where so many threads are free.
fn may_claim(is_stopping: bool, is_taken_for_gone: bool, free: usize) -> bool
    ensures { result ≡ (not is_stopping && not is_taken_for_gone && nat_lt 0 free) }
{
    !is_stopping && !is_taken_for_gone && free > 0
}

/// When the beats are asked for behind a turn: at once by who is taken for gone, once it has asked about a row.
fn beats_sooner(pulse: Pulse, is_taken_for_gone: bool, now: u64, turn: Turn) -> Pulse
    ensures { result ≡ beats_sooner is_taken_for_gone now turn pulse }
{
    match turn {
        Turn::Ask(_) if is_taken_for_gone => pulse.sooner(now),
        _ => pulse,
    }
}

/// The place of the first request that is to be opened.
fn next_to_open(requests: &[Request], now: u64) -> Option<usize>
    ensures is { IfSome result (λ place. IsToOpenAt now place requests.now) }
    ensures first { IfSome result (λ place. NoneToOpen now place requests.now) }
    ensures there { IfSome result (λ place. place < length requests.now) }
    ensures none { IfNone result (NoneToOpen now (length requests.now) requests.now) }
{
    for place in 0..requests.len() {
        if is_to_open(&requests[place], now) {
            return Some(place);
        }
    }
    None
}

/// Whether a request is to be opened.
fn is_to_open(request: &Request, now: u64) -> bool
    ensures open { OnTrue result (IsToOpen now request.now) }
    ensures other { OnFalse result (¬ IsToOpen now request.now) }
{
    request.work.is_none() && !request.is_asked && !request.is_dropped && request.retry <= now
}

/// The turn of the first work that has one.
fn first_turn(
    requests: &mut [Request],
    now: u64,
    watch: &Watch,
    clock: u64,
    may_claim: bool,
) -> Option<Turned>
    ensures turns { IfSome result (λ t. FirstTurns (moment_of now watch.now clock may_claim)
        requests.old t.request t.turn requests.new) }
    ensures none { IfNone result
        (AllRest (moment_of now watch.now clock may_claim) requests.old requests.new) }
{
    for place in 0..requests.len() {
        if let Some(turn) = requests[place].turn(now, watch, clock, may_claim) {
            return Some(Turned {
                request: requests[place].number,
                turn,
            });
        }
    }
    None
}

impl Request {
    /// What its work has to do, if anything.
    fn turn(&mut self, now: u64, watch: &Watch, clock: u64, may_claim: bool) -> Option<Turn>
        ensures turns { IfSome result (λ t.
            OnWork (λ w v. Turns w (moment_of now watch.now clock may_claim) t v) self.old self.new) }
        ensures rests { IfNone result (RestsIn (moment_of now watch.now clock may_claim) self.old self.new) }
    {
        match &mut self.work {
            Some(work) => work.turn(now, watch, clock, may_claim),
            None => None,
        }
    }
}

/// What the turn of a request's work orders.
fn order_of(tickets: &mut Tickets, now: u64, request: u64, turn: Turn) -> Order
    requires { IsReady tickets.old }
    ensures { OrdersTurn now request turn result tickets.old tickets.new }
{
    match turn {
        Turn::Tell { number, told } => {
            tickets.close(number);
            Order::Tell {
                ticket: number,
                told,
            }
        }
        Turn::Show { stage, shown } => Order::Show {
            request,
            stage,
            shown,
        },
        Turn::Stop { stage } => Order::Stop {
            ticket: tickets.call_of(request, stage),
        },
        Turn::Call {
            stage,
            function,
            args,
        } => {
            let ticket = tickets.open(Asked::Call { request, stage }, now);
            Order::Call {
                ticket: ticket.number,
                request,
                stage,
                function,
                args,
            }
        }
        Turn::Ask(question) => {
            let ticket = tickets.open(Asked::Row { request }, now);
            Order::Row {
                ticket: ticket.number,
                request,
                question,
            }
        }
    }
}
