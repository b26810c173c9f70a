//! The tickets of a process.
ghost use Rattle.std.specs.Prelude.{◌≡◌, ◌+◌, ◌<◌, ◌≤◌, IfSome, OnErr, OnOk, length, max, vec_capacity};
ghost use Rattle.cf_host.specs.Waking.{first_patience};
ghost use Rattle.cf_host.specs.Tickets.{IsReady, Opens, Shuts, call_in, is_call, no_tickets, ticket_of, without};

use crate::ticket::{Asked, Ticket};
use crate::timers::first_patience;
use std::alloc::{AllocError, Global};
use std::marker::Model;

/// Which questions, calls and acts are open. No number is given twice.
#[derive(Drop)]
pub struct Tickets {
    last: u64,
    waiting: Vec<Ticket>,
    free: usize,
}

impl Model for Tickets {
    ghost use Rattle.cf_host.specs.Tickets.{Tickets};

    ghost Value = { Tickets };

    ghost use Rattle.std.specs.Prelude.{◌+◌, ◌≤◌, length, vec_capacity};

    ghost view = { λ t. record { last = t.last; waiting = t.waiting.items; free = t.free } };

    ghost invariant = { λ t. length t.waiting.items + t.free ≤ vec_capacity t.waiting };
}

impl Tickets {
    /// None was opened yet.
    pub fn new(alloc: Global) -> Tickets
        ensures { result ≡ no_tickets }
    {
        Tickets {
            last: 0,
            waiting: Vec::new(alloc),
            free: 0,
        }
    }

    /// Finds memory for one more. It fails only where none was found before and there is none, or once all numbers are
    /// given, and then changes nothing.
    pub fn reserve(&mut self) -> Result<(), AllocError>
        ensures found { OnOk result (self.new ≡ record self.old { free = max self.old.free 1 }) }
        ensures number { OnOk result (self.old.last < u64.MAX) }
        ensures unchanged { OnErr result (self.new ≡ self.old) }
        ensures short { OnErr result (¬ IsReady self.old) }
    {
        if self.last == u64::MAX {
            return Err(AllocError);
        }
        if self.free == 0 {
            self.waiting.reserve(1)?;
            self.free = 1;
        }
        Ok(())
    }

    /// The number that the next ticket has, for which memory was found.
    pub fn next(&self) -> u64
        requires { IsReady self.now }
        ensures { result ≡ self.now.last + 1 }
    {
        self.last + 1
    }

    /// When a user has waited long enough, `u64::MAX` where none waits.
    pub fn patience(&self) -> u64
        ensures { result ≡ first_patience self.now.waiting }
    {
        first_patience(&self.waiting)
    }

    /// Opens a ticket, for which memory was found.
    pub fn open(&mut self, of: Asked, asked: u64) -> Ticket
        requires { IsReady self.old }
        ensures opens { Opens result self.old self.new }
        ensures of { result.of ≡ of }
        ensures asked { result.asked ≡ asked }
    {
        let number = self.last + 1;
        let ticket = Ticket { number, of, asked };
        self.waiting.push_reserved(ticket);
        self.last = number;
        self.free -= 1;
        ticket
    }

    /// The ticket that has this number, while it is open.
    pub fn find(&self, number: u64) -> Option<Ticket>
        ensures is { result ≡ ticket_of number self.now.waiting }
        ensures number { IfSome result (λ t. t.number ≡ number) }
    {
        ticket_of(&self.waiting, number)
    }

    /// The number of the call of a stage's function that is open, or 0 if none is.
    pub fn call_of(&self, request: u64, stage: u16) -> u64
        ensures { result ≡ call_in request stage self.now.waiting }
    {
        call_in(&self.waiting, request, stage)
    }

    /// Closes the ticket that has this number, for its answer is there.
    pub fn close(&mut self, number: u64)
        ensures { Shuts number self.old self.new }
    {
        let open = self.waiting.len();
        remove(&mut self.waiting, number);
        self.free += open - self.waiting.len();
    }
}

/// The first ticket that has a number.
fn ticket_of(waiting: &[Ticket], number: u64) -> Option<Ticket>
    ensures is { result ≡ ticket_of number waiting.now }
    ensures number { IfSome result (λ t. t.number ≡ number) }
{
    for ticket in waiting {
        if ticket.number == number {
            return Some(*ticket);
        }
    }
    None
}

/// The number of the first ticket that is of the call of a stage's function, or 0.
fn call_in(waiting: &[Ticket], request: u64, stage: u16) -> u64
    ensures { result ≡ call_in request stage waiting.now }
{
    for ticket in waiting {
        if is_call(ticket.of, request, stage) {
            return ticket.number;
        }
    }
    0
}

/// Whether a ticket is of the call of a stage's function.
fn is_call(of: Asked, request: u64, stage: u16) -> bool
    ensures { result ≡ is_call of request stage }
{
    match of {
        Asked::Call {
            request: called,
            stage: at,
        } => called == request && at == stage,
        _ => false,
    }
}

/// Removes the tickets that have a number.
fn remove(waiting: &mut Vec<Ticket>, number: u64)
    ensures is { waiting.new.items ≡ without number waiting.old.items }
    ensures fewer { length waiting.new.items ≤ length waiting.old.items }
    ensures kept { vec_capacity waiting.new ≡ vec_capacity waiting.old }
{
    waiting.retain(|ticket| ticket.number != number);
}
