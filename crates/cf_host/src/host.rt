//! A process at work on the requests of a store.
ghost use Rattle.std.specs.Prelude.{◌≡◌, ◌<◌, IfErr, IfNone, IfOk, IfSome, None, OnErr, OnOk, Some, length, max, min, true};
ghost use Rattle.cf_due.specs.Acts.{IsFitting};
ghost use Rattle.cf_part.specs.Parts.{later};
ghost use Rattle.cf_host.specs.Asking.{Asking, Ending, Growing, IsNoAsking, IsNoEnding, IsNoGrowing, IsNoWanting, IsShort, Wanting};
ghost use Rattle.cf_host.specs.Hosts.{FollowsIn, IsShownPart, Keeps, OnRequest, OnRequestFor, new_host};
ghost use Rattle.cf_host.specs.Pulses.{later_by};
ghost use Rattle.cf_host.specs.declared.order.NoCall.TheVariants.{NoMemory, NotOpen};
ghost use Rattle.cf_host.specs.Requests.{IsAt, IsOpenAt, IsOpenIn};
ghost use Rattle.cf_host.specs.Tickets.{IsReady};

use crate::news::News;
use crate::order::NoCall;
use crate::pulse::Pulse;
use crate::request::Request;
use crate::requests::{follow, place_of};
use crate::ticket::Asked;
use crate::tickets::Tickets;
use crate::timers::PATIENCE;
use cf_due::Act;
use cf_part::Part;
use cf_watch::Watch;
use std::alloc::{AllocError, Global};
use std::marker::Model;

/// What a process has to do in all requests of a store that it works on.
#[derive(Drop)]
pub struct Host {
    pub(crate) alloc: Global,
    pub(crate) session: u64,
    pub(crate) threads: usize,
    pub(crate) lease: u64,
    pub(crate) takes_all: bool,
    pub(crate) is_stopping: bool,
    pub(crate) is_taken_for_gone: bool,
    pub(crate) watch: Watch,
    pub(crate) pulse: Pulse,
    pub(crate) news: News,
    pub(crate) tickets: Tickets,
    pub(crate) requests: Vec<Request>,
}

impl Model for Host {
    ghost use Rattle.std.specs.Prelude.{◌<◌};
    ghost use Rattle.cf_host.specs.Hosts.{Host};

    ghost Value = { Host };

    ghost view = { λ h. record {
      session = h.session;
      threads = h.threads;
      lease = h.lease;
      takes_all = h.takes_all;
      is_stopping = h.is_stopping;
      is_taken_for_gone = h.is_taken_for_gone;
      watch = h.watch;
      pulse = h.pulse;
      news = h.news;
      tickets = h.tickets;
      requests = h.requests.items;
    } };

    ghost invariant = { λ h. h.session < 549755813888 };
}

impl Host {
    /// A process's session, which works on no request yet. So many of its functions run at once. Another session is gone
    /// that was silent for a lease, in milliseconds. Who takes all takes up each request of which the store tells that
    /// something is new, else only those that are followed.
    pub fn new(alloc: Global, session: u64, threads: usize, lease: u64, takes_all: bool) -> Host
        requires { session < 549755813888 }
        ensures { result ≡ new_host session threads lease takes_all }
    {
        Host {
            alloc,
            session,
            threads,
            lease,
            takes_all,
            is_stopping: false,
            is_taken_for_gone: false,
            watch: Watch::new(alloc, lease),
            pulse: Pulse::new(),
            news: News::new(),
            tickets: Tickets::new(alloc),
            requests: Vec::new(alloc),
        }
    }

    /// The session's part in a request, once it is opened: what it has seen, and the put that is under way.
    pub fn part(&self, request: u64) -> Option<&Part>
        ensures some { IfSome result (λ part. IsShownPart self.now request part.now) }
        ensures none { IfNone result (¬ IsOpenIn request self.now.requests) }
    {
        let place = place_of(&self.requests, request)?;
        let part = self.requests[place].part()?;
        Some(part)
    }

    /// Works on a request. It fails only where there is no memory, and then changes nothing.
    pub fn follow(&mut self, request: u64) -> Result<(), AllocError>
        ensures ok { OnOk result (FollowsIn request self.old self.new) }
        ensures err { OnErr result (self.new ≡ self.old) }
    {
        follow(&mut self.requests, request)?;
        Ok(())
    }

    /// A user asks for an act, and waits a minute for it at most. What became of it is told by this ticket.
    pub fn act(&mut self, now: u64, request: u64, act: Act) -> Result<u64, NoCall>
        ensures ok { IfOk result (λ number.
            OnRequestFor (λ n. Asking n act (later_by 60000 now)) request now number self.old self.new) }
        ensures err { OnErr result (Keeps self.old self.new) }
        ensures why { IfErr result (λ why. IsNoAsking act request self.old.requests why) }
        ensures short { IfErr result (λ why.
            why ≡ NoMemory → IsShort request self.old.tickets self.old.requests) }
    {
        if !act.fits() {
            return Err(NoCall::Unfit);
        }
        let place = self.opened_at(request)?;
        self.reserve()?;
        let number = self.tickets.next();
        let until = now.saturating_add(PATIENCE);
        match self.requests[place].asks(number, act, until) {
            Ok(()) => {}
            Err(_) => return Err(NoCall::NoMemory),
        }
        let _ticket = self.tickets.open(Asked::Act { request }, now);
        Ok(number)
    }

    /// A user ends a request, and waits a minute at most. It is closed once nothing is due in it.
    pub fn end(&mut self, now: u64, request: u64) -> Result<u64, NoCall>
        ensures ok { IfOk result (λ number.
            OnRequestFor (λ n. Ending n (later_by 60000 now)) request now number self.old self.new) }
        ensures err { OnErr result (Keeps self.old self.new) }
        ensures why { IfErr result (λ why. IsNoEnding request self.old.requests why) }
        ensures short { IfErr result (λ why.
            why ≡ NoMemory → IsShort request self.old.tickets self.old.requests) }
    {
        let place = self.opened_at(request)?;
        self.reserve()?;
        let number = self.tickets.next();
        let until = now.saturating_add(PATIENCE);
        match self.requests[place].ends(number, until) {
            Ok(()) => {}
            Err(_) => return Err(NoCall::NoMemory),
        }
        let _ticket = self.tickets.open(Asked::Act { request }, now);
        Ok(number)
    }

    /// Somebody waits for a stage.
    pub fn wants(&mut self, request: u64, stage: u16) -> Result<(), NoCall>
        ensures ok { OnOk result (OnRequest (Wanting stage (Some 0)) request self.old self.new) }
        ensures err { OnErr result (self.new ≡ self.old) }
        ensures why { IfErr result (λ why. IsNoWanting stage request self.old.requests why) }
    {
        let place = self.opened_at(request)?;
        if !self.requests[place].has_place(stage) {
            return Err(NoCall::Unfit);
        }
        self.requests[place].wants(stage);
        Ok(())
    }

    /// Nobody waits for a stage any more.
    pub fn lets_go(&mut self, request: u64, stage: u16) -> Result<(), NoCall>
        ensures ok { OnOk result (OnRequest (Wanting stage None) request self.old self.new) }
        ensures err { OnErr result (self.new ≡ self.old) }
        ensures why { IfErr result (λ why. IsNoWanting stage request self.old.requests why) }
    {
        let place = self.opened_at(request)?;
        if !self.requests[place].has_place(stage) {
            return Err(NoCall::Unfit);
        }
        self.requests[place].lets_go(stage);
        Ok(())
    }

    /// The payload of a stage that was to be shown couldn't be read: the stage is shown again, but not at once.
    pub fn unread(&mut self, now: u64, request: u64, stage: u16) -> Result<(), NoCall>
        ensures ok { OnOk result
            (OnRequest (Wanting stage (Some (later now))) request self.old self.new) }
        ensures err { OnErr result (self.new ≡ self.old) }
        ensures why { IfErr result (λ why. IsNoWanting stage request self.old.requests why) }
    {
        let place = self.opened_at(request)?;
        if !self.requests[place].has_place(stage) {
            return Err(NoCall::Unfit);
        }
        self.requests[place].unread(now, stage);
        Ok(())
    }

    /// Makes room in a request for so many stages more, also while something is asked of its row. An entry that attaches
    /// a stage needs room before it is handed in.
    pub fn grow(&mut self, request: u64, more: u16) -> Result<(), NoCall>
        ensures ok { OnOk result (OnRequest (Growing more) request self.old self.new) }
        ensures err { OnErr result (self.new ≡ self.old) }
        ensures why { IfErr result (λ why. IsNoGrowing more request self.old.requests why) }
    {
        let place = self.opened_at(request)?;
        if !self.requests[place].has_places(more) {
            return Err(NoCall::Unfit);
        }
        match self.requests[place].grow(self.alloc, more) {
            Ok(()) => {}
            Err(_) => return Err(NoCall::NoMemory),
        }
        Ok(())
    }

    /// Something is new, as the store notified: it is looked at by now.
    pub fn stirred(&mut self, now: u64)
        ensures { self.new ≡ record self.old {
          news = record self.old.news { due = min self.old.news.due now };
        } }
    {
        self.news.stir(now);
    }

    /// No further function is called, but what runs goes on.
    pub fn stop(&mut self)
        ensures { self.new ≡ record self.old { is_stopping = true } }
    {
        self.is_stopping = true;
    }

    /// The place of a request that is opened.
    fn opened_at(&self, request: u64) -> Result<usize, NoCall>
        ensures at { IfOk result (λ place. IsAt request place self.now.requests) }
        ensures there { IfOk result (λ place. place < length self.now.requests) }
        ensures opened { IfOk result (λ place. IsOpenAt place self.now.requests) }
        ensures why { IfErr result (λ why. (why ≡ NotOpen) × (¬ IsOpenIn request self.now.requests)) }
    {
        let Some(place) = place_of(&self.requests, request) else {
            return Err(NoCall::NotOpen);
        };
        if self.requests[place].work.is_none() {
            return Err(NoCall::NotOpen);
        }
        Ok(place)
    }

    /// Finds memory for a ticket.
    fn reserve(&mut self) -> Result<(), NoCall>
        ensures ok { OnOk result (self.new ≡ record self.old {
          tickets = record self.old.tickets { free = max self.old.tickets.free 1 };
        }) }
        ensures number { OnOk result (self.old.tickets.last < u64.MAX) }
        ensures err { OnErr result (self.new ≡ self.old) }
        ensures why { IfErr result (λ why. (why ≡ NoMemory) × (¬ IsReady self.old.tickets)) }
    {
        match self.tickets.reserve() {
            Ok(()) => Ok(()),
            Err(_) => Err(NoCall::NoMemory),
        }
    }
}
