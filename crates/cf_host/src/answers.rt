//! The answers of a store, and the ends of functions. Each is to an open ticket; one that isn't, or that doesn't fit its
//! question, is refused and changes nothing.
ghost use Rattle.std.specs.Prelude.{◌≡◌, ◌≢◌, ◌<◌, IfErr, IfOk, OnErr, OnOk, Some, length};
ghost use Rattle.cf_host.specs.Answering.{Breaking, Closing, Landing, Refusing, Waiting};
ghost use Rattle.cf_host.specs.Fitting.{AsksBeats, AsksClose, AsksNews, AsksPlan, AsksPut, AsksRow, AwaitsEnd, FitsEntries, FitsPlan, IsOpenFor, MayLack, MayLose, UnfitOnlyIf};
ghost use Rattle.cf_host.specs.Hosts.{Answers, AnswersRow, EndsCall, HearsBeats, HearsEntries, HearsNews, HearsRow, IsDropped, IsOpened, IsRefused, IsTicketOf, LacksBeats, LacksNews, LosesRequest, StaysShut, StaysUnanswered};
ghost use Rattle.cf_host.specs.Requests.{IsAt, IsOpenAt, IsShutAt, NoneAt};
ghost use Rattle.cf_host.specs.Tickets.{ticket_of};
ghost use Rattle.cf_host.specs.declared.ticket.Asked.TheVariants.{Open as OfOpen, Row as OfRow};

use crate::answering::{is_close, is_put, is_read};
use crate::clock::Reading;
use crate::host::Host;
use crate::order::NoAnswer;
use crate::requests::{Length, hear_news, miss_all, place_of};
use crate::ticket::{Asked, Ticket};
use cf_notes::Note;
use cf_part::{EndsWith, Entry, Part};
use cf_plan::Plan;
use cf_turn::Work;
use cf_watch::Beat;

impl Host {
    /// The store has the request: its plan, the notes of its stages, how many stages may still be attached, and whether it
    /// is a flow's.
    pub fn opened(
        &mut self,
        ticket: u64,
        plan: &Plan,
        notes: &[Note],
        room: u16,
        is_flow: bool,
    ) -> Result<(), NoAnswer>
        ensures ok { OnOk result (Answers OfOpen
            (IsOpened self.old.session plan.now notes.now room is_flow) self.old ticket self.new) }
        ensures why { IfErr result (λ why. IsRefused self.old ticket why) }
        ensures unfit { IfErr result (λ why.
            UnfitOnlyIf (¬ FitsPlan plan.now notes.now room self.old ticket) why) }
        ensures err { OnErr result (self.new ≡ self.old) }
    {
        let place = self.to_open(ticket)?;
        if notes.len() != plan.stages() as usize || !plan.has_place(room) {
            return Err(NoAnswer::Unfit);
        }
        let Ok(part) = Part::new(self.alloc, plan, notes, room, self.session, 0, is_flow) else {
            return Err(NoAnswer::NoMemory);
        };
        self.requests[place].begin(Work::new(self.alloc, part));
        self.tickets.close(ticket);
        Ok(())
    }

    /// The answer to a read, and to a put whose place is taken: these entries stand there, each with its note. Where others
    /// have failed a stage there whose claim is this session's, they take it for gone: it claims nothing before a beat of
    /// its own is answered.
    pub fn entries(
        &mut self,
        now: u64,
        ticket: u64,
        entries: &[Entry],
        notes: &[Note],
    ) -> Result<(), NoAnswer>
        ensures ok { OnOk result (HearsRow now entries.now notes.now self.old ticket self.new) }
        ensures why { IfErr result (λ why. IsRefused self.old ticket why) }
        ensures unfit { IfErr result (λ why.
            UnfitOnlyIf (¬ FitsEntries entries.now notes.now self.old ticket) why) }
        ensures memory { IfErr result (λ why. why ≢ NoAnswer.NoMemory) }
        ensures err { OnErr result (self.new ≡ self.old) }
    {
        let lost = self.hear(now, ticket, entries, notes)?;
        self.is_taken_for_gone = self.is_taken_for_gone || lost;
        Ok(())
    }

    /// The same, but it tells whether others take this session for gone.
    fn hear(
        &mut self,
        now: u64,
        ticket: u64,
        entries: &[Entry],
        notes: &[Note],
    ) -> Result<bool, NoAnswer>
        ensures ok { IfOk result (λ lost. HearsEntries now entries.now notes.now self.old ticket lost self.new) }
        ensures why { IfErr result (λ why. IsRefused self.old ticket why) }
        ensures unfit { IfErr result (λ why.
            UnfitOnlyIf (¬ FitsEntries entries.now notes.now self.old ticket) why) }
        ensures memory { IfErr result (λ why. why ≢ NoAnswer.NoMemory) }
        ensures err { OnErr result (self.new ≡ self.old) }
    {
        let place = self.row_of(ticket)?;
        if notes.len() != entries.len() {
            return Err(NoAnswer::Unfit);
        }
        self.requests[place].hear(now, entries, notes)?;
        let lost = self.requests[place].has_lost(entries);
        self.tickets.close(ticket);
        Ok(lost)
    }

    /// The put stands.
    pub fn stands(&mut self, ticket: u64) -> Result<(), NoAnswer>
        ensures ok { OnOk result (AnswersRow Landing self.old ticket self.new) }
        ensures why { IfErr result (λ why. IsRefused self.old ticket why) }
        ensures unfit { IfErr result (λ why. UnfitOnlyIf (¬ AsksPut self.old ticket) why) }
        ensures memory { IfErr result (λ why. why ≢ NoAnswer.NoMemory) }
        ensures err { OnErr result (self.new ≡ self.old) }
    {
        let place = self.row_of(ticket)?;
        if !is_put(self.requests[place].asked()) {
            return Err(NoAnswer::Unfit);
        }
        self.requests[place].stands();
        self.tickets.close(ticket);
        Ok(())
    }

    /// The put was refused, and nothing of it stands.
    pub fn refused(&mut self, now: u64, ticket: u64) -> Result<(), NoAnswer>
        ensures ok { OnOk result (AnswersRow (Refusing now) self.old ticket self.new) }
        ensures why { IfErr result (λ why. IsRefused self.old ticket why) }
        ensures unfit { IfErr result (λ why. UnfitOnlyIf (¬ AsksPut self.old ticket) why) }
        ensures memory { IfErr result (λ why. why ≢ NoAnswer.NoMemory) }
        ensures err { OnErr result (self.new ≡ self.old) }
    {
        let place = self.row_of(ticket)?;
        if !is_put(self.requests[place].asked()) {
            return Err(NoAnswer::Unfit);
        }
        self.requests[place].refused(now);
        self.tickets.close(ticket);
        Ok(())
    }

    /// The request is closed with just what was seen; or more stands there.
    pub fn closed(&mut self, ticket: u64, is_closed: bool) -> Result<(), NoAnswer>
        ensures ok { OnOk result (AnswersRow (Closing is_closed) self.old ticket self.new) }
        ensures why { IfErr result (λ why. IsRefused self.old ticket why) }
        ensures unfit { IfErr result (λ why. UnfitOnlyIf (¬ AsksClose self.old ticket) why) }
        ensures memory { IfErr result (λ why. why ≢ NoAnswer.NoMemory) }
        ensures err { OnErr result (self.new ≡ self.old) }
    {
        let place = self.row_of(ticket)?;
        if !is_close(self.requests[place].asked()) {
            return Err(NoAnswer::Unfit);
        }
        self.requests[place].closed(is_closed);
        self.tickets.close(ticket);
        Ok(())
    }

    /// All sessions' beats, and what the store's clock shows.
    pub fn beats(
        &mut self,
        now: u64,
        ticket: u64,
        beats: &[Beat],
        clock: u64,
    ) -> Result<(), NoAnswer>
        ensures ok { OnOk result (HearsBeats self.old now ticket beats.now clock self.new) }
        ensures why { IfErr result (λ why. IsRefused self.old ticket why) }
        ensures unfit { IfErr result (λ why. UnfitOnlyIf (¬ AsksBeats self.old ticket) why) }
        ensures err { OnErr result (self.new ≡ self.old) }
    {
        let asked = self.find(ticket)?;
        if asked.of != Asked::Beats {
            return Err(NoAnswer::Unfit);
        }
        if self.watch.take_answer(asked.asked, now, beats).is_err() {
            return Err(NoAnswer::NoMemory);
        }
        self.pulse = self.pulse.answered(Reading {
            shown: clock,
            asked: asked.asked,
            now,
        });
        self.is_taken_for_gone = false;
        self.tickets.close(ticket);
        Ok(())
    }

    /// How many words stand in the requests that are new or have more, up to a mark of the store. Where all were looked at,
    /// those that somebody waits for and that aren't among them are read.
    pub fn news(
        &mut self,
        now: u64,
        ticket: u64,
        lengths: &[Length],
        mark: u64,
    ) -> Result<(), NoAnswer>
        ensures ok { OnOk result (HearsNews self.old now ticket lengths.now mark self.new) }
        ensures why { IfErr result (λ why. IsRefused self.old ticket why) }
        ensures unfit { IfErr result (λ why. UnfitOnlyIf (¬ AsksNews self.old ticket) why) }
        ensures err { OnErr result (self.new ≡ self.old) }
    {
        let asked = self.find(ticket)?;
        if asked.of != Asked::News || !self.news.is_asked() {
            return Err(NoAnswer::Unfit);
        }
        if hear_news(&mut self.requests, lengths, self.takes_all).is_err() {
            return Err(NoAnswer::NoMemory);
        }
        if self.news.is_whole() {
            miss_all(&mut self.requests, lengths);
        }
        self.news.take_answer(now, mark);
        self.tickets.close(ticket);
        Ok(())
    }

    /// No answer came, or a question that puts nothing was refused. It is asked again.
    pub fn unknown(&mut self, now: u64, ticket: u64) -> Result<(), NoAnswer>
        ensures ok { OnOk result (StaysUnanswered self.old now ticket self.new) }
        ensures why { IfErr result (λ why. IsRefused self.old ticket why) }
        ensures unfit { IfErr result (λ why. UnfitOnlyIf (¬ IsOpenFor MayLack self.old ticket) why) }
        ensures memory { IfErr result (λ why. why ≢ NoAnswer.NoMemory) }
        ensures err { OnErr result (self.new ≡ self.old) }
    {
        let asked = self.find(ticket)?;
        match asked.of {
            Asked::Beats => self.lack_beats(now, ticket),
            Asked::News => self.lack_news(now, ticket),
            Asked::Open { .. } => self.lack_plan(now, ticket),
            Asked::Row { .. } => self.lack_entries(now, ticket),
            Asked::Call { .. } | Asked::Act { .. } => Err(NoAnswer::Unfit),
        }
    }

    /// The store has the request no more.
    pub fn dropped(&mut self, ticket: u64) -> Result<(), NoAnswer>
        ensures ok { OnOk result (LosesRequest self.old ticket self.new) }
        ensures why { IfErr result (λ why. IsRefused self.old ticket why) }
        ensures unfit { IfErr result (λ why. UnfitOnlyIf (¬ IsOpenFor MayLose self.old ticket) why) }
        ensures memory { IfErr result (λ why. why ≢ NoAnswer.NoMemory) }
        ensures err { OnErr result (self.new ≡ self.old) }
    {
        let asked = self.find(ticket)?;
        match asked.of {
            Asked::Open { .. } => self.lose_plan(ticket),
            Asked::Row { .. } => self.lose_row(ticket),
            _ => Err(NoAnswer::Unfit),
        }
    }

    /// The function of a call has ended, and came to this.
    pub fn ended(&mut self, ticket: u64, answer: EndsWith) -> Result<(), NoAnswer>
        ensures ok { OnOk result (EndsCall answer self.old ticket self.new) }
        ensures why { IfErr result (λ why. IsRefused self.old ticket why) }
        ensures unfit { IfErr result (λ why. UnfitOnlyIf (¬ AwaitsEnd self.old ticket) why) }
        ensures memory { IfErr result (λ why. why ≢ NoAnswer.NoMemory) }
        ensures err { OnErr result (self.new ≡ self.old) }
    {
        let asked = self.find(ticket)?;
        let Asked::Call { request, stage } = asked.of else {
            return Err(NoAnswer::Unfit);
        };
        let place = self.place(request)?;
        if !self.requests[place].is_running(stage) {
            return Err(NoAnswer::Unfit);
        }
        self.requests[place].ended(stage, answer);
        self.tickets.close(ticket);
        Ok(())
    }

    /// No answer came to the question for beats. Nobody could beat.
    fn lack_beats(&mut self, now: u64, ticket: u64) -> Result<(), NoAnswer>
        ensures ok { OnOk result (LacksBeats self.old now ticket self.new) }
        ensures never { IfErr result (λ why. ⊥) }
    {
        self.watch.take_silence();
        self.pulse = self.pulse.silent(now);
        self.tickets.close(ticket);
        Ok(())
    }

    /// None came to a look.
    fn lack_news(&mut self, now: u64, ticket: u64) -> Result<(), NoAnswer>
        ensures ok { OnOk result (LacksNews self.old now ticket self.new) }
        ensures never { IfErr result (λ why. ⊥) }
    {
        self.news.take_silence(now);
        self.tickets.close(ticket);
        Ok(())
    }

    /// None came to the question for a plan.
    fn lack_plan(&mut self, now: u64, ticket: u64) -> Result<(), NoAnswer>
        ensures ok { OnOk result (Answers OfOpen (StaysShut now) self.old ticket self.new) }
        ensures why { IfErr result (λ why. IsRefused self.old ticket why) }
        ensures unfit { IfErr result (λ why. UnfitOnlyIf (¬ AsksPlan self.old ticket) why) }
        ensures memory { IfErr result (λ why. why ≢ NoAnswer.NoMemory) }
        ensures err { OnErr result (self.new ≡ self.old) }
    {
        let place = self.to_open(ticket)?;
        self.requests[place].stay_shut(now);
        self.tickets.close(ticket);
        Ok(())
    }

    /// None came to a question about a row.
    fn lack_entries(&mut self, now: u64, ticket: u64) -> Result<(), NoAnswer>
        ensures ok { OnOk result (AnswersRow (Waiting now) self.old ticket self.new) }
        ensures why { IfErr result (λ why. IsRefused self.old ticket why) }
        ensures unfit { IfErr result (λ why. UnfitOnlyIf (¬ AsksRow self.old ticket) why) }
        ensures memory { IfErr result (λ why. why ≢ NoAnswer.NoMemory) }
        ensures err { OnErr result (self.new ≡ self.old) }
    {
        let place = self.row_of(ticket)?;
        self.requests[place].unknown(now);
        self.tickets.close(ticket);
        Ok(())
    }

    /// The store has no plan of a request.
    fn lose_plan(&mut self, ticket: u64) -> Result<(), NoAnswer>
        ensures ok { OnOk result (Answers OfOpen IsDropped self.old ticket self.new) }
        ensures why { IfErr result (λ why. IsRefused self.old ticket why) }
        ensures unfit { IfErr result (λ why. UnfitOnlyIf (¬ AsksPlan self.old ticket) why) }
        ensures memory { IfErr result (λ why. why ≢ NoAnswer.NoMemory) }
        ensures err { OnErr result (self.new ≡ self.old) }
    {
        let place = self.to_open(ticket)?;
        self.requests[place].lose();
        self.tickets.close(ticket);
        Ok(())
    }

    /// The store has no row of a request any more.
    fn lose_row(&mut self, ticket: u64) -> Result<(), NoAnswer>
        ensures ok { OnOk result (AnswersRow Breaking self.old ticket self.new) }
        ensures why { IfErr result (λ why. IsRefused self.old ticket why) }
        ensures unfit { IfErr result (λ why. UnfitOnlyIf (¬ AsksRow self.old ticket) why) }
        ensures memory { IfErr result (λ why. why ≢ NoAnswer.NoMemory) }
        ensures err { OnErr result (self.new ≡ self.old) }
    {
        let place = self.row_of(ticket)?;
        self.requests[place].dropped();
        self.tickets.close(ticket);
        Ok(())
    }

    /// The ticket that has this number.
    fn find(&self, ticket: u64) -> Result<Ticket, NoAnswer>
        ensures is { IfOk result (λ t. ticket_of ticket self.now.tickets.waiting ≡ Some t) }
        ensures why { IfErr result (λ why. IsRefused self.now ticket why) }
        ensures none { IfErr result (λ why. why ≡ NoAnswer.NoTicket) }
    {
        match self.tickets.find(ticket) {
            Some(found) => Ok(found),
            None => Err(NoAnswer::NoTicket),
        }
    }

    /// The place of the opened request of whose row a ticket is.
    fn row_of(&self, ticket: u64) -> Result<usize, NoAnswer>
        ensures is { IfOk result (λ place. IsTicketOf self.now ticket OfRow place) }
        ensures there { IfOk result (λ place. place < length self.now.requests) }
        ensures opened { IfOk result (λ place. IsOpenAt place self.now.requests) }
        ensures why { IfErr result (λ why. IsRefused self.now ticket why) }
        ensures unfit { IfErr result (λ why. UnfitOnlyIf (¬ AsksRow self.now ticket) why) }
        ensures memory { IfErr result (λ why. why ≢ NoAnswer.NoMemory) }
    {
        let asked = self.find(ticket)?;
        let Asked::Row { request } = asked.of else {
            return Err(NoAnswer::Unfit);
        };
        let place = self.place(request)?;
        if self.requests[place].work.is_none() {
            return Err(NoAnswer::Unfit);
        }
        Ok(place)
    }

    /// The place of the request that a ticket is to open, and that isn't opened.
    fn to_open(&self, ticket: u64) -> Result<usize, NoAnswer>
        ensures is { IfOk result (λ place. IsTicketOf self.now ticket OfOpen place) }
        ensures there { IfOk result (λ place. place < length self.now.requests) }
        ensures shut { IfOk result (λ place. IsShutAt place self.now.requests) }
        ensures why { IfErr result (λ why. IsRefused self.now ticket why) }
        ensures unfit { IfErr result (λ why. UnfitOnlyIf (¬ AsksPlan self.now ticket) why) }
        ensures memory { IfErr result (λ why. why ≢ NoAnswer.NoMemory) }
    {
        let asked = self.find(ticket)?;
        let Asked::Open { request } = asked.of else {
            return Err(NoAnswer::Unfit);
        };
        let place = self.place(request)?;
        if self.requests[place].work.is_some() {
            return Err(NoAnswer::Unfit);
        }
        Ok(place)
    }

    /// The place of a request of which a ticket is.
    fn place(&self, request: u64) -> Result<usize, NoAnswer>
        ensures is { IfOk result (λ place. IsAt request place self.now.requests) }
        ensures there { IfOk result (λ place. place < length self.now.requests) }
        ensures none { IfErr result (λ why. NoneAt request (length self.now.requests) self.now.requests) }
        ensures why { IfErr result (λ why. why ≡ NoAnswer.Unfit) }
    {
        match place_of(&self.requests, request) {
            Some(place) => Ok(place),
            None => Err(NoAnswer::Unfit),
        }
    }
}
