//! The requests of a process.
ghost use Rattle.std.specs.Prelude.{◌≡◌, ◌+◌, ◌<◌, ◌≤◌, IfNone, IfSome, OnErr, OnOk, length, map, vec_capacity};
ghost use Rattle.cf_host.specs.Requests.{Follows, Hears, HearsAll, IsAt, NoneAt, is_told, missed};

use crate::request::Request;
use std::alloc::AllocError;

/// How many words stand in a request's row.
#[derive(Clone, Copy, Debug, PartialEq, Eq)]
pub struct Length {
    pub request: u64,
    pub words: usize,
}

/// The place of the request that has a number.
pub(crate) fn place_of(requests: &[Request], number: u64) -> Option<usize>
    ensures is { IfSome result (λ place. IsAt number place requests.now) }
    ensures there { IfSome result (λ place. place < length requests.now) }
    ensures none { IfNone result (NoneAt number (length requests.now) requests.now) }
{
    for place in 0..requests.len() {
        if requests[place].number == number {
            return Some(place);
        }
    }
    None
}

/// Takes up a request, unless it is there. It fails only where there is no memory, and then changes nothing.
pub(crate) fn follow(requests: &mut Vec<Request>, number: u64) -> Result<(), AllocError>
    ensures ok { OnOk result (Follows number requests.old.items requests.new.items) }
    ensures err { OnErr result (requests.new.items ≡ requests.old.items) }
{
    if let Some(_place) = place_of(requests, number) {
        return Ok(());
    }
    requests.reserve(1)?;
    requests.push_reserved(Request::new(number, 0));
    Ok(())
}

/// Hears what is new of requests, and takes up those that aren't there, if the process takes all. It fails only where
/// there is no memory, and then changes nothing.
pub(crate) fn hear_news(
    requests: &mut Vec<Request>,
    lengths: &[Length],
    takes_all: bool,
) -> Result<(), AllocError>
    ensures ok { OnOk result (HearsAll takes_all lengths.now requests.old.items requests.new.items) }
    ensures err { OnErr result (requests.new.items ≡ requests.old.items) }
{
    requests.reserve(lengths.len())?;
    hear_all(requests, lengths, takes_all);
    Ok(())
}

/// Hears of these requests, for which there are places.
fn hear_all(requests: &mut Vec<Request>, lengths: &[Length], takes_all: bool)
    requires { length requests.old.items + length lengths.now ≤ vec_capacity requests.old }
    ensures { HearsAll takes_all lengths.now requests.old.items requests.new.items }
{
    for told in lengths {
        hear(requests, *told, takes_all);
    }
}

/// Hears of one request, for which there is a place.
fn hear(requests: &mut Vec<Request>, told: Length, takes_all: bool)
    requires { length requests.old.items < vec_capacity requests.old }
    ensures hears { Hears takes_all told requests.old.items requests.new.items }
    ensures count { length requests.new.items ≤ length requests.old.items + 1 }
    ensures kept { vec_capacity requests.new ≡ vec_capacity requests.old }
{
    match place_of(requests, told.request) {
        Some(place) => requests[place].hears(told.words),
        None if takes_all => requests.push_reserved(Request::new(told.request, told.words)),
        None => {}
    }
}

/// Of these requests a look at all has told. Those of which it hasn't are to be read, where somebody waits for a stage.
pub(crate) fn miss_all(requests: &mut [Request], lengths: &[Length])
    ensures { requests.new ≡ map (missed lengths.now) requests.old }
{
    for request in requests.iter_mut() {
        request.miss(lengths);
    }
}

impl Request {
    /// A look at all has told of these.
    fn miss(&mut self, lengths: &[Length])
        ensures { self.new ≡ missed lengths.now self.old }
    {
        if let Some(work) = &mut self.work {
            if work.part().is_waited() && !is_told(lengths, self.number) {
                work.reads_again();
            }
        }
    }
}

/// Whether an answer tells of a request.
fn is_told(lengths: &[Length], number: u64) -> bool
    ensures { result ≡ is_told lengths.now number }
{
    for told in lengths {
        if told.request == number {
            return true;
        }
    }
    false
}
