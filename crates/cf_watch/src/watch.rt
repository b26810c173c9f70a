//! A watch over sessions.
ghost use Rattle.std.specs.Prelude.{◌≡◌, ◌+◌, ◌≤◌, OnErr, OnOk, length, map, vec_capacity};
ghost use Rattle.cf_watch.specs.Watches.{AreMet, Notices, TakesAnswer, forgotten, is_gone_by, looked_at, new_watch, sight_of};

use crate::beat::{Beat, count_in};
use crate::sight::{Known, Sight, is_gone_by, sight_after, sight_of, span_from};
use std::alloc::{AllocError, Global};
use std::marker::Model;

/// What a process knows of the sessions of a store. It grows by each session that it meets, until the store is silent.
#[derive(Drop)]
pub struct Watch {
    lease: u64,
    last: Option<u64>,
    known: Vec<Known>,
}

impl Model for Watch {
    ghost use Rattle.cf_watch.specs.Watches.{Watch};

    ghost Value = { Watch };

    ghost view = { λ w. record { lease = w.lease; last = w.last; known = w.known.items } };
}

impl Watch {
    /// With a lease, in milliseconds. Nothing is known yet.
    pub fn new(alloc: Global, lease: u64) -> Watch
        ensures { result ≡ new_watch lease }
    {
        Watch {
            lease,
            last: None,
            known: Vec::new(alloc),
        }
    }

    /// The store answered a question for all beats. It fails only where there is no memory, and then changes nothing.
    pub fn take_answer(&mut self, asked: u64, now: u64, beats: &[Beat]) -> Result<(), AllocError>
        ensures ok { OnOk result (TakesAnswer asked now beats.now self.old self.new) }
        ensures err { OnErr result (self.new ≡ self.old) }
    {
        self.known.reserve(beats.len())?;
        let time = span_from(self.lease, self.last, asked);
        look_again(&mut self.known, self.lease, time, beats);
        meet_all(&mut self.known, self.lease, beats);
        self.last = Some(now);
        Ok(())
    }

    /// The store didn't answer a question, or refused it. All is forgotten, since nobody could beat.
    pub fn take_silence(&mut self)
        ensures { self.new ≡ forgotten self.old }
    {
        self.last = None;
        self.known.clear();
    }

    /// A session was met, as in a row. If it never beats, its lease counts from the next answer on. It fails only where
    /// there is no memory, and then changes nothing.
    pub fn notice(&mut self, session: u64) -> Result<(), AllocError>
        ensures ok { OnOk result (Notices session self.old self.new) }
        ensures err { OnErr result (self.new ≡ self.old) }
    {
        if sight_of(&self.known, session).is_some() {
            return Ok(());
        }
        self.known.reserve(1)?;
        self.known.push_reserved(Known {
            session,
            sight: Sight::Noticed,
        });
        Ok(())
    }

    /// Whether a session is gone.
    pub fn is_gone(&self, session: u64) -> bool
        ensures { result ≡ is_gone_by (sight_of session self.now.known) }
    {
        is_gone_by(sight_of(&self.known, session))
    }
}

/// Takes an answer for the sessions that are known.
fn look_again(known: &mut [Known], lease: u64, time: u64, beats: &[Beat])
    ensures { known.new ≡ map (looked_at lease time beats.now) known.old }
{
    for one in known.iter_mut() {
        one.sight = sight_after(lease, time, count_in(beats, one.session), one.sight);
    }
}

/// Adds the sessions that an answer tells of and that aren't known. Their places are reserved.
fn meet_all(known: &mut Vec<Known>, lease: u64, beats: &[Beat])
    requires { length known.old.items + length beats.now ≤ vec_capacity known.old }
    ensures { AreMet lease beats.now known.old.items known.new.items }
{
    for beat in beats {
        if sight_of(known, beat.session).is_none() {
            known.push_reserved(Known {
                session: beat.session,
                sight: Sight::Seen {
                    count: Some(beat.count),
                    left: Some(lease),
                },
            });
        }
    }
}
