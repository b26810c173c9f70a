//! The users who wait in a request.
ghost use Rattle.std.specs.Prelude.{◌≡◌, ◌-◌, ◌<◌, [], ◌∷◌, ◌++◌, IfNone, IfSome, OnErr, OnOk, length, max, nat_lt, slice_get};
ghost use Rattle.std.specs.List.{remove};
ghost use Rattle.cf_due.specs.Acts.{IsFitting};
ghost use Rattle.cf_turn.specs.Quiets.{ActsWait, EndsWait};
ghost use Rattle.cf_turn.specs.Works.{IsEndTold, IsTold, NoEndTold, NoneTold, answered_first, no_users};

use crate::acting::{end_told, wish_told};
use crate::wish::{End, Told, Wish};
use cf_part::Fault;
use std::alloc::{AllocError, Global};
use std::marker::Model;

/// The users who wait for acts, and those who end the request, in their order. A contract sees both, and for how many
/// more of them places were found.
#[derive(Drop)]
pub(crate) struct Users {
    wishes: Vec<Wish>,
    ends: Vec<End>,
    free: usize,
}

impl Model for Users {
    ghost use Rattle.cf_turn.specs.Works.{Users};

    ghost Value = { Users };

    ghost use Rattle.std.specs.Prelude.{◌+◌, ◌≤◌, All, length, vec_capacity};
    ghost use Rattle.cf_turn.specs.Works.{IsFit};

    ghost view = { λ u. record { wishes = u.wishes.items; ends = u.ends.items; free = u.free } };

    ghost invariant = { λ u. record {
      fit : All IsFit u.wishes.items;
      of_wishes : length u.wishes.items + u.free ≤ vec_capacity u.wishes;
      of_ends : length u.ends.items + u.free ≤ vec_capacity u.ends;
    } };
}

/// Where a user stands among those who wait for the same, and what is told.
#[derive(Clone, Copy)]
pub(crate) struct Place {
    pub(crate) at: usize,
    pub(crate) number: u64,
    pub(crate) told: Told,
}

impl Users {
    pub(crate) fn new(alloc: Global) -> Users
        ensures { result ≡ no_users }
    {
        Users {
            wishes: Vec::new(alloc),
            ends: Vec::new(alloc),
            free: 0,
        }
    }

    /// Finds places for so many more. It fails only where there is no memory, and then changes nothing.
    pub(crate) fn reserve(&mut self, more: usize) -> Result<(), AllocError>
        ensures found { OnOk result (self.new ≡ record self.old { free = max self.old.free more }) }
        ensures refused { OnErr result (self.new ≡ self.old) }
        ensures short { OnErr result (self.old.free < more) }
    {
        if more <= self.free {
            return Ok(());
        }
        self.wishes.reserve(more)?;
        self.ends.reserve(more)?;
        self.free = more;
        Ok(())
    }

    /// Puts an act behind those that wait.
    pub(crate) fn add_act(&mut self, wish: Wish) -> Result<(), AllocError>
        requires { IsFitting wish.act }
        ensures ok { OnOk result (self.new ≡ record self.old {
          wishes = self.old.wishes ++ wish ∷ [];
          free = self.old.free - 1;
        }) }
        ensures refused { OnErr result (self.new ≡ self.old) }
        ensures short { OnErr result (self.old.free ≡ 0) }
    {
        self.reserve(1)?;
        self.wishes.push_reserved(wish);
        self.free -= 1;
        Ok(())
    }

    /// Puts an end behind those that wait.
    pub(crate) fn add_end(&mut self, end: End) -> Result<(), AllocError>
        ensures ok { OnOk result (self.new ≡ record self.old {
          ends = self.old.ends ++ end ∷ [];
          free = self.old.free - 1;
        }) }
        ensures refused { OnErr result (self.new ≡ self.old) }
        ensures short { OnErr result (self.old.free ≡ 0) }
    {
        self.reserve(1)?;
        self.ends.push_reserved(end);
        self.free -= 1;
        Ok(())
    }

    /// The first act.
    pub(crate) fn first_act(&self) -> Option<Wish>
        ensures is { result ≡ slice_get self.now.wishes 0 }
        ensures fits { IfSome result (λ wish. IsFitting wish.act) }
        ensures none { IfNone result (self.now.wishes ≡ []) }
    {
        if self.wishes.is_empty() {
            return None;
        }
        Some(self.wishes[0])
    }

    /// Whether somebody ends the request.
    pub(crate) fn has_ends(&self) -> bool
        ensures { result ≡ nat_lt 0 (length self.now.ends) }
    {
        !self.ends.is_empty()
    }

    /// The first act whose user is to be told something by now.
    pub(crate) fn act_to_tell(&self, fault: Option<Fault>, now: u64) -> Option<Place>
        ensures is { IfSome result (λ p. IsTold fault now self.now.wishes p.at p.number p.told) }
        ensures there { IfSome result (λ p. p.at < length self.now.wishes) }
        ensures none { IfNone result (NoneTold fault now (length self.now.wishes) self.now.wishes) }
    {
        for (at, wish) in self.wishes.iter().enumerate() {
            if let Some(told) = wish_told(*wish, fault, now) {
                return Some(Place {
                    at,
                    number: wish.number,
                    told,
                });
            }
        }
        None
    }

    /// The first end whose user is to be told something by now.
    pub(crate) fn end_to_tell(
        &self,
        fault: Option<Fault>,
        is_closed: bool,
        now: u64,
    ) -> Option<Place>
        ensures is { IfSome result (λ p. IsEndTold fault is_closed now self.now.ends p.at p.number p.told) }
        ensures there { IfSome result (λ p. p.at < length self.now.ends) }
        ensures none { IfNone result (NoEndTold fault is_closed now (length self.now.ends) self.now.ends) }
    {
        for (at, end) in self.ends.iter().enumerate() {
            if let Some(told) = end_told(*end, fault, is_closed, now) {
                return Some(Place {
                    at,
                    number: end.number,
                    told,
                });
            }
        }
        None
    }

    /// A moment up to which all of them wait.
    pub(crate) fn wait_till(&self) -> u64
        ensures acts { ActsWait self.now.wishes result (length self.now.wishes) }
        ensures ends { EndsWait self.now.ends result (length self.now.ends) }
    {
        acts_wait_till(&self.wishes).min(ends_wait_till(&self.ends))
    }

    /// Leaves an act out, whose user is told.
    pub(crate) fn remove_act(&mut self, at: usize)
        requires { at < length self.old.wishes }
        ensures { self.new ≡ record self.old { wishes = remove self.old.wishes at } }
    {
        self.wishes.remove(at);
    }

    /// Leaves an end out, whose user is told.
    pub(crate) fn remove_end(&mut self, at: usize)
        requires { at < length self.old.ends }
        ensures { self.new ≡ record self.old { ends = remove self.old.ends at } }
    {
        self.ends.remove(at);
    }

    /// Keeps what the user of the first act is to be told, if there is one.
    pub(crate) fn answer_first(&mut self, told: Told)
        ensures { self.new ≡ record self.old { wishes = answered_first told self.old.wishes } }
    {
        if !self.wishes.is_empty() {
            self.wishes[0].answer = Some(told);
        }
    }
}

/// A moment up to which these users wait.
fn acts_wait_till(wishes: &[Wish]) -> u64
    ensures { ActsWait wishes.now result (length wishes.now) }
{
    let mut until = u64::MAX;
    for at in 0..wishes.len() {
        until = until.min(wishes[at].until);
    }
    until
}

/// The same of those who end the request.
fn ends_wait_till(ends: &[End]) -> u64
    ensures { EndsWait ends.now result (length ends.now) }
{
    let mut until = u64::MAX;
    for at in 0..ends.len() {
        until = until.min(ends[at].until);
    }
    until
}
