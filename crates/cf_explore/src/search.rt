//! The search, layer by layer.
ghost use Rattle.std.specs.Prelude.{◌≡◌, ◌<◌, ◌≤◌, ℕ, Contains, IfNone, IfOk, IfSome, None, false, length, replicate, true};
ghost use Rattle.cf_forms.specs.Meanings.{Meanings, meanings_of};
ghost use Rattle.cf_explore.specs.Moves.{moves};
ghost use Rattle.cf_explore.specs.Layers.{IsLonger, LeadsPast, MissesOne};
ghost use Rattle.cf_explore.specs.Spreads.{AddsMove, IfMade, IfStopped, IsLayerSpread, IsNextLayer, IsNumberedFrom, KeepsLayerLed, KeepsNumbers, LeadsLayerOn, MissesMove};
ghost use Rattle.cf_explore.specs.Found.{IsAdvance, IsAsked, IsDecided, IsFirst, IsFound, IsLook, IsOver, IsSearch, IsUpdate, IsWithin, KeepsSearch, SearchGoesOn};

use crate::condition::Condition;
use crate::found::{Found, Witness};
use crate::layer::{Added, Entry, Layer};
use crate::program::Program;
use crate::step::Move;
use crate::trail::Trace;
use cf_forms::StageFn;
use std::alloc::{AllocError, Global};

/// A search that goes on layer by layer. `found` is true of all orders that were seen so far.
#[derive(Drop)]
pub struct Search {
    pub(crate) layer: Layer,
    pub found: Found,
    /// Whether it goes on, which it does until all orders were seen or the bound was reached.
    pub is_on: bool,
}

impl Program {
    /// Searches all orders, but sees at most `bound` situations. It fails only where there is no memory.
    pub fn explore<F: StageFn>(
        &self,
        alloc: Global,
        functions: &[F],
        conditions: &[Condition],
        bound: u32,
    ) -> Result<Found, AllocError>
        ensures found { IfOk result (IsFound (meanings_of F.meaning functions.now) self.now conditions.now) }
        ensures asked { IfOk result (IsAsked (meanings_of F.meaning functions.now) self.now bound) }
    {
        let mut search = self.begin(alloc, conditions)?;
        for turn in 0..bound {
            if !search.is_on {
                break;
            }
            self.go_on(alloc, functions, conditions, bound, &mut search)?;
        }
        Ok(search.found)
    }

    /// A search that has seen nothing yet.
    pub fn begin(&self, alloc: Global, conditions: &[Condition]) -> Result<Search, AllocError>
        ensures search { IfOk result (λ search. (m : Meanings) → IsSearch m self.now conditions.now search) }
        ensures over { IfOk result (λ search. (bound : ℕ) → IsOver bound search) }
        ensures within { IfOk result (λ search. (bound : ℕ) → IsWithin bound search) }
        ensures begins { IfOk result (λ search. search.found.moves ≡ 0) }
    {
        let mut layer = Layer::new(alloc);
        let start = self.start(alloc)?;
        let _new = layer.add(start, 1, Some(0))?;
        let mut trail = Vec::new(alloc);
        trail.push(Trace {
            before: 0,
            by: Move::Tick,
        })?;
        let decisions = undecided(alloc, conditions.len())?;
        Ok(Search {
            layer,
            found: Found {
                ends: Vec::new(alloc),
                decisions,
                moves: 0,
                whole: false,
                trail,
            },
            is_on: true,
        })
    }

    /// Goes on to all orders of one move more, or stops where these lead to more situations than the bound. The conditions have
    /// to be those that the search began with. It fails only where there is no memory; then the search can't be used any more.
    pub fn go_on<F: StageFn>(
        &self,
        alloc: Global,
        functions: &[F],
        conditions: &[Condition],
        bound: u32,
        search: &mut Search,
    ) -> Result<(), AllocError>
        ensures search { KeepsSearch (meanings_of F.meaning functions.now) self.now conditions.now
            search.old result search.new }
        ensures over { IsOver bound search.old → IfOk result (λ _. IsOver bound search.new) }
        ensures within { IsWithin bound search.old → IfOk result (λ _. IsWithin bound search.new) }
        ensures goes_on { IsSearch (meanings_of F.meaning functions.now) self.now conditions.now search.old
            → IfOk result (λ _. SearchGoesOn search.old search.new) }
    {
        if search.is_on
            && search.found.moves < u32::MAX
            && search.found.decisions.len() == conditions.len()
        {
            self.look(alloc, conditions, search)?;
            self.advance(alloc, functions, bound, search)
        } else {
            Ok(())
        }
    }

    /// Looks at a layer's ends, and at what it decides.
    fn look(
        &self,
        alloc: Global,
        conditions: &[Condition],
        search: &mut Search,
    ) -> Result<(), AllocError>
        requires few { search.old.found.moves < 4294967295 }
        requires decisions { length search.old.found.decisions.items ≡ length conditions.now }
        ensures { IfOk result (λ _. IsLook self.now conditions.now search.old search.new) }
    {
        let moves = search.found.moves;
        self.add_ends(alloc, &search.layer.entries, moves, &mut search.found.ends)?;
        self.decide(
            alloc,
            &search.layer.entries,
            moves,
            conditions,
            &mut search.found.decisions,
        )?;
        search.found.moves = moves + 1;
        Ok(())
    }

    /// Goes on to the next layer, unless there would be more situations than the bound.
    fn advance<F: StageFn>(
        &self,
        alloc: Global,
        functions: &[F],
        bound: u32,
        search: &mut Search,
    ) -> Result<(), AllocError>
        ensures advance { IfOk result
            (λ _. IsAdvance (meanings_of F.meaning functions.now) self.now search.old search.new) }
        ensures over { IfOk result (λ _. IsOver bound search.new) }
        ensures within { IsWithin bound search.old → IfOk result (λ _. IsWithin bound search.new) }
    {
        let next = self.next_layer(
            alloc,
            functions,
            &search.layer.entries,
            bound,
            &mut search.found.trail,
        )?;
        match next {
            None => {
                search.is_on = false;
                Ok(())
            }
            Some(layer) => {
                let whole = layer.entries.is_empty();
                search.found.whole = whole;
                search.is_on = !whole;
                search.layer = layer;
                Ok(())
            }
        }
    }

    /// The situations after one more move, or none where there would be more than the bound.
    fn next_layer<F: StageFn>(
        &self,
        alloc: Global,
        functions: &[F],
        entries: &[Entry],
        bound: u32,
        trail: &mut Vec<Trace>,
    ) -> Result<Option<Layer>, AllocError>
        ensures next { IfMade result (IsNextLayer (meanings_of F.meaning functions.now) self.now entries.now) }
        ensures led { IfMade result
            (LeadsLayerOn (meanings_of F.meaning functions.now) self.now trail.old.items trail.new.items entries.now) }
        ensures longer { IfOk result (λ _. IsLonger trail.old.items trail.new.items) }
        ensures numbered { IfMade result (IsNumberedFrom (length trail.old.items) trail.new.items) }
        ensures full { IfStopped result (bound ≤ length trail.new.items) }
        ensures past { IfStopped result
            (LeadsPast (meanings_of F.meaning functions.now) self.now trail.old.items trail.new.items entries.now) }
        ensures within { length trail.old.items ≤ bound → IfOk result (λ _. length trail.new.items ≤ bound) }
    {
        let mut next = Layer::new(alloc);
        for entry in entries {
            let all = self.spread(alloc, functions, entry, bound, trail, &mut next)?;
            if !all {
                return Ok(None);
            }
        }
        Ok(Some(next))
    }

    /// Adds the situations to which one more move leads from this one. It says whether the bound allowed all of them.
    fn spread<F: StageFn>(
        &self,
        alloc: Global,
        functions: &[F],
        entry: &Entry,
        bound: u32,
        trail: &mut Vec<Trace>,
        next: &mut Layer,
    ) -> Result<bool, AllocError>
        ensures spread { IfOk result (λ whole. whole ≡ true
            → IsLayerSpread (meanings_of F.meaning functions.now) self.now entry.now next.old next.new) }
        ensures led { IfOk result (λ _. KeepsLayerLed (meanings_of F.meaning functions.now) self.now
            trail.old.items trail.new.items next.old next.new entry.now) }
        ensures longer { IfOk result (λ _. IsLonger trail.old.items trail.new.items) }
        ensures numbered { IfOk result (λ _. KeepsNumbers trail.old.items trail.new.items next.old next.new) }
        ensures full { IfOk result (λ whole. whole ≡ false → bound ≤ length trail.new.items) }
        ensures past { IfOk result (λ whole. whole ≡ false
            → MissesOne (meanings_of F.meaning functions.now) self.now entry.now next.new.entries.items) }
        ensures within { length trail.old.items ≤ bound → IfOk result (λ _. length trail.new.items ≤ bound) }
    {
        let moves = self.moves(alloc, &entry.situation)?;
        for by in &moves {
            let all = self.add_move(alloc, functions, entry, *by, bound, trail, next)?;
            if !all {
                return Ok(false);
            }
        }
        Ok(true)
    }

    /// Adds the situation to which a move leads. It says whether the bound allows that; where it doesn't, nothing changes.
    #[tactic(none)]
    fn add_move<F: StageFn>(
        &self,
        alloc: Global,
        functions: &[F],
        entry: &Entry,
        by: Move,
        bound: u32,
        trail: &mut Vec<Trace>,
        next: &mut Layer,
    ) -> Result<bool, AllocError>
        ensures weighs { IfOk result (λ whole. whole ≡ true
            → AddsMove (meanings_of F.meaning functions.now) self.now entry.now by next.old next.new) }
        ensures led { IfOk result (λ _. Contains (moves self.now entry.now.situation) by
            → KeepsLayerLed (meanings_of F.meaning functions.now) self.now
            trail.old.items trail.new.items next.old next.new entry.now) }
        ensures longer { IfOk result (λ _. IsLonger trail.old.items trail.new.items) }
        ensures numbered { IfOk result (λ _. KeepsNumbers trail.old.items trail.new.items next.old next.new) }
        ensures full { IfOk result (λ whole. whole ≡ false → bound ≤ length trail.new.items) }
        ensures past { IfOk result (λ whole. whole ≡ false
            → MissesMove (meanings_of F.meaning functions.now) self.now entry.now by next.new) }
        ensures within { length trail.old.items ≤ bound → IfOk result (λ _. length trail.new.items ≤ bound) }
    {
        let situation = self.moved(alloc, functions, &entry.situation, by)?;
        let number = new_number(trail.len(), bound);
        let added = next.add(situation, entry.orders, number)?;
        match added {
            Added::New => {
                trail.push(Trace {
                    before: entry.number,
                    by,
                })?;
                Ok(true)
            }
            Added::There => Ok(true),
            Added::NoRoom => Ok(false),
        }
    }

    /// Decides the conditions that aren't decided yet, as far as these situations decide them.
    fn decide(
        &self,
        alloc: Global,
        entries: &[Entry],
        moves: u32,
        conditions: &[Condition],
        decisions: &mut [Option<Witness>],
    ) -> Result<(), AllocError>
        requires { length decisions.old ≡ length conditions.now }
        ensures { IfOk result (λ _. IsDecided self.now entries.now moves conditions.now decisions.old decisions.new) }
    {
        for i in 0..conditions.len() {
            let known = decisions[i];
            decisions[i] = self.decision(alloc, entries, moves, &conditions[i], known)?;
        }
        Ok(())
    }

    /// What is known of a condition already, or else the first of these situations that decides it, if one does.
    fn decision(
        &self,
        alloc: Global,
        entries: &[Entry],
        moves: u32,
        condition: &Condition,
        known: Option<Witness>,
    ) -> Result<Option<Witness>, AllocError>
        ensures { IfOk result (λ new. IsUpdate self.now entries.now moves condition.now known new) }
    {
        match known {
            Some(w) => Ok(Some(w)),
            None => self.first(alloc, entries, moves, condition),
        }
    }

    /// The first of these situations that decides a condition, if one does.
    fn first(
        &self,
        alloc: Global,
        entries: &[Entry],
        moves: u32,
        condition: &Condition,
    ) -> Result<Option<Witness>, AllocError>
        ensures { IfOk result (λ found. IsFirst self.now entries.now moves condition.now found) }
    {
        for entry in entries {
            if self.decides(alloc, condition, &entry.situation)? {
                let number = entry.number;
                return Ok(Some(Witness { moves, number }));
            }
        }
        Ok(None)
    }
}

/// The number of the next new situation, unless so many as the bound have one.
fn new_number(taken: usize, bound: u32) -> Option<u32>
    ensures number { IfSome result (λ number. number ≡ taken) }
    ensures room { IfSome result (λ _. taken < bound) }
    ensures full { IfNone result (bound ≤ taken) }
{
    if taken < bound as usize {
        Some(taken as u32)
    } else {
        None
    }
}

/// Nothing is decided of so many conditions.
fn undecided(alloc: Global, count: usize) -> Result<Vec<Option<Witness>>, AllocError>
    ensures { IfOk result (λ decisions. decisions.items ≡ replicate count None) }
{
    vec![in alloc; None; count]
}
