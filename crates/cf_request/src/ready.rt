//! The ready stages of each lane.
ghost use Rattle.std.specs.Prelude.{◌≡◌, ◌↔◌, ◌+◌, ◌<◌, ◌≤◌, [], All, IfOk, IsTrue, cond, false, length, position, replicate, slice_index_or, slice_set, take, vec_capacity};
ghost use Rattle.cf_request.specs.Ready.{AreSets, IsLane, IsLaneCount, and_lane, count_of, lane_of, none_ready};

use cf_bits::BitSet;
use std::alloc::{AllocError, Global};
use std::marker::Model;

/// The ready stages of one lane, and how many they are.
///
/// A contract sees the list that says of each stage whether it is in.
#[derive(Drop)]
struct ReadySet {
    set: BitSet,
    count: u16,
}

impl Model for ReadySet {
    ghost use Rattle.std.specs.Prelude.{◌≡◌, Bool, List};

    ghost Value = { List Bool };

    ghost use Rattle.cf_request.specs.Ready.{count_of};

    ghost view = { λ r. r.set };

    ghost invariant = { λ r. r.count ≡ count_of r.set };
}

impl ReadySet {
    /// The empty set of stages below a number. It fails only where there is no memory.
    fn new(alloc: Global, places: u16) -> Result<ReadySet, AllocError>
        requires { places ≤ 4096 }
        ensures { IfOk result (λ set. set ≡ replicate places false) }
    {
        Ok(ReadySet {
            set: BitSet::new(alloc, places)?,
            count: 0,
        })
    }

    /// Makes it the empty set of stages below a number. It takes no memory.
    fn empty(&mut self, places: u16)
        requires { places ≤ 4096 }
        ensures { self.new ≡ replicate places false }
    {
        self.set.reset(places);
        self.count = 0;
    }

    /// Puts a stage in that is ready, and takes one out that isn't.
    #[inline(always)]
    fn write(&mut self, i: u16, ready: bool)
        requires there { i < length self.old }
        requires few { length self.old ≤ 4096 }
        ensures { self.new ≡ slice_set self.old i ready }
    {
        if self.set.contains(i) == ready {
            return;
        }
        if ready {
            self.set.insert(i);
            self.count += 1;
        } else {
            self.set.remove(i);
            self.count -= 1;
        }
    }

    /// The lowest stage, if there is one.
    #[inline(always)]
    fn lowest(&self) -> Option<u16>
        ensures { result ≡ position (λ b. b) self.now }
    {
        self.set.lowest()
    }

    /// How many stages are in.
    #[inline(always)]
    fn count(&self) -> u16
        ensures { result ≡ count_of self.now }
    {
        self.count
    }
}

/// Of each stage the lane, and of each lane the ready stages. No call walks the stages.
#[derive(Drop)]
pub(crate) struct ReadySets {
    of: Vec<u8>,
    sets: Vec<ReadySet>,
    places: u16,
}

impl Model for ReadySets {
    ghost use Rattle.cf_request.specs.Ready.{ReadySets};

    ghost Value = { ReadySets };

    ghost use Rattle.std.specs.Prelude.{◌≤◌, vec_capacity};
    ghost use Rattle.cf_request.specs.Ready.{AreSets};

    ghost view = { λ r. record {
      of = r.of.items;
      sets = r.sets.items;
      places = r.places;
    } };

    ghost invariant = { λ r. AreSets (record { of = r.of.items; sets = r.sets.items; places = r.places })
        × (r.places ≤ vec_capacity r.of) };
}

impl ReadySets {
    /// These lanes of stages, of which there are so many, with room for so many stages more. No stage is ready. It fails
    /// only where there is no memory.
    pub(crate) fn new(
        alloc: Global,
        of: &[u8],
        room: u16,
        lanes: u8,
    ) -> Result<ReadySets, AllocError>
        requires few { length of.now + room ≤ 4096 }
        requires lanes { IsLaneCount lanes }
        requires there { All (λ lane. lane < lanes) of.now }
        ensures { IfOk result (λ sets. sets ≡ none_ready of.now lanes (length of.now + room)) }
    {
        let places = of.len() as u16 + room;
        Ok(ReadySets {
            of: copied(alloc, of, places)?,
            sets: empty(alloc, lanes, places)?,
            places,
        })
    }

    /// The same lanes of stages, with room for so many stages more. No stage is ready. It fails only where there is no
    /// memory.
    pub(crate) fn with_room(&self, alloc: Global, room: u16) -> Result<ReadySets, AllocError>
        requires { length self.now.of + room ≤ 4096 }
        ensures { IfOk result (λ sets. sets
            ≡ none_ready self.now.of (length self.now.sets) (length self.now.of + room)) }
    {
        ReadySets::new(alloc, &self.of, room, self.lanes())
    }

    /// How many lanes there are.
    #[inline(always)]
    pub(crate) fn lanes(&self) -> u8
        ensures count { result ≡ length self.now.sets }
        ensures few { IsLaneCount result }
        ensures sets { AreSets self.now }
    {
        self.sets.len() as u8
    }

    /// Whether there is such a lane.
    #[inline(always)]
    pub(crate) fn has(&self, lane: u8) -> bool
        ensures { IsTrue result ↔ lane < length self.now.sets }
    {
        (lane as usize) < self.sets.len()
    }

    /// Writes whether a stage is ready.
    #[inline(always)]
    pub(crate) fn write(&mut self, i: u16, ready: bool)
        requires { i < length self.old.of }
        ensures sets { AreSets self.old }
        ensures written { self.new ≡ record self.old {
          sets = slice_set self.old.sets (lane_of self.old.of i)
              (slice_set (slice_index_or self.old.sets (lane_of self.old.of i) []) i ready);
        } }
    {
        let lane = self.of[i as usize];
        let set = &mut self.sets[lane as usize];
        set.write(i, ready);
    }

    /// One stage more, if there is one, is this lane's.
    #[inline(always)]
    pub(crate) fn add(&mut self, is_more: bool, lane: u8)
        requires room { length self.old.of + cond is_more 1 0 ≤ self.old.places }
        requires lane { IsLane lane (length self.old.sets) }
        ensures { self.new ≡ record self.old { of = and_lane is_more lane self.old.of } }
    {
        if is_more {
            self.of.push_reserved(lane);
        }
    }

    /// The lanes of the first so many stages alone, none of which is ready. It takes no memory.
    pub(crate) fn begin_anew(&mut self, stages: u16)
        requires { stages ≤ length self.old.of }
        ensures { self.new ≡ none_ready (take stages self.old.of) (length self.old.sets) self.old.places }
    {
        self.of.truncate(stages as usize);
        empty_all(&mut self.sets, self.places);
    }

    /// The lowest ready stage of a lane, if there is one.
    #[inline(always)]
    pub(crate) fn lowest(&self, lane: u8) -> Option<u16>
        requires { lane < length self.now.sets }
        ensures { result ≡ position (λ b. b) (slice_index_or self.now.sets lane []) }
    {
        let set = &self.sets[lane as usize];
        set.lowest()
    }

    /// How many stages of a lane are ready.
    #[inline(always)]
    pub(crate) fn ready(&self, lane: u8) -> u16
        requires { lane < length self.now.sets }
        ensures count { result ≡ count_of (slice_index_or self.now.sets lane []) }
        ensures sets { AreSets self.now }
    {
        let set = &self.sets[lane as usize];
        set.count()
    }
}

/// These lanes, with places for so many.
fn copied(alloc: Global, lanes: &[u8], places: u16) -> Result<Vec<u8>, AllocError>
    requires { length lanes.now ≤ places }
    ensures lanes { IfOk result (λ row. row.items ≡ lanes.now) }
    ensures places { IfOk result (λ row. places ≤ vec_capacity row) }
{
    let mut row: Vec<u8> = Vec::with_capacity(alloc, places as usize)?;
    for lane in lanes {
        row.push_reserved(*lane);
    }
    Ok(row)
}

/// Empty sets of stages for so many lanes.
fn empty(alloc: Global, lanes: u8, places: u16) -> Result<Vec<ReadySet>, AllocError>
    requires { places ≤ 4096 }
    ensures { IfOk result (λ sets. sets.items ≡ replicate lanes (replicate places false)) }
{
    let mut sets: Vec<ReadySet> = Vec::with_capacity(alloc, lanes as usize)?;
    for _made in 0..lanes {
        let set = ReadySet::new(alloc, places)?;
        sets.push_reserved(set);
    }
    Ok(sets)
}

/// Makes all of these the empty sets of stages below a number.
fn empty_all(sets: &mut Vec<ReadySet>, places: u16)
    requires { places ≤ 4096 }
    ensures { sets.new.items ≡ replicate (length sets.old.items) (replicate places false) }
{
    for k in 0..sets.len() {
        let set = &mut sets[k];
        set.empty(places);
    }
}
