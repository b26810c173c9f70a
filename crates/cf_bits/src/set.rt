//! The set.
ghost use Rattle.std.specs.Prelude.{◌≡◌, ◌<◌, ◌≤◌, ◌∷◌, ◌++◌, [], IfOk, Some, false, length, position, replicate, slice_get, slice_set, true};

use crate::word::{has_bit, lowest_bit, with_bit, without_bit};
use std::alloc::{AllocError, Global};
use std::marker::Model;

/// A set of numbers below its length, which is at most 4,096.
#[derive(Drop)]
pub struct BitSet {
    len: u16,
    top: u64,
    words: Vec<u64>,
}

impl Model for BitSet {
    ghost use Rattle.std.specs.Prelude.{Bool, List};

    ghost Value = { List Bool };

    ghost use Rattle.cf_bits.specs.Bits.{flags, AreBits};

    ghost view = { λ s. flags s.len s.words.items };

    ghost invariant = { λ s. AreBits s.len s.top s.words.items };
}

impl BitSet {
    /// The empty set of numbers below a length. It fails only where there is no memory.
    pub fn new(alloc: Global, len: u16) -> Result<BitSet, AllocError>
        requires { len ≤ 4096 }
        ensures { IfOk result (λ set. set ≡ replicate len false) }
    {
        Ok(BitSet {
            len,
            top: 0,
            words: zeros(alloc, 64)?,
        })
    }

    /// The bound below which all of its numbers are. It is at most 4,096.
    pub fn bound(&self) -> u16
        ensures bound { result ≡ length self.now }
        ensures few { result ≤ 4096 }
    {
        self.len
    }

    /// Raises its bound by one. The number that this adds isn't in.
    pub fn grow(&mut self)
        requires { length self.old < 4096 }
        ensures { self.new ≡ self.old ++ false ∷ [] }
    {
        let bound = &mut self.len;
        *bound += 1;
    }

    /// Makes it the empty set of the numbers below a bound of at most 4,096. It takes no memory.
    pub fn reset(&mut self, bound: u16)
        requires { bound ≤ 4096 }
        ensures { self.new ≡ replicate bound false }
    {
        let len = &mut self.len;
        *len = bound;
        // Where the set is empty, all its words are 0.
        if self.top != 0 {
            self.top = 0;
            self.words.fill(0);
        }
    }

    /// Puts a number in. One that is in stays in.
    pub fn insert(&mut self, i: u16)
        requires { i < length self.old }
        ensures { self.new ≡ slice_set self.old i true }
    {
        let w = i / 64;
        let word = with_bit(self.words[w as usize], i % 64);
        self.words[w as usize] = word;
        self.top = with_bit(self.top, w);
    }

    /// Takes a number out. One that isn't in stays out.
    pub fn remove(&mut self, i: u16)
        requires { i < length self.old }
        ensures { self.new ≡ slice_set self.old i false }
    {
        let w = i / 64;
        let word = without_bit(self.words[w as usize], i % 64);
        self.words[w as usize] = word;
        if word == 0 {
            self.top = without_bit(self.top, w);
        }
    }

    /// Whether a number is in.
    pub fn contains(&self, i: u16) -> bool
        requires { i < length self.now }
        ensures { slice_get self.now i ≡ Some result }
    {
        has_bit(self.words[(i / 64) as usize], i % 64)
    }

    /// The least number that is in, or none where the set is empty.
    pub fn lowest(&self) -> Option<u16>
        ensures { result ≡ position (λ b. b) self.now }
    {
        if self.top == 0 {
            return None;
        }
        let w = lowest_bit(self.top);
        let word = self.words[w as usize];
        Some(64 * w + lowest_bit(word))
    }
}

/// So many words that are 0.
fn zeros(alloc: Global, count: usize) -> Result<Vec<u64>, AllocError>
    ensures { IfOk result (λ words. words.items ≡ replicate count 0) }
{
    vec![in alloc; 0; count]
}
