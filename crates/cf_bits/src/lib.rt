//! A set of numbers below 4,096 whose least member is found in a few steps.
//!
//! A `BitSet` is made for the numbers below a length of at most 4,096. It keeps one bit for each number in 64 words of
//! 64 bits, and one bit for each of these words in a word above them, set where the word isn't 0. So to find the least
//! member it looks for the lowest bit of the upper word, and then for the lowest bit of the word that this names: no
//! call walks the set. Only `new` takes memory.
//!
//! A contract sees a set as the list that says of each number whether it is in.
#![tactic(auto)]

mod set;
mod word;

pub use set::BitSet;
