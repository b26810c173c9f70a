//! Single bits of a word of 64 bits.
ghost use Rattle.std.specs.Prelude.{◌≡◌, ◌==◌, ◌<◌};
ghost use Rattle.std.specs.Int.{bit_at};
ghost use Rattle.cf_bits.specs.Bits.{IsLowestBit, SetsBit};

/// The word with a bit set.
pub fn with_bit(word: u64, k: u16) -> u64
    requires { k < 64 }
    ensures { SetsBit word result k 1 }
{
    word | (1 << k)
}

/// The word with a bit cleared.
pub fn without_bit(word: u64, k: u16) -> u64
    requires { k < 64 }
    ensures { SetsBit word result k 0 }
{
    word & !(1 << k)
}

/// Whether a bit is set.
pub fn has_bit(word: u64, k: u16) -> bool
    requires { k < 64 }
    ensures { result ≡ bit_at word k == 1 }
{
    word >> k & 1 == 1
}

/// The place of the lowest bit that is set.
pub fn lowest_bit(word: u64) -> u16
    requires { 0 < word }
    ensures { IsLowestBit word result }
{
    word.trailing_zeros() as u16
}
