//! Names, which are texts of others: which of their characters are printed as they are.
ghost use Rattle.std.specs.Prelude.{◌≡◌};
ghost use Rattle.cf_text.specs.Names.{is_control, is_shown, is_turn};

/// Whether the character of this number can stand in a line for people. That is no control character, none of Unicode's line
/// separators, and none that turns a line's direction: its embeddings, overrides and isolates, U+200E and U+200F.
pub fn is_shown(number: u32) -> bool
    ensures { result ≡ is_shown number }
{
    !(is_control(number) || is_turn(number))
}

/// Whether it is a control character.
fn is_control(number: u32) -> bool
    ensures { result ≡ is_control number }
{
    number < 32 || (126 < number && number < 160)
}

/// Whether it is one of these others.
fn is_turn(number: u32) -> bool
    ensures { result ≡ is_turn number }
{
    number == 0x200e
        || number == 0x200f
        || (0x2027 < number && number < 0x202f)
        || (0x2065 < number && number < 0x206a)
}
