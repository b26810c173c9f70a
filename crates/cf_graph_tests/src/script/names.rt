//! Which characters of names are printed as they are.
use crate::checks::holds;
use cf_text::is_shown;

/// Numbers of characters, and whether they are shown: letters, a blank, and those beside each that isn't; and the first and
/// the last of the control characters, of what breaks a line, and of what turns a line's direction.
static CHARACTERS: [(u32, bool); 22] = [
    (32, true),
    (65, true),
    (126, true),
    (160, true),
    (0x200d, true),
    (0x2010, true),
    (0x2027, true),
    (0x202f, true),
    (0x2065, true),
    (0x206a, true),
    (0xfffd, true),
    (0x10_ffff, true),
    (0, false),
    (31, false),
    (127, false),
    (159, false),
    (0x200e, false),
    (0x200f, false),
    (0x2028, false),
    (0x202e, false),
    (0x2066, false),
    (0x2069, false),
];

#[test]
fn what_has_no_sign_or_turns_a_line_is_not_shown(rt: HostRuntime) {
    for (number, shown) in &CHARACTERS {
        holds(&rt, is_shown(*number) == *shown, number);
    }
}
