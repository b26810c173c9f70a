//! The number of workers of a race.
ghost use Rattle.std.specs.Prelude.{◌≡◌, ◌<◌, ◌≤◌, IfSome};
ghost use Rattle.cf_command.specs.Words.{workers_of};

/// A number of workers: 1 to 32 in decimal, with no sign and no leading zero.
#[tactic(auto, unfolding(crate::specs::Words::workers_of))]
pub(crate) fn workers(text: &str) -> Option<u8>
    ensures said { result ≡ workers_of text.now }
    ensures few { IfSome result (λ n. (0 < n) × (n ≤ 32)) }
{
    match text.as_bytes() {
        [d] => {
            if d.is_ascii_digit() && *d >= b'1' {
                Some(*d - b'0')
            } else {
                None
            }
        }
        [d, e] => {
            if d.is_ascii_digit() && *d >= b'1' && e.is_ascii_digit() {
                let n = 10 * (*d - b'0') + (*e - b'0');
                if n <= 32 { Some(n) } else { None }
            } else {
                None
            }
        }
        _ => None,
    }
}
