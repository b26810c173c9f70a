//! The end of a run and of a race: what it gives is printed.
ghost use Rattle.std.specs.Prelude.{◌≡◌};
ghost use Rattle.cf_script.specs.Printing.{Prints, given_by};

use cf_outcome::write_text;
use cf_text::{ScriptFault, line_of};
use std::io::Write;

/// Writes the text that was given, or the line of the fault that stands in its way. That takes no memory, and every line
/// fits, so `Write` is the writer's fault alone.
pub(crate) fn print_given<W: Write>(
    w: &mut W,
    given: Result<String, ScriptFault>,
) -> Result<(), ScriptFault>
    ensures { Prints (λ seen. seen ≡ given_by given) result (W.contents w.old) (W.contents w.new) }
{
    match given {
        Ok(text) => match write_text(w, text.as_str().as_bytes()) {
            Ok(()) => Ok(()),
            Err(_) => Err(ScriptFault::Write),
        },
        Err(fault) => match write_text(w, line_of(fault).as_bytes()) {
            Ok(()) => Err(fault),
            Err(_) => Err(ScriptFault::Write),
        },
    }
}
