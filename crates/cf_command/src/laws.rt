//! What the command line says, at words that are written out.
ghost use Rattle.std.specs.Prelude.{◌≡◌, List, [], ◌∷◌, Some, None, codes};
ghost use Rattle.cf_command.specs.Words.{command_of};

use crate::command::Command;

/// The commands of the usage line, and words beside them that are none. `clap` ends the options at `--`, so `run --`
/// is `run`.
pub fn commands_are_read()
    ensures run { command_of (codes "run" ∷ []) ≡ Some Command.Run }
    ensures race { command_of (codes "race" ∷ []) ≡ Some (Command.Race 4) }
    ensures two_words { command_of (codes "race" ∷ codes "--workers" ∷ codes "7" ∷ []) ≡ Some (Command.Race 7) }
    ensures one_word { command_of (codes "race" ∷ codes "--workers=32" ∷ []) ≡ Some (Command.Race 32) }
    ensures too_many { command_of (codes "race" ∷ codes "--workers" ∷ codes "33" ∷ []) ≡ None }
    ensures zero { command_of (codes "race" ∷ codes "--workers" ∷ codes "0" ∷ []) ≡ None }
    ensures leading_zero { command_of (codes "race" ∷ codes "--workers=04" ∷ []) ≡ None }
    ensures sign { command_of (codes "race" ∷ codes "--workers=+4" ∷ []) ≡ None }
    ensures no_number { command_of (codes "race" ∷ codes "--workers=" ∷ []) ≡ None }
    ensures no_words { command_of [] ≡ None }
    ensures other_word { command_of (codes "walk" ∷ []) ≡ None }
    ensures help { command_of (codes "--help" ∷ []) ≡ None }
    ensures help_word { command_of (codes "help" ∷ []) ≡ None }
    ensures run_with_option { command_of (codes "run" ∷ codes "--workers=2" ∷ []) ≡ None }
    ensures run_with_word { command_of (codes "run" ∷ codes "race" ∷ []) ≡ None }
    ensures escape { command_of (codes "run" ∷ codes "--" ∷ []) ≡ Some Command.Run }
{}
