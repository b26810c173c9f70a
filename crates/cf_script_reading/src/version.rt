//! The versions of scripts, and the room that one asks for.
ghost use Rattle.std.specs.Prelude.{◌≡◌, option_map};
ghost use Rattle.serde_json.specs.View.{view};
ghost use Rattle.cf_script_reading.specs.Parts.{up_to};
ghost use Rattle.cf_script_reading.specs.Versions.{room_said, version_numbered, version_of};

use serde_json::Value as Json;

/// A version of scripts. The second has room, steps that attach stages, and one form more; the third steps that fail a
/// stage as timed out or with a bad answer, too.
#[derive(Clone, Copy)]
pub(crate) enum Version {
    One,
    Two,
    Three,
}

/// The version with this number.
fn numbered(n: i64) -> Option<Version>
    ensures { result ≡ version_numbered n }
{
    if n == 1 {
        Some(Version::One)
    } else if n == 2 {
        Some(Version::Two)
    } else if n == 3 {
        Some(Version::Three)
    } else {
        None
    }
}

/// The version of a script.
pub(crate) fn version_of(json: &Json) -> Option<Version>
    ensures { result ≡ version_of (view json.now) }
{
    numbered(json.get("cf")?.as_i64()?)
}

/// A whole number from 0 to 4,096.
fn room_in(json: &Json) -> Option<u16>
    ensures { result ≡ up_to 4096 (view json.now) }
{
    let n = json.as_i64()?;
    if 0 <= n && n <= 4_096 {
        Some(n as u16)
    } else {
        None
    }
}

/// For how many stages that its steps attach a script asks for room, none where it says nothing of them.
pub(crate) fn room_said(version: Version, said: Option<&Json>) -> Option<u16>
    ensures { result ≡ room_said version (option_map (λ d. view d.now) said.entry) }
{
    match (version, said) {
        (Version::One, _) => Some(0),
        (_, None) => Some(0),
        (_, Some(json)) => room_in(json),
    }
}
