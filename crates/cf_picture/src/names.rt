//! Names of stages, which are the only texts of others in a picture.
use cf_text::is_shown;
use std::alloc::AllocError;

/// Adds a name within a label, and a colon behind it; nothing, if it is empty.
pub(crate) fn write_name(text: &mut String, name: &str) -> Result<(), AllocError> {
    if name.is_empty() {
        return Ok(());
    }
    for c in name.chars() {
        write_char(text, c)?;
    }
    write!(text, ": ")
}

/// Adds a character of a name: what could end the label, begin an escape or an element, by what stands for it; what breaks a
/// line or turns its direction, and each control character, as the sign of a character that can't be shown.
fn write_char(text: &mut String, c: char) -> Result<(), AllocError> {
    match c {
        '"' => write!(text, "\\\""),
        '\\' => write!(text, "\\\\"),
        '&' => write!(text, "&amp;"),
        '<' => write!(text, "&lt;"),
        '>' => write!(text, "&gt;"),
        _ if is_shown(u32::from(c)) => Ok(text.push(c)?),
        _ => Ok(text.push('\u{fffd}')?),
    }
}
