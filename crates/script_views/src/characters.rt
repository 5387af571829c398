//! Characters that no line may have but a comment, and lines that no line feed ends.

use crate::page::{Page, Piece};
use caa_base::written::entry::OutOfMemory;

/// Whether lines of a text end with carriage returns, and none with a line feed.
pub fn has_returns_alone(text: &[u8]) -> bool {
    !text.contains(&b'\n') && text.trim_ascii_end().contains(&b'\r')
}

/// How many bytes the character has that begins with this byte, as UTF-8 has it.
fn character_length(first: u8) -> usize {
    match first {
        194..=223 => 2,
        224..=239 => 3,
        240..=244 => 4,
        _ => 1,
    }
}

/// The bytes of the character that stands first.
fn first_character(text: &[u8]) -> &[u8] {
    let length = text.first().map_or(0, |first| character_length(*first));
    text.get(..length).unwrap_or(text)
}

/// Whether these bytes are a character of several bytes.
fn is_whole(character: &[u8]) -> bool {
    match character.split_first() {
        Some((_, rest)) => {
            !rest.is_empty() && rest.iter().all(|byte| *byte >= 128 && *byte < 192)
        }
        None => false,
    }
}

/// The name of a character that isn't seen, or is easily taken for another one.
fn character_name(character: &[u8]) -> Option<&'static str> {
    match character {
        [0] => Some("a NUL"),
        [8] => Some("a backspace"),
        [11] => Some("a vertical tab"),
        [12] => Some("a form feed"),
        [27] => Some("an escape"),
        [127] => Some("a delete"),
        [194, 160] => Some("a no-break space"),
        [194, 173] => Some("a soft hyphen"),
        [226, 128, 139] => Some("a zero width space"),
        [226, 128, 147] => Some("an en dash"),
        [226, 128, 148] => Some("an em dash"),
        [226, 128, 152] | [226, 128, 153] => Some("a typographic quotation mark"),
        [226, 128, 156] | [226, 128, 157] => Some("a typographic quotation mark"),
        [226, 136, 146] => Some("a minus sign that is no hyphen"),
        [227, 128, 128] => Some("an ideographic space"),
        [239, 187, 191] => Some("a byte order mark"),
        _ => None,
    }
}

/// Begins a note with the character that stands first: by its name where it isn't seen, or else itself; and a byte that is no
/// character by its number.
pub fn push_character(notes: &mut Page, text: &[u8]) -> Result<(), OutOfMemory> {
    let character = first_character(text);
    if let Some(name) = character_name(character) {
        return notes.say(&[Piece::Text("  = "), Piece::Text(name)]);
    }
    if is_whole(character) {
        return notes.say(&[
            Piece::Text("  = `"),
            Piece::Word(character),
            Piece::Text("`"),
        ]);
    }
    let byte = text.first().copied().unwrap_or(0);
    notes.say(&[Piece::Text("  = the byte "), Piece::Number(u64::from(byte))])
}

/// What is told of a script in which no line says anything.
pub fn tell_nothing(page: &mut Page, text: &[u8]) -> Result<(), OutOfMemory> {
    page.say(&[Piece::Text(
        "accepted: the script says nothing, so nobody takes part and nothing is played\n",
    )])?;
    if has_returns_alone(text) {
        page.note(&[Piece::Text(
            "the text has carriage returns and no line feed, so all of it is one line: save it with line feeds",
        )])?;
    }
    Ok(())
}
