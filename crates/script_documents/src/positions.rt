//! Positions in a text: a line, and how many units of UTF-16 stand before the place in its line. A line ends with a line feed, a
//! carriage return, or both in this order.

ghost use Rattle.std.specs.Prelude.{◌≡◌, ◌≤◌, ◌<◌, ◌+◌, ◌*◌, ◌^◌, length};
ghost use Rattle.script_documents.specs.Positions.{is_break, units_at, begins_feed, ends_line, ends_left, after_ends, bytes_before, offset_of, stepped, position_from, position_of, CountsUnits};

/// A place in a text; both numbers are counted from 0.
#[derive(Clone, Copy, Debug, PartialEq, Eq)]
pub struct Position {
    /// How many line ends stand before it.
    pub line: u64,
    /// How many units of UTF-16 stand before it in its line.
    pub character: u64,
}

/// What stands in a text between two places.
#[derive(Clone, Copy, Debug, PartialEq, Eq)]
pub struct Range {
    /// The place before it.
    pub start: Position,
    /// The place behind it.
    pub end: Position,
}

/// Whether a byte belongs to a line end.
fn is_break(byte: u8) -> bool
    ensures { result ≡ is_break byte }
{
    byte == b'\n' || byte == b'\r'
}

/// How many units of UTF-16 the character has that begins with this byte; none where the byte goes on with one.
fn units_at(byte: u8) -> u64
    ensures units { result ≡ units_at byte }
    ensures few { result ≤ 2 }
{
    if byte >= 128 && byte < 192 {
        0
    } else if byte >= 240 {
        2
    } else {
        1
    }
}

/// Whether a line feed stands first.
fn begins_feed(text: &[u8]) -> bool
    ensures { result ≡ begins_feed text.now }
{
    text.first() == Some(&b'\n')
}

/// Whether the first byte of a text is the last of a line end.
fn ends_line(text: &[u8]) -> bool
    ensures { result ≡ ends_line text.now }
{
    match text.split_first() {
        Some((byte, rest)) => *byte == b'\n' || (*byte == b'\r' && !begins_feed(rest)),
        None => false,
    }
}

/// How many line ends are still to come after the first byte of a text, where so many were.
fn ends_left(text: &[u8], count: u64) -> u64
    requires { 0 < count }
    ensures { result ≡ ends_left text.now count }
{
    if ends_line(text) { count - 1 } else { count }
}

/// What stands in a text behind so many line ends; nothing where it has fewer.
fn after_ends(text: &[u8], count: u64) -> &[u8]
    ensures rest { result.now ≡ after_ends count text.now }
    ensures within { length result.now ≤ length text.now }
{
    let mut rest = text;
    let mut left = count;
    while let Some((_, more)) = rest.split_first() {
        if left == 0 {
            return rest;
        }
        left = ends_left(rest, left);
        rest = more;
    }
    rest
}

/// How many bytes of a text stand before so many units of its first line. Where the line has fewer it is all of the line, and where
/// they end within a character what stands before that.
fn bytes_before(text: &[u8], units: u64) -> usize
    ensures count { result ≡ bytes_before units text.now }
    ensures within { result ≤ length text.now }
{
    let mut rest = text;
    let mut left = units;
    let mut count = 0usize;
    while let Some((byte, more)) = rest.split_first() {
        let own = units_at(*byte);
        if is_break(*byte) || left < own {
            return count;
        }
        left -= own;
        count += 1;
        rest = more;
    }
    count
}

/// How many bytes of a text stand before a place. One behind the end of its line is the end of the line, and one in a line that isn't
/// there the end of the text.
pub fn offset_of(text: &[u8], position: Position) -> usize
    ensures offset { result ≡ offset_of text.now position }
    ensures within { result ≤ length text.now }
{
    let line = after_ends(text, position.line);
    text.len() - line.len() + bytes_before(line, position.character)
}

/// The place behind the first byte of a text, where the place before it is this.
fn stepped(position: Position, text: &[u8]) -> Position
    requires lines { position.line + 1 < 2 ^ 63 }
    requires units { position.character + 2 < 2 ^ 63 }
    ensures place { result ≡ stepped position text.now }
    ensures line { result.line ≤ position.line + 1 }
    ensures character { result.character ≤ position.character + 2 }
{
    let Some(byte) = text.first() else {
        return position;
    };
    if ends_line(text) {
        Position {
            line: position.line + 1,
            character: 0,
        }
    } else {
        Position {
            line: position.line,
            character: position.character + units_at(*byte),
        }
    }
}

/// The place behind so many bytes of a text, where the place before it is this.
pub fn position_from(text: &[u8], from: Position, count: usize) -> Position
    requires lines { from.line + length text.now < 2 ^ 63 }
    requires units { from.character + 2 * length text.now < 2 ^ 63 }
    ensures place { result ≡ position_from from count text.now }
    ensures line { result.line ≤ from.line + count }
    ensures character { result.character ≤ from.character + 2 * count }
{
    let mut position = from;
    let mut rest = text;
    let mut left = count;
    while let Some((_, more)) = rest.split_first() {
        if left == 0 {
            return position;
        }
        position = stepped(position, rest);
        rest = more;
        left -= 1;
    }
    position
}

/// Where a character of UTF-8 begins, and nowhere else, the units are counted that it has in UTF-16. A statement alone: the call does
/// nothing.
pub fn counts_units(character: char)
    ensures { CountsUnits character }
{
    let _ = character;
}
