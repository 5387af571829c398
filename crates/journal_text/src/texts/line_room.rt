//! A line that is written into room that stands ready, so that no piece of it asks for room of its own.
//!
//! Each call writes from `at` on, leaves what stands before, and gives where the line goes on. Behind the end of a line some room is
//! spare, since digits are copied as a piece of fixed size.

ghost use Rattle.std.specs.Prelude.{◌≡◌, ◌+◌, ◌<◌, ◌≤◌, ◌∷◌, ◌++◌, [], length, take, decimal};
ghost use Rattle.std.specs.Fmt.{signed_decimal};
ghost use Rattle.caa_base.specs.Written.Lines.{spaced};
ghost use Rattle.journal_text.specs.Texts.Room.{Fits};

use itoa::write_digits;

/// A piece of fixed size, of which the first bytes are kept.
#[inline(always)]
fn put<const N: usize>(room: &mut [u8], at: usize, piece: &[u8; N], keep: usize) -> usize
    requires room { at + N ≤ length room.old }
    requires keep { keep ≤ N }
    ensures at { result ≡ at + keep }
    ensures written { take result room.new ≡ take at room.old ++ take keep piece.now }
    ensures kept { length room.new ≡ length room.old }
{
    room[at..at + N].copy_from_slice(piece);
    at + keep
}

/// A byte.
#[inline(always)]
fn put_byte(room: &mut [u8], at: usize, byte: u8) -> usize
    requires { at < length room.old }
    ensures at { result ≡ at + 1 }
    ensures written { take result room.new ≡ take at room.old ++ byte ∷ [] }
    ensures kept { length room.new ≡ length room.old }
{
    room[at] = byte;
    at + 1
}

/// Some bytes.
#[inline(always)]
pub(crate) fn put_bytes(room: &mut [u8], at: usize, bytes: &[u8]) -> usize
    requires { Fits at bytes.now room.old }
    ensures at { result ≡ at + length bytes.now }
    ensures written { take result room.new ≡ take at room.old ++ bytes.now }
    ensures kept { length room.new ≡ length room.old }
{
    let end = at + bytes.len();
    room[at..end].copy_from_slice(bytes);
    end
}

/// A word, after a space.
#[inline(always)]
pub(crate) fn put_word(room: &mut [u8], at: usize, word: &[u8]) -> usize
    requires { Fits at (spaced (word.now ∷ [])) room.old }
    ensures at { result ≡ at + length (spaced (word.now ∷ [])) }
    ensures written { take result room.new ≡ take at room.old ++ spaced (word.now ∷ []) }
    ensures kept { length room.new ≡ length room.old }
{
    let at = put_byte(room, at, b' ');
    put_bytes(room, at, word)
}

/// The digits of a number.
#[inline(never)]
fn put_digits(room: &mut [u8], at: usize, number: u64) -> usize
    requires { at + 20 ≤ length room.old }
    ensures at { result ≡ at + length (decimal number) }
    ensures written { take result room.new ≡ take at room.old ++ decimal number }
    ensures kept { length room.new ≡ length room.old }
{
    let mut digits = [0; 40];
    let start = write_digits(number, &mut digits, 20);
    match digits[start..].first_chunk::<20>() {
        Some(piece) => put(room, at, piece, 20 - start),
        None => unreachable!(),
    }
}

/// A number, after a space.
#[inline(always)]
pub(crate) fn put_number(room: &mut [u8], at: usize, number: u64) -> usize
    requires { Fits at (spaced (decimal number ∷ [])) room.old }
    ensures at { result ≡ at + length (spaced (decimal number ∷ [])) }
    ensures written { take result room.new ≡ take at room.old ++ spaced (decimal number ∷ []) }
    ensures kept { length room.new ≡ length room.old }
{
    let at = put_byte(room, at, b' ');
    if number < 10 {
        put_byte(room, at, b'0' + number as u8)
    } else {
        put_digits(room, at, number)
    }
}

/// A value, after a space.
#[inline(always)]
pub(crate) fn put_value(room: &mut [u8], at: usize, value: i64) -> usize
    requires { Fits at (spaced (signed_decimal value ∷ [])) room.old }
    ensures at { result ≡ at + length (spaced (signed_decimal value ∷ [])) }
    ensures written { take result room.new ≡ take at room.old ++ spaced (signed_decimal value ∷ []) }
    ensures kept { length room.new ≡ length room.old }
{
    if value < 0 {
        let at = put_byte(room, at, b' ');
        let at = put_byte(room, at, b'-');
        put_digits(room, at, value.unsigned_abs())
    } else {
        put_number(room, at, value as u64)
    }
}

/// Ends the line.
#[inline(always)]
pub(crate) fn put_line_end(room: &mut [u8], at: usize) -> usize
    requires { Fits at (10 ∷ []) room.old }
    ensures at { result ≡ at + 1 }
    ensures written { take result room.new ≡ take at room.old ++ 10 ∷ [] }
    ensures kept { length room.new ≡ length room.old }
{
    put_byte(room, at, b'\n')
}
