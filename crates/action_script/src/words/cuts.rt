//! What parts lines from lines, and words from words.
//!
//! What parts lines and words is found by `memchr`. What stands before it is cut off, and the search goes on behind it.

ghost use Rattle.std.specs.Prelude.{◌≡◌, ◌<◌, ◌≤◌, ◌+◌, ◌==◌, [], ◌∷◌, ◌++◌, length, drop, map, IfOk, OnOk};
ghost use Rattle.std.specs.List.{position_or_len};
ghost use Rattle.action_script.specs.Words.CutLines.{is_blank, lines_of, filled_of, words_of};

use memchr::{memchr, memchr3};
use std::alloc::{AllocError, Global};

/// How many bytes of a text stand before its first line feed, or how many it has.
fn end_of_line(text: &[u8]) -> usize
    ensures end { result ≡ position_or_len (λ b. b == 10) text.now }
    ensures within { result ≤ length text.now }
{
    memchr(b'\n', text).unwrap_or(text.len())
}

/// The first line of a text, and what stands after its line feed, if anything.
pub fn cut_line(text: &[u8]) -> (&[u8], &[u8])
    requires { 0 < length text.now }
    ensures cut { lines_of text.now ≡ result.0.now ∷ lines_of result.1.now }
    ensures after { result.1.now ≡ drop (position_or_len (λ b. b == 10) text.now + 1) text.now }
    ensures shorter { length result.1.now < length text.now }
    ensures parts { length result.0.now + length result.1.now ≤ length text.now }
{
    let end = end_of_line(text);
    if end < text.len() {
        (&text[..end], &text[end + 1..])
    } else {
        (text, &[])
    }
}

/// Whether a byte parts words: a space, a tab or a carriage return.
pub fn is_blank(byte: u8) -> bool
    ensures { result ≡ is_blank byte }
{
    byte == b' ' || byte == b'\t' || byte == b'\r'
}

/// How many bytes of a text stand before its first blank, or how many it has.
fn end_of_piece(text: &[u8]) -> usize
    ensures end { result ≡ position_or_len is_blank text.now }
    ensures within { result ≤ length text.now }
{
    memchr3(b' ', b'\t', b'\r', text).unwrap_or(text.len())
}

/// What stands before the first blank of a text, and what stands behind it, if anything.
fn cut_piece(text: &[u8]) -> (&[u8], &[u8])
    requires { 0 < length text.now }
    ensures cut { words_of text.now ≡ filled_of (result.0.now ∷ []) ++ words_of result.1.now }
    ensures shorter { length result.1.now < length text.now }
{
    let end = end_of_piece(text);
    if end < text.len() {
        (&text[..end], &text[end + 1..])
    } else {
        (text, &[])
    }
}

/// Adds a piece of a line between blanks, which is a word where it isn't empty.
fn push_piece<'a>(words: &mut Vec<&'a [u8]>, piece: &'a [u8]) -> Result<(), AllocError>
    ensures { OnOk result (map (λ w. w.now) words.new.items ≡ map (λ w. w.now) words.old.items ++ filled_of (piece.now ∷ [])) }
{
    if !piece.is_empty() {
        words.push(piece)?;
    }
    Ok(())
}

/// The words of a line: its longest pieces without blanks.
pub fn words_of(alloc: Global, line: &[u8]) -> Result<Vec<&[u8]>, AllocError>
    ensures { IfOk result (λ words. map (λ w. w.now) words.items ≡ words_of line.now) }
{
    let mut words = Vec::new(alloc);
    let mut rest = line;
    while !rest.is_empty() {
        let (piece, more) = cut_piece(rest);
        push_piece(&mut words, piece)?;
        rest = more;
    }
    Ok(words)
}
