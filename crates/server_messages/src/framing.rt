//! How messages are parted in a stream. Before each stands a head, lines that end with a carriage return and a line feed, of which one
//! tells how many bytes the message has; an empty line ends the head.

ghost use Rattle.server_messages.specs.Fronts.{IsWithin};
ghost use Rattle.std.specs.Prelude.{◌≡◌, ◌+◌, ◌<◌, ◌≤◌, length, IfOk, IfSome};
ghost use Rattle.server_messages.specs.Heads.{framed};

use std::alloc::{AllocError, Global};

/// How many bytes the head of a message has at most.
pub const MOST_HEAD_BYTES: usize = 4_096;

/// How many bytes a message has at most: eight times those of the longest document, whose text stands in it with marks for some
/// characters.
pub const MOST_BODY_BYTES: usize = 33_554_432;

/// What ends the head of a message.
const HEAD_END: &[u8] = b"\r\n\r\n";

/// The line of a head that tells the length, up to the number.
const LENGTH: &[u8] = b"Content-Length: ";

/// What stands first in a stream.
#[derive(Clone, Copy, Debug, PartialEq, Eq)]
pub enum Front {
    /// The beginning of a message that isn't whole.
    Part,
    /// A message, between these.
    Body { start: usize, end: usize },
    /// Something that is no head, up to here.
    Odd { end: usize },
    /// A message that is too long: its head, up to here, and how many bytes follow.
    TooLong { start: usize, length: usize },
}

/// Where these bytes stand first in a text; none where they don't.
fn find(text: &[u8], piece: &[u8]) -> Option<usize>
    ensures { IfSome result (λ at. at + length piece.now ≤ length text.now) }
{
    let mut rest = text;
    while !rest.is_empty() {
        if piece.len() <= rest.len() && rest.starts_with(piece) {
            return Some(text.len() - rest.len());
        }
        rest = &rest[1..];
    }
    None
}

/// The number that some digits write, counted no further than `usize` goes; none where there is none, or another byte.
fn number_of(digits: &[u8]) -> Option<usize> {
    let mut number = 0usize;
    for digit in digits {
        if *digit < b'0' || *digit > b'9' {
            return None;
        }
        number = number
            .saturating_mul(10)
            .saturating_add(usize::from(*digit - b'0'));
    }
    if digits.is_empty() {
        None
    } else {
        Some(number)
    }
}

/// The first line of a head, and what stands behind its end.
fn cut_line(head: &[u8]) -> (&[u8], &[u8])
    requires { 0 < length head.now }
    ensures { length result.1.now < length head.now }
{
    match find(head, b"\r\n") {
        Some(end) => (&head[..end], &head[end + 2..]),
        None => (head, &[]),
    }
}

/// How many bytes a message has by its head; none where no line tells it.
fn length_in(head: &[u8]) -> Option<usize> {
    let mut rest = head;
    while !rest.is_empty() {
        let (line, more) = cut_line(rest);
        if let Some(digits) = line.strip_prefix(LENGTH) {
            return number_of(digits);
        }
        rest = more;
    }
    None
}

/// Where the next head may begin behind something that is none.
fn odd(bytes: &[u8]) -> Front
    requires { 0 < length bytes.now }
    ensures { IsWithin result (length bytes.now) }
{
    match find(&bytes[1..], LENGTH) {
        Some(at) => Front::Odd { end: at + 1 },
        None => Front::Odd { end: bytes.len() },
    }
}

/// What stands first in a stream of which these bytes have come.
pub fn first_of(bytes: &[u8]) -> Front
    ensures { IsWithin result (length bytes.now) }
{
    let Some(end) = find(bytes, HEAD_END) else {
        if bytes.len() < MOST_HEAD_BYTES {
            return Front::Part;
        }
        return odd(bytes);
    };
    let Some(length) = length_in(&bytes[..end]) else {
        return odd(bytes);
    };
    let start = end + 4;
    if length > MOST_BODY_BYTES {
        return Front::TooLong { start, length };
    }
    if length > bytes.len() - start {
        return Front::Part;
    }
    Front::Body {
        start,
        end: start + length,
    }
}

/// A message with its head.
pub fn framed(alloc: Global, body: &[u8]) -> Result<Vec<u8>, AllocError>
    ensures { IfOk result (λ text. text.items ≡ framed body.now) }
{
    let mut text = Vec::from_slice(alloc, LENGTH)?;
    let digits = format!(in alloc; "{}", body.len())?;
    text.extend_from_slice(digits.as_bytes())?;
    text.extend_from_slice(HEAD_END)?;
    text.extend_from_slice(body)?;
    Ok(text)
}
