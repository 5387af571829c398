//! The word of a kind, with which the line of an entry begins.

ghost use Rattle.std.specs.Prelude.{◌≡◌};
ghost use Rattle.journal_text.specs.Texts.Text.{kind_word};
ghost use Rattle.journal_text.specs.inner.Tokens.{first_byte, TokenRead};

use crate::texts::tokens::after_word;
use caa_base::written::entry::Kind;

/// The kind with whose word a text begins, up to a gap.
#[inline(always)]
pub fn kind_at(text: &[u8]) -> Option<(Kind, &[u8])>
    ensures { TokenRead (λ r. r.now) (λ _. Unit {0}) kind_word text.now result }
{
    match text.first()? {
        b'w' => kind_of_w(text),
        b'r' => kind_of_r(text),
        b'a' => kind_of_a(text),
        b'c' => only(text, Kind::Check, b"check"),
        b's' => only(text, Kind::Start, b"start"),
        b'v' => only(text, Kind::Verdict, b"verdict"),
        b'e' => only(text, Kind::End, b"end"),
        b'l' => only(text, Kind::Leave, b"leave"),
        b'i' => only(text, Kind::Inform, b"inform"),
        b'h' => only(text, Kind::Handle, b"handle"),
        b'p' => only(text, Kind::PutFault, b"putfault"),
        b'u' => only(text, Kind::Undo, b"undo"),
        _ => None,
    }
}

/// This kind, where its word stands first, up to a gap.
#[inline(always)]
fn only<'a>(text: &'a [u8], kind: Kind, word: &[u8]) -> Option<(Kind, &'a [u8])>
    requires { word.now ≡ kind_word kind }
    ensures { TokenRead (λ r. r.now) (λ k. k ≡ kind) kind_word text.now result }
{
    Some((kind, after_word(text, word)?))
}

/// A kind whose word begins with a w.
#[inline(always)]
fn kind_of_w(text: &[u8]) -> Option<(Kind, &[u8])>
    ensures { TokenRead (λ r. r.now) (λ k. first_byte k ≡ 119) kind_word text.now result }
{
    if let Some(rest) = after_word(text, b"work") {
        return Some((Kind::Work, rest));
    }
    if let Some(rest) = after_word(text, b"write") {
        return Some((Kind::Write, rest));
    }
    Some((Kind::Withdraw, after_word(text, b"withdraw")?))
}

/// A kind whose word begins with an r.
#[inline(always)]
fn kind_of_r(text: &[u8]) -> Option<(Kind, &[u8])>
    ensures { TokenRead (λ r. r.now) (λ k. first_byte k ≡ 114) kind_word text.now result }
{
    if let Some(rest) = after_word(text, b"read") {
        return Some((Kind::Read, rest));
    }
    if let Some(rest) = after_word(text, b"raise") {
        return Some((Kind::Raise, rest));
    }
    if let Some(rest) = after_word(text, b"restore") {
        return Some((Kind::Restore, rest));
    }
    Some((Kind::Resolve, after_word(text, b"resolve")?))
}

/// A kind whose word begins with an a.
#[inline(always)]
fn kind_of_a(text: &[u8]) -> Option<(Kind, &[u8])>
    ensures { TokenRead (λ r. r.now) (λ k. first_byte k ≡ 97) kind_word text.now result }
{
    if let Some(rest) = after_word(text, b"arrive") {
        return Some((Kind::Arrive, rest));
    }
    Some((Kind::Abort, after_word(text, b"abort")?))
}
