//! Tokens with which a text begins, each read once, and only where it stands there just as it is written.

ghost use Rattle.std.specs.Prelude.{◌≡◌, ◌≤◌, ◌<◌, ◌^◌, ◌+◌, ◌-◌, ◌*◌, ◌∷◌, [], ◌↔◌, true, false, length, decimal, get_or, MatchOption, IsTrue};
ghost use Rattle.std.specs.Fmt.{signed_decimal};
ghost use Rattle.caa_base.specs.Written.Limits.{IsValue};
ghost use Rattle.journal_text.specs.inner.TextSteps.{IsAfter};
ghost use Rattle.journal_text.specs.inner.Tokens.{is_gap, BeginsWithGap, IsAfterWord, WordRead, TokenRead, DigitsRead};

use caa_base::written::limits::MOST_MAGNITUDE;
use caa_base::written::name::is_digit;

/// Whether a byte is a space or a line feed.
#[inline(always)]
fn is_gap(byte: u8) -> bool
    ensures { result ≡ is_gap byte }
{
    byte == b' ' || byte == b'\n'
}

/// Whether a gap stands first.
#[inline(always)]
fn begins_with_gap(text: &[u8]) -> bool
    ensures { IsTrue result ↔ BeginsWithGap text.now }
{
    match text.first() {
        Some(byte) => is_gap(*byte),
        None => false,
    }
}

/// What a text is left as after this front, where it begins with that.
#[inline(always)]
pub fn after_front<'a>(text: &'a [u8], front: &[u8]) -> Option<&'a [u8]>
    ensures { IsAfter (λ r. r.now) front.now text.now result }
{
    if text.len() < front.len() {
        return None;
    }
    for (index, byte) in front.iter().enumerate() {
        if text[index] != *byte {
            return None;
        }
    }
    Some(&text[front.len()..])
}

/// What a text is left as after this byte, where it begins with that.
#[inline(always)]
pub fn after_byte(text: &[u8], first: u8) -> Option<&[u8]>
    ensures { IsAfter (λ r. r.now) (first ∷ []) text.now result }
{
    match text.split_first() {
        Some((byte, rest)) if *byte == first => Some(rest),
        _ => None,
    }
}

/// What a text is left as after this word, where it begins with that word, up to a gap.
#[inline(always)]
pub fn after_word<'a>(text: &'a [u8], word: &[u8]) -> Option<&'a [u8]>
    ensures { IsAfterWord (λ r. r.now) word.now text.now result }
{
    let rest = after_front(text, word)?;
    if begins_with_gap(rest) {
        Some(rest)
    } else {
        None
    }
}

/// The word that stands after a space, up to a gap, and what the text is left as from that gap on.
#[inline(always)]
pub fn word_after_space(text: &[u8]) -> Option<(&[u8], &[u8])>
    ensures { WordRead (λ r. r.now) text.now result }
{
    let after = after_byte(text, b' ')?;
    for (index, byte) in after.iter().enumerate() {
        if is_gap(*byte) {
            return Some(after.split_at(index));
        }
    }
    None
}

/// The number with one digit more, where it is within 64 bits.
#[inline(always)]
fn with_digit(number: u64, digit: u8) -> Option<u64>
    ensures { MatchOption result (2 ^ 64 ≤ 10 * number + (digit - 48)) (λ n. n ≡ 10 * number + (digit - 48)) }
{
    number
        .checked_mul(10)?
        .checked_add(u64::from(digit.saturating_sub(b'0')))
}

/// The number that the digits up to the first gap make, zeros in front or not, and how many they are.
#[inline(always)]
fn digits_front(text: &[u8]) -> Option<(u64, usize)>
    ensures { DigitsRead text.now result }
{
    let mut number = 0u64;
    for (index, byte) in text.iter().enumerate() {
        if !is_digit(*byte) {
            return if is_gap(*byte) {
                Some((number, index))
            } else {
                None
            };
        }
        number = with_digit(number, *byte)?;
    }
    None
}

/// Whether the first so many digits of a text spell a number: there is one, and none follows a zero that stands first.
#[inline(always)]
fn is_spelled(text: &[u8], end: usize) -> bool
    requires { end ≤ length text.now }
    ensures some { result ≡ true → 0 < end }
    ensures plain { result ≡ true → 1 < end → get_or text.now 0 0 ≡ 48 → ⊥ }
    ensures not { result ≡ false → 0 < end → (1 < end) × (get_or text.now 0 0 ≡ 48) }
{
    end == 1 || (end > 1 && text[0] != b'0')
}

/// A number, where it is at most `most` and is spelled as numbers are: a zero before other digits spells none.
#[inline(always)]
fn number_front(text: &[u8], most: u64) -> Option<(u64, &[u8])>
    ensures { TokenRead (λ r. r.now) (λ n. n ≤ most) decimal text.now result }
{
    let (number, end) = digits_front(text)?;
    if number > most || !is_spelled(text, end) {
        return None;
    }
    Some((number, &text[end..]))
}

/// A number after a space.
#[inline(always)]
pub fn number_at(text: &[u8], most: u64) -> Option<(u64, &[u8])>
    ensures { TokenRead (λ r. r.now) (λ n. n ≤ most) (λ n. 32 ∷ decimal n) text.now result }
{
    number_front(after_byte(text, b' ')?, most)
}

/// A value: a number, or a minus before a number other than 0.
#[inline(always)]
fn value_front(text: &[u8]) -> Option<(i64, &[u8])>
    ensures { TokenRead (λ r. r.now) IsValue signed_decimal text.now result }
{
    match after_byte(text, b'-') {
        Some(digits) => {
            let (number, rest) = number_front(digits, MOST_MAGNITUDE)?;
            if number == 0 {
                return None;
            }
            Some((-(number as i64), rest))
        }
        None => {
            let (number, rest) = number_front(text, MOST_MAGNITUDE)?;
            Some((number as i64, rest))
        }
    }
}

/// A value after a space.
#[inline(always)]
pub fn value_at(text: &[u8]) -> Option<(i64, &[u8])>
    ensures { TokenRead (λ r. r.now) IsValue (λ v. 32 ∷ signed_decimal v) text.now result }
{
    value_front(after_byte(text, b' ')?)
}
