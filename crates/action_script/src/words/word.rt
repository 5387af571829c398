ghost use Rattle.std.specs.Prelude.{◌≡◌, ◌≤◌, ◌&&◌, ◌<◌, IfSome, option_map, pos};
ghost use Rattle.std.specs.Option.{ForSome};
ghost use Rattle.std.specs.List.{list_all};
ghost use Rattle.action_script.specs.Words.ScriptWords.{leads_well, natural_of, negative_of, value_of, count_of, rounds_of, test_of, test_word};
ghost use Rattle.caa_base.specs.Written.Limits.{most_value};
ghost use Rattle.caa_base.specs.Written.Lines.{at_most};
ghost use Rattle.caa_base.specs.Written.Names.{is_digit};

use caa_base::written::digits::digits_within;
use caa_base::written::entry::Test;
use caa_base::written::limits::{self, MOST_MAGNITUDE};
use caa_base::written::name::is_digit;

/// The greatest count, and the greatest number of rounds.
const MOST_COUNT: u64 = limits::MOST_COUNT as u64;

fn leads_well(word: &[u8]) -> bool
    ensures { result ≡ leads_well word.now }
{
    match word.split_first() {
        Some((byte, rest)) => *byte != b'0' || rest.is_empty(),
        None => false,
    }
}

fn are_digits(word: &[u8]) -> bool
    ensures { result ≡ list_all is_digit word.now }
{
    word.iter().all(|byte| is_digit(*byte))
}

/// The number that a word writes without a sign, where there is one and it is at most `most`.
pub fn natural_of(word: &[u8], most: u64) -> Option<u64>
    ensures value { result ≡ at_most most (natural_of word.now) }
    ensures small { IfSome result (λ number. number ≤ most) }
{
    if leads_well(word) && are_digits(word) {
        digits_within(word, most)
    } else {
        None
    }
}

fn negative_of(number: Option<u64>) -> Option<i64>
    requires { ForSome number (λ n. n ≤ most_value) }
    ensures { result ≡ negative_of number }
{
    match number {
        None | Some(0) => None,
        Some(number) => Some(-(number as i64)),
    }
}

fn positive_of(number: Option<u64>) -> Option<i64>
    requires { ForSome number (λ n. n ≤ most_value) }
    ensures { result ≡ option_map pos number }
{
    match number {
        None => None,
        Some(number) => Some(number as i64),
    }
}

/// The value that a word writes.
pub fn value_of(word: &[u8]) -> Option<i64>
    ensures { result ≡ value_of word.now }
{
    let (byte, rest) = word.split_first()?;
    if *byte == b'-' {
        negative_of(natural_of(rest, MOST_MAGNITUDE))
    } else {
        positive_of(natural_of(word, MOST_MAGNITUDE))
    }
}

/// The number of rounds that a word writes.
pub fn rounds_of(word: &[u8]) -> Option<u32>
    ensures { result ≡ rounds_of word.now }
{
    let number = natural_of(word, MOST_COUNT)?;
    Some(number as u32)
}

/// The count that a word writes.
pub fn count_of(word: &[u8]) -> Option<u32>
    ensures { result ≡ count_of word.now }
{
    match rounds_of(word) {
        None | Some(0) => None,
        Some(number) => Some(number),
    }
}

/// The test that a word writes.
pub fn test_of(word: &[u8]) -> Option<Test>
    ensures { result ≡ test_of word.now }
{
    if word == b"below".as_slice() {
        Some(Test::Below)
    } else if word == b"above".as_slice() {
        Some(Test::Above)
    } else if word == b"equal".as_slice() {
        Some(Test::Equal)
    } else {
        None
    }
}

/// The word of a test.
pub fn test_word(test: Test) -> &'static [u8]
    ensures { result.now ≡ test_word test }
{
    match test {
        Test::Below => b"below",
        Test::Above => b"above",
        Test::Equal => b"equal",
    }
}
