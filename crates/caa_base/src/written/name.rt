ghost use Rattle.std.specs.Prelude.{◌≡◌, IfOk};
ghost use Rattle.std.specs.List.{list_all};
ghost use Rattle.caa_base.specs.Written.Names.{is_letter, is_digit, is_name_byte, begins_with_letter, is_name, name_at};

use crate::written::entry::OutOfMemory;
use crate::written::limits::MOST_NAME_BYTES;
use std::alloc::Global;
use std::marker::Model;

/// A name of a script, seen as the list of its bytes.
#[derive(Drop)]
pub struct Name {
    text: Vec<u8>,
}

impl Model for Name {
    ghost use Rattle.std.specs.Prelude.{List, ℕ};

    ghost Value = { List ℕ };

    ghost view = { λ n. n.text.items };
}

impl Name {
    /// The name of these bytes.
    pub fn from_bytes(alloc: Global, bytes: &[u8]) -> Result<Name, OutOfMemory>
        ensures { IfOk result (λ name. name ≡ bytes.now) }
    {
        let text = Vec::from_slice(alloc, bytes)?;
        Ok(Name { text })
    }

    /// The bytes of the name.
    pub fn bytes(&self) -> &[u8]
        ensures { result.now ≡ self.now }
    {
        self.text.as_slice()
    }
}

/// The name of this number, which is empty where there is none.
pub fn name_at(names: &[Name], number: u32) -> &[u8]
    ensures { result.now ≡ name_at names.now number }
{
    match names.get(number as usize) {
        Some(name) => name.bytes(),
        None => &[],
    }
}

fn is_letter(byte: u8) -> bool
    ensures { result ≡ is_letter byte }
{
    (byte >= b'A' && byte <= b'Z') || (byte >= b'a' && byte <= b'z')
}

/// Whether a byte is a digit.
pub fn is_digit(byte: u8) -> bool
    ensures { result ≡ is_digit byte }
{
    byte >= b'0' && byte <= b'9'
}

fn is_name_byte(byte: u8) -> bool
    ensures { result ≡ is_name_byte byte }
{
    is_letter(byte) || is_digit(byte) || byte == b'_' || byte == b'-'
}

fn begins_with_letter(word: &[u8]) -> bool
    ensures { result ≡ begins_with_letter word.now }
{
    match word.first() {
        Some(byte) => is_letter(*byte),
        None => false,
    }
}

fn are_name_bytes(word: &[u8]) -> bool
    ensures { result ≡ list_all is_name_byte word.now }
{
    word.iter().all(|byte| is_name_byte(*byte))
}

/// Whether a word is a name: it begins with a letter, and goes on with at most 31 letters, digits, `_` and `-`.
pub fn is_name(word: &[u8]) -> bool
    ensures { result ≡ is_name word.now }
{
    begins_with_letter(word) && word.len() <= MOST_NAME_BYTES && are_name_bytes(word)
}
