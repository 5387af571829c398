//! Lines of text: words with one space between each two, and a line feed. Where no memory is found a part may have been added.

ghost use Rattle.std.specs.Prelude.{◌≡◌, ◌∷◌, ◌++◌, [], decimal, OnOk};
ghost use Rattle.std.specs.Fmt.{signed_decimal};
ghost use Rattle.caa_base.specs.Written.Lines.{spaced};

use crate::written::entry::OutOfMemory;
use itoa::Buffer;

/// Adds a word, after a space.
pub fn push_word(text: &mut Vec<u8>, word: &[u8]) -> Result<(), OutOfMemory>
    ensures { OnOk result (text.new.items ≡ text.old.items ++ spaced (word.now ∷ [])) }
{
    text.push(b' ')?;
    text.extend_from_slice(word)?;
    Ok(())
}

/// Adds a number, after a space.
pub fn push_number(text: &mut Vec<u8>, number: u64) -> Result<(), OutOfMemory>
    ensures { OnOk result (text.new.items ≡ text.old.items ++ spaced (decimal number ∷ [])) }
{
    push_word(text, Buffer::new().format(number).as_bytes())
}

/// Adds a value, after a space.
pub fn push_value(text: &mut Vec<u8>, value: i64) -> Result<(), OutOfMemory>
    ensures { OnOk result (text.new.items ≡ text.old.items ++ spaced (signed_decimal value ∷ [])) }
{
    push_word(text, Buffer::new().format(value).as_bytes())
}

/// Ends the line.
pub fn end_line(text: &mut Vec<u8>) -> Result<(), OutOfMemory>
    ensures { OnOk result (text.new.items ≡ text.old.items ++ 10 ∷ []) }
{
    text.push(b'\n')?;
    Ok(())
}
