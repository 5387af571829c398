//! The parts of the data of a page. Where no memory is found a part may have been added.

ghost use Rattle.std.specs.Prelude.{◌≡◌, ◌<◌, ◌++◌, OnOk};
ghost use Rattle.std.specs.List.{All};
ghost use Rattle.page_text.specs.Parts.{is_plain, hex_digit, escaped_byte, escaped, IsHarmless, number_text, string_text, part_text, parts_text};

use caa_base::written::entry::OutOfMemory;
use std::io::Write;

/// A part of the data: a list begins or ends, or a number or a text stands in it.
#[derive(Drop)]
pub enum Part {
    Open,
    Close,
    Number(u64),
    Text(Vec<u8>),
}

/// Whether a byte can stand as it is.
fn is_plain(byte: u8) -> bool
    ensures { result ≡ is_plain byte }
{
    32 <= byte
        && byte < 127
        && byte != b'"'
        && byte != b'&'
        && byte != b'<'
        && byte != b'>'
        && byte != b'\\'
}

/// A digit of four bits.
fn hex_digit(number: u8) -> u8
    requires { number < 16 }
    ensures { result ≡ hex_digit number }
{
    if number < 10 {
        b'0' + number
    } else {
        b'a' - 10 + number
    }
}

/// Adds a byte, by its number where it isn't plain.
fn push_byte(text: &mut Vec<u8>, byte: u8) -> Result<(), OutOfMemory>
    ensures { OnOk result (text.new.items ≡ text.old.items ++ escaped_byte byte) }
{
    if is_plain(byte) {
        text.push(byte)?;
    } else {
        text.extend_from_slice(b"\\u00")?;
        text.extend_from_slice(&[hex_digit(byte / 16), hex_digit(byte % 16)])?;
    }
    Ok(())
}

/// Adds bytes, those that aren't plain by their numbers.
fn push_escaped(text: &mut Vec<u8>, bytes: &[u8]) -> Result<(), OutOfMemory>
    ensures { OnOk result (text.new.items ≡ text.old.items ++ escaped bytes.now) }
{
    for byte in bytes {
        push_byte(text, *byte)?;
    }
    Ok(())
}

/// Adds a number.
pub fn push_number(text: &mut Vec<u8>, number: u64) -> Result<(), OutOfMemory>
    ensures { OnOk result (text.new.items ≡ text.old.items ++ number_text number) }
{
    match write!(text, "{number},") {
        Ok(()) => Ok(()),
        Err(_) => Err(OutOfMemory),
    }
}

/// No byte stands in the data as it was given, unless it is plain: what stands for bytes can end neither a text nor an element.
pub fn escapes(bytes: &[u8])
    ensures { All IsHarmless (escaped bytes.now) }
{
    let _ = bytes;
}

/// Adds a text.
pub fn push_text(text: &mut Vec<u8>, bytes: &[u8]) -> Result<(), OutOfMemory>
    ensures { OnOk result (text.new.items ≡ text.old.items ++ string_text bytes.now) }
{
    text.push(b'"')?;
    push_escaped(text, bytes)?;
    text.extend_from_slice(b"\",")?;
    Ok(())
}

/// Adds a part.
pub fn push_part(text: &mut Vec<u8>, part: &Part) -> Result<(), OutOfMemory>
    ensures { OnOk result (text.new.items ≡ text.old.items ++ part_text part.now) }
{
    match part {
        Part::Open => text.extend_from_slice(b"[")?,
        Part::Close => text.extend_from_slice(b"0],\n")?,
        Part::Number(number) => push_number(text, *number)?,
        Part::Text(bytes) => push_text(text, bytes)?,
    }
    Ok(())
}

/// Adds parts.
pub fn push_parts(text: &mut Vec<u8>, parts: &[Part]) -> Result<(), OutOfMemory>
    ensures { OnOk result (text.new.items ≡ text.old.items ++ parts_text parts.now) }
{
    for part in parts {
        push_part(text, part)?;
    }
    Ok(())
}

#[cfg(test)]
mod tests {
    use super::*;
    use std::test::Fail;

    #[test]
    fn what_ends_a_script_is_written_by_numbers(rt: HostRuntime) -> Result<(), Fail> {
        let mut text = Vec::new(rt.alloc());
        push_parts(
            &mut text,
            &[
                Part::Open,
                Part::Text(Vec::from_slice(rt.alloc(), b"a </script>\"\\\xff")?),
                Part::Number(10),
                Part::Close,
            ],
        )?;
        assert_eq!(rt;
            text.as_slice(),
            b"[\"a \\u003c/script\\u003e\\u0022\\u005c\\u00ff\",10,0],\n".as_slice()
        );
        Ok(())
    }
}
