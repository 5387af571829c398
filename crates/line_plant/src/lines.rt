//! The lines that a device is sent.

ghost use Rattle.std.specs.Prelude.{◌≡◌, ◌+◌, ◌<◌, ◌≤◌, ◌++◌, length, slice_index_or, vec_len, vec_capacity, IfOk};
ghost use Rattle.line_plant.specs.Lines.{asking_line, lay_line};
ghost use Rattle.line_plant.specs.inner.Room.{most_put_bytes, HasRoom};

use caa_base::written::entry::OutOfMemory;
use caa_base::written::line::{end_line, push_number, push_value, push_word};
use caa_base::written::name::Name;
use itoa::Buffer;
use std::alloc::Global;

/// How many bytes the line of a restore has at most, besides its name, beyond that of `lay`: a longer word, a number, a space and a
/// value.
const MOST_MORE_BYTES: usize = 45;

/// Adds these bytes, for which there is room.
fn add(text: &mut Vec<u8>, bytes: &[u8])
    requires { vec_len text.old + length bytes.now ≤ vec_capacity text.old }
    ensures bytes { text.new.items ≡ text.old.items ++ bytes.now }
    ensures len { vec_len text.new ≡ vec_len text.old + length bytes.now }
    ensures room { vec_capacity text.old ≤ vec_capacity text.new }
{
    text.extend_from_slice(bytes).unwrap();
}

/// Makes the line that asks for a put or a restore, in memory that has room for it.
pub fn make_put(text: &mut Vec<u8>, word: &[u8], number: u64, name: &[u8], value: i64)
    requires short { length word.now ≤ 7 }
    requires room { most_put_bytes name.now ≤ vec_capacity text.old }
    ensures line { text.new.items ≡ asking_line word.now number name.now value }
    ensures room { vec_capacity text.old ≤ vec_capacity text.new }
{
    let mut digits = Buffer::new();
    text.clear();
    add(text, word);
    add(text, b" ");
    add(text, Buffer::new().format(number).as_bytes());
    add(text, b" ");
    add(text, name);
    add(text, b" ");
    add(text, digits.format(value).as_bytes());
    add(text, b"\n");
}

/// The first value of an object.
fn first_value(values: &[i64], object: usize) -> i64
    requires { object < length values.now }
    ensures { result ≡ slice_index_or values.now object result }
{
    values[object]
}

/// Makes the line that lays out the objects with these first values, in memory that has room for the line of any put of them.
pub fn make_lay(
    alloc: Global,
    number: u64,
    names: &[Name],
    values: &[i64],
) -> Result<Vec<u8>, OutOfMemory>
    requires { length names.now ≡ length values.now }
    ensures line { IfOk result (λ text. text.items ≡ lay_line number names.now values.now) }
    ensures room { IfOk result (λ text. HasRoom (length values.now) names.now (vec_capacity text)) }
{
    let mut text = Vec::from_slice(alloc, b"lay")?;
    push_number(&mut text, number)?;
    for object in 0..values.len() {
        push_word(&mut text, names[object].bytes())?;
        push_value(&mut text, first_value(values, object))?;
    }
    end_line(&mut text)?;
    text.reserve(MOST_MORE_BYTES)?;
    Ok(text)
}
