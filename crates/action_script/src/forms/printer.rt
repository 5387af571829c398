ghost use Rattle.std.specs.Prelude.{◌≡◌, ◌≤◌, ◌∷◌, ◌++◌, [], length, map, Ok, OnOk, IfOk};
ghost use Rattle.std.specs.List.{flat_map};
ghost use Rattle.caa_base.specs.Written.Limits.{most_script_bytes};
ghost use Rattle.caa_base.specs.Written.Lines.{spaced};
ghost use Rattle.action_script.specs.Lines.Spelling.{LinesSpell, Spells};
ghost use Rattle.action_script.specs.Forms.Printing.{reread_of, field_word, line_text, text_of};

use crate::forms::script::{Line, Script};
use crate::lines::field::Field;
use crate::words::word::test_word;
use caa_base::written::entry::OutOfMemory;
use caa_base::written::line::{end_line, push_number, push_value, push_word};
use caa_base::written::name::{Name, name_at};
use std::alloc::Global;

/// Adds the word that says a field, after a space.
fn push_field(text: &mut Vec<u8>, names: &[Name], field: Field) -> Result<(), OutOfMemory>
    ensures { OnOk result (text.new.items ≡ text.old.items ++ spaced (field_word names.now field ∷ [])) }
{
    match field {
        Field::Name(number) => push_word(text, name_at(names, number)),
        Field::Value(value) => push_value(text, value),
        Field::Count(count) => push_number(text, u64::from(count)),
        Field::Test(test) => push_word(text, test_word(test)),
    }
}

/// Adds each of these fields.
fn push_fields(text: &mut Vec<u8>, names: &[Name], fields: &[Field]) -> Result<(), OutOfMemory>
    ensures { OnOk result (text.new.items ≡ text.old.items ++ spaced (map (field_word names.now) fields.now)) }
{
    for field in fields {
        push_field(text, names, *field)?;
    }
    Ok(())
}

/// Adds the line of a form.
fn push_line(
    alloc: Global,
    text: &mut Vec<u8>,
    names: &[Name],
    line: &Line,
) -> Result<(), OutOfMemory>
    ensures { OnOk result (text.new.items ≡ text.old.items ++ line_text names.now line.now) }
{
    let wording = line.form.wording(alloc)?;
    text.extend_from_slice(wording.kind.word())?;
    push_fields(text, names, &wording.fields)?;
    end_line(text)
}

/// Adds all lines.
fn push_lines(
    alloc: Global,
    text: &mut Vec<u8>,
    names: &[Name],
    lines: &[Line],
) -> Result<(), OutOfMemory>
    ensures { OnOk result (text.new.items ≡ text.old.items ++ flat_map (line_text names.now) lines.now) }
{
    for line in lines {
        push_line(alloc, text, names, line)?;
    }
    Ok(())
}

/// The text of a script, one line for each form. What the text that was read had besides, as comments or empty lines, isn't kept.
pub fn print(alloc: Global, script: &Script) -> Result<Vec<u8>, OutOfMemory>
    ensures text { IfOk result (λ text. text.items ≡ text_of script.now) }
    // The lines of the text spell the script again, on lines that are numbered without a gap, however long the text is.
    ensures spells { IfOk result (λ text. LinesSpell text.items (reread_of script.now)) }
    // So as long as a script may have so many bytes, the text reads back.
    ensures reads_back { IfOk result (λ text. length text.items ≤ most_script_bytes → Spells text.items (reread_of script.now)) }
{
    script.are_script();
    let mut text = Vec::new(alloc);
    push_lines(alloc, &mut text, script.names(), script.lines())?;
    Ok(text)
}
