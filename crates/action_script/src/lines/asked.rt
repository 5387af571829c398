ghost use Rattle.std.specs.Prelude.{◌≡◌, ◌≢◌, ◌<◌, ◌+◌, ◌^◌, if◌then◌else◌, not, find, option_copied, map, length, Ok, Err, Some, is_some, true, false, IfSome, IfOk, IfErr, OnOk};
ghost use Rattle.std.specs.List.{list_all};
ghost use Rattle.action_script.specs.Words.NumberedNames.{with_name, with_names};
ghost use Rattle.action_script.specs.Lines.Spelling.{asked_of, is_part, is_test, is_name_part, is_wrong_test, is_right, cause_of, names_of, field_by, field_of, trial_of};
ghost use Rattle.action_script.specs.inner.OneLine.{part_at};
ghost use Rattle.action_script.specs.declared.script_error.ScriptCause.TheVariants as cause;

use crate::lines::field::{Field, Part};
use crate::lines::sort::Naming;
use crate::script_error::ScriptCause;
use crate::words::names::NameTable;
use crate::words::word::{count_of, rounds_of, test_of, value_of};
use caa_base::written::entry::Test;
use caa_base::written::name::is_name;
use std::alloc::{AllocError, Global};
use std::marker::Model;

/// A word of a line, and what it is asked to be at its place.
#[derive(Drop)]
pub struct Asked<'a> {
    part: Part,
    word: &'a [u8],
}

impl<'a> Model for Asked<'a> {
    ghost use Rattle.action_script.specs.Lines.Asked.{Asked as AskedWord};

    ghost Value = { AskedWord };

    ghost view = { λ a. record { part = a.part; word = a.word.now } };
}

/// Whether a word is what a part asks for.
pub fn is_part(part: Part, word: &[u8]) -> bool
    ensures { result ≡ is_part part word.now }
{
    match part {
        Part::Name(_) => is_name(word),
        Part::Value => value_of(word).is_some(),
        Part::Count => count_of(word).is_some(),
        Part::Rounds => rounds_of(word).is_some(),
        Part::Test => test_of(word).is_some(),
    }
}

/// What the word of a line is asked to be that has so many before it; where the parts end, names go on.
pub fn part_at(parts: &[Part], index: usize) -> Part
    ensures { result ≡ part_at parts.now index }
{
    parts
        .get(index)
        .copied()
        .unwrap_or(Part::Name(Naming::Further))
}

/// What a word says, if it is what a part asks for. A name is added to those of the script.
fn take_field<'a>(
    names: &mut NameTable<'a>,
    part: Part,
    word: &'a [u8],
) -> Result<Option<Field>, ScriptCause>
    requires room { length names.old + 1 < 2 ^ 32 }
    ensures right { IfOk result (λ field. is_some field ≡ is_part part word.now) }
    ensures taken { IfOk result (λ field. IfSome field (λ f. f ≡ field_by names.new part word.now)) }
    ensures added { IfOk result (λ field. is_some field ≡ true →
        names.new ≡ (if is_name_part part then with_name names.old word.now else names.old)) }
    ensures refused { IfErr result (λ e. e ≡ cause.OutOfMemory) }
{
    Ok(match part {
        Part::Name(_) => names.take(word)?.map(Field::Name),
        Part::Value => value_of(word).map(Field::Value),
        Part::Count => count_of(word).map(Field::Count),
        Part::Rounds => rounds_of(word).map(Field::Count),
        Part::Test => test_of(word).map(Field::Test),
    })
}

fn is_test(part: Part) -> bool
    ensures { result ≡ is_test part }
{
    matches!(part, Part::Test)
}

/// The fault of a word that isn't what a part asks for.
fn cause_of(part: Part) -> ScriptCause
    ensures { result ≡ cause_of part }
{
    match part {
        Part::Name(_) => ScriptCause::BadName,
        Part::Value | Part::Count | Part::Rounds => ScriptCause::BadNumber,
        Part::Test => ScriptCause::BadLine,
    }
}

impl<'a> Asked<'a> {
    /// Whether the word is what it is asked to be.
    fn is_right(&self) -> bool
        ensures { result ≡ is_right self.now }
    {
        is_part(self.part, self.word)
    }

    /// Whether it is asked to be a test, and is none.
    fn is_wrong_test(&self) -> bool
        ensures { result ≡ is_wrong_test self.now }
    {
        is_test(self.part) && !is_part(self.part, self.word)
    }

    fn part(&self) -> Part
        ensures { result ≡ self.now.part }
    {
        self.part
    }
}

/// Makes `asked` these words, each with what it is asked to be; where the parts end, names go on.
fn fill_asked<'a>(
    asked: &mut Vec<Asked<'a>>,
    parts: &[Part],
    words: &[&'a [u8]],
) -> Result<(), AllocError>
    ensures { OnOk result (asked.new.items ≡ asked_of parts.now (map (λ w. w.now) words.now)) }
{
    asked.clear();
    for (index, word) in words.iter().enumerate() {
        asked.push(Asked {
            part: part_at(parts, index),
            word,
        })?;
    }
    Ok(())
}

/// Whether each word that is asked to be a test is one.
fn are_tests_right(asked: &[Asked]) -> bool
    ensures { result ≡ list_all (λ a. not (is_wrong_test a)) asked.now }
{
    asked.iter().all(|word| !word.is_wrong_test())
}

/// The first word that isn't what it is asked to be.
fn first_wrong<'b, 'a>(asked: &'b [Asked<'a>]) -> Option<&'b Asked<'a>>
    ensures { option_copied result ≡ find (λ a. not (is_right a)) asked.now }
{
    asked.iter().find(|word| !word.is_right())
}

/// Whether each word is what it is asked to be. Where one isn't, a wrong test is told before any other wrong word.
pub fn check_words(asked: &[Asked]) -> Result<(), ScriptCause>
    ensures { result ≡ trial_of asked.now }
{
    let Some(wrong) = first_wrong(asked) else {
        return Ok(());
    };
    if are_tests_right(asked) {
        Err(cause_of(wrong.part()))
    } else {
        Err(ScriptCause::BadLine)
    }
}

/// The fault of some words, one of which isn't what it is asked to be.
pub fn fault_of_words(
    alloc: Global,
    parts: &[Part],
    words: &[&[u8]],
) -> Result<ScriptCause, AllocError>
    requires wrong { list_all is_right (asked_of parts.now (map (λ w. w.now) words.now)) ≡ false }
    ensures { IfOk result (λ fault. trial_of (asked_of parts.now (map (λ w. w.now) words.now)) ≡ Err fault) }
{
    let mut asked = Vec::new(alloc);
    fill_asked(&mut asked, parts, words)?;
    match check_words(&asked) {
        Err(fault) => Ok(fault),
        Ok(()) => unreachable!(),
    }
}

/// Makes these fields what the words say, and adds the words that are asked to be names to those of the script. Tells whether each
/// word is what it is asked to be; where one isn't, fields and names are of no more use.
pub fn take_fields<'a>(
    fields: &mut Vec<Field>,
    names: &mut NameTable<'a>,
    parts: &[Part],
    words: &[&'a [u8]],
) -> Result<bool, ScriptCause>
    requires room { length names.old + length words.now < 2 ^ 32 }
    ensures right { IfOk result (λ right. right ≡ list_all is_right (asked_of parts.now (map (λ w. w.now) words.now))) }
    ensures taken { IfOk result (λ right. right ≡ true →
        fields.new.items ≡ map (field_of names.new) (asked_of parts.now (map (λ w. w.now) words.now))) }
    ensures added { IfOk result (λ right. right ≡ true →
        names.new ≡ with_names names.old (names_of (asked_of parts.now (map (λ w. w.now) words.now)))) }
    ensures refused { IfErr result (λ e. e ≡ cause.OutOfMemory) }
{
    fields.clear();
    for (index, word) in words.iter().enumerate() {
        match take_field(names, part_at(parts, index), word)? {
            Some(field) => fields.push(field)?,
            None => return Ok(false),
        }
    }
    Ok(true)
}
