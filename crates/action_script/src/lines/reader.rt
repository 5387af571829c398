//! The words of a line are taken as they come: a word that is right is turned at once into what it says, and a name goes to the
//! table of names, before the words behind it are looked at. Where one of these is wrong the script is refused, and the table goes
//! with it. Only there are the words listed, and the bytes of the line looked through, to find the fault that the definition tells
//! first. Words that are right have no bytes that a line may not have, and what parts them has none either.

ghost use Rattle.std.specs.Prelude.{◌≡◌, ◌≢◌, ◌+◌, ◌-◌, ◌<◌, ◌≤◌, ◌^◌, [], length, map, Some, Ok, Err, IfOk, IfErr, OnOk};
ghost use Rattle.caa_base.specs.Written.Limits.{most_script_bytes};
ghost use Rattle.action_script.specs.Words.CutLines.{lines_of};
ghost use Rattle.action_script.specs.Lines.Spelling.{said_with, line_of, said_from, Spells, HasFirstFault};
ghost use Rattle.action_script.specs.inner.OneLine.{IsOfKind};
ghost use Rattle.action_script.specs.inner.SoFar.{so_far, with_said, Took, HasRead};
ghost use Rattle.action_script.specs.declared.script_error.ScriptCause.TheVariants as cause;
ghost use Rattle.action_script.specs.declared.lines.kind.Section.TheVariants as section;

use crate::forms::form::Form;
use crate::forms::script::{Line, Script};
use crate::lines::asked::{fault_of_words, take_fields};
use crate::lines::field::Field;
use crate::lines::kind::{LineKind, Section};
use crate::lines::script_line::{fault_of, kind_of_line};
use crate::script_error::{ScriptCause, ScriptError};
use crate::words::cuts::{cut_line, words_of};
use crate::words::names::NameTable;
use caa_base::written::limits::MOST_SCRIPT_BYTES;
use std::alloc::Global;

/// What was read of a script so far.
#[derive(Drop)]
struct Reader<'a> {
    /// The number of the next line.
    line: u32,
    section: Section,
    names: NameTable<'a>,
    lines: Vec<Line>,
    /// Room for what the words of one line after the first say.
    fields: Vec<Field>,
}

impl<'a> Reader<'a> {
    /// Takes the next line, which is of this kind; `words` are its words after the first. It isn't counted yet.
    fn take_said(
        &mut self,
        alloc: Global,
        kind: LineKind,
        line: &[u8],
        words: &[&'a [u8]],
    ) -> Result<(), ScriptCause>
        requires room { length self.old.names + length line.now < 2 ^ 32 }
        requires kind { IsOfKind self.old.section line.now kind (map (λ w. w.now) words.now) }
        ensures says { OnOk result (
            line_of self.old.section line.now ≡ Ok (Some (said_with kind (map (λ w. w.now) words.now)))) }
        ensures taken { OnOk result (
            so_far self.new ≡ with_said (so_far self.old) (said_with kind (map (λ w. w.now) words.now))) }
        ensures refused { IfErr result (λ e. e ≢ cause.OutOfMemory → line_of self.old.section line.now ≡ Err e) }
    {
        if !take_fields(&mut self.fields, &mut self.names, kind.parts(), words)? {
            let of_words = fault_of_words(alloc, kind.parts(), words)?;
            return Err(fault_of(line, of_words));
        }
        let form = Form::by(alloc, kind, &self.fields)?;
        self.lines.push(Line {
            number: self.line,
            form,
        })?;
        self.section = kind.goes_to(self.section);
        Ok(())
    }

    /// Takes the next line.
    fn take_text(&mut self, alloc: Global, line: &'a [u8]) -> Result<(), ScriptCause>
        requires few { self.old.line < 2 ^ 32 - 1 }
        requires room { length self.old.names + length line.now < 2 ^ 32 }
        ensures taken { OnOk result (Took (so_far self.old) line.now (so_far self.new)) }
        ensures refused { IfErr result (λ e. e ≢ cause.OutOfMemory → line_of self.old.section line.now ≡ Err e) }
    {
        let words = words_of(alloc, line)?;
        if let Some((kind, more)) = kind_of_line(self.section, line, &words)? {
            self.take_said(alloc, kind, line, more)?;
        }
        self.line += 1;
        Ok(())
    }

    /// Takes the next line, or names its number and its fault.
    fn take_line(&mut self, alloc: Global, line: &'a [u8]) -> Result<(), ScriptError>
        requires few { self.old.line < 2 ^ 32 - 1 }
        requires room { length self.old.names + length line.now < 2 ^ 32 }
        ensures taken { OnOk result (Took (so_far self.old) line.now (so_far self.new)) }
        ensures refused { IfErr result (λ e. e.cause ≢ cause.OutOfMemory → line_of self.old.section line.now ≡ Err e.cause) }
        ensures place { IfErr result (λ e. e.line ≡ self.old.line) }
    {
        let number = self.line;
        match self.take_text(alloc, line) {
            Ok(()) => Ok(()),
            Err(cause) => Err(ScriptError {
                line: number,
                cause,
            }),
        }
    }
}

/// Reads all lines of a script.
fn read_lines(alloc: Global, bytes: &[u8]) -> Result<Reader<'_>, ScriptError>
    requires { length bytes.now ≤ most_script_bytes }
    ensures read { IfOk result (λ reader. HasRead bytes.now [] (so_far reader)) }
    ensures few_lines { IfOk result (λ reader. length reader.lines.items < 2 ^ 32) }
    ensures few_names { IfOk result (λ reader. length reader.names < 2 ^ 32) }
    ensures refused { IfErr result (λ e. e.cause ≢ cause.OutOfMemory → said_from 1 section.Top (lines_of bytes.now) ≡ Err e) }
{
    let mut reader = Reader {
        line: 1,
        section: Section::Top,
        names: NameTable::new(alloc),
        lines: Vec::new(alloc),
        fields: Vec::new(alloc),
    };
    let mut rest = bytes;
    while !rest.is_empty() {
        let (line, more) = cut_line(rest);
        match reader.take_line(alloc, line) {
            Ok(()) => rest = more,
            Err(error) => return Err(error),
        }
    }
    Ok(reader)
}

/// Reads a script, which keeps the lines that say something and the names that stand in them.
///
/// The error names the first line that is wrong, counted from 1, and what is wrong with it. A text of too many bytes isn't read,
/// and its error names line 0. Every line is asked whether it is short enough, then whether its bytes are allowed, whether it is
/// of a kind that may stand there and its tests are tests, and last, word by word, whether the names and numbers are as they
/// should be. Where the text stops within a graph or an action, the error names the line after its last.
pub fn read(alloc: Global, bytes: &[u8]) -> Result<Script, ScriptError>
    ensures read { IfOk result (λ script. Spells bytes.now script) }
    ensures refused { IfErr result (λ e. e.cause ≢ cause.OutOfMemory → HasFirstFault bytes.now e) }
{
    if bytes.len() as u64 > MOST_SCRIPT_BYTES {
        return Err(ScriptError {
            line: 0,
            cause: ScriptCause::TooLong,
        });
    }
    let reader = match read_lines(alloc, bytes) {
        Ok(reader) => reader,
        Err(error) => return Err(error),
    };
    if !reader.section.at_top() {
        return Err(ScriptError {
            line: reader.line,
            cause: ScriptCause::BadLine,
        });
    }
    let universal = reader.names.number(b"universal");
    match reader.names.to_names(alloc) {
        Ok(names) => Ok(Script::from_parts(reader.lines, names, universal)),
        Err(cause) => Err(ScriptError {
            line: reader.line,
            cause,
        }),
    }
}
