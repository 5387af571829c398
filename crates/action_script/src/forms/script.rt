ghost use Rattle.std.specs.Prelude.{◌≡◌, ◌↔◌, ◌<◌, ◌^◌, [], length, codes, slice_get, Some, IfOk, IsTrue};
ghost use Rattle.std.specs.Option.{option_map};
ghost use Rattle.action_script.specs.Words.NumberedNames.{number_in};
ghost use Rattle.action_script.specs.Forms.LineForms.{numbers_of};
ghost use Rattle.action_script.specs.Forms.Printing.{AreScript, AreBelow, is_sound, forms_of, numbered_from};

use crate::forms::form::Form;
use caa_base::written::entry::OutOfMemory;
use caa_base::written::name::Name;
use std::alloc::{AllocError, Global};
use std::marker::Model;

/// A line of a script that says something.
#[derive(Drop)]
pub struct Line {
    /// Which line of the text it is, counted from 1.
    pub number: u32,
    pub form: Form,
}

/// A script, seen as two lists: the lines that say something, and the names that stand in them. A name is in the list once, and
/// its number is its place there.
#[derive(Drop)]
pub struct Script {
    lines: Vec<Line>,
    names: Vec<Name>,
    /// The number of the name `universal`, which each graph has, or how many names there are.
    universal: u32,
}

impl Model for Script {
    ghost use Rattle.std.specs.Prelude.{◌≡◌, codes};
    ghost use Rattle.action_script.specs.Forms.ScriptValue.{Script as ScriptLines};
    ghost use Rattle.action_script.specs.Words.NumberedNames.{number_in};
    ghost use Rattle.action_script.specs.Forms.Printing.{AreScript, forms_of};

    ghost Value = { ScriptLines };

    ghost view = { λ s. record { lines = s.lines.items; names = s.names.items } };

    ghost invariant = { λ s. AreScript s.names.items (forms_of s.lines.items)
        × (s.universal ≡ number_in s.names.items (codes "universal")) };
}

impl Script {
    /// The script of these lines and names, and of the number that the name `universal` has among them.
    pub(crate) fn from_parts(lines: Vec<Line>, names: Vec<Name>, universal: u32) -> Script
        requires whole { AreScript names.items (forms_of lines.items) }
        requires found { universal ≡ number_in names.items (codes "universal") }
        ensures lines { result.lines ≡ lines.items }
        ensures names { result.names ≡ names.items }
    {
        Script {
            lines,
            names,
            universal,
        }
    }

    /// The script that has these forms on its lines, from line 1 on without a gap, and these names.
    ///
    /// It has to be one that a text can spell. Each graph and each action has its end before the next begins, numbers are in their
    /// ranges, every list of a form has a member, and no line is longer than `MOST_LINE_BYTES`. Each name that a line has stands
    /// once among the names, in the order in which the lines bring them up, and no other name stands there. Both lists are shorter
    /// than 2^32.
    pub fn of_forms(
        alloc: Global,
        names: Vec<Name>,
        forms: Vec<Form>,
    ) -> Result<Script, OutOfMemory>
        requires { AreScript names.items forms.items }
        ensures lines { IfOk result (λ script. script.lines ≡ numbered_from 1 forms.items) }
        ensures names { IfOk result (λ script. script.names ≡ names.items) }
    {
        let lines = numbered(alloc, forms)?;
        let universal = number_in(names.as_slice(), b"universal");
        Ok(Script::from_parts(lines, names, universal))
    }

    /// How many lines say something.
    pub fn len(&self) -> u32
        ensures { result ≡ length self.now.lines }
    {
        self.lines.len() as u32
    }

    /// Whether no line says anything.
    pub fn is_empty(&self) -> bool
        ensures { IsTrue result ↔ (self.now.lines ≡ []) }
    {
        self.lines.is_empty()
    }

    /// The number in the text of a line that says something; these lines are counted from 0.
    pub fn number(&self, index: u32) -> u32
        requires { index < length self.now.lines }
        ensures { option_map (λ l. l.number) (slice_get self.now.lines index) ≡ Some result }
    {
        self.lines[index as usize].number
    }

    /// What such a line says. Its values are in their ranges, its lists aren't empty, and its numbers are those of names.
    pub fn form(&self, index: u32) -> &Form
        requires { index < length self.now.lines }
        ensures value { option_map (λ l. l.form) (slice_get self.now.lines index) ≡ Some result.now }
        ensures sound { IsTrue (is_sound self.now.names result.now) }
        ensures named { AreBelow (length self.now.names) (numbers_of result.now) }
    {
        &self.lines[index as usize].form
    }

    /// The name of this number.
    pub fn name(&self, number: u32) -> &[u8]
        requires { number < length self.now.names }
        ensures { slice_get self.now.names number ≡ Some result.now }
    {
        self.names[number as usize].bytes()
    }

    /// The number of the name `universal`; where it isn't there, the count of names.
    pub fn universal(&self) -> u32
        ensures { result ≡ number_in self.now.names (codes "universal") }
    {
        self.universal
    }

    /// All lines, in order.
    pub fn lines(&self) -> &[Line]
        ensures { result.now ≡ self.now.lines }
    {
        self.lines.as_slice()
    }

    /// All names, in order.
    pub fn names(&self) -> &[Name]
        ensures { result.now ≡ self.now.names }
    {
        self.names.as_slice()
    }

    /// The law that each script could be printed: its forms lead from the top to the top and are whole, their lines aren't too
    /// long, and its names first appear in their order.
    pub fn are_script(&self)
        ensures { AreScript self.now.names (forms_of self.now.lines) }
    {
        let _ = &self.lines;
    }
}

/// The number of a name among these, or how many names there are.
pub fn number_in(names: &[Name], word: &[u8]) -> u32
    requires { length names.now < 2 ^ 32 }
    ensures { result ≡ number_in names.now word.now }
{
    for (number, name) in names.iter().enumerate() {
        if word == name.bytes() {
            return number as u32;
        }
    }
    names.len() as u32
}

/// The forms on lines of their own, numbered from 1.
fn numbered(alloc: Global, forms: Vec<Form>) -> Result<Vec<Line>, AllocError>
    requires { length forms.items < 2 ^ 32 }
    ensures { IfOk result (λ lines. lines.items ≡ numbered_from 1 forms.items) }
{
    let mut lines = Vec::new(alloc);
    for form in forms {
        let number = lines.len() as u32 + 1;
        lines.push(Line { number, form })?;
    }
    Ok(lines)
}
