ghost use Rattle.std.specs.Prelude.{◌≡◌, ◌++◌, [], IfOk, OnOk};
ghost use Rattle.caa_base.specs.Written.Lines.{spaced};
ghost use Rattle.caa_commands.specs.Findings.{fault_phrase, fault_names, refusal_text};

use action_script::script_error::ScriptCause;
use caa_base::written::entry::OutOfMemory;
use caa_base::written::line::{end_line, push_number, push_word};
use caa_base::written::name::Name;
use caa_base::written::rows::Rows;
use script_checker::check_error::CheckCause;
use std::alloc::Global;

/// What is wrong with an input that is refused, with the names that are told of it.
#[derive(Drop)]
pub enum Fault {
    /// The input isn't the text of a script.
    Text(ScriptCause),
    /// A line isn't accepted; of a graph these exceptions are told.
    Line(CheckCause, Rows<Name>),
}

/// The fault for which an input is refused.
#[derive(Drop)]
pub struct Refusal {
    /// The line, counted from 1 over the whole input; 0 where the input as a whole is too long.
    pub line: u64,
    pub fault: Fault,
}

/// Adds names, each behind a space.
fn push_names(text: &mut Vec<u8>, names: &[Name]) -> Result<(), OutOfMemory>
    ensures { OnOk result (text.new.items ≡ text.old.items ++ spaced names.now) }
{
    for name in names {
        push_word(text, name.bytes())?;
    }
    Ok(())
}

impl Fault {
    /// The fault of a line of which no name is told.
    pub fn of_line(alloc: Global, cause: CheckCause) -> Fault
        ensures { result ≡ Fault.Line cause [] }
    {
        Fault::Line(cause, Rows::from_vec(Vec::new(alloc)))
    }

    /// Its number and its word.
    fn phrase(&self) -> &'static [u8]
        ensures { result.now ≡ fault_phrase self.now }
    {
        match self {
            Fault::Text(cause) => cause.phrase().as_bytes(),
            Fault::Line(cause, _) => cause.phrase().as_bytes(),
        }
    }

    /// The names that are told of it.
    fn names(&self) -> &[Name]
        ensures { result.now ≡ fault_names self.now }
    {
        match self {
            Fault::Text(_) => &[],
            Fault::Line(_, names) => names.as_slice(),
        }
    }
}

impl Refusal {
    /// The line that tells it.
    pub fn text(&self, alloc: Global) -> Result<Vec<u8>, OutOfMemory>
        ensures { IfOk result (λ text. text.items ≡ refusal_text self.now) }
    {
        let mut text = Vec::from_slice(alloc, b"refused")?;
        push_number(&mut text, self.line)?;
        push_word(&mut text, self.fault.phrase())?;
        push_names(&mut text, self.fault.names())?;
        end_line(&mut text)?;
        Ok(text)
    }
}
