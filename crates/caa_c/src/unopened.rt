ghost use Rattle.std.specs.Prelude.{◌≡◌};
ghost use Rattle.caa_c.specs.Opened.{line_told, phrase_told, code_of};

use crate::code::Code;
use action_script::script_error::ScriptError;
use script_checker::check_error::CheckError;

/// Why no machine was opened.
#[derive(Clone, Copy)]
pub enum Unopened {
    /// The bytes spell no script: their first fault.
    Misspelled(ScriptError),
    /// The script is refused: its first line that is, with its least cause.
    Refused(CheckError),
    /// No memory was found.
    OutOfMemory,
}

impl Unopened {
    /// The line, counted from 1; 0 where the script as a whole is at fault, or none is.
    pub fn line(self) -> u32
        ensures { result ≡ line_told self }
    {
        match self {
            Unopened::Misspelled(error) => error.line,
            Unopened::Refused(error) => error.line,
            Unopened::OutOfMemory => 0,
        }
    }

    /// The number and the word of the cause; empty for want of memory.
    pub fn phrase(self) -> &'static [u8]
        ensures { result.now ≡ phrase_told self }
    {
        match self {
            Unopened::Misspelled(error) => error.cause.phrase().as_bytes(),
            Unopened::Refused(error) => error.cause.phrase().as_bytes(),
            Unopened::OutOfMemory => b"",
        }
    }

    /// What is answered.
    pub fn code(self) -> Code
        ensures { result ≡ code_of self }
    {
        match self {
            Unopened::Misspelled(_) | Unopened::Refused(_) => Code::Refused,
            Unopened::OutOfMemory => Code::NoMemory,
        }
    }
}
