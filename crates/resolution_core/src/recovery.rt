use caa_base::written::entry::Exception;
use core_words::crew::Crew;

/// How far a place has come in recovering together.
#[derive(Clone, Copy)]
pub struct Recovery {
    /// Who is halted there.
    pub halted: Crew,
    /// The least cover of all that was raised there, where something was.
    pub cover: Option<Exception>,
    /// The exception to which the place is resolved.
    pub resolved: Option<Exception>,
}
