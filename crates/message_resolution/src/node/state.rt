use caa_base::written::entry::Exception;

/// How far a member is with what was raised.
#[derive(Clone, Copy)]
pub enum State {
    /// It raised nothing, and was told of nothing that was raised.
    Normal,
    /// It raised this exception.
    Raised(Exception),
    /// It was told that something was raised before it raised anything, and has said so.
    Suspended,
}
