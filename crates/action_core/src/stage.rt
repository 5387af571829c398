use caa_base::written::entry::Outcome;

/// How far a place has come.
#[derive(Clone, Copy)]
pub struct Stage {
    pub started: bool,
    /// It is undone, or was.
    pub undoing: bool,
    /// How it has ended, where it has.
    pub ended: Option<Outcome>,
}
