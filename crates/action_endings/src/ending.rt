use crate::said::Said;
use caa_base::written::limits::MOST_ROLES;
use core_words::crew::Crew;

/// How far a place has come to its end.
#[derive(Clone, Copy)]
pub struct Ending {
    /// Who has given a verdict that counts.
    pub given: Crew,
    /// Who has given up.
    pub aborted: Crew,
    /// The verdicts, by role.
    pub said: [Said; MOST_ROLES],
    /// What was named in giving up, by role.
    pub named: [Option<u8>; MOST_ROLES],
    /// How many objects have no restore yet.
    pub untried: u16,
    /// Whether something was raised there.
    pub raised: bool,
    /// Whether a verdict that counts is undo.
    pub undo: bool,
    /// Whether the place is being undone, or was.
    pub undoing: bool,
    /// Whether the device refused a restore.
    pub failed: bool,
}
