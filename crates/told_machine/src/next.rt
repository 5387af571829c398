use caa_base::written::entry::Entry;
use journal_replay::moves::{Wait, Work};

/// What is next for a participant.
#[derive(Clone, Copy)]
pub enum Next {
    /// This entry of its was added to the journal.
    Did(Entry),
    /// It is at this work, until it is told that the work of this ticket is done.
    Works { work: Work, ticket: u64 },
    /// This put or restore is to be done now; the entry says which object is to be brought to which value. Until it is told whether
    /// that was done, nothing else is next for anybody.
    Puts(Entry),
    /// This put or restore was asked for, and isn't answered yet.
    Busy(Entry),
    /// There is nothing that it may do until this is no longer lacking.
    Waits(Wait),
    /// All its plays are behind it, or it never had one.
    Over,
}
