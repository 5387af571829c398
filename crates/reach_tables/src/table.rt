//! What a table tells of each action, and that nothing else comes.

ghost use Rattle.journal_laws.specs.Laws.{Holds};
ghost use Rattle.reach_tables.specs.ReachTable.{TablesTell};

use caa_base::written::entry::Exception;
use caa_base::written::rows::Rows;
use place_plan::plans::plan::Plan;

/// What raises something in a place.
#[derive(Clone, Copy)]
pub enum RaisedBy {
    /// A step of a role, by the number of the role and that of the step.
    Step(usize, usize),
    /// The nested use of this number, of which all its roles carry out the same.
    Use(usize),
    /// The same where its roles gave up, and each carries out what it named.
    GivenUp(usize),
}

/// An exception that a source can raise.
#[derive(Clone, Copy)]
pub struct Told {
    /// The source.
    pub by: RaisedBy,
    /// The exception.
    pub exception: Exception,
}

/// A use that has to be over before another begins.
#[derive(Clone, Copy)]
pub struct UseOrder {
    /// The use that comes first.
    pub first: usize,
    /// The use to which a role leads from the first: the second, or one that has to be over before that begins.
    pub through: usize,
    /// The use that comes later.
    pub second: usize,
}

/// What can come in the places of an action.
#[derive(Drop)]
pub struct ReachRow {
    /// Which of its uses have to be over before which begin.
    pub order: Rows<UseOrder>,
    /// What each of its uses carries out, of which all roles carry the same.
    pub by_uses: Rows<Rows<Exception>>,
    /// What the roles of each use carry out where it is given up.
    pub given_up: Rows<Rows<Exception>>,
    /// A place of it can end with a commit.
    pub commits: bool,
    /// The exceptions that it can tell outside.
    pub signals: Rows<Exception>,
    /// A place of it can end undone.
    pub undone: bool,
    /// An undo of it can fail.
    pub failed: bool,
}

/// A table of what can come in the places of each action, where it leaves nothing out, tells whatever comes in a legal journal.
/// So what it doesn't tell never comes, whatever the order of the entries and the answers of the device.
pub fn tables_tell(plan: &Plan)
    ensures { Holds TablesTell plan.now }
{
    plan.is_closed();
}
