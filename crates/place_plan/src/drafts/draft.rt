use crate::drafts::draft_rows::{ActionRow, GraphRow, ObjectRow, PlayRow};
use caa_base::written::entry::{Drill, Object};
use caa_base::written::name::Name;
use caa_base::written::rows::Rows;

/// The parts of a plan, before they are checked and unfolded.
#[derive(Drop)]
pub struct Draft {
    /// The names of the participants.
    pub participants: Rows<Name>,
    /// The external objects.
    pub objects: Rows<ObjectRow>,
    /// The graphs of exceptions; number 0 is the plain one, which has `universal` alone.
    pub graphs: Rows<GraphRow>,
    /// The actions, in the order of their declaration.
    pub actions: Rows<ActionRow>,
    /// Which actions are played at the top, in order, and by whom.
    pub plays: Rows<PlayRow>,
    /// The puts that the device is to refuse.
    pub drills: Rows<Drill>,
    /// The objects whose committed values are watched.
    pub watches: Rows<Object>,
}
