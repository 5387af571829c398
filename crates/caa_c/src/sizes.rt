//! How large a machine's plan and journal are.

ghost use Rattle.caa_c.specs.Machines.{machine_of};
ghost use Rattle.caa_c.specs.Sizes.{AreSizesOf};

use crate::session::Session;

/// How large a plan and its journal are.
#[repr(C)]
#[derive(Clone, Copy)]
pub struct Sizes {
    pub participants: u32,
    pub objects: u32,
    pub places: u32,
    /// The most entries that the journal can have.
    pub bound: u64,
    /// The entries so far.
    pub entries: u64,
    /// Each participant is through with its plays.
    pub complete: bool,
}

/// The sizes of a machine.
pub fn sizes_of(session: &Session) -> Sizes
    ensures { AreSizesOf result (machine_of session.now) }
{
    let plan = session.told.plan();
    Sizes {
        participants: plan.participants(),
        objects: plan.objects(),
        places: plan.places(),
        bound: plan.bound(),
        entries: session.told.journal().len(),
        complete: session.told.complete(),
    }
}
