use crate::manager::Manager;
use crate::seat::Seat;
use place_plan::rules::machine::Machine;
use shared_views::{may_cross, may_share};

/// Where a machine may go to another thread, so may a seat and the manager, and threads may share the manager.
pub fn crosses_threads<M: Machine + Send>(seat: &Seat<M>, manager: &Manager<M>) {
    may_cross(seat);
    may_cross(manager);
    may_share(manager);
}
