use crate::hands::{Hand, Relay};

fn may_cross<T: Send>(_x: &T) {}

fn may_share<T: Sync>(_x: &T) {}

/// Where a machine may go to another thread, so may a hand, and threads may share the relay. A statement alone: the call does
/// nothing.
pub fn crosses_threads<M: Send>(relay: &Relay<M>, hand: &Hand<M>) {
    may_share(relay);
    may_cross(hand);
}
