/// Compiles only where a value may go to another thread.
pub fn may_cross<T: Send>(_x: &T) {}

/// Compiles only where threads may share a value.
pub fn may_share<T: Sync>(_x: &T) {}
