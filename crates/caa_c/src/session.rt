use action_core::Tables;
use told_machine::Told;

/// A machine that is open, and room for a line of its journal's text.
#[derive(Drop)]
pub struct Session {
    pub told: Told<Tables>,
    pub line: Vec<u8>,
}
