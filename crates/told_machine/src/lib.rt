//! A machine whose device is somebody else: it says which put is next, and is told whether it was done. It reads, writes and waits for
//! nothing, so whoever has it owns all input and output, all threads and the time.
#![tactic(auto)]

mod made;
mod next;
mod told;

pub use made::Made;
pub use next::Next;
pub use told::Told;
