//! Who holds each object, which value it has, and which values it had as the live places started.
#![tactic(auto)]

mod version;
mod versions;

pub use version::Version;
pub use versions::Versions;
