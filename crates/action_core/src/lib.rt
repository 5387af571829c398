//! The fast core: tables that follow a journal entry by entry and look back nowhere, and the machine and the audit by them.
#![tactic(auto)]

mod hall;
mod kept;
pub mod noting;
mod people;
mod person;
pub mod saying;
mod stage;
mod stages;
mod tables;

pub use hall::{Hall, audit_fast};
pub use people::People;
pub use person::Person;
pub use stage::Stage;
pub use stages::Stages;
pub use tables::Tables;
