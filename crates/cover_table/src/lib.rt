//! Tables of least covers: from an order of exceptions, the least one that covers any two of them.
#![tactic(auto)]

mod checks;
mod joins;
mod order;
mod sizes;
mod uppers;

pub use checks::is_order;
pub use joins::JoinTable;
pub use order::{MOST_EXCEPTIONS, NoLeast, Order, Row, has_bit, with_bit};
pub use sizes::{AnyTable, BoxedTable, TableError};
