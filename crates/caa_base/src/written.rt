//! What is written down: entries, journals, names, numbers and lines.

pub mod digits;
pub mod entry;
pub mod journal;
pub mod limits;
pub mod line;
pub mod name;
pub mod rows;
pub mod work;
