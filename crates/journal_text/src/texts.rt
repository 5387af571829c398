//! The text of a journal, both ways.

pub(crate) mod entry_at;
pub(crate) mod entry_writer;
pub(crate) mod kind_tokens;
pub(crate) mod line_room;
pub(crate) mod name_tokens;
pub mod naming;
pub mod text_blocks;
pub mod text_reader;
pub mod text_writer;
pub(crate) mod tokens;
pub(crate) mod values;
