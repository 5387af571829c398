//! Words: with which words a program is called, how lines and words are parted, where a journal begins behind a script, what a word
//! says, and which names a script has.

pub mod call_words;
pub mod cuts;
pub mod journal_start;
pub(crate) mod names;
pub mod word;
