//! The table of the kinds of lines.

use crate::page::{Page, Piece};
use crate::shapes::MANUAL;
use action_script::lines::field::Part;
use action_script::lines::kind::{LineKind, Stand};
use action_script::lines::sort::{Naming, Sort};
use caa_base::written::entry::OutOfMemory;
use std::alloc::Global;

/// Where lines of a kind stand, in one word.
fn stand_word(kind: LineKind) -> &'static str {
    match kind.stand() {
        Stand::Top => "top",
        Stand::Graph => "graph",
        Stand::Action => "action",
        Stand::Program => "steps",
        Stand::Body => "body",
        Stand::Block => "block",
    }
}

/// What a name is declared as, in one word.
fn sort_word(sort: Sort) -> &'static str {
    match sort {
        Sort::Participant => "participant",
        Sort::Object => "object",
        Sort::Graph => "graph",
        Sort::Action => "action",
        Sort::Role => "role",
        Sort::Nest => "nest",
        Sort::Own => "own",
        Sort::Inner => "inner",
        Sort::Outer => "outer",
        Sort::Told(_) => "told",
    }
}

/// Adds what a name is for.
fn push_naming(page: &mut Page, naming: Naming) -> Result<(), OutOfMemory> {
    match naming {
        Naming::New(sort) => page.say(&[Piece::Text(" new-"), Piece::Text(sort_word(sort))]),
        Naming::Used(sort) => page.say(&[Piece::Text(" "), Piece::Text(sort_word(sort))]),
        Naming::ToldOutside => page.say(&[Piece::Text(" told")]),
        Naming::Further => page.say(&[Piece::Text(" ..")]),
    }
}

/// Adds what a word is asked to be.
fn push_part(page: &mut Page, part: Part) -> Result<(), OutOfMemory> {
    match part {
        Part::Name(naming) => push_naming(page, naming),
        Part::Value => page.say(&[Piece::Text(" value")]),
        Part::Count => page.say(&[Piece::Text(" count")]),
        Part::Rounds => page.say(&[Piece::Text(" rounds")]),
        Part::Test => page.say(&[Piece::Text(" test")]),
    }
}

/// Adds the row of a kind.
fn push_row(page: &mut Page, kind: LineKind) -> Result<(), OutOfMemory> {
    page.say(&[
        Piece::Text(stand_word(kind)),
        Piece::Text(" "),
        Piece::Word(kind.word()),
    ])?;
    for part in kind.parts() {
        push_part(page, *part)?;
    }
    if kind.goes_on() {
        push_naming(page, Naming::Further)?;
    }
    page.say(&[Piece::Text("\n")])
}

/// All kinds of lines, one on a line: where it stands, the word that begins it, and what its other words are asked to be. A name
/// is told by what it is declared as; `new` stands before what the line itself declares, and two dots behind what may go on.
pub fn line_table(alloc: Global) -> Result<Vec<u8>, OutOfMemory> {
    let mut page = Page::new(alloc, &[]);
    for kind in &MANUAL {
        push_row(&mut page, *kind)?;
    }
    Ok(page.into_text())
}
