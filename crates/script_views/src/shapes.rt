//! What each kind of line looks like in words, and where it stands.

use crate::page::{Page, Piece};
use action_script::forms::form::Form;
use action_script::forms::script::Line;
use action_script::lines::field::Part;
use action_script::lines::kind::{LineKind, Section, Stand};
use action_script::lines::sort::{Naming, Sort};
use caa_base::written::entry::OutOfMemory;
use std::alloc::Global;

/// All kinds of lines, in the order of the manual.
pub const MANUAL: [LineKind; 34] = [
    LineKind::Participant,
    LineKind::Object,
    LineKind::Graph,
    LineKind::Action,
    LineKind::Play,
    LineKind::Drill,
    LineKind::Watch,
    LineKind::Exception,
    LineKind::Cover,
    LineKind::End,
    LineKind::Use,
    LineKind::Roles,
    LineKind::Internal,
    LineKind::Interface,
    LineKind::Fault,
    LineKind::Body,
    LineKind::Handler,
    LineKind::Nest,
    LineKind::Alternate,
    LineKind::Map,
    LineKind::MapUndo,
    LineKind::MapFailure,
    LineKind::Abort,
    LineKind::AbortTest,
    LineKind::Read,
    LineKind::Put,
    LineKind::Add,
    LineKind::Work,
    LineKind::Check,
    LineKind::Raise,
    LineKind::Enter,
    LineKind::Done,
    LineKind::Signal,
    LineKind::Undo,
];

/// Where lines that stand there are, in words.
pub fn stand_phrase(stand: Stand) -> &'static str {
    match stand {
        Stand::Top => "at the top, outside graphs and actions",
        Stand::Graph => "in a graph",
        Stand::Action => "in an action",
        Stand::Program => "in a body or a handler of an action",
        Stand::Body => "in a body of an action",
        Stand::Block => "at the end of a graph or an action",
    }
}

/// The section of the next line, in words.
pub fn section_phrase(section: Section) -> &'static str {
    match section {
        Section::Top => "here is the top of the script, outside graphs and actions",
        Section::Graph => "here is the inside of the graph ",
        Section::Action => "here is the inside of the action ",
        Section::Body => "here is a body of the action ",
        Section::Handler => "here is a handler of the action ",
    }
}

/// Whether a section is a body or a handler.
pub fn in_steps(section: Section) -> bool {
    matches!(section, Section::Body | Section::Handler)
}

/// Where the next line stands after one that says this.
pub fn section_of(alloc: Global, section: Section, form: &Form) -> Result<Section, OutOfMemory> {
    Ok(form.wording(alloc)?.kind.goes_to(section))
}

/// Where the line stands that comes after those of an open block.
pub fn section_after(alloc: Global, block: &[Line]) -> Result<Section, OutOfMemory> {
    let mut section = Section::Top;
    for line in block {
        section = section_of(alloc, section, &line.form)?;
    }
    Ok(section)
}

/// What a word after the first is asked to be, where so many stand between.
pub fn kind_part(kind: LineKind, index: usize) -> Part {
    kind.parts()
        .get(index)
        .copied()
        .unwrap_or(Part::Name(Naming::Further))
}

// ---- how the manual writes a line

/// What the manual calls a name that is declared as this, where so many words stand between it and the first.
fn sort_word(kind: LineKind, index: usize, sort: Sort) -> &'static str {
    match sort {
        Sort::Participant => "PARTICIPANT",
        Sort::Object => "OBJECT",
        Sort::Graph => "GRAPH",
        Sort::Action => "ACTION",
        Sort::Role => "ROLE",
        Sort::Nest => "NEST",
        Sort::Own if index > 0 => "LOWER",
        Sort::Own => "UPPER",
        Sort::Inner if matches!(kind, LineKind::Map) => "UPPER",
        Sort::Inner | Sort::Outer => "EXCEPTION",
        Sort::Told(_) => "LOWER",
    }
}

/// What the manual calls a name.
fn naming_word(kind: LineKind, index: usize, naming: Naming) -> &'static str {
    match naming {
        Naming::New(Sort::Role) => "ROLE",
        Naming::New(_) => "NAME",
        Naming::Used(sort) => sort_word(kind, index, sort),
        Naming::ToldOutside => "LOWER",
        Naming::Further => "..",
    }
}

/// What the manual calls a word after the first, where so many stand between.
pub fn part_word(kind: LineKind, index: usize) -> &'static str {
    match kind_part(kind, index) {
        Part::Name(naming) => naming_word(kind, index, naming),
        Part::Value => "VALUE",
        Part::Count => "COUNT",
        Part::Rounds => "ROUNDS",
        Part::Test => "TEST",
    }
}

/// Adds how a line of a kind is written.
pub fn push_written(page: &mut Page, kind: LineKind) -> Result<(), OutOfMemory> {
    page.say(&[Piece::Word(kind.word())])?;
    for index in 0..kind.parts().len() {
        page.say(&[Piece::Text(" "), Piece::Text(part_word(kind, index))])?;
    }
    if kind.goes_on() {
        page.say(&[Piece::Text(" ..")])?;
    }
    Ok(())
}
