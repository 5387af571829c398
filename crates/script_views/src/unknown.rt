//! A name that isn't declared above.

ghost use Rattle.std.specs.Prelude.{IfOk};
ghost use Rattle.script_views.specs.Views.{TellsUndeclared};

use crate::looking::{
    action_block, begins_block, block_name, first_line, graph_block, interface_line, internal_line,
    nested_action,
};
use crate::page::{Page, Piece};
use crate::scene::Scene;
use crate::shapes::kind_part;
use action_script::forms::form::Form;
use action_script::forms::uses::{SortedWord, first_undeclared, fitting, naming_by};
use action_script::lines::field::Field;
use action_script::lines::sort::{Naming, Sort};
use caa_base::written::entry::OutOfMemory;
use script_checker::action::named::face_of;
use script_checker::declared::{Block, Declared, SoFar};
use std::alloc::Global;

/// How many names are listed at most.
const MOST_CHOICES: usize = 40;

/// A name of a line that isn't declared as it has to be, and the names that are, up to the last of the script.
#[derive(Drop)]
pub struct Undeclared {
    pub used: SortedWord,
    pub fitting: Vec<u32>,
}

/// The first name that a line uses which isn't declared as it has to be, with those up to this number that are; none where each
/// name is. This was declared when the line came.
pub fn undeclared_at(
    alloc: Global,
    so_far: &SoFar,
    form: &Form,
    last: u32,
) -> Result<Option<Undeclared>, OutOfMemory>
    ensures { IfOk result (TellsUndeclared so_far.now form.now last) }
{
    let Some(used) = first_undeclared(alloc, so_far, form)? else {
        return Ok(None);
    };
    let names = fitting(alloc, so_far, used.sort, last)?;
    Ok(Some(Undeclared {
        used,
        fitting: names,
    }))
}

// ---- the graph that is asked for

/// The name of the graph of this number; none for the plain one.
pub fn graph_name(declared: &Declared, number: u32) -> Option<u32> {
    let index = number.checked_sub(1)?;
    declared.graph_names.items().get(index as usize).copied()
}

/// The graph of the exceptions that are asked for, where one is named.
fn graph_asked(so_far: &SoFar, sort: Sort) -> Option<u32> {
    let Block::Action(action) = &so_far.block else {
        return None;
    };
    let declared = &so_far.declared;
    match sort {
        Sort::Inner => graph_name(declared, action.internal?),
        Sort::Outer => graph_name(declared, action.interface?),
        Sort::Told(nest) => graph_name(declared, face_of(declared, action, nest)),
        Sort::Participant
        | Sort::Object
        | Sort::Graph
        | Sort::Action
        | Sort::Role
        | Sort::Nest
        | Sort::Own => None,
    }
}

// ---- what is told

/// The line that names the graph which is asked for, where it stands below.
fn graph_line_below(scene: &Scene, sort: Sort) -> Option<u32> {
    let action = block_name(scene.block)?;
    let block = action_block(scene.lines, action);
    match sort {
        Sort::Inner => internal_line(block),
        Sort::Outer => interface_line(block),
        Sort::Participant
        | Sort::Object
        | Sort::Graph
        | Sort::Action
        | Sort::Role
        | Sort::Nest
        | Sort::Own
        | Sort::Told(_) => None,
    }
}

/// Tells of an exception that no graph is named above of which it would have to be.
fn tell_no_graph(
    scene: &Scene,
    notes: &mut Page,
    sort: Sort,
    whose: &'static str,
    owner: u32,
) -> Result<(), OutOfMemory> {
    notes.note(&[
        Piece::Text("here an exception is wanted of "),
        Piece::Text(whose),
        Piece::Named(owner),
        Piece::Text(", for which no graph is named above: so it has universal alone"),
    ])?;
    match graph_line_below(scene, sort) {
        Some(line) => notes.note(&[
            Piece::Text("line "),
            Piece::Number(u64::from(line)),
            Piece::Text(" names the graph, and has to stand above this line"),
        ]),
        None => Ok(()),
    }
}

/// Tells of an exception which graph is meant.
fn tell_graph(
    scene: &Scene,
    so_far: &SoFar,
    notes: &mut Page,
    wanted: SortedWord,
    whose: &'static str,
    owner: u32,
) -> Result<(), OutOfMemory> {
    let Some(graph) = graph_asked(so_far, wanted.sort) else {
        return tell_no_graph(scene, notes, wanted.sort, whose, owner);
    };
    notes.note(&[
        Piece::Text("`"),
        Piece::Named(wanted.name),
        Piece::Text("` is no exception of the graph "),
        Piece::Named(graph),
        Piece::Text(" (line "),
        Piece::Number(u64::from(first_line(graph_block(scene.before, graph)))),
        Piece::Text("), which is "),
        Piece::Text(whose),
        Piece::Named(owner),
    ])
}

/// Tells that a name isn't what it is asked to be.
fn tell_kind(
    notes: &mut Page,
    name: u32,
    kind: &'static str,
    owner: u32,
) -> Result<(), OutOfMemory> {
    notes.note(&[
        Piece::Text("`"),
        Piece::Named(name),
        Piece::Text("` is no "),
        Piece::Text(kind),
        Piece::Named(owner),
    ])
}

/// The same for a name that no block owns.
fn tell_top(notes: &mut Page, name: u32, kind: &'static str) -> Result<(), OutOfMemory> {
    notes.note(&[
        Piece::Text("`"),
        Piece::Named(name),
        Piece::Text("` is no "),
        Piece::Text(kind),
        Piece::Text(" above"),
    ])
}

/// Tells what is wrong with a name.
fn tell_wanted(
    scene: &Scene,
    so_far: &SoFar,
    notes: &mut Page,
    wanted: SortedWord,
) -> Result<(), OutOfMemory> {
    let name = wanted.name;
    let owner = block_name(scene.block).unwrap_or(scene.universal);
    match wanted.sort {
        Sort::Participant => tell_top(notes, name, "participant that is declared"),
        Sort::Object => tell_top(notes, name, "object that is declared"),
        Sort::Graph => tell_top(notes, name, "graph that is declared"),
        Sort::Action => tell_top(notes, name, "action that has ended"),
        Sort::Role => tell_kind(notes, name, "role of the action ", owner),
        Sort::Nest => tell_kind(notes, name, "nested use of the action ", owner),
        Sort::Own => tell_kind(notes, name, "exception of the graph ", owner),
        Sort::Inner => {
            tell_graph(
                scene,
                so_far,
                notes,
                wanted,
                "the internal graph of the action ",
                owner,
            )
        }
        Sort::Outer => {
            tell_graph(
                scene,
                so_far,
                notes,
                wanted,
                "the interface graph of the action ",
                owner,
            )
        }
        Sort::Told(nest) => {
            let nested = nested_action(scene.block, nest).unwrap_or(owner);
            tell_graph(
                scene,
                so_far,
                notes,
                wanted,
                "the interface graph of the nested action ",
                nested,
            )
        }
    }
}

/// Some names in the order in which they are listed: `universal` first, where it is among them.
fn in_listed_order(scene: &Scene, names: &[u32]) -> Result<Vec<u32>, OutOfMemory> {
    let mut listed = Vec::new(scene.alloc);
    if names.contains(&scene.universal) {
        listed.push(scene.universal)?;
    }
    for name in names {
        if *name != scene.universal {
            listed.push(*name)?;
        }
    }
    Ok(listed)
}

/// Tells which names would do.
fn tell_choices(
    scene: &Scene,
    notes: &mut Page,
    sort: Sort,
    names: &[u32],
) -> Result<(), OutOfMemory> {
    if names.is_empty() {
        let why = match sort {
            Sort::Role => {
                "no `roles` line stands above this line in the action, so it has no roles"
            }
            Sort::Participant
            | Sort::Object
            | Sort::Graph
            | Sort::Action
            | Sort::Nest
            | Sort::Own
            | Sort::Inner
            | Sort::Outer
            | Sort::Told(_) => "above this line there is none",
        };
        return notes.note(&[Piece::Text(why)]);
    }
    let listed = in_listed_order(scene, names)?;
    let first = listed.get(..MOST_CHOICES).unwrap_or(&listed);
    notes.say(&[Piece::Text("  = here may stand: "), Piece::List(first)])?;
    let more = names.len().saturating_sub(MOST_CHOICES);
    if more > 0 {
        notes.say(&[
            Piece::Text(", and "),
            Piece::Number(more as u64),
            Piece::Text(" more"),
        ])?;
    }
    notes.say(&[Piece::Text("\n")])
}

/// What a line declares a name as, where it declares it.
fn declared_as(alloc: Global, form: &Form, name: u32) -> Result<Option<Sort>, OutOfMemory> {
    let wording = form.wording(alloc)?;
    let mut naming = Naming::Further;
    for (index, field) in wording.fields.iter().enumerate() {
        naming = naming_by(naming, kind_part(wording.kind, index));
        if let (Naming::New(sort), Field::Name(other)) = (naming, field) {
            if *other == name {
                return Ok(Some(sort));
            }
        }
    }
    Ok(None)
}

/// What a name is declared as, in words; those for a part of a block end with a space, where the name of the block follows.
fn sort_phrase(sort: Sort) -> &'static str {
    match sort {
        Sort::Participant => "as a participant",
        Sort::Object => "as an object",
        Sort::Graph => "as a graph",
        Sort::Action => "as an action",
        Sort::Role => "as a role of the action ",
        Sort::Nest => "as a nested use of the action ",
        Sort::Own | Sort::Inner | Sort::Outer | Sort::Told(_) => "as an exception of the graph ",
    }
}

/// The block that is open after a line, by its name.
fn owner_after(owner: Option<u32>, form: &Form) -> Option<u32> {
    if let Form::End = form {
        return None;
    }
    begins_block(form).or(owner)
}

/// Tells a line that declares the name.
fn tell_declaration(
    scene: &Scene,
    notes: &mut Page,
    line: u32,
    kind: &'static str,
    owner: Option<u32>,
) -> Result<(), OutOfMemory> {
    let inside = kind.ends_with(' ');
    notes.say(&[
        Piece::Text("  = line "),
        Piece::Number(u64::from(line)),
        Piece::Text(" declares this name "),
        Piece::Text(kind),
    ])?;
    if let Some(owner) = owner {
        if inside {
            notes.name(owner)?;
        }
    }
    if line > scene.number {
        notes.say(&[Piece::Text(", below: a name is used only below its declaration")])?;
    }
    notes.say(&[Piece::Text("\n")])
}

/// Tells the lines that declare the name as something, at most three.
fn tell_elsewhere(scene: &Scene, notes: &mut Page, name: u32) -> Result<(), OutOfMemory> {
    let mut owner = None;
    let mut told = 0u32;
    for line in scene.lines {
        let inside = owner;
        owner = owner_after(owner, &line.form);
        if let Some(sort) = declared_as(scene.alloc, &line.form, name)? {
            if told < 3 {
                tell_declaration(scene, notes, line.number, sort_phrase(sort), inside)?;
                told += 1;
            }
        }
    }
    Ok(())
}

/// Tells of a name that isn't declared as it has to be which names are, and where it is declared as something else.
pub fn tell_unknown(
    scene: &Scene,
    so_far: &SoFar,
    unknown: &Undeclared,
    notes: &mut Page,
) -> Result<(), OutOfMemory> {
    let wanted = unknown.used;
    tell_wanted(scene, so_far, notes, wanted)?;
    tell_choices(scene, notes, wanted.sort, &unknown.fitting)?;
    tell_elsewhere(scene, notes, wanted.name)?;
    if let Sort::Told(_) = wanted.sort {
        notes.note(&[Piece::Text(
            "`map NEST LOWER UPPER`: LOWER is what the nested action tells outside, and UPPER what is raised for it here",
        )])?;
    }
    if matches!(wanted.sort, Sort::Action) && block_name(scene.block) == Some(wanted.name) {
        notes.note(&[Piece::Text("that action is still open here, and none nests itself")])?;
    }
    Ok(())
}
