//! Roles, nested uses and objects that don't fit together.

use crate::looking::{
    action_block, block_name, body_line, entered_by, filled_by, first_line, nest_roles,
    nested_action, objects_of, roles_of, use_line,
};
use crate::page::{Page, Piece};
use crate::said_twice::first_repeated;
use crate::scene::Scene;
use action_script::forms::form::Form;
use caa_base::written::entry::OutOfMemory;

// ---- too few or too many

/// Tells how many names there are for the roles of an action.
fn tell_count(
    scene: &Scene,
    action: u32,
    filled: usize,
    who: &'static str,
    notes: &mut Page,
) -> Result<(), OutOfMemory> {
    let block = action_block(scene.before, action);
    let roles = roles_of(block);
    notes.note(&[
        Piece::Number(filled as u64),
        Piece::Text(who),
        Piece::Number(roles.len() as u64),
        Piece::Text(" roles: the action "),
        Piece::Named(action),
        Piece::Text(" (line "),
        Piece::Number(u64::from(first_line(block))),
        Piece::Text(") has the roles "),
        Piece::List(roles),
    ])
}

/// Where the carets stand under a list that begins with this word: at the first that is too many, or behind the line.
fn end_of_list(first: usize, filled: usize, wanted: usize) -> usize {
    first.saturating_add(filled.min(wanted))
}

/// Tells how many roles are filled, and gives the number of a word in the line.
pub fn tell_unfilled(scene: &Scene, form: &Form, notes: &mut Page) -> Result<usize, OutOfMemory> {
    match form {
        Form::Play(action, who) => {
            tell_count(scene, *action, who.len(), " names for ", notes)?;
            let wanted = roles_of(action_block(scene.before, *action)).len();
            Ok(end_of_list(2, who.len(), wanted))
        }
        Form::Nest(_, action, roles) => {
            tell_count(scene, *action, roles.len(), " names for ", notes)?;
            let wanted = roles_of(action_block(scene.before, *action)).len();
            Ok(end_of_list(3, roles.len(), wanted))
        }
        Form::Alternate(nest, action) => {
            let filled = nest_roles(scene.block, *nest);
            let who = " roles fill the nested use, and here are ";
            tell_count(scene, *action, filled.len(), who, notes)?;
            notes.note(&[
                Piece::Text("all actions of the nested use "),
                Piece::Named(*nest),
                Piece::Text(" are played by "),
                Piece::List(filled),
            ])?;
            Ok(2)
        }
        _ => {
            notes.note(&[
                Piece::Text("the action "),
                Piece::Named(block_name(scene.block).unwrap_or(scene.universal)),
                Piece::Text(" ends here and has no roles: write a `roles` line below its line "),
                Piece::Number(u64::from(first_line(scene.block))),
            ])?;
            Ok(0)
        }
    }
}

// ---- two roles for one

/// Tells that somebody is given these two roles of an action.
fn tell_two_roles(
    name: u32,
    action: u32,
    first: u32,
    second: u32,
    notes: &mut Page,
) -> Result<(), OutOfMemory> {
    notes.note(&[
        Piece::Text("`"),
        Piece::Named(name),
        Piece::Text("` is given two roles of "),
        Piece::Named(action),
        Piece::Text(", "),
        Piece::Named(first),
        Piece::Text(" and "),
        Piece::Named(second),
        Piece::Text(", and nobody can be in two roles at once"),
    ])
}

/// Tells who is given two roles of an action.
fn tell_doubled(
    scene: &Scene,
    action: u32,
    names: &[u32],
    notes: &mut Page,
) -> Result<usize, OutOfMemory> {
    let Some(index) = first_repeated(names) else {
        return Ok(0);
    };
    let name = names.get(index).copied().unwrap_or(scene.universal);
    let earlier = names.iter().position(|other| *other == name).unwrap_or(0);
    let roles = roles_of(action_block(scene.before, action));
    let first = roles.get(earlier).copied().unwrap_or(scene.universal);
    let second = roles.get(index).copied().unwrap_or(scene.universal);
    tell_two_roles(name, action, first, second, notes)?;
    notes.note(&[
        Piece::Text("the names stand in the order of the roles "),
        Piece::List(roles),
    ])?;
    Ok(index)
}

/// Tells who is given two roles, and gives the number of a word in the line.
pub fn tell_role_twice(scene: &Scene, form: &Form, notes: &mut Page) -> Result<usize, OutOfMemory> {
    if let Form::Play(action, who) = form {
        let index = tell_doubled(scene, *action, who.as_slice(), notes)?;
        return Ok(index.saturating_add(2));
    }
    if let Form::Nest(_, action, roles) = form {
        let index = tell_doubled(scene, *action, roles.as_slice(), notes)?;
        return Ok(index.saturating_add(3));
    }
    Ok(0)
}

// ---- nested uses

/// Tells of a role what it has to enter and what it enters, where these differ.
fn tell_entering(scene: &Scene, role: u32, notes: &mut Page) -> Result<(), OutOfMemory> {
    let wanted = filled_by(scene.alloc, scene.block, role)?;
    let found = entered_by(scene.alloc, scene.block, role)?;
    if wanted.as_slice() == found.as_slice() {
        return Ok(());
    }
    notes.say(&[
        Piece::Text("  = role "),
        Piece::Named(role),
        Piece::Text(" has to enter "),
        Piece::List(&wanted),
    ])?;
    notes.say(&[Piece::Text(" and enters "), Piece::List(&found)])?;
    match body_line(scene.block, role) {
        Some(line) => notes.say(&[
            Piece::Text(" (its body begins with line "),
            Piece::Number(u64::from(line)),
            Piece::Text(")\n"),
        ]),
        None => notes.say(&[Piece::Text(" (it has no body)\n")]),
    }
}

/// Tells which roles of an action that ends don't enter what they fill.
pub fn tell_entrances(scene: &Scene, notes: &mut Page) -> Result<usize, OutOfMemory> {
    for role in roles_of(scene.block) {
        tell_entering(scene, *role, notes)?;
    }
    notes.note(&[Piece::Text(
        "a role enters each nested use that it fills, once, in the order of the `nest` lines",
    )])?;
    Ok(0)
}

// ---- objects

/// The objects of a nested action that the open action doesn't use.
fn lacking(scene: &Scene, action: u32) -> Result<Vec<u32>, OutOfMemory> {
    let mut names = Vec::new(scene.alloc);
    let held = objects_of(scene.block);
    for object in objects_of(action_block(scene.before, action)) {
        if !held.contains(object) {
            names.push(*object)?;
        }
    }
    Ok(names)
}

/// Tells which objects the open action uses.
fn tell_held(scene: &Scene, notes: &mut Page) -> Result<(), OutOfMemory> {
    let held = objects_of(scene.block);
    let action = block_name(scene.block).unwrap_or(scene.universal);
    if !held.is_empty() {
        return notes.note(&[
            Piece::Text("the action "),
            Piece::Named(action),
            Piece::Text(" uses "),
            Piece::List(held),
            Piece::Text(": write what is missing into its `use` line"),
        ]);
    }
    match use_line(action_block(scene.lines, action)) {
        Some(line) => notes.note(&[
            Piece::Text("the `use` line of the action "),
            Piece::Named(action),
            Piece::Text(" is line "),
            Piece::Number(u64::from(line)),
            Piece::Text(", and has to stand above this one"),
        ]),
        None => notes.note(&[
            Piece::Text("the action "),
            Piece::Named(action),
            Piece::Text(" has no `use` line: write one above this line"),
        ]),
    }
}

/// Tells which object isn't held, and gives the number of a word in the line.
pub fn tell_not_held(scene: &Scene, form: &Form, notes: &mut Page) -> Result<usize, OutOfMemory> {
    let word = match form {
        Form::Nest(_, action, _) | Form::Alternate(_, action) => {
            let names = lacking(scene, *action)?;
            notes.note(&[
                Piece::Text("the action "),
                Piece::Named(*action),
                Piece::Text(" uses objects that the action round it doesn't use: "),
                Piece::List(&names),
            ])?;
            2
        }
        Form::ReadStep(object) | Form::PutStep(object, _) | Form::AddStep(object, _) => {
            notes.note(&[
                Piece::Text("the object "),
                Piece::Named(*object),
                Piece::Text(" isn't among those that the action uses"),
            ])?;
            1
        }
        _ => 0,
    };
    tell_held(scene, notes)?;
    Ok(word)
}

/// The first action of a nested use of the open action.
pub fn first_action(scene: &Scene, nest: u32) -> u32 {
    nested_action(scene.block, nest).unwrap_or(scene.universal)
}
