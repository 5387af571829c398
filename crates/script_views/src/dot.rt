//! The graphs and the nesting of a script as text for `dot` of graphviz.

use crate::covers::covers_of;
use crate::looking::{action_block, exceptions_of, graph_block, roles_of};
use crate::page::{Page, Piece};
use action_script::forms::form::Form;
use action_script::forms::script::Script;
use caa_base::written::entry::OutOfMemory;
use std::alloc::Global;

/// Adds the node of an exception of a graph.
fn write_exception(page: &mut Page, graph: u32, name: u32) -> Result<(), OutOfMemory> {
    page.say(&[
        Piece::Text("    \""),
        Piece::Named(graph),
        Piece::Text("."),
        Piece::Named(name),
        Piece::Text("\" [label=\""),
        Piece::Named(name),
        Piece::Text("\"];\n"),
    ])
}

/// Adds the edge from an exception down to another.
fn write_cover(
    page: &mut Page,
    graph: u32,
    upper: u32,
    lower: u32,
    style: &'static str,
) -> Result<(), OutOfMemory> {
    page.say(&[
        Piece::Text("    \""),
        Piece::Named(graph),
        Piece::Text("."),
        Piece::Named(upper),
        Piece::Text("\" -> \""),
        Piece::Named(graph),
        Piece::Text("."),
        Piece::Named(lower),
        Piece::Text("\""),
        Piece::Text(style),
        Piece::Text(";\n"),
    ])
}

/// Adds a graph of exceptions. Those that no line covers hang below `universal`, dashed.
fn write_graph(
    alloc: Global,
    page: &mut Page,
    script: &Script,
    graph: u32,
) -> Result<(), OutOfMemory> {
    let block = graph_block(script.lines(), graph);
    let names = exceptions_of(alloc, block)?;
    let covers = covers_of(alloc, block)?;
    page.say(&[
        Piece::Text("  subgraph \"cluster_"),
        Piece::Named(graph),
        Piece::Text("\" {\n    label=\"graph "),
        Piece::Named(graph),
        Piece::Text("\";\n"),
    ])?;
    write_exception(page, graph, script.universal())?;
    for name in &names {
        write_exception(page, graph, *name)?;
    }
    for cover in &covers {
        write_cover(page, graph, cover.upper, cover.lower, "")?;
    }
    for name in &names {
        if !covers.iter().any(|cover| cover.lower == *name) {
            write_cover(page, graph, script.universal(), *name, " [style=dashed]")?;
        }
    }
    page.say(&[Piece::Text("  }\n")])
}

/// Adds the node of an action, with its roles.
fn write_action(page: &mut Page, script: &Script, action: u32) -> Result<(), OutOfMemory> {
    page.say(&[
        Piece::Text("    \""),
        Piece::Named(action),
        Piece::Text("\" [shape=box, label=\"action "),
        Piece::Named(action),
        Piece::Text("\\n"),
        Piece::List(roles_of(action_block(script.lines(), action))),
        Piece::Text("\"];\n"),
    ])
}

/// Adds the edge from an action to one that it nests.
fn write_nest(
    page: &mut Page,
    outer: u32,
    nested: u32,
    nest: u32,
    style: &'static str,
) -> Result<(), OutOfMemory> {
    page.say(&[
        Piece::Text("    \""),
        Piece::Named(outer),
        Piece::Text("\" -> \""),
        Piece::Named(nested),
        Piece::Text("\" [label=\""),
        Piece::Named(nest),
        Piece::Text(style),
        Piece::Text("];\n"),
    ])
}

/// Adds the actions, and what each nests; alternates are dashed.
fn write_actions(page: &mut Page, script: &Script) -> Result<(), OutOfMemory> {
    page.say(&[Piece::Text(
        "  subgraph \"cluster-actions\" {\n    label=\"actions, and what they nest\";\n",
    )])?;
    let mut outer = script.universal();
    for line in script.lines() {
        if let Form::Action(action) = &line.form {
            outer = *action;
            write_action(page, script, outer)?;
        }
        if let Form::Nest(nest, nested, _) = &line.form {
            write_nest(page, outer, *nested, *nest, "\"")?;
        }
        if let Form::Alternate(nest, nested) = &line.form {
            write_nest(page, outer, *nested, *nest, ", else\", style=dashed")?;
        }
    }
    page.say(&[Piece::Text("  }\n")])
}

/// The graphs of exceptions of a script, from each exception down to those that it covers, and its actions, from each down to
/// those that it nests.
pub fn dot(alloc: Global, script: &Script) -> Result<Vec<u8>, OutOfMemory> {
    let mut page = Page::new(alloc, script.names());
    page.say(&[Piece::Text("digraph script {\n")])?;
    for line in script.lines() {
        if let Form::Graph(graph) = &line.form {
            write_graph(alloc, &mut page, script, *graph)?;
        }
    }
    write_actions(&mut page, script)?;
    page.say(&[Piece::Text("}\n")])?;
    Ok(page.into_text())
}
