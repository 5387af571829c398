//! The graphs of a script, drawn in layers, as data of a page: for each a title, its nodes and its edges.

ghost use Rattle.std.specs.Prelude.{◌<◌, ◌^◌, length, IsTrue};
ghost use Rattle.std.specs.List.{All};
ghost use Rattle.graph_drawing.specs.Layers.{IsWithin};

use action_script::forms::form::Form;
use action_script::forms::script::Script;
use caa_base::written::entry::OutOfMemory;
use caa_base::written::name::name_at;
use graph_drawing::edges::{DrawError, Edge};
use graph_drawing::spots::{Spot, draw};
use page_text::parts::Part;
use script_views::covers::covers_of;
use script_views::looking::{action_block, exceptions_of, graph_block, roles_of};
use script_views::page::{Page, Piece};
use std::alloc::Global;

/// An edge of a graph of a script: from one name down to another.
#[derive(Clone, Copy)]
struct Link {
    upper: u32,
    lower: u32,
    is_dashed: bool,
    /// The name that stands beside it; one past all names where none does.
    label: u32,
}

/// A graph of a script: what it is called, the names that are its nodes, and its edges.
#[derive(Drop)]
struct Drawn {
    title: Vec<u8>,
    nodes: Vec<u32>,
    links: Vec<Link>,
    /// Whether the nodes are actions, which have their roles below their names.
    has_roles: bool,
}

/// The name of a number; `universal` needn't be among the names.
fn name_of(script: &Script, number: u32) -> &[u8] {
    let name = name_at(script.names(), number);
    if name.is_empty() { b"universal" } else { name }
}

/// The graph of exceptions of this name.
fn exceptions_drawn(alloc: Global, script: &Script, graph: u32) -> Result<Drawn, OutOfMemory> {
    let block = graph_block(script.lines(), graph);
    let mut nodes = exceptions_of(alloc, block)?;
    let covers = covers_of(alloc, block)?;
    let mut links = Vec::new(alloc);
    for cover in &covers {
        links.push(Link {
            upper: cover.upper,
            lower: cover.lower,
            is_dashed: false,
            label: u32::MAX,
        })?;
    }
    for name in &nodes {
        if !covers.iter().any(|cover| cover.lower == *name) {
            links.push(Link {
                upper: script.universal(),
                lower: *name,
                is_dashed: true,
                label: u32::MAX,
            })?;
        }
    }
    nodes.insert(0, script.universal())?;
    let mut page = Page::new(alloc, script.names());
    page.say(&[Piece::Text("graph "), Piece::Named(graph)])?;
    Ok(Drawn {
        title: page.into_text(),
        nodes,
        links,
        has_roles: false,
    })
}

/// The actions, and what each nests.
fn actions_drawn(alloc: Global, script: &Script) -> Result<Drawn, OutOfMemory> {
    let mut nodes = Vec::new(alloc);
    let mut links = Vec::new(alloc);
    let mut outer = script.universal();
    for line in script.lines() {
        match &line.form {
            Form::Action(action) => {
                outer = *action;
                nodes.push(outer)?;
            }
            Form::Nest(nest, nested, _) => links.push(Link {
                upper: outer,
                lower: *nested,
                is_dashed: false,
                label: *nest,
            })?,
            Form::Alternate(nest, nested) => links.push(Link {
                upper: outer,
                lower: *nested,
                is_dashed: true,
                label: *nest,
            })?,
            _ => {}
        }
    }
    Ok(Drawn {
        title: Vec::from_slice(alloc, b"actions, and what they nest")?,
        nodes,
        links,
        has_roles: true,
    })
}

/// Where a name is among the nodes.
fn index_of(nodes: &[u32], name: u32) -> Option<usize> {
    nodes.iter().position(|node| *node == name)
}

/// The edges between nodes, by their places.
fn edges_of(alloc: Global, drawn: &Drawn) -> Result<Vec<Edge>, OutOfMemory> {
    let mut edges = Vec::new(alloc);
    for link in drawn.links.iter() {
        let upper = index_of(&drawn.nodes, link.upper);
        let lower = index_of(&drawn.nodes, link.lower);
        if let (Some(upper), Some(lower)) = (upper, lower) {
            edges.push(Edge { upper, lower })?;
        }
    }
    Ok(edges)
}

/// Whether both ends of each edge are among so many nodes.
fn are_within(edges: &[Edge], count: usize) -> bool
    ensures { IsTrue result → All (IsWithin count) edges.now }
{
    for edge in edges {
        if edge.upper >= count || edge.lower >= count {
            return false;
        }
    }
    true
}

/// Whether there are few enough nodes, and each is narrow enough, to be drawn.
fn are_narrow(widths: &[u64]) -> bool
    ensures few { IsTrue result → length widths.now < 2 ^ 20 }
    ensures narrow { IsTrue result → All (λ w. w < 2 ^ 20) widths.now }
{
    for width in widths {
        if *width >= 1 << 20 {
            return false;
        }
    }
    widths.len() < 1 << 20
}

/// Where each node is drawn; none where the graph can't be drawn.
fn spots(alloc: Global, drawn: &Drawn, widths: &[u64]) -> Result<Option<Vec<Spot>>, OutOfMemory> {
    let edges = edges_of(alloc, drawn)?;
    if !are_within(&edges, widths.len()) || !are_narrow(widths) {
        return Ok(None);
    }
    match draw(alloc, widths, &edges) {
        Ok(spots) => Ok(Some(spots)),
        Err(DrawError::Ringed) => Ok(None),
        Err(DrawError::OutOfMemory) => Err(OutOfMemory),
    }
}

/// The roles of an action, with a space between each two.
fn roles_text(alloc: Global, script: &Script, action: u32) -> Result<Vec<u8>, OutOfMemory> {
    let mut page = Page::new(alloc, script.names());
    page.say(&[Piece::List(roles_of(action_block(script.lines(), action)))])?;
    Ok(page.into_text())
}

/// How wide a letter is, about.
const LETTER: usize = 8;

/// How wide a node is beside its words.
const MARGIN: usize = 20;

/// How wide a node with these words is.
fn width_of(label: &[u8], more: &[u8]) -> u64 {
    let letters = label.len().max(more.len());
    letters.saturating_mul(LETTER).saturating_add(MARGIN) as u64
}

/// What stands in a node below its name.
fn more_of(
    alloc: Global,
    script: &Script,
    drawn: &Drawn,
    node: u32,
) -> Result<Vec<u8>, OutOfMemory> {
    if drawn.has_roles {
        roles_text(alloc, script, node)
    } else {
        Ok(Vec::new(alloc))
    }
}

/// How wide each node is.
fn widths_of(alloc: Global, script: &Script, drawn: &Drawn) -> Result<Vec<u64>, OutOfMemory> {
    let mut widths = Vec::new(alloc);
    for node in drawn.nodes.iter() {
        let more = more_of(alloc, script, drawn, *node)?;
        widths.push(width_of(name_of(script, *node), &more))?;
    }
    Ok(widths)
}

/// Adds the nodes where they are drawn.
fn push_nodes(
    alloc: Global,
    parts: &mut Vec<Part>,
    script: &Script,
    drawn: &Drawn,
    spots: &[Spot],
) -> Result<(), OutOfMemory> {
    for (spot, node) in spots.iter().zip(drawn.nodes.iter()) {
        parts.push(Part::Open)?;
        for number in [spot.layer as u64, spot.left, spot.width] {
            parts.push(Part::Number(number))?;
        }
        let label = Vec::from_slice(alloc, name_of(script, *node))?;
        parts.push(Part::Text(label))?;
        parts.push(Part::Text(more_of(alloc, script, drawn, *node)?))?;
        parts.push(Part::Close)?;
    }
    Ok(())
}

/// Adds the edges.
fn push_links(
    alloc: Global,
    parts: &mut Vec<Part>,
    script: &Script,
    drawn: &Drawn,
) -> Result<(), OutOfMemory> {
    for link in drawn.links.iter() {
        let upper = index_of(&drawn.nodes, link.upper);
        let lower = index_of(&drawn.nodes, link.lower);
        if let (Some(upper), Some(lower)) = (upper, lower) {
            parts.push(Part::Open)?;
            for number in [upper, lower, usize::from(link.is_dashed)] {
                parts.push(Part::Number(number as u64))?;
            }
            parts.push(Part::Text(Vec::from_slice(alloc, name_at(script.names(), link.label))?))?;
            parts.push(Part::Close)?;
        }
    }
    Ok(())
}

/// Adds a graph, if it can be drawn.
fn push_drawn(
    alloc: Global,
    parts: &mut Vec<Part>,
    script: &Script,
    drawn: Drawn,
) -> Result<(), OutOfMemory> {
    let widths = widths_of(alloc, script, &drawn)?;
    let Some(spots) = spots(alloc, &drawn, &widths)? else {
        return Ok(());
    };
    parts.push(Part::Open)?;
    parts.push(Part::Text(Vec::from_slice(alloc, &drawn.title)?))?;
    parts.push(Part::Open)?;
    push_nodes(alloc, parts, script, &drawn, &spots)?;
    parts.push(Part::Close)?;
    parts.push(Part::Open)?;
    push_links(alloc, parts, script, &drawn)?;
    parts.push(Part::Close)?;
    parts.push(Part::Close)?;
    Ok(())
}

/// Adds the list of the graphs of a script: its graphs of exceptions, and its actions with what each nests.
pub fn push_graphs(
    alloc: Global,
    parts: &mut Vec<Part>,
    script: &Script,
) -> Result<(), OutOfMemory> {
    parts.push(Part::Open)?;
    push_drawn(alloc, parts, script, actions_drawn(alloc, script)?)?;
    for line in script.lines() {
        if let Form::Graph(graph) = &line.form {
            let drawn = exceptions_drawn(alloc, script, *graph)?;
            push_drawn(alloc, parts, script, drawn)?;
        }
    }
    parts.push(Part::Close)?;
    Ok(())
}
