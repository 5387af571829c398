//! In which layer each node of a graph stands.

ghost use Rattle.std.specs.Prelude.{◌≡◌, ◌+◌, ◌<◌, ◌≤◌, ℕ, false, length, slice_index, IfOk, IfErr, IfSome, IfNone, if◌then◌else◌};
ghost use Rattle.std.specs.List.{All, list_any};
ghost use Rattle.graph_drawing.specs.Layers.{IsWithin, GoesDown, MayGoDown, RingedOnlyWhere, unset, holds_back, is_free, next_layer};
ghost use Rattle.graph_drawing.specs.declared.edges.DrawError.TheVariants as error;

use crate::edges::{DrawError, Edge};
use std::alloc::Global;

/// The layer of a node; 0 where it has none.
fn layer_at(layers: &[usize], node: usize) -> usize
    ensures { result ≡ slice_index layers.now node }
{
    match layers.get(node) {
        Some(layer) => *layer,
        None => 0,
    }
}

/// Whether an edge leads down to a node from one that has no layer yet.
fn is_held(layers: &[usize], edges: &[Edge], node: usize) -> bool
    ensures { result ≡ list_any (holds_back layers.now node) edges.now }
{
    edges.iter().any(|edge| edge.lower == node && layer_at(layers, edge.upper) == 0)
}

/// Whether a node can be given a layer: it has none yet, and each node above it has one.
fn is_free(layers: &[usize], edges: &[Edge], node: usize) -> bool
    ensures { result ≡ is_free layers.now edges.now node }
{
    layer_at(layers, node) == 0 && !is_held(layers, edges, node)
}

/// Gives this layer to all nodes that can have one; tells whether there was any.
fn settle(
    alloc: Global,
    layers: &[usize],
    edges: &[Edge],
    layer: usize,
) -> Result<(Vec<usize>, bool), DrawError>
    requires { 0 < layer }
    ensures size { IfOk result (λ r. length r.0.items ≡ length layers.now) }
    ensures each { IfOk result (λ r. (n : ℕ) → n < length layers.now → slice_index r.0.items n ≡ next_layer layers.now edges.now layer n) }
    ensures memory { IfErr result (λ e. e ≡ error.OutOfMemory) }
    ensures fewer { IfOk result (λ r. unset r.0.items + (if r.1 then 1 else 0) ≤ unset layers.now) }
    ensures stuck { IfOk result (λ r. r.1 ≡ false → (n : ℕ) → n < length layers.now → is_free layers.now edges.now n ≡ false) }
{
    let mut next = Vec::new(alloc);
    let mut any = false;
    for (node, old) in layers.iter().enumerate() {
        if is_free(layers, edges, node) {
            next.push(layer)?;
            any = true;
        } else {
            next.push(*old)?;
        }
    }
    Ok((next, any))
}

/// The first node without a layer.
fn first_unset(layers: &[usize]) -> Option<usize>
    ensures found { IfSome result (λ n. (n < length layers.now) × (slice_index layers.now n ≡ 0)) }
    ensures none { IfNone result ((n : ℕ) → n < length layers.now → 0 < slice_index layers.now n) }
{
    for (node, layer) in layers.iter().enumerate() {
        if *layer == 0 {
            return Some(node);
        }
    }
    None
}

/// These layers, once no node can be given one more.
fn finished(layers: Vec<usize>, edges: &[Edge]) -> Result<Vec<usize>, DrawError>
    requires within { All (IsWithin (length layers.items)) edges.now }
    requires kept { All (MayGoDown layers.items) edges.now }
    requires stuck { (n : ℕ) → n < length layers.items → is_free layers.items edges.now n ≡ false }
    ensures same { IfOk result (λ r. r.items ≡ layers.items) }
    ensures down { IfOk result (λ r. All (GoesDown r.items) edges.now) }
    ensures ringed { IfErr result (RingedOnlyWhere edges.now) }
{
    match first_unset(&layers) {
        Some(_) => Err(DrawError::Ringed),
        None => Ok(layers),
    }
}

/// A layer for each of so many nodes, counted from 1, so that each edge leads down from a layer to a lower one, and each node stands
/// as high as its edges let it. Where some edges lead round in a ring, there are no such layers.
pub fn layers_of(alloc: Global, count: usize, edges: &[Edge]) -> Result<Vec<usize>, DrawError>
    requires { All (IsWithin count) edges.now }
    ensures size { IfOk result (λ layers. length layers.items ≡ count) }
    ensures down { IfOk result (λ layers. All (GoesDown layers.items) edges.now) }
    ensures ringed { IfErr result (RingedOnlyWhere edges.now) }
{
    let mut layers = vec![in alloc; 0; count]?;
    for settled in 0..count {
        let (next, any) = settle(alloc, &layers, edges, settled + 1)?;
        if !any {
            return finished(layers, edges);
        }
        layers = next;
    }
    finished(layers, edges)
}
