//! Where each node of a graph is drawn.

ghost use Rattle.std.specs.Prelude.{◌≡◌, ◌+◌, ◌*◌, ◌^◌, ◌<◌, ◌≤◌, ℕ, length, map, slice_index_or, IfOk, IfErr};
ghost use Rattle.std.specs.List.{All};
ghost use Rattle.graph_drawing.specs.declared.edges.DrawError.TheVariants as error;
ghost use Rattle.graph_drawing.specs.Layers.{IsWithin, GoesDown, RingedOnlyWhere};
ghost use Rattle.graph_drawing.specs.declared.spots.Spot.{Spot as SpotValue};
ghost use Rattle.graph_drawing.specs.Spots.{end_at, EndsBy, AreApart};

use crate::edges::{DrawError, Edge};
use crate::layers::layers_of;
use std::alloc::Global;

/// Where a node is drawn: in which layer, counted from 1 downwards, how far from the left it begins, and how wide it is.
#[derive(Clone, Copy, Debug, PartialEq, Eq)]
pub struct Spot {
    pub layer: usize,
    pub left: u64,
    pub width: u64,
}

/// How far the nodes of a layer are apart.
pub const GAP: u64 = 20;

/// How far to the right the nodes of a layer reach.
fn reach_of(spots: &[Spot], layer: usize) -> u64
    requires { EndsBy spots.now (2 ^ 60) }
    ensures past { (k : ℕ) (d : SpotValue) → k < length spots.now → (slice_index_or spots.now k d).layer ≡ layer → end_at spots.now k d ≤ result }
    ensures least { (bound : ℕ) → EndsBy spots.now bound → result ≤ bound }
{
    let mut reach = 0;
    for spot in spots {
        let end = spot.left + spot.width;
        if spot.layer == layer && reach < end {
            reach = end;
        }
    }
    reach
}

/// A spot for each node: those of a layer stand beside one another, in the order of the nodes.
fn spots_of(alloc: Global, layers: &[usize], widths: &[u64]) -> Result<Vec<Spot>, DrawError>
    requires same { length widths.now ≡ length layers.now }
    requires few { length layers.now < 2 ^ 20 }
    requires narrow { All (λ w. w < 2 ^ 20) widths.now }
    ensures layers { IfOk result (λ spots. map (λ s. s.layer) spots.items ≡ layers.now) }
    ensures widths { IfOk result (λ spots. map (λ s. s.width) spots.items ≡ widths.now) }
    ensures apart { IfOk result (λ spots. AreApart spots.items) }
    ensures memory { IfErr result (λ e. e ≡ error.OutOfMemory) }
{
    let mut spots = Vec::new(alloc);
    for (node, width) in widths.iter().enumerate() {
        let layer = layers[node];
        spots.push(Spot {
            layer,
            left: reach_of(&spots, layer) + GAP,
            width: *width,
        })?;
    }
    Ok(spots)
}

/// Draws a graph of so many nodes as there are widths: a spot for each node, as wide as it is; each edge leads from a layer down to a
/// lower one, and nodes of a layer don't overlap. Where some edges lead round in a ring, there is no such drawing.
pub fn draw(alloc: Global, widths: &[u64], edges: &[Edge]) -> Result<Vec<Spot>, DrawError>
    requires within { All (IsWithin (length widths.now)) edges.now }
    requires few { length widths.now < 2 ^ 20 }
    requires narrow { All (λ w. w < 2 ^ 20) widths.now }
    ensures nodes { IfOk result (λ spots. map (λ s. s.width) spots.items ≡ widths.now) }
    ensures down { IfOk result (λ spots. All (GoesDown (map (λ s. s.layer) spots.items)) edges.now) }
    ensures apart { IfOk result (λ spots. AreApart spots.items) }
    ensures ringed { IfErr result (RingedOnlyWhere edges.now) }
{
    let layers = layers_of(alloc, widths.len(), edges)?;
    spots_of(alloc, &layers, widths)
}

#[cfg(test)]
mod tests {
    use super::*;
    use std::test::Fail;

    #[test]
    fn a_cover_stands_above_what_it_covers(rt: HostRuntime) -> Result<(), Fail> {
        let edges = [
            Edge { upper: 0, lower: 1 },
            Edge { upper: 0, lower: 2 },
            Edge { upper: 2, lower: 1 },
        ];
        let spots = draw(rt.alloc(), &[50, 30, 40], &edges)?;
        let layers: Vec<usize> = spots.iter().map(|spot| spot.layer).collect(rt.alloc())?;
        assert_eq!(rt; layers.as_slice(), [1, 3, 2].as_slice());
        Ok(())
    }

    #[test]
    fn a_ring_has_no_layers(rt: HostRuntime) -> Result<(), Fail> {
        let edges = [Edge { upper: 0, lower: 1 }, Edge { upper: 1, lower: 0 }];
        assert_eq!(rt;
            draw(rt.alloc(), &[50, 30], &edges).err(),
            Some(DrawError::Ringed)
        );
        Ok(())
    }
}
