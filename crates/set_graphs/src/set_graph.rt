ghost use Rattle.std.specs.Prelude.{◌≡◌, ◌<◌, ◌≤◌, ◌^◌, ◌↔◌, ℕ, IfOk, IsErrOf, IsOkUnless};
ghost use Rattle.cover_table.specs.Cover.{most_exceptions};
ghost use Rattle.exception_graph.specs.Chains.{IsOrderOf};
ghost use Rattle.set_graphs.specs.Sets.{exception_count, members_of, number_of, pairs_of, size_of, AreNumbered};
ghost use Rattle.set_graphs.specs.SetGraph.{CoversSubsets, JoinsUnions};

use crate::count::count_exceptions;
use crate::pairs::{make_pairs, number_in};
use crate::sets::{Set, make_table};
use cover_table::MOST_EXCEPTIONS;
use exception_graph::{Graph, GraphError};
use std::alloc::{AllocError, Global};
use std::marker::Model;
use thiserror::Error;

/// Why a graph of sets isn't made.
#[derive(Clone, Copy, Debug, PartialEq, Eq, Error)]
pub enum MakeError {
    /// There are more sets than a graph has room for; `count` is their number, and one for universal.
    #[error("{count} exceptions are too many for a graph")]
    TooMany { count: u64 },
    /// No memory was found.
    #[error("out of memory")]
    OutOfMemory,
}

impl From<AllocError> for MakeError {
    ghost use Rattle.set_graphs.specs.declared.set_graph.MakeError.{MakeError};

    ghost from_gives = { λ _ error. error ≡ MakeError.OutOfMemory };

    fn from(_error: AllocError) -> MakeError {
        MakeError::OutOfMemory
    }
}

/// The graph of all sets of a few primitives: a set covers those that are within it.
///
/// A set is an exception by its number: those of fewer members first, so a primitive is the exception of its own number.
/// Number 0 is universal.
#[derive(Drop)]
pub struct SetGraph {
    primitives: u32,
    most: u32,
    table: Vec<Set>,
    graph: Graph,
}

impl Model for SetGraph {
    ghost use Rattle.set_graphs.specs.SetGraph.{SetOrder};
    ghost use Rattle.set_graphs.specs.inner.Kept.{KeepsSets};

    ghost Value = { SetOrder };

    ghost view = { λ g. record { primitives = g.primitives; most = g.most; order = g.graph } };

    ghost invariant = { λ g. KeepsSets g.primitives g.most g.table.items g.graph };
}

impl SetGraph {
    /// The graph of all sets of at most `most` of the primitives from 1 to `primitives`.
    ///
    /// Sets that are too many are refused with the number of exceptions that there would be; nothing else but want of
    /// memory stands in the way.
    pub fn make(alloc: Global, primitives: u32, most: u32) -> Result<SetGraph, MakeError>
        requires some { 0 < primitives }
        requires primitives_fit { primitives < 128 }
        requires some_member { 0 < most }
        requires most_fits { most < 8 }
        ensures made { IfOk result (λ made. (made.primitives ≡ primitives) × (made.most ≡ most)) }
        ensures order { IfOk result (λ made.
            IsOrderOf (exception_count primitives most) (pairs_of primitives most) made.order) }
        ensures too_many { (count : ℕ) → IsErrOf result (MakeError.TooMany count)
            ↔ ((most_exceptions < exception_count primitives most) × (count ≡ exception_count primitives most)) }
        ensures accepted { exception_count primitives most ≤ most_exceptions → IsOkUnless result MakeError.OutOfMemory }
    {
        let count = count_exceptions(primitives, most);
        if count > MOST_EXCEPTIONS as u64 {
            return Err(MakeError::TooMany { count });
        }
        let table = make_table(alloc, primitives, most)?;
        let pairs = make_pairs(alloc, &table, primitives)?;
        match Graph::build(alloc, count as u32, &pairs) {
            Ok(graph) => Ok(SetGraph {
                primitives,
                most,
                table,
                graph,
            }),
            Err(refusal) => match refusal {
                GraphError::OutOfMemory => Err(MakeError::OutOfMemory),
                _ => unreachable!(),
            },
        }
    }

    /// The graph: one set covers another exactly where each member of the other is one of its own, and the least cover
    /// of several is the exception of their union, or universal where no set has so many members.
    pub fn graph(&self) -> &Graph
        ensures value { result.now ≡ self.now.order }
        ensures count { self.now.order.count ≡ exception_count self.now.primitives self.now.most }
        ensures numbered { AreNumbered self.now.primitives self.now.most }
        ensures covers { CoversSubsets self.now.primitives self.now.most result.now }
        ensures least { JoinsUnions self.now.primitives self.now.most result.now }
    {
        &self.graph
    }

    /// The set that an exception stands for: bit i - 1 is primitive i.
    pub fn members(&self, exception: u32) -> Set
        requires some { 0 < exception }
        requires in_range { exception < self.now.order.count }
        ensures value { result ≡ members_of self.now.primitives self.now.most exception }
        ensures back { number_of self.now.primitives self.now.most result ≡ exception }
    {
        self.table[exception as usize]
    }

    /// The exception of a set, or 0 where the set has too many members to have one.
    pub fn number(&self, set: Set) -> u32
        requires some { 0 < set }
        requires primitives { set < 2 ^ self.now.primitives }
        ensures value { result ≡ number_of self.now.primitives self.now.most set }
        ensures back { size_of self.now.primitives set ≤ self.now.most →
            (0 < result) × (result < self.now.order.count) × (members_of self.now.primitives self.now.most result ≡ set) }
        ensures past { self.now.most < size_of self.now.primitives set → result ≡ 0 }
    {
        number_in(&self.table, set)
    }
}
