ghost use Rattle.std.specs.Prelude.{◌≡◌, ◌<◌, ◌≤◌, ◌↔◌, ℕ, List, length, All, IfOk, IfErr, OnOk, IsErrOf, IsOkUnless};
ghost use Rattle.cover_table.specs.Cover.{CoverOrder, IsLeastCover, IsSound, SetsHaveLeastCovers, covers, most_exceptions};
ghost use Rattle.exception_graph.specs.Chains.{IsFirstInCycle, IsFirstUnjoined, IsOrderOf, IsSoundGraph};
ghost use Rattle.exception_graph.specs.Graph.{HasUniversal};
ghost use Rattle.exception_graph.specs.inner.Refusals.{IsRefusal};

use crate::closing::tell_chains;
use crate::cycles::first_in_cycle;
use crate::graph_error::GraphError;
use caa_base::written::entry::OutOfMemory;
use cover_table::{BoxedTable, MOST_EXCEPTIONS, TableError};
use std::alloc::Global;
use std::marker::Model;

/// A sound graph of exceptions, seen as the order that its declared pairs make.
///
/// Each exception goes by its number. Number 0 is the universal one, above all the others.
#[derive(Drop)]
pub struct Graph {
    table: BoxedTable,
}

impl Model for Graph {
    ghost use Rattle.cover_table.specs.Cover.{CoverOrder};
    ghost use Rattle.exception_graph.specs.Graph.{HasUniversal};

    ghost Value = { CoverOrder };

    ghost view = { λ g. g.table };

    ghost invariant = { λ g. HasUniversal g.table };
}

/// Declared pairs make one order: `Graph::build` has one graph to answer with.
pub fn one_order()
    ensures { (count : ℕ) (pairs : List (ℕ × ℕ)) (one other : CoverOrder) →
        IsOrderOf count pairs one → IsOrderOf count pairs other → one ≡ other }
{}

/// The table of least covers of the order that these pairs make.
fn table_of_pairs(alloc: Global, count: u32, pairs: &[(u32, u32)]) -> Result<BoxedTable, GraphError>
    requires some { 0 < count }
    requires in_range { All (λ p. (p.0 < count) × (p.1 < count)) pairs.now }
    ensures same { IfOk result (λ table. IsOrderOf count pairs.now table) }
    ensures sound { IfOk result (λ table. IsSound table) }
    ensures few { OnOk result (count ≤ most_exceptions) }
    ensures refusal { IfErr result (IsRefusal count pairs.now) }
{
    if count as usize > MOST_EXCEPTIONS {
        return Err(GraphError::TooMany { count });
    }
    let mut all_rows = [0; MOST_EXCEPTIONS];
    let rows = &mut all_rows[..count as usize];
    tell_chains(rows, pairs);
    if let Some(at) = first_in_cycle(rows) {
        return Err(GraphError::Cycle { at });
    }
    match BoxedTable::from_rows(alloc, count, rows) {
        Ok(table) => Ok(table),
        Err(TableError::NoLeast { a, b }) => Err(GraphError::NoLeast { a, b }),
        Err(TableError::OutOfMemory) => Err(GraphError::OutOfMemory),
    }
}

impl Graph {
    /// The graph of these exceptions, where each pair declares its first over its second.
    ///
    /// First too many exceptions are refused, then a circle of pairs, and then two exceptions
    /// without a least common cover. Memory is asked for once the graph has no fault, so only a
    /// sound one can come to `OutOfMemory`.
    pub fn build(alloc: Global, count: u32, pairs: &[(u32, u32)]) -> Result<Graph, GraphError>
        requires some { 0 < count }
        requires in_range { All (λ p. (p.0 < count) × (p.1 < count)) pairs.now }
        ensures built { IfOk result (λ graph. IsOrderOf count pairs.now graph) }
        ensures sound { OnOk result (IsSoundGraph count pairs.now) }
        ensures too_many { (number : ℕ) →
            IsErrOf result (GraphError.TooMany number) ↔ ((most_exceptions < count) × (number ≡ count)) }
        ensures cycle { (at : ℕ) →
            IsErrOf result (GraphError.Cycle at) ↔ ((count ≤ most_exceptions) × IsFirstInCycle count pairs.now at) }
        ensures no_least { (a b : ℕ) →
            IsErrOf result (GraphError.NoLeast a b) ↔ ((count ≤ most_exceptions) × IsFirstUnjoined count pairs.now a b) }
        ensures accepted { IsSoundGraph count pairs.now → IsOkUnless result GraphError.OutOfMemory }
        ensures out_of_memory { IsErrOf result GraphError.OutOfMemory → IsSoundGraph count pairs.now }
    {
        match table_of_pairs(alloc, count, pairs) {
            Ok(table) => Ok(Graph { table }),
            Err(refusal) => Err(refusal),
        }
    }

    /// How many exceptions there are, universal counted.
    pub fn count(&self) -> u32
        ensures { result ≡ self.now.count }
    {
        self.table.count()
    }

    /// Whether `a` covers `b`: itself, or by a chain of declared pairs.
    pub fn covers(&self, a: u32, b: u32) -> bool
        requires a_in { a < self.now.count }
        requires b_in { b < self.now.count }
        ensures { result ≡ covers self.now a b }
    {
        self.table.covers(a, b)
    }

    /// The least exception that covers each of a set.
    pub fn least(&self, set: &[u32]) -> u32
        requires some { 0 < length set.now }
        requires in_range { All (λ x. x < self.now.count) set.now }
        ensures { IsLeastCover self.now set.now result }
    {
        self.table.least(set)
    }

    /// The exception that covers all: number 0, universal.
    pub fn greatest(&self) -> u32
        ensures zero { result ≡ 0 }
        ensures covers_all { HasUniversal self.now }
    {
        let _ = &self.table;
        0
    }

    /// Each graph is sound: each list of its exceptions that isn't empty has a least cover.
    pub fn is_sound(&self)
        ensures sound { IsSound self.now }
        ensures few { self.now.count ≤ most_exceptions }
        ensures sets { SetsHaveLeastCovers self.now }
    {
        self.table.is_sound();
    }

    /// Another graph with the same exceptions and the same order.
    pub fn copy(&self, alloc: Global) -> Result<Graph, OutOfMemory>
        ensures { IfOk result (λ graph. graph ≡ self.now) }
    {
        let table = self.table.copy(alloc)?;
        Ok(Graph { table })
    }
}
