//! A graph of exceptions that is being declared.

ghost use Rattle.std.specs.Prelude.{All, ◌≤◌, ◌≡◌, ◌<◌, ◌++◌, ◌∷◌, [], false, length, OnOk, IfOk, IfErr};
ghost use Rattle.cover_table.specs.Cover.{most_exceptions};
ghost use Rattle.caa_base.specs.Written.Lists.{index_of};
ghost use Rattle.script_checker.specs.Numbers.{is_among};
ghost use Rattle.script_checker.specs.DeclaredSoFar.{plain_graph};
ghost use Rattle.script_checker.specs.inner.Ends.{IsGraphRefusal, IsOrdered};

use crate::check_error::CheckCause;
use crate::number_list::NumberList;
use caa_base::written::rows::Rows;
use exception_graph::{Graph, GraphError};
use std::alloc::{AllocError, Global};
use std::marker::Model;

/// A graph of exceptions that has ended.
#[derive(Drop)]
pub struct DeclaredGraph {
    /// The names of its exceptions, `universal` first, by their numbers in the script.
    pub exceptions: NumberList,
    /// Which exceptions were declared to cover which, by their numbers in the graph.
    pub pairs: Rows<(u32, u32)>,
}

/// A graph of exceptions that is being declared, seen as the graph that it is if it ends here.
///
/// It has `universal`, and no more exceptions than a graph may have.
#[derive(Drop)]
pub struct OpenGraph {
    exceptions: NumberList,
    pairs: Vec<(u32, u32)>,
}

impl Model for OpenGraph {
    ghost use Rattle.std.specs.Prelude.{◌≤◌, ◌<◌, length, All};
    ghost use Rattle.cover_table.specs.Cover.{most_exceptions};
    ghost use Rattle.script_checker.specs.declared.open_graph.DeclaredGraph.{DeclaredGraph};

    ghost Value = { DeclaredGraph };

    ghost view = { λ g. record { exceptions = g.exceptions; pairs = g.pairs.items } };

    ghost invariant = { λ g. (0 < length g.exceptions) × (length g.exceptions ≤ most_exceptions)
        × All (λ p. (p.0 < length g.exceptions) × (p.1 < length g.exceptions)) g.pairs.items };
}

/// The order that pairs of these exceptions make, or why it is refused.
fn ordered(
    alloc: Global,
    exceptions: &NumberList,
    pairs: &Vec<(u32, u32)>,
) -> Result<Graph, CheckCause>
    requires some { 0 < length exceptions.now }
    requires few { length exceptions.now ≤ most_exceptions }
    requires known { All (λ p. (p.0 < length exceptions.now) × (p.1 < length exceptions.now)) pairs.now.items }
    ensures graph { IfOk result (IsOrdered (length exceptions.now) pairs.now.items) }
    ensures refused { IfErr result (IsGraphRefusal (length exceptions.now) pairs.now.items) }
{
    match Graph::build(alloc, exceptions.len(), pairs) {
        Ok(graph) => {
            graph.is_sound();
            Ok(graph)
        }
        Err(GraphError::Cycle { at }) => Err(CheckCause::Cycle { at }),
        Err(GraphError::NoLeast { a, b }) => Err(CheckCause::NoLeast { a, b }),
        Err(GraphError::TooMany { count: _ }) => unreachable!(),
        Err(GraphError::OutOfMemory) => Err(CheckCause::OutOfMemory),
    }
}

impl OpenGraph {
    /// A graph of `universal` alone.
    pub fn begun(alloc: Global, universal: u32) -> Result<OpenGraph, AllocError>
        ensures { IfOk result (λ graph. graph ≡ plain_graph universal) }
    {
        let mut exceptions = NumberList::new(alloc);
        exceptions.push(universal)?;
        Ok(OpenGraph {
            exceptions,
            pairs: Vec::new(alloc),
        })
    }

    /// Its exceptions by name.
    pub fn exceptions(&self) -> &NumberList
        ensures { result.now ≡ self.now.exceptions }
    {
        &self.exceptions
    }

    /// Adds an exception.
    pub fn add_exception(&mut self, name: u32) -> Result<(), AllocError>
        requires once { is_among self.old.exceptions name ≡ false }
        requires few { length self.old.exceptions < most_exceptions }
        ensures { OnOk result (self.new ≡ record self.old { exceptions = self.old.exceptions ++ name ∷ [] }) }
    {
        self.exceptions.push(name)?;
        Ok(())
    }

    /// Says that an exception covers another one.
    pub fn add_cover(&mut self, upper: u32, lower: u32) -> Result<(), AllocError>
        requires upper { index_of upper self.old.exceptions < length self.old.exceptions }
        requires lower { index_of lower self.old.exceptions < length self.old.exceptions }
        ensures { OnOk result (
            self.new
            ≡ record self.old {
              pairs = self.old.pairs ++ (index_of upper self.old.exceptions, index_of lower self.old.exceptions) ∷ [];
            }) }
    {
        let upper = self.exceptions.find(upper);
        let lower = self.exceptions.find(lower);
        self.pairs.push((upper, lower))?;
        Ok(())
    }

    /// The order that its pairs make, or why it is refused.
    pub fn order(&self, alloc: Global) -> Result<Graph, CheckCause>
        ensures graph { IfOk result (IsOrdered (length self.now.exceptions) self.now.pairs) }
        ensures refused { IfErr result (IsGraphRefusal (length self.now.exceptions) self.now.pairs) }
    {
        ordered(alloc, &self.exceptions, &self.pairs)
    }

    /// The graph, whose declaration ends.
    pub fn end(self) -> DeclaredGraph
        ensures { result ≡ self }
    {
        DeclaredGraph {
            exceptions: self.exceptions,
            pairs: Rows::from_vec(self.pairs),
        }
    }
}
