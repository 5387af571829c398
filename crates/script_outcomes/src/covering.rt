//! The exceptions of a graph of a script, and the least that covers some of them.

ghost use Rattle.std.specs.Prelude.{◌<◌, IsTrue};
ghost use Rattle.std.specs.List.{All};

use action_script::forms::script::Script;
use caa_base::written::entry::OutOfMemory;
use cover_table::MOST_EXCEPTIONS;
use exception_graph::{Graph, GraphError};
use script_views::covers::{CoverLine, covers_of};
use script_views::looking::{exceptions_of, graph_block};
use std::alloc::Global;

/// The exceptions of a graph of a script, by the numbers of their names, `universal` first, and which of them covers which.
#[derive(Drop)]
pub struct Exceptions {
    names: Vec<u32>,
    /// None where the graph is refused.
    graph: Option<Graph>,
}

/// Where a name stands among the exceptions of a graph; 0, as `universal`, where it is none of them.
fn index_in(names: &[u32], name: u32) -> u32 {
    let mut index = 0u32;
    for other in names {
        if *other == name {
            return index;
        }
        index = index.saturating_add(1);
    }
    0
}

/// Which exceptions cover which, by their numbers in the graph.
fn pairs_of(
    alloc: Global,
    names: &[u32],
    covers: &[CoverLine],
) -> Result<Vec<(u32, u32)>, OutOfMemory> {
    let mut pairs = Vec::new(alloc);
    for cover in covers {
        pairs.push((index_in(names, cover.upper), index_in(names, cover.lower)))?;
    }
    Ok(pairs)
}

/// Whether all these numbers are below another.
fn are_below(numbers: &[u32], count: u32) -> bool
    ensures { IsTrue result → All (λ r. r < count) numbers.now }
{
    for number in numbers {
        if *number >= count {
            return false;
        }
    }
    true
}

/// Whether all numbers of these pairs are below another.
fn pairs_are_below(pairs: &[(u32, u32)], count: u32) -> bool
    ensures { IsTrue result → All (λ p. (p.0 < count) × (p.1 < count)) pairs.now }
{
    for pair in pairs {
        if pair.0 >= count || pair.1 >= count {
            return false;
        }
    }
    true
}

/// The graph of these exceptions, if it isn't refused.
fn built(alloc: Global, names: &[u32], pairs: &[(u32, u32)]) -> Result<Option<Graph>, OutOfMemory> {
    let count = names.len().min(MOST_EXCEPTIONS) as u32;
    if count == 0 || !pairs_are_below(pairs, count) {
        return Ok(None);
    }
    match Graph::build(alloc, count, pairs) {
        Ok(graph) => Ok(Some(graph)),
        Err(GraphError::OutOfMemory) => Err(OutOfMemory),
        Err(_) => Ok(None),
    }
}

impl Exceptions {
    /// Those of the graph of this name, or `universal` alone where none is named.
    pub fn of(
        alloc: Global,
        script: &Script,
        graph: Option<u32>,
    ) -> Result<Exceptions, OutOfMemory> {
        let block = match graph {
            Some(name) => graph_block(script.lines(), name),
            None => &[],
        };
        let mut names = exceptions_of(alloc, block)?;
        names.insert(0, script.universal())?;
        let covers = covers_of(alloc, block)?;
        let pairs = pairs_of(alloc, &names, &covers)?;
        let graph = built(alloc, &names, &pairs)?;
        Ok(Exceptions { names, graph })
    }

    /// The numbers of their names, `universal` first.
    pub fn names(&self) -> &[u32] {
        &self.names
    }

    /// The numbers in the graph that these names have.
    fn numbers_of(&self, alloc: Global, names: &[u32]) -> Result<Vec<u32>, OutOfMemory> {
        let mut numbers = Vec::new(alloc);
        for name in names {
            numbers.push(index_in(&self.names, *name))?;
        }
        Ok(numbers)
    }

    /// The name of this number in the graph.
    fn name_at(&self, number: u32) -> u32 {
        match self.names.get(number as usize) {
            Some(name) => *name,
            None => 0,
        }
    }

    /// The least exception that covers all of these; none where there are none, or the graph is refused.
    pub fn least(&self, alloc: Global, names: &[u32]) -> Result<Option<u32>, OutOfMemory> {
        let numbers = self.numbers_of(alloc, names)?;
        let Some(graph) = &self.graph else {
            return Ok(None);
        };
        if numbers.is_empty() || !are_below(&numbers, graph.count()) {
            return Ok(None);
        }
        Ok(Some(self.name_at(graph.least(&numbers))))
    }
}
