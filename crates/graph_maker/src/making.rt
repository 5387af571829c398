//! A graph may have the name of one of its exceptions, since graphs and exceptions are different kinds. So the numbers of names
//! are found by looking for each word among the distinct ones, and not by counting.

ghost use Rattle.std.specs.Prelude.{◌≡◌, ◌<◌, ◌≤◌, ◌+◌, ◌∷◌, ◌++◌, codes, drop, length, map, None, IfOk};
ghost use Rattle.caa_base.specs.Written.Limits.{most_script_bytes};
ghost use Rattle.caa_base.specs.Written.Names.{name_at};
ghost use Rattle.action_script.specs.Forms.Printing.{text_of};
ghost use Rattle.graph_maker.specs.SetNames.{set_name};
ghost use Rattle.graph_maker.specs.declared.made_error.MadeCause.TheVariants as cause;
ghost use Rattle.graph_maker.specs.Refusals.{exceptions_in, graph_of, refusal_of};
ghost use Rattle.graph_maker.specs.MadeScripts.{exception_names, primitive_names, script_of_sets, HaveOwnNames};
ghost use Rattle.graph_maker.specs.MadeGraphs.{DeclaresSets};
ghost use Rattle.graph_maker.specs.Answers.{IsAnswer};

use crate::forms::{graph_script, push_made, push_named};
use crate::made_error::{MadeCause, MadeError};
use crate::refusals::refusal_of;
use crate::shape::{exceptions_in, graph_of};
use action_script::forms::script::Script;
use caa_base::written::entry::OutOfMemory;
use caa_base::written::name::{Name, name_at};
use set_graphs::{Set, make_pairs, make_table};
use std::alloc::Global;

/// The names of the made script: that of the graph, and behind it those of its exceptions by their numbers.
fn words_of(
    alloc: Global,
    script: &Script,
    exceptions: &[u32],
    larger: &[Set],
) -> Result<Vec<Name>, OutOfMemory>
    requires few { length exceptions.now < 128 }
    ensures { IfOk result (λ words. words.items ≡ name_at script.now.names (graph_of script.now.lines)
        ∷ map (name_at script.now.names) exceptions.now ++ map (set_name (length exceptions.now)) larger.now) }
{
    let mut words = Vec::new(alloc);
    push_named(&mut words, alloc, script.names(), &[graph_of(script)])?;
    push_named(&mut words, alloc, script.names(), exceptions)?;
    push_made(&mut words, alloc, exceptions.len() as u32, larger)?;
    Ok(words)
}

/// The sets of two members at least: in the table they stand behind universal and the primitives.
fn larger_in(table: &[Set], primitives: usize) -> &[Set]
    requires some { primitives < length table.now }
    requires few { length table.now ≤ 128 }
    ensures { result.now ≡ drop (primitives + 1) table.now }
{
    &table[primitives + 1..]
}

/// Want of memory, where no line is at fault.
fn wanting() -> MadeError
    ensures { result ≡ record { line = 0; cause = cause.OutOfMemory } }
{
    MadeError {
        line: 0,
        cause: MadeCause::OutOfMemory,
    }
}

/// The script of the graph of sets of these exceptions, which are those of a script that isn't refused.
fn script_of_sets(
    alloc: Global,
    script: &Script,
    exceptions: &[u32],
    most: u32,
) -> Result<Script, OutOfMemory>
    requires some_member { 0 < most }
    requires most_fits { most < 8 }
    requires declared { exceptions.now ≡ exceptions_in script.now.lines }
    requires accepted { refusal_of script.now most ≡ None }
    ensures value { IfOk result (λ made. made ≡ script_of_sets script.now most) }
    ensures own_names { IfOk result (λ made.
        HaveOwnNames (codes "universal" ∷ exception_names (primitive_names script.now) most)) }
    ensures declares { IfOk result (λ made. DeclaresSets script.now most (script_of_sets script.now most)) }
    ensures fits { IfOk result (λ made. length (text_of (script_of_sets script.now most)) ≤ most_script_bytes) }
{
    script.are_script();
    let primitives = exceptions.len() as u32;
    let table = make_table(alloc, primitives, most)?;
    let pairs = make_pairs(alloc, &table, primitives)?;
    let words = words_of(
        alloc,
        script,
        exceptions,
        larger_in(&table, exceptions.len()),
    )?;
    let made = graph_script(alloc, &words, &pairs)?;
    Ok(made)
}

/// The script of the graph of all sets of at most `most` of the exceptions that a script declares.
///
/// The script has one `graph` line, at least one `exception` line, `end`, and nothing more. Each of its exceptions keeps its name in
/// the made script, and a larger set has a made name: `s`, and behind a dash the number of each member. The checks accept the made
/// script, and its plan has the graph of sets. Its text isn't longer than that of a script may be.
///
/// A line that isn't of this shape is refused before all others, as `BadLine`. Else the first line is refused that has a cause: an
/// exception whose name is declared already, is `universal` or is made for a set, as `Twice`; and as `Limit` an exception past the
/// 127th, or the end where there are too many sets.
pub fn make_script(alloc: Global, script: &Script, most: u32) -> Result<Script, MadeError>
    requires some_member { 0 < most }
    requires most_fits { most < 8 }
    ensures value { IsAnswer script.now most result }
    ensures own_names { IfOk result (λ made.
        HaveOwnNames (codes "universal" ∷ exception_names (primitive_names script.now) most)) }
    ensures declares { IfOk result (λ made. DeclaresSets script.now most made) }
    ensures fits { IfOk result (λ made. length (text_of made) ≤ most_script_bytes) }
{
    let Ok(exceptions) = exceptions_in(alloc, script) else {
        return Err(wanting());
    };
    if let Some(refusal) = refusal_of(script, &exceptions, most) {
        return Err(refusal);
    }
    match script_of_sets(alloc, script, &exceptions, most) {
        Ok(made) => Ok(made),
        Err(OutOfMemory) => Err(wanting()),
    }
}
