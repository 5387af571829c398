//! What a line in a graph is refused for, and what it adds to the graph.

ghost use Rattle.std.specs.Prelude.{◌≡◌, false, Some, None, OnOk};
ghost use Rattle.script_checker.specs.InGraph.{twice_in_graph, past_limit_in_graph, graph_with};
ghost use Rattle.script_checker.specs.Causes.{is_unknown};
ghost use Rattle.script_checker.specs.declared.declared.Block.TheVariants as block;
ghost use Rattle.script_checker.specs.inner.Chosen.{later_cause};

use crate::check_error::CheckCause;
use crate::declared::Declared;
use crate::open_graph::OpenGraph;
use action_script::forms::form::Form;
use cover_table::MOST_EXCEPTIONS;
use std::alloc::AllocError;

/// Whether the graph has the exception already.
fn is_twice(graph: &OpenGraph, form: &Form) -> bool
    ensures { result ≡ twice_in_graph graph.now form.now }
{
    matches!(form, Form::Exception(name) if graph.exceptions().contains(*name))
}

/// Whether the graph would have too many exceptions.
fn is_past_limit(graph: &OpenGraph, form: &Form) -> bool
    ensures { result ≡ past_limit_in_graph graph.now form.now }
{
    matches!(form, Form::Exception(_)) && graph.exceptions().len() as usize >= MOST_EXCEPTIONS
}

/// The first cause of a line that doesn't end the graph, where its names are declared.
pub(crate) fn later_cause(graph: &OpenGraph, form: &Form) -> Option<CheckCause>
    ensures { (declared : Declared) → result ≡ later_cause declared (block.Graph graph.now) form.now }
{
    if is_twice(graph, form) {
        Some(CheckCause::Twice)
    } else if is_past_limit(graph, form) {
        Some(CheckCause::Limit)
    } else {
        None
    }
}

/// Adds what a line says that isn't refused.
#[tactic(auto, using(crate::proofs::KnownNames::two_known))]
pub(crate) fn add(declared: &Declared, graph: &mut OpenGraph, form: &Form) -> Result<(), AllocError>
    requires known { is_unknown declared.now (block.Graph graph.old) form.now ≡ false }
    requires once { twice_in_graph graph.old form.now ≡ false }
    requires few { past_limit_in_graph graph.old form.now ≡ false }
    ensures { OnOk result (graph.new ≡ graph_with graph.old form.now) }
{
    let _ = declared;
    if let Form::Exception(name) = form {
        graph.add_exception(*name)
    } else if let Form::Cover(upper, lower) = form {
        graph.add_cover(*upper, *lower)
    } else {
        Ok(())
    }
}
