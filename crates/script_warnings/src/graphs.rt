//! What is told of the graphs of a script.

ghost use Rattle.std.specs.Prelude.{◌≡◌, false};
ghost use Rattle.std.specs.List.{list_any};
ghost use Rattle.script_warnings.specs.Never.{is_resolved_in};

use crate::handlers::can_come_in;
use crate::rule::Rule;
use crate::subject::Part;
use crate::tells::Tells;
use action_script::forms::form::Form;
use caa_base::written::entry::OutOfMemory;
use script_outcomes::ways::Way;
use script_views::page::Piece;

/// Whether an exception of a graph can be resolved in an action.
fn is_resolved_in(part: &Part, graph: u32, exception: u32) -> bool
    ensures { result ≡ is_resolved_in graph exception part.now }
{
    match part.internal {
        Some(internal) => internal == graph && can_come_in(&part.outlook.rows, exception),
        None => false,
    }
}

/// Whether an exception of a graph can be resolved in one of these actions.
fn is_resolved(parts: &[Part], graph: u32, exception: u32) -> bool
    ensures { result ≡ list_any (is_resolved_in graph exception) parts.now }
{
    parts
        .iter()
        .any(|part| is_resolved_in(part, graph, exception))
}

/// Whether an action can tell an exception of a graph outside.
fn is_told_by(part: &Part, graph: u32, exception: u32) -> bool {
    let told = Way::Signal(exception);
    part.interface == Some(graph)
        && (part.outlook.named.as_slice().contains(&exception)
            || part.outlook.ways.as_slice().contains(&told))
}

/// Tells that an exception of a graph is resolved in none of these actions.
fn say_never_comes(
    tells: &mut Tells,
    parts: &[Part],
    line: u32,
    graph: u32,
    exception: u32,
) -> Result<(), OutOfMemory>
    requires { list_any (is_resolved_in graph exception) parts.now ≡ false }
{
    let _ = parts;
    tells.say(
        Rule::NeverComes,
        line,
        &[
            Piece::Text("graph "),
            Piece::Named(graph),
            Piece::Text(": "),
            Piece::Named(exception),
            Piece::Text(" is never resolved and never told outside"),
        ],
    )
}

/// Tells of an exception of a graph if it is resolved and told by none of these actions.
fn tell_exception(
    tells: &mut Tells,
    parts: &[Part],
    line: u32,
    graph: u32,
    exception: u32,
) -> Result<(), OutOfMemory> {
    let is_told = parts.iter().any(|part| is_told_by(part, graph, exception));
    if !is_told && !is_resolved(parts, graph, exception) {
        say_never_comes(tells, parts, line, graph, exception)?;
    }
    Ok(())
}

/// Tells which exceptions are resolved and told in none of these actions.
pub fn tell_never_comes(tells: &mut Tells, parts: &[Part]) -> Result<(), OutOfMemory> {
    let mut graph = 0;
    for line in tells.script.lines() {
        if let Form::Graph(name) = &line.form {
            graph = *name;
        }
        if let Form::Exception(exception) = &line.form {
            tell_exception(tells, parts, line.number, graph, *exception)?;
        }
    }
    Ok(())
}
