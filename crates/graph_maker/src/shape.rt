ghost use Rattle.std.specs.Prelude.{◌≡◌, IfOk};
ghost use Rattle.graph_maker.specs.Refusals.{bad_line, exceptions_in, graph_of, next_stage};

use action_script::forms::form::Form;
use action_script::forms::script::Script;
use std::alloc::{AllocError, Global};

/// What may stand next in a script of primitive exceptions.
#[derive(Clone, Copy)]
pub enum Stage {
    /// The line of the graph.
    Graph,
    /// The first exception.
    First,
    /// A further exception, or the end.
    More,
    /// Nothing.
    Over,
}

/// What may stand after a line, where it may stand there itself.
fn next_stage(stage: Stage, form: &Form) -> Option<Stage>
    ensures { result ≡ next_stage stage form.now }
{
    match (stage, form) {
        (Stage::Graph, Form::Graph(_)) => Some(Stage::First),
        (Stage::First | Stage::More, Form::Exception(_)) => Some(Stage::More),
        (Stage::More, Form::End) => Some(Stage::Over),
        _ => None,
    }
}

/// The first line of a script that may not stand where it stands, or the line that is lacking.
pub fn bad_line(script: &Script) -> Option<u32>
    ensures { result ≡ bad_line script.now }
{
    script.are_script();
    let mut stage = Stage::Graph;
    for line in script.lines() {
        match next_stage(stage, &line.form) {
            Some(next) => stage = next,
            None => return Some(line.number),
        }
    }
    match stage {
        Stage::Over => None,
        _ => Some(1),
    }
}

/// The exceptions that a script declares, by the numbers of their names.
pub fn exceptions_in(alloc: Global, script: &Script) -> Result<Vec<u32>, AllocError>
    ensures { IfOk result (λ exceptions. exceptions.items ≡ exceptions_in script.now.lines) }
{
    let mut exceptions = Vec::new(alloc);
    for line in script.lines() {
        if let Form::Exception(name) = &line.form {
            exceptions.push(*name)?;
        }
    }
    Ok(exceptions)
}

/// The graph that the first line of a script declares, by the number of its name.
pub fn graph_of(script: &Script) -> u32
    ensures { result ≡ graph_of script.now.lines }
{
    let Some(line) = script.lines().first() else {
        return 0;
    };
    let Form::Graph(name) = &line.form else {
        return 0;
    };
    *name
}
