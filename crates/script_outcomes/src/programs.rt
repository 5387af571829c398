//! Bodies and handlers of an action: the lines of their steps, and what they say at the end.

use action_script::forms::form::Form;
use action_script::forms::script::Line;

/// What a body or a handler says at its end.
#[derive(Clone, Copy, PartialEq, Eq)]
pub enum Said {
    Done,
    /// The name of this number.
    Signal(u32),
    Undo,
}

/// The lines of the steps of a body or a handler, and what it says behind them.
#[derive(Clone, Copy)]
pub struct Program<'a> {
    pub steps: &'a [Line],
    pub said: Said,
}

/// What a line says that ends the body or the handler above it; none of a step, which doesn't.
fn said_by(line: &Line) -> Option<Said> {
    match &line.form {
        Form::ReadStep(_)
        | Form::PutStep(_, _)
        | Form::AddStep(_, _)
        | Form::WorkStep(_)
        | Form::CheckStep(_, _, _)
        | Form::RaiseStep(_)
        | Form::EnterStep(_) => None,
        Form::SignalLine(exception) => Some(Said::Signal(*exception)),
        Form::UndoLine => Some(Said::Undo),
        Form::DoneLine
        | Form::Participant(_)
        | Form::Object(_, _)
        | Form::Drill(_, _)
        | Form::Watch(_)
        | Form::Graph(_)
        | Form::Action(_)
        | Form::Play(_, _)
        | Form::Exception(_)
        | Form::Cover(_, _)
        | Form::End
        | Form::Internal(_)
        | Form::Interface(_)
        | Form::Fault(_)
        | Form::Uses(_)
        | Form::Roles(_)
        | Form::Nest(_, _, _)
        | Form::Map(_, _, _)
        | Form::MapUndo(_, _)
        | Form::MapFailure(_, _)
        | Form::Alternate(_, _)
        | Form::Abort(_, _)
        | Form::AbortTest(_, _, _, _)
        | Form::Body(_)
        | Form::Handler(_, _) => Some(Said::Done),
    }
}

/// The program that begins behind the line of this index.
fn program_behind(block: &[Line], index: usize) -> Program {
    let lines = block.get(index.saturating_add(1)..).unwrap_or(&[]);
    for (count, line) in lines.iter().enumerate() {
        if let Some(said) = said_by(line) {
            let steps = lines.get(..count).unwrap_or(&[]);
            return Program { steps, said };
        }
    }
    Program {
        steps: lines,
        said: Said::Done,
    }
}

/// The body of a role: without steps, and done, where the action has no line for it.
pub fn body_of(block: &[Line], role: u32) -> Program {
    for (index, line) in block.iter().enumerate() {
        if matches!(&line.form, Form::Body(name) if *name == role) {
            return program_behind(block, index);
        }
    }
    Program {
        steps: &[],
        said: Said::Done,
    }
}

/// The handler that a role has for an exception.
pub fn handler_of(block: &[Line], role: u32, exception: u32) -> Option<Program> {
    for (index, line) in block.iter().enumerate() {
        if matches!(&line.form, Form::Handler(who, what) if *who == role && *what == exception) {
            return Some(program_behind(block, index));
        }
    }
    None
}

impl<'a> Program<'a> {
    /// The steps up to the first `raise`, that one too: nobody comes past it.
    pub fn reached(&self) -> &'a [Line] {
        for (index, line) in self.steps.iter().enumerate() {
            if matches!(&line.form, Form::RaiseStep(_)) {
                return self
                    .steps
                    .get(..index.saturating_add(1))
                    .unwrap_or(self.steps);
            }
        }
        self.steps
    }

    /// Whether it comes to a `raise`, unless it is halted before.
    pub fn raises(&self) -> bool {
        self.steps
            .iter()
            .any(|line| matches!(&line.form, Form::RaiseStep(_)))
    }

    /// Whether a step of it can be refused, or can raise something where its register meets a test.
    pub fn can_fail(&self) -> bool {
        self.reached().iter().any(|line| {
            matches!(
                &line.form,
                Form::PutStep(_, _) | Form::AddStep(_, _) | Form::CheckStep(_, _, _)
            )
        })
    }

    /// Whether it comes to the line that enters a nested use.
    pub fn enters(&self, nest: u32) -> bool {
        self.reached().iter().any(
            |line| matches!(&line.form, Form::EnterStep(name) if *name == nest),
        )
    }
}
