ghost use Rattle.std.specs.Prelude.{◌≡◌, IfOk};
ghost use Rattle.cell_workload.specs.CellLines.{load_lines, forge_lines, forge_jam_lines, plain_lines, jammed_lines, lost_lines};

use crate::names::*;
use action_script::forms::form::Form;
use caa_base::written::entry::OutOfMemory;
use caa_base::written::rows::Rows;
use std::alloc::Global;

/// These numbers as a list of a line.
fn rows(alloc: Global, numbers: &[u32]) -> Result<Rows<u32>, OutOfMemory>
    ensures { IfOk result (λ rows. rows ≡ numbers.now) }
{
    Ok(Rows::from_vec(numbers.to_vec(alloc)?))
}

/// A piece comes from the table onto the arm.
pub fn load(alloc: Global) -> Result<Vec<Form>, OutOfMemory>
    ensures { IfOk result (λ forms. forms.items ≡ load_lines) }
{
    let uses = rows(alloc, &[TABLE, ARM])?;
    let roles = rows(alloc, &[GIVE, TAKE])?;
    let forms = vec![in alloc;
        Form::Action(LOAD),
        Form::Uses(uses),
        Form::Roles(roles),
        Form::Body(GIVE),
        Form::PutStep(TABLE, 1),
        Form::Body(TAKE),
        Form::PutStep(ARM, 1),
        Form::End,
    ]?;
    Ok(forms)
}

/// The piece is formed.
pub fn forge(alloc: Global) -> Result<Vec<Form>, OutOfMemory>
    ensures { IfOk result (λ forms. forms.items ≡ forge_lines) }
{
    let uses = rows(alloc, &[ARM, PLATE, OUT])?;
    let roles = rows(alloc, &[HOLD, STAMP])?;
    let forms = vec![in alloc;
        Form::Action(FORGE),
        Form::Uses(uses),
        Form::Roles(roles),
        Form::Body(HOLD),
        Form::PutStep(ARM, 0),
        Form::Body(STAMP),
        Form::PutStep(PLATE, 1),
        Form::ReadStep(OUT),
        Form::AddStep(OUT, 1),
        Form::WorkStep(10),
        Form::End,
    ]?;
    Ok(forms)
}

/// The piece isn't formed, since both jam at once; it is counted as scrap, and its loss is signalled.
pub fn forge_jam(alloc: Global) -> Result<Vec<Form>, OutOfMemory>
    ensures { IfOk result (λ forms. forms.items ≡ forge_jam_lines) }
{
    let uses = rows(alloc, &[ARM, PLATE, SCRAP])?;
    let roles = rows(alloc, &[HOLD, STAMP])?;
    let forms = vec![in alloc;
        Form::Action(FORGE_JAM),
        Form::Internal(JAMS),
        Form::Interface(FACES),
        Form::Uses(uses),
        Form::Roles(roles),
        Form::Body(HOLD),
        Form::RaiseStep(ARM_JAM),
        Form::Body(STAMP),
        Form::RaiseStep(PRESS_JAM),
        Form::Handler(HOLD, JAM),
        Form::PutStep(ARM, 0),
        Form::Handler(STAMP, JAM),
        Form::ReadStep(SCRAP),
        Form::AddStep(SCRAP, 1),
        Form::SignalLine(LOST_PIECE),
        Form::End,
    ]?;
    Ok(forms)
}

/// A cycle in which all goes well.
pub fn plain(alloc: Global) -> Result<Vec<Form>, OutOfMemory>
    ensures { IfOk result (λ forms. forms.items ≡ plain_lines) }
{
    let uses = rows(alloc, &[TABLE, ARM, PLATE, OUT, SCRAP])?;
    let roles = rows(alloc, &[FEED, CARRY, PRESS])?;
    let loaders = rows(alloc, &[FEED, CARRY])?;
    let forgers = rows(alloc, &[CARRY, PRESS])?;
    let forms = vec![in alloc;
        Form::Action(PLAIN),
        Form::Uses(uses),
        Form::Roles(roles),
        Form::Nest(TO_LOAD, LOAD, loaders),
        Form::Nest(TO_FORGE, FORGE, forgers),
        Form::Body(FEED),
        Form::EnterStep(TO_LOAD),
        Form::PutStep(TABLE, 0),
        Form::Body(CARRY),
        Form::EnterStep(TO_LOAD),
        Form::EnterStep(TO_FORGE),
        Form::Body(PRESS),
        Form::EnterStep(TO_FORGE),
        Form::PutStep(PLATE, 0),
        Form::End,
    ]?;
    Ok(forms)
}

/// A cycle in which arm and press jam at once, so that its piece is scrap.
pub fn jammed(alloc: Global) -> Result<Vec<Form>, OutOfMemory>
    ensures { IfOk result (λ forms. forms.items ≡ jammed_lines) }
{
    let uses = rows(alloc, &[TABLE, ARM, PLATE, OUT, SCRAP])?;
    let roles = rows(alloc, &[FEED, CARRY, PRESS])?;
    let loaders = rows(alloc, &[FEED, CARRY])?;
    let forgers = rows(alloc, &[CARRY, PRESS])?;
    let forms = vec![in alloc;
        Form::Action(JAMMED),
        Form::Internal(CELLGRAPH),
        Form::Uses(uses),
        Form::Roles(roles),
        Form::Nest(TO_LOAD, LOAD, loaders),
        Form::Nest(TO_FORGE, FORGE_JAM, forgers),
        Form::Map(TO_FORGE, LOST_PIECE, PIECE_LOST),
        Form::Body(FEED),
        Form::EnterStep(TO_LOAD),
        Form::Body(CARRY),
        Form::EnterStep(TO_LOAD),
        Form::EnterStep(TO_FORGE),
        Form::Body(PRESS),
        Form::EnterStep(TO_FORGE),
        Form::Handler(FEED, PIECE_LOST),
        Form::PutStep(TABLE, 0),
        Form::Handler(CARRY, PIECE_LOST),
        Form::Handler(PRESS, PIECE_LOST),
        Form::PutStep(PLATE, 0),
        Form::End,
    ]?;
    Ok(forms)
}

/// A cycle that is undone once its piece is on the arm.
pub fn lost(alloc: Global) -> Result<Vec<Form>, OutOfMemory>
    ensures { IfOk result (λ forms. forms.items ≡ lost_lines) }
{
    let uses = rows(alloc, &[TABLE, ARM, PLATE, OUT, SCRAP])?;
    let roles = rows(alloc, &[FEED, CARRY, PRESS])?;
    let loaders = rows(alloc, &[FEED, CARRY])?;
    let forms = vec![in alloc;
        Form::Action(LOST),
        Form::Uses(uses),
        Form::Roles(roles),
        Form::Nest(TO_LOAD, LOAD, loaders),
        Form::Body(FEED),
        Form::EnterStep(TO_LOAD),
        Form::Body(CARRY),
        Form::EnterStep(TO_LOAD),
        Form::Body(PRESS),
        Form::PutStep(PLATE, 9),
        Form::UndoLine,
        Form::End,
    ]?;
    Ok(forms)
}
