ghost use Rattle.std.specs.Prelude.{◌≡◌, ◌==◌, ◌%◌, ◌<◌, ◌≤◌, ◌+◌, ◌++◌, ◌∷◌, [], map, OnOk, IfOk};
ghost use Rattle.std.specs.List.{range_with_len};
ghost use Rattle.script_checker.specs.Compiled.{AreAccepted};
ghost use Rattle.script_checker.specs.DeclaredSoFar.{nothing_yet};
ghost use Rattle.cell_workload.specs.CellLines.{cell_lines};
ghost use Rattle.cell_workload.specs.CellScript.{cell_script, cell_forms, most_cycles, play_line, played, players};

use crate::actions::{forge, forge_jam, jammed, load, lost, plain};
use crate::names::{FEEDER, JAMMED, LOST, PLAIN, PRESS, ROBOT, cell_names};
use crate::outside::{cellgraph, faces, jams, outside};
use action_script::forms::form::Form;
use action_script::forms::script::Script;
use caa_base::written::entry::OutOfMemory;
use caa_base::written::rows::Rows;
use std::alloc::Global;

/// How many cycles a cell has at most.
pub const MOST_CYCLES: u32 = 2000;

/// Which action a cycle plays: each fifth cycle is jammed, and each tenth is lost instead.
fn action_of_cycle(cycle: u32) -> u32
    ensures { result ≡ played (cycle % 10 == 0) (cycle % 5 == 0) }
{
    if cycle % 10 == 0 {
        LOST
    } else if cycle % 5 == 0 {
        JAMMED
    } else {
        PLAIN
    }
}

/// The line by which a cycle is played.
fn play_line(alloc: Global, cycle: u32) -> Result<Form, OutOfMemory>
    ensures { IfOk result (λ form. form ≡ play_line cycle) }
{
    let players = vec![in alloc; FEEDER, ROBOT, PRESS]?;
    Ok(Form::Play(action_of_cycle(cycle), Rows::from_vec(players)))
}

/// Adds the lines that play so many cycles.
fn push_plays(forms: &mut Vec<Form>, alloc: Global, cycles: u32) -> Result<(), OutOfMemory>
    requires { cycles ≤ most_cycles }
    ensures { OnOk result (forms.new.items ≡ forms.old.items ++ map play_line (range_with_len 1 cycles)) }
{
    for cycle in 1..cycles + 1 {
        forms.push(play_line(alloc, cycle)?)?;
    }
    Ok(())
}

/// All that stands before the plays.
fn cell_lines(alloc: Global) -> Result<Vec<Form>, OutOfMemory>
    ensures { IfOk result (λ forms. forms.items ≡ cell_lines) }
{
    let mut forms = outside(alloc)?;
    forms.append(&mut jams(alloc)?)?;
    forms.append(&mut faces(alloc)?)?;
    forms.append(&mut cellgraph(alloc)?)?;
    forms.append(&mut load(alloc)?)?;
    forms.append(&mut forge(alloc)?)?;
    forms.append(&mut forge_jam(alloc)?)?;
    forms.append(&mut plain(alloc)?)?;
    forms.append(&mut jammed(alloc)?)?;
    forms.append(&mut lost(alloc)?)?;
    Ok(forms)
}

/// The script of a production cell that works for so many cycles, from 1 to `MOST_CYCLES`.
///
/// A feeder, a robot and a press play one cycle after another. In most a piece is loaded, formed and counted. In each fifth cycle arm
/// and press jam at once, so that the piece is scrap; in each tenth the press asks for undo instead. The checks accept the script. At
/// `Err` no memory was found.
pub fn cell(alloc: Global, cycles: u32) -> Result<Script, OutOfMemory>
    requires some { 0 < cycles }
    requires few { cycles ≤ most_cycles }
    ensures value { IfOk result (λ script. script ≡ cell_script cycles) }
    ensures accepted { IfOk result (λ script. AreAccepted script.names (nothing_yet script.names) script.lines) }
{
    let names = cell_names(alloc)?;
    let mut forms = cell_lines(alloc)?;
    push_plays(&mut forms, alloc, cycles)?;
    let script = Script::of_forms(alloc, names, forms)?;
    Ok(script)
}
