ghost use Rattle.std.specs.Prelude.{◌≡◌, IfOk};
ghost use Rattle.cell_workload.specs.CellLines.{outside_lines, jams_lines, faces_lines, cellgraph_lines};

use crate::names::*;
use action_script::forms::form::Form;
use caa_base::written::entry::OutOfMemory;
use std::alloc::Global;

/// The participants and the objects.
pub fn outside(alloc: Global) -> Result<Vec<Form>, OutOfMemory>
    ensures { IfOk result (λ forms. forms.items ≡ outside_lines) }
{
    let forms = vec![in alloc;
        Form::Participant(FEEDER),
        Form::Participant(ROBOT),
        Form::Participant(PRESS),
        Form::Object(TABLE, 0),
        Form::Object(ARM, 0),
        Form::Object(PLATE, 0),
        Form::Object(OUT, 0),
        Form::Object(SCRAP, 0),
    ]?;
    Ok(forms)
}

/// The graph of the jams.
pub fn jams(alloc: Global) -> Result<Vec<Form>, OutOfMemory>
    ensures { IfOk result (λ forms. forms.items ≡ jams_lines) }
{
    let forms = vec![in alloc;
        Form::Graph(JAMS),
        Form::Exception(JAM),
        Form::Exception(ARM_JAM),
        Form::Exception(PRESS_JAM),
        Form::Cover(JAM, ARM_JAM),
        Form::Cover(JAM, PRESS_JAM),
        Form::End,
    ]?;
    Ok(forms)
}

/// What a jammed forging signals.
pub fn faces(alloc: Global) -> Result<Vec<Form>, OutOfMemory>
    ensures { IfOk result (λ forms. forms.items ≡ faces_lines) }
{
    let forms = vec![in alloc; Form::Graph(FACES), Form::Exception(LOST_PIECE), Form::End]?;
    Ok(forms)
}

/// What a cycle knows of that.
pub fn cellgraph(alloc: Global) -> Result<Vec<Form>, OutOfMemory>
    ensures { IfOk result (λ forms. forms.items ≡ cellgraph_lines) }
{
    let forms = vec![in alloc;
        Form::Graph(CELLGRAPH),
        Form::Exception(PIECE_LOST),
        Form::End,
    ]?;
    Ok(forms)
}
