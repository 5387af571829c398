ghost use Rattle.std.specs.Prelude.{◌≡◌, map, IfOk};
ghost use Rattle.cell_workload.specs.CellNames.{cell_names};

use caa_base::written::entry::OutOfMemory;
use caa_base::written::name::Name;
use std::alloc::Global;

// The names of the script by their numbers, in the order in which its lines first have them.
pub const FEEDER: u32 = 0;

pub const ROBOT: u32 = 1;

pub const PRESS: u32 = 2;

pub const TABLE: u32 = 3;

pub const ARM: u32 = 4;

pub const PLATE: u32 = 5;

pub const OUT: u32 = 6;

pub const SCRAP: u32 = 7;

pub const JAMS: u32 = 8;

pub const JAM: u32 = 9;

pub const ARM_JAM: u32 = 10;

pub const PRESS_JAM: u32 = 11;

pub const FACES: u32 = 12;

pub const LOST_PIECE: u32 = 13;

pub const CELLGRAPH: u32 = 14;

pub const PIECE_LOST: u32 = 15;

pub const LOAD: u32 = 16;

pub const GIVE: u32 = 17;

pub const TAKE: u32 = 18;

pub const FORGE: u32 = 19;

pub const HOLD: u32 = 20;

pub const STAMP: u32 = 21;

pub const FORGE_JAM: u32 = 22;

pub const PLAIN: u32 = 23;

pub const FEED: u32 = 24;

pub const CARRY: u32 = 25;

pub const TO_LOAD: u32 = 26;

pub const TO_FORGE: u32 = 27;

pub const JAMMED: u32 = 28;

pub const LOST: u32 = 29;

/// Names of these texts.
fn names_of(alloc: Global, texts: &[&[u8]]) -> Result<Vec<Name>, OutOfMemory>
    ensures { IfOk result (λ names. names.items ≡ map (λ text. text.now) texts.now) }
{
    let mut names = Vec::new(alloc);
    for text in texts {
        names.push(Name::from_bytes(alloc, *text)?)?;
    }
    Ok(names)
}

/// The names of the script, in the order of their numbers.
pub fn cell_names(alloc: Global) -> Result<Vec<Name>, OutOfMemory>
    ensures { IfOk result (λ names. names.items ≡ cell_names) }
{
    names_of(
        alloc,
        &[
            b"feeder",
            b"robot",
            b"press",
            b"table",
            b"arm",
            b"plate",
            b"out",
            b"scrap",
            b"jams",
            b"jam",
            b"arm_jam",
            b"press_jam",
            b"faces",
            b"lost_piece",
            b"cellgraph",
            b"piece_lost",
            b"load",
            b"give",
            b"take",
            b"forge",
            b"hold",
            b"stamp",
            b"forge_jam",
            b"plain",
            b"feed",
            b"carry",
            b"l",
            b"f",
            b"jammed",
            b"lost",
        ],
    )
}
