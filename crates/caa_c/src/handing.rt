//! How C is handed bytes: into room of its own.

ghost use Rattle.std.specs.Prelude.{◌≡◌, length};
ghost use Rattle.journal_text.specs.Texts.Text.{participant_name};
ghost use Rattle.caa_c.specs.Handed.{filled};
ghost use Rattle.caa_c.specs.inner.Lines.{HandsLine};
ghost use Rattle.caa_c.specs.Machines.{machine_of};
ghost use Rattle.caa_c.specs.Sizes.{AreValuesOf};

use crate::code::Code;
use crate::session::Session;
use caa_base::written::entry::{Object, OutOfMemory, Participant};
use place_plan::plans::plan::Plan;

/// Writes as many bytes as there is room for, and tells how many there are.
pub fn hand_out(bytes: &[u8], room: &mut [u8]) -> usize
    ensures room { room.new ≡ filled bytes.now room.old }
    ensures number { result ≡ length bytes.now }
{
    let end = bytes.len().min(room.len());
    room[..end].copy_from_slice(&bytes[..end]);
    bytes.len()
}

/// Hands out a line that was found; tells where there is none, or no memory was found.
pub fn hand_line(
    found: Result<bool, OutOfMemory>,
    line: &[u8],
    room: &mut [u8],
    length: &mut usize,
) -> Code
    ensures { HandsLine found line.now room.old room.new length.new result }
{
    *length = 0;
    match found {
        Ok(true) => {
            *length = hand_out(line, room);
            Code::Done
        }
        Ok(false) => Code::Unfit,
        Err(OutOfMemory) => Code::NoMemory,
    }
}

/// The name of a participant; empty for one that there isn't.
pub fn participant_name(plan: &Plan, by: Participant) -> &[u8]
    ensures { result.now ≡ participant_name plan.now by }
{
    if by < plan.participants() {
        plan.participant_name(by)
    } else {
        b""
    }
}

/// Tells the first value of an object and its value by the journal; nothing of an object that there isn't.
pub fn tell_values(session: &Session, object: Object, first: &mut i64, now: &mut i64)
    ensures { AreValuesOf (machine_of session.now) object first.old first.new now.old now.new }
{
    if object < session.told.plan().objects() {
        *first = session.told.plan().initial(object);
        *now = session.told.value(object);
    }
}
