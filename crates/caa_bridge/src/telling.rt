//! What the operator is told at the end.

use crate::call::Call;
use crate::endings::Endings;
use crate::files::FileError;
use caa_base::written::entry::{Kind, Object};
use caa_base::written::journal::Journal;
use caa_commands::status::Status;
use line_plant::noted::Link;
use place_plan::plans::plan::Plan;
use std::io::Write;

/// The value that an object was last confirmed to have; the first of them was laid out.
fn confirmed(journal: &Journal, object: Object, laid: i64) -> i64 {
    let mut value = laid;
    for entry in journal.as_slice() {
        let is_done = match entry.kind {
            Kind::Write => true,
            Kind::Restore => entry.mark == 0,
            _ => false,
        };
        if is_done && entry.arg == object {
            value = entry.value;
        }
    }
    value
}

/// Tells what each object was last confirmed to be.
fn tell_values<W: Write>(operator: &mut W, plan: &Plan, journal: &Journal) {
    let _ = operator.write_all(
        b"What each object was last confirmed to be, which is no more than that:\n",
    );
    for object in 0..plan.objects() {
        let _ = operator.write_all(b"object ");
        let _ = operator.write_all(plan.object_name(object));
        let value = confirmed(journal, object, plan.initial(object));
        let _ = write!(operator, " {value}\n");
    }
}

/// Tells what became of plays that aren't all as they should be: the link, how the plays ended, and the values.
pub fn tell_plays<W: Write>(
    operator: &mut W,
    plan: &Plan,
    journal: &Journal,
    endings: &Endings<'_>,
    link: Link,
    unsent: u64,
) {
    match link {
        Link::Whole => {
            if !endings.are_well() {
                endings.tell(operator);
            }
            return;
        }
        Link::Broken { number } => {
            let _ = write!(operator, "the link broke at line {number}");
        }
        Link::GivenUp => {
            let _ = write!(
                operator,
                "a play ended as failed, and the device was given up"
            );
        }
    }
    let plays = endings.not_begun();
    let _ = write!(
        operator,
        "; puts refused unsent: {unsent}; plays not begun at the machine: {plays}\n"
    );
    endings.tell(operator);
    tell_values(operator, plan, journal);
}

/// Tells why nothing was played, or that not all was written.
pub fn tell_status<W: Write>(operator: &mut W, status: Status, call: &Call<'_>, is_played: bool) {
    let (script, journal) = (call.script, call.journal);
    let _ = match status {
        Status::Done | Status::SomeFailed | Status::Usage | Status::Illegal => Ok(()),
        Status::SourceFault => write!(
            operator,
            "{script}: the script can't be read; nothing was played\n"
        ),
        Status::Refused => write!(
            operator,
            "{script}: the script is refused, and nothing was played; {journal} says why\n"
        ),
        Status::SinkFault if is_played => write!(
            operator,
            "{journal}: the journal couldn't be written whole; what the file has is a front of it\n"
        ),
        Status::SinkFault => write!(
            operator,
            "{journal}: the journal can't be written; nothing was played\n"
        ),
        Status::PlantFault => write!(
            operator,
            "{script}: the device wasn't laid out; nothing was played\n"
        ),
        Status::OutOfMemory => write!(operator, "{script}: there isn't memory enough\n"),
    };
}

/// The status of files that aren't as they have to be, once it was told why.
pub fn tell_file_error<W: Write>(operator: &mut W, error: FileError, call: &Call<'_>) -> Status {
    let (script, journal) = (call.script, call.journal);
    let status = match error {
        FileError::Unread => Status::SourceFault,
        FileError::TooLong => Status::Refused,
        FileError::Unwritten => Status::SinkFault,
        FileError::Same => Status::Usage,
        FileError::OutOfMemory => Status::OutOfMemory,
    };
    match error {
        FileError::TooLong => {
            let _ = write!(
                operator,
                "{script}: the script is too long, and nothing was played\n"
            );
        }
        FileError::Same => {
            let _ = write!(
                operator,
                "{script} and {journal} are the same file; nothing was played\n"
            );
        }
        _ => tell_status(operator, status, call, false),
    }
    status
}
