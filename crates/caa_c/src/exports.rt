//! What C calls.

ghost use Rattle.std.specs.Prelude.{◌≡◌, None, reverse};
ghost use Rattle.journal_text.specs.Texts.Text.{participant_name, object_name, last_outcome};
ghost use Rattle.caa_c.specs.Codes.{number_of, outcome_number};
ghost use Rattle.caa_c.specs.Handed.{IsHanded, IsUnhanded, LineAnswer, entry_line_at, rest_line_at};
ghost use Rattle.caa_c.specs.Machines.{machine_in, Holds, Goes, Stepped, TookAnswer, TookWork};
ghost use Rattle.caa_c.specs.Opened.{OpenAnswer};
ghost use Rattle.caa_c.specs.Sizes.{AreSizesOf, AreValuesOf};
ghost use Rattle.caa_c.specs.Steps.{bare_step};
ghost use Rattle.caa_c.specs.declared.code.Code.TheVariants as code;

use crate::code::{Code, outcome_number};
use crate::handing::{hand_line, hand_out, participant_name, tell_values};
use crate::handle::Caa;
use crate::lines::{find_entry_line, find_rest_line};
use crate::opening::open;
use crate::sizes::{Sizes, sizes_of};
use crate::step::{Step, bare_step};
use crate::stepping;
use journal_text::texts::text_writer::object_name;
use std::alloc::Global;

/// Opens a machine at the beginning of a script, and closes the one that was open. All memory that it will need is taken here.
///
/// `Refused`: the script is refused at the line, of which 0 stands for the script as a whole, and `cause` has as much of the number
/// and the word of the cause as there is room for. `NoMemory`: nothing is told of the script. At both, what was open still is.
#[unsafe(no_mangle)]
pub extern "C" fn caa_open(
    alloc: Global,
    caa: &mut Caa,
    script: &[u8],
    line: &mut u32,
    cause: &mut [u8],
) -> u32
    ensures { OpenAnswer script.now (machine_in caa.old) (machine_in caa.new) line.new cause.old cause.new result }
{
    match open(alloc, script) {
        Ok(session) => {
            *line = 0;
            *caa = Caa::of_box(alloc, session);
            Code::Done.number()
        }
        Err(why) => {
            *line = why.line();
            hand_out(why.phrase(), cause);
            why.code().number()
        }
    }
}

/// Closes what is open, and gives its memory back.
#[unsafe(no_mangle)]
pub extern "C" fn caa_close(caa: &mut Caa)
    ensures { machine_in caa.new ≡ None }
{
    drop(caa.take());
}

/// Makes the entry that is next for a participant, or says what is to be done before, or why it has none.
///
/// `Did`, `Works`, `Puts`, `Busy`, `Waits` and `Over` are the answers of the machine, and `step` says more of them. `Unfit`: there is no
/// such participant.
#[unsafe(no_mangle)]
pub extern "C" fn caa_next(caa: &mut Caa, by: u32, step: &mut Step) -> u32
    ensures machine { Goes (machine_in caa.old) (machine_in caa.new) (Stepped by step.new) (step.new ≡ bare_step code.Closed) }
    ensures what { result ≡ step.new.what }
{
    let Some(mut session) = caa.take() else {
        *step = bare_step(Code::Closed);
        return step.what;
    };
    *step = stepping::next(&mut session, by);
    caa.put_back(session);
    step.what
}

/// Takes the answer to the put that was asked for, and makes its entry. `Unfit`: none was asked for, and nothing changed.
#[unsafe(no_mangle)]
pub extern "C" fn caa_answer(caa: &mut Caa, done: bool) -> u32
    ensures { Goes (machine_in caa.old) (machine_in caa.new) (TookAnswer done result) (result ≡ number_of code.Closed) }
{
    let Some(mut session) = caa.take() else {
        return Code::Closed.number();
    };
    let answer = stepping::answer(&mut session, done);
    caa.put_back(session);
    answer
}

/// Takes the end of the work with this ticket, and makes its entry. `Unfit`: a put isn't answered yet, or the participant isn't at this
/// work any more; and nothing changed. It takes time in line with the rounds of the work.
#[unsafe(no_mangle)]
pub extern "C" fn caa_work_done(caa: &mut Caa, by: u32, ticket: u64) -> u32
    ensures { Goes (machine_in caa.old) (machine_in caa.new) (TookWork by ticket result) (result ≡ number_of code.Closed) }
{
    let Some(mut session) = caa.take() else {
        return Code::Closed.number();
    };
    let answer = stepping::work_done(&mut session, by, ticket);
    caa.put_back(session);
    answer
}

/// Tells how large the plan and the journal are, which is legal, and whether each participant is through with its plays.
#[unsafe(no_mangle)]
pub extern "C" fn caa_sizes(caa: &mut Caa, sizes: &mut Sizes) -> u32
    ensures kept { machine_in caa.new ≡ machine_in caa.old }
    ensures sizes { Holds (machine_in caa.old) (AreSizesOf sizes.new) (sizes.new ≡ sizes.old) }
    ensures answer { Holds (machine_in caa.old) (λ _. result ≡ number_of code.Done) (result ≡ number_of code.Closed) }
{
    let Some(session) = caa.take() else {
        return Code::Closed.number();
    };
    *sizes = sizes_of(&session);
    caa.put_back(session);
    Code::Done.number()
}

/// The name of a participant: its length, and as much of it as there is room for. 0: there is no such participant.
#[unsafe(no_mangle)]
pub extern "C" fn caa_participant(caa: &mut Caa, by: u32, name: &mut [u8]) -> usize
    ensures kept { machine_in caa.new ≡ machine_in caa.old }
    ensures name { Holds (machine_in caa.old) (λ m. IsHanded (participant_name m.plan by) name.old name.new result) (IsUnhanded name.old name.new result) }
{
    let Some(session) = caa.take() else {
        return 0;
    };
    let length = hand_out(participant_name(session.told.plan(), by), name);
    caa.put_back(session);
    length
}

/// The name of an object, as of a participant, its value before the first entry, and its value by the journal.
#[unsafe(no_mangle)]
pub extern "C" fn caa_object(
    caa: &mut Caa,
    object: u32,
    first: &mut i64,
    now: &mut i64,
    name: &mut [u8],
) -> usize
    ensures kept { machine_in caa.new ≡ machine_in caa.old }
    ensures values { Holds (machine_in caa.old) (λ m. AreValuesOf m object first.old first.new now.old now.new)
        ((first.new ≡ first.old) × (now.new ≡ now.old)) }
    ensures name { Holds (machine_in caa.old) (λ m. IsHanded (object_name m.plan object) name.old name.new result) (IsUnhanded name.old name.new result) }
{
    let Some(session) = caa.take() else {
        return 0;
    };
    tell_values(&session, object, first, now);
    let length = hand_out(object_name(session.told.plan(), object), name);
    caa.put_back(session);
    length
}

/// How a place ended, by its number. 0: it hasn't, or there is no such place, or no machine is open.
#[unsafe(no_mangle)]
pub extern "C" fn caa_outcome(caa: &mut Caa, place: u32) -> u32
    ensures kept { machine_in caa.new ≡ machine_in caa.old }
    ensures outcome { Holds (machine_in caa.old) (λ m. result ≡ outcome_number (last_outcome (reverse m.journal) place)) (result ≡ 0) }
{
    let Some(session) = caa.take() else {
        return 0;
    };
    let number = outcome_number(session.told.outcome(place));
    caa.put_back(session);
    number
}

/// The line of an entry in the text of the journal, with its line feed: its length, and as much of it as there is room for. `Unfit`:
/// there is no such entry.
#[unsafe(no_mangle)]
pub extern "C" fn caa_line(caa: &mut Caa, entry: u64, line: &mut [u8], length: &mut usize) -> u32
    ensures kept { machine_in caa.new ≡ machine_in caa.old }
    ensures line { Holds (machine_in caa.old) (λ m. LineAnswer (entry_line_at m.plan m.journal entry) line.old line.new length.new result)
        ((line.new ≡ line.old) × (result ≡ number_of code.Closed)) }
{
    let Some(mut session) = caa.take() else {
        return Code::Closed.number();
    };
    let found = find_entry_line(&mut session, entry);
    let code = hand_line(found, session.line.as_slice(), line, length);
    caa.put_back(session);
    code.number()
}

/// The line of this number among those that stand behind the entries in the text of the journal: one for each object, and then one
/// for each place. It is handed out as that of an entry.
#[unsafe(no_mangle)]
pub extern "C" fn caa_rest(caa: &mut Caa, number: u64, line: &mut [u8], length: &mut usize) -> u32
    ensures kept { machine_in caa.new ≡ machine_in caa.old }
    ensures line { Holds (machine_in caa.old) (λ m. LineAnswer (rest_line_at m.plan m.journal number) line.old line.new length.new result)
        ((line.new ≡ line.old) × (result ≡ number_of code.Closed)) }
{
    let Some(mut session) = caa.take() else {
        return Code::Closed.number();
    };
    let found = find_rest_line(&mut session, number);
    let code = hand_line(found, session.line.as_slice(), line, length);
    caa.put_back(session);
    code.number()
}
