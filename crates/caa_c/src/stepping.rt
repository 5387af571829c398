//! The calls that make entries, also for a participant that there isn't.

ghost use Rattle.std.specs.Prelude.{◌≡◌, Option};
ghost use Rattle.caa_c.specs.Machines.{machine_of, number_fit, Stepped, TookAnswer, TookWork};

use crate::code::Code;
use crate::session::Session;
use crate::step::{Step, bare_step, step_of};
use caa_base::written::entry::{Entry, Participant};

/// The number of the answer of a call that makes an entry, if it fits.
fn number_fit(made: Option<Entry>) -> u32
    ensures { result ≡ number_fit made }
{
    match made {
        Some(_) => Code::Done.number(),
        None => Code::Unfit.number(),
    }
}

/// Makes the entry that is next for a participant, or says what is to be done before.
pub fn next(session: &mut Session, by: Participant) -> Step
    ensures plan { (machine_of session.new).plan ≡ (machine_of session.old).plan }
    ensures stepped { Stepped by result (machine_of session.old) (machine_of session.new) }
{
    if by >= session.told.plan().participants() {
        return bare_step(Code::Unfit);
    }
    let entries = session.told.journal().len();
    let next = session.told.next(by);
    step_of(&next, entries)
}

/// Takes the answer to the put that was asked for.
pub fn answer(session: &mut Session, done: bool) -> u32
    ensures plan { (machine_of session.new).plan ≡ (machine_of session.old).plan }
    ensures took { TookAnswer done result (machine_of session.old) (machine_of session.new) }
{
    let made = session.told.answer(done);
    number_fit(made)
}

/// Takes the end of the work with this ticket.
pub fn work_done(session: &mut Session, by: Participant, ticket: u64) -> u32
    ensures plan { (machine_of session.new).plan ≡ (machine_of session.old).plan }
    ensures took { TookWork by ticket result (machine_of session.old) (machine_of session.new) }
{
    if by >= session.told.plan().participants() {
        return Code::Unfit.number();
    }
    let made = session.told.work_done(by, ticket);
    number_fit(made)
}
