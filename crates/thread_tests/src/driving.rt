//! Machines that are played to their end, and what seats and observers of one manager are told.

ghost use Rattle.std.specs.Prelude.{◌≡◌, [], All, IfOk};
ghost use Rattle.place_plan.specs.Plans.Places.{initials_of};
ghost use Rattle.action_manager.specs.Managers.{IsSeatIn, book_in};

use crate::machines::hall;
use action_manager::{Closed, Manager, ManagerError, Opened, Seat};
use caa_base::outside::gate::{EmptyGate, Gate};
use caa_base::written::entry::{Exception, Kind, Participant, Place};
use place_plan::rules::machine::{Answer, Machine};
use role_driver::finish::finish;
use role_driver::running::{Finished, RunError, run};
use role_driver::{ToldGate, go_on};
use shared_views::{Observer, Reading};
use std::alloc::Global;
use std::process::Abort;
use std::sync::Wait;
use std::sync::atomic::{AtomicBool, AtomicU64, Ordering};
use std::test::Fail;
use worker_pool::pool;

/// Ann reads x, and bob works for two rounds, which is one play of ten entries.
const LOOK: &[u8] =
    b"participant ann\nparticipant bob\nobject x 5\naction look\nuse x\nroles a b\nbody a\nread x\nbody b\nwork 2\nend\nplay look ann bob\n";

/// Ann adds 1 to x, which is 0 at first, and in a play of his own bob does so too.
const TWO_PLAYS: &[u8] =
    b"participant ann\nparticipant bob\nobject x 0\naction w\nuse x\nroles r\nbody r\nread x\nadd x 1\nend\nplay w ann\nplay w bob\n";

/// Ann raises `left`, and bob `right`. Both stand below `mid`, for which both have a handler.
const TWO_SIBLINGS: &[u8] =
    b"participant ann\nparticipant bob\ngraph g\nexception mid\nexception left\nexception right\ncover mid left\ncover mid right\nend\naction duo\ninternal g\nroles a b\nbody a\nraise left\nhandler a mid\nbody b\nraise right\nhandler b mid\nend\nplay duo ann bob\n";

/// The number of `mid`.
const MID: Exception = 1;

/// A gate that counts the calls for the participant 1 in the place 0, and all others as 1,000 each.
#[derive(Drop)]
struct Count {
    calls: AtomicU64,
}

impl Gate for Count {
    fn work(&self, by: Participant, place: Place) {
        let call = if by == 1 && place == 0 { 1 } else { 1000 };
        self.calls.fetch_add(call, Ordering::SeqCst);
    }
}

#[test]
fn finish_calls_the_gate(rt: HostRuntime) -> Result<(), Fail> {
    let gate = Count {
        calls: AtomicU64::new(0),
    };
    let machine = finish(hall(rt.alloc(), LOOK)?, &gate);
    assert!(rt; machine.complete());
    assert_eq!(rt; machine.journal_len(), 10);
    assert_eq!(rt; gate.calls.load(Ordering::SeqCst), 1);
    Ok(())
}

/// How a play in threads ended.
fn ended<M: Drop>(played: Result<Finished<M>, RunError<M>>) -> Result<(), Fail> {
    match played {
        Ok(
            Finished {
                machine: _,
                seens: _,
                refused: _,
            },
        ) => Ok(()),
        Err(RunError { machine: _ }) => Err(Fail::from("no memory")),
    }
}

/// The gate is told once of bob's work. With one worker the play ends only where it lets go the seat of ann, who waits for bob.
#[test]
fn threads_call_the_gate(rt: HostRuntime) -> Result<(), Fail> {
    let gate = Count {
        calls: AtomicU64::new(0),
    };
    ended(run(&rt, rt.alloc(), hall(rt.alloc(), LOOK)?, &gate))?;
    assert_eq!(rt; gate.calls.load(Ordering::SeqCst), 1);
    for workers in 1..3 {
        ended(pool(&rt, rt.alloc(), hall(rt.alloc(), LOOK)?, workers, &gate))?;
        assert_eq!(rt; gate.calls.load(Ordering::SeqCst), u64::from(workers) + 1);
    }
    Ok(())
}

/// A gate that counts the handlers for `mid` in the place 0, and all others as 1,000 each.
#[derive(Drop)]
struct Handlers {
    calls: AtomicU64,
}

impl Gate for Handlers {
    fn work(&self, _by: Participant, _place: Place) {}

    fn handle(&self, _by: Participant, place: Place, exception: Exception) {
        let call = if place == 0 && exception == MID {
            1
        } else {
            1000
        };
        self.calls.fetch_add(call, Ordering::SeqCst);
    }
}

/// The gate is told once of each of the two handlers.
#[test]
fn threads_tell_of_handlers(rt: HostRuntime) -> Result<(), Fail> {
    let gate = Handlers {
        calls: AtomicU64::new(0),
    };
    ended(run(&rt, rt.alloc(), hall(rt.alloc(), TWO_SIBLINGS)?, &gate))?;
    assert_eq!(rt; gate.calls.load(Ordering::SeqCst), 2);
    ended(pool(&rt, rt.alloc(), hall(rt.alloc(), TWO_SIBLINGS)?, 1, &gate))?;
    assert_eq!(rt; gate.calls.load(Ordering::SeqCst), 4);
    Ok(())
}

/// Ann works twice in one role.
const TWO_STROKES: &[u8] =
    b"participant ann\naction strokes\nroles r\nbody r\nwork 1\nwork 1\nend\nplay strokes ann\n";

/// A gate that is told of works with their numbers, and of handlers. It adds the numbers up, and counts a handler as 1,000.
#[derive(Drop)]
struct Numbers {
    sum: AtomicU64,
}

impl ToldGate for Numbers {
    fn begin_work(&self, _by: Participant, _place: Place, made: u64) {
        self.sum.fetch_add(made, Ordering::SeqCst);
    }

    fn begin_handler(&self, _by: Participant, _place: Place, _exception: Exception) {
        self.sum.fetch_add(1000, Ordering::SeqCst);
    }
}

/// Ann has arrived and started the place, so her works have the numbers 2 and 3.
#[test]
fn works_go_by_numbers(rt: HostRuntime) -> Result<(), Fail> {
    let gate = Numbers {
        sum: AtomicU64::new(0),
    };
    ended(run(&rt, rt.alloc(), hall(rt.alloc(), TWO_STROKES)?, &gate))?;
    assert_eq!(rt; gate.sum.load(Ordering::SeqCst), 5);
    ended(pool(&rt, rt.alloc(), hall(rt.alloc(), TWO_STROKES)?, 1, &gate))?;
    assert_eq!(rt; gate.sum.load(Ordering::SeqCst), 10);
    Ok(())
}

/// A manager of a machine that has no entry yet, with its seats and with one observer.
pub fn opened<M: Machine + Drop, R: Wait + Abort>(
    rt: &R,
    alloc: Global,
    machine: M,
) -> Result<(Manager<M>, Vec<Seat<M>>, Observer), Fail>
    requires none { M.journal_of machine ≡ [] }
    ensures seats { IfOk result (λ o. All (λ s. IsSeatIn M.base_of o.0 s) o.1.items) }
    ensures initials { IfOk result (λ o. o.2.initials ≡ initials_of (M.plan_of machine)) }
    ensures ours { IfOk result (λ o. o.2.known.book ≡ book_in o.0) }
{
    match Manager::open(rt, alloc, machine, 1) {
        Ok(
            Opened {
                manager,
                seats,
                mut observers,
            },
        ) => match observers.pop() {
            Some(observer) => Ok((manager, seats, observer)),
            None => panic!(rt; "no observer"),
        },
        Err(ManagerError { machine: _ }) => Err(Fail::from("no memory")),
    }
}

/// What a manager gives back that is closed with all its seats.
pub fn closed<M: Machine, R: Abort>(rt: &R, manager: Manager<M>, seats: Vec<Seat<M>>) -> Closed<M>
    requires opened { All (λ s. IsSeatIn M.base_of manager s) seats.items }
    ensures ours { result.writer.publications.book ≡ book_in manager }
{
    match manager.close(seats) {
        Ok(closed) => closed,
        Err(_missing) => panic!(rt; "a seat is missing"),
    }
}

/// One turn of each seat, with its mixing work.
fn go_round<M: Machine, R: Wait>(rt: &R, manager: &Manager<M>, seats: &mut Vec<Seat<M>>)
    requires { All (λ s. IsSeatIn M.base_of manager.now s) seats.old.items }
    ensures { All (λ s. IsSeatIn M.base_of manager.now s) seats.new.items }
{
    for index in 0..seats.len() {
        go_on(rt, manager, &mut seats[index], &EmptyGate);
    }
}

/// So many rounds.
fn go_rounds<M: Machine, R: Wait>(
    rt: &R,
    manager: &Manager<M>,
    seats: &mut Vec<Seat<M>>,
    count: u32,
)
    requires { All (λ s. IsSeatIn M.base_of manager.now s) seats.old.items }
    ensures { All (λ s. IsSeatIn M.base_of manager.now s) seats.new.items }
{
    for _ in 0..count {
        go_round(rt, manager, seats);
    }
}

#[test]
fn observer_reads_plays(rt: HostRuntime) -> Result<(), Fail> {
    let hall = hall(rt.alloc(), TWO_PLAYS)?;
    assert_eq!(rt; hall.plan().objects(), 1);
    let (manager, mut seats, mut observer) = opened(&rt, rt.alloc(), hall)?;
    assert_eq!(rt; observer.read(0), Ok(Reading { ends: 0, value: 0 }));
    go_rounds(&rt, &manager, &mut seats, 20);
    let told = manager.news().wait_past(&rt, 1, &AtomicBool::new(false));
    let Closed {
        machine,
        mut writer,
        stale,
    } = closed(&rt, manager, seats);
    observer.learn(writer.tell());
    let last = observer.read(0);
    writer.end(&rt);
    assert!(rt; machine.complete() && !stale);
    assert_eq!(rt; last, Ok(Reading { ends: 2, value: 2 }));
    assert_eq!(rt; told, 2);
    Ok(())
}

/// The kind of the entry that a turn made, if it made one, and the exception that the note of this turn gives, if there is one.
type TurnNote = Option<(Kind, Option<Exception>)>;

/// One turn of a seat, and what is noted of it.
fn noted<M: Machine, R: Wait>(rt: &R, manager: &Manager<M>, seat: &mut Seat<M>) -> TurnNote
    requires { IsSeatIn M.base_of manager.now seat.old }
    ensures { IsSeatIn M.base_of manager.now seat.new }
{
    let Answer::Did(entry) = manager.step(rt, seat, None) else {
        return None;
    };
    let known = match seat.take_note() {
        Ok(mut note) => manager.cells().resolved(&mut note),
        Err(_) => None,
    };
    Some((entry.kind, known))
}

/// The same for the seat at this index; nothing where there is none.
fn noted_at<M: Machine, R: Wait>(
    rt: &R,
    manager: &Manager<M>,
    seats: &mut Vec<Seat<M>>,
    index: usize,
) -> TurnNote
    requires { All (λ s. IsSeatIn M.base_of manager.now s) seats.old.items }
    ensures { All (λ s. IsSeatIn M.base_of manager.now s) seats.new.items }
{
    if index < seats.len() {
        noted(rt, manager, &mut seats[index])
    } else {
        None
    }
}

#[test]
fn notes_handed_out(rt: HostRuntime) -> Result<(), Fail> {
    let hall = hall(rt.alloc(), TWO_SIBLINGS)?;
    let (manager, mut seats, _observer) = opened(&rt, rt.alloc(), hall)?;
    for (index, kind, exception) in [
        (0, Kind::Arrive, None),
        (1, Kind::Arrive, None),
        (1, Kind::Start, None),
        (1, Kind::Raise, None),
        (0, Kind::Raise, None),
        (1, Kind::Resolve, Some(MID)),
        (0, Kind::Handle, Some(MID)),
        (1, Kind::Handle, Some(MID)),
    ] {
        let noted = noted_at(&rt, &manager, &mut seats, index);
        assert_eq!(rt; noted, Some((kind, exception)));
    }
    let Closed {
        machine: _,
        writer,
        stale: _,
    } = closed(&rt, manager, seats);
    writer.end(&rt);
    Ok(())
}
