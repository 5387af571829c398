//! A work that is brought, by steps that answer each entry and by steps that ask on.

ghost use Rattle.std.specs.Prelude.{All};
ghost use Rattle.action_manager.specs.Managers.{IsSeatIn};

use crate::driving::{closed, opened};
use crate::machines::hall;
use action_manager::{Closed, Manager, Seat};
use caa_base::written::entry::Kind;
use caa_base::written::work::WorkDone;
use place_plan::rules::machine::{Answer, Machine};
use std::sync::Wait;
use std::test::Fail;

/// Ann works for two rounds.
const WORK: &[u8] = b"participant ann\naction w\nroles r\nbody r\nwork 2\nend\nplay w ann\n";

/// The call by which a seat takes a turn.
#[derive(Clone, Copy)]
enum Call {
    Step,
    StepOn,
}

/// A turn of a seat, with the work that its last answer asked for.
fn taken<M: Machine, R: Wait>(
    rt: &R,
    manager: &Manager<M>,
    seat: &mut Seat<M>,
    call: Call,
    last: Answer,
) -> Answer
    requires { IsSeatIn M.base_of manager.now seat.old }
    ensures { IsSeatIn M.base_of manager.now seat.new }
{
    let hint = match last {
        Answer::Work {
            place: _,
            rounds,
            from,
        } => Some(WorkDone::make(from, rounds)),
        _ => None,
    };
    match call {
        Call::Step => manager.step(rt, seat, hint),
        Call::StepOn => manager.step_on(rt, seat, hint),
    }
}

/// The same with the first seat; NotYet where there is none.
fn taken_first<M: Machine, R: Wait>(
    rt: &R,
    manager: &Manager<M>,
    seats: &mut Vec<Seat<M>>,
    call: Call,
    last: Answer,
) -> Answer
    requires { All (λ s. IsSeatIn M.base_of manager.now s) seats.old.items }
    ensures { All (λ s. IsSeatIn M.base_of manager.now s) seats.new.items }
{
    if seats.is_empty() {
        Answer::NotYet
    } else {
        taken(rt, manager, &mut seats[0], call, last)
    }
}

/// The kind of the entry that an answer tells of.
fn kind_of(answer: Answer) -> Option<Kind> {
    match answer {
        Answer::Did(entry) => Some(entry.kind),
        _ => None,
    }
}

/// A step that brings a work answers the entry of this work, and the next step what comes after it.
#[test]
fn step_answers_the_work(rt: HostRuntime) -> Result<(), Fail> {
    let (manager, mut seats, _observer) = opened(&rt, rt.alloc(), hall(rt.alloc(), WORK)?)?;
    let arrived = taken_first(&rt, &manager, &mut seats, Call::Step, Answer::NotYet);
    let started = taken_first(&rt, &manager, &mut seats, Call::Step, arrived);
    let asked = taken_first(&rt, &manager, &mut seats, Call::Step, started);
    let worked = taken_first(&rt, &manager, &mut seats, Call::Step, asked);
    let next = taken_first(&rt, &manager, &mut seats, Call::Step, worked);
    let Closed {
        machine,
        writer,
        stale: _,
    } = closed(&rt, manager, seats);
    writer.end(&rt);
    assert_eq!(rt;
        [kind_of(arrived), kind_of(started)],
        [Some(Kind::Arrive), Some(Kind::Start)]
    );
    assert!(rt;
        matches!(
            asked,
            Answer::Work {
                place: 0,
                rounds: 2,
                from: _
            }
        )
    );
    assert_eq!(rt;
        [kind_of(worked), kind_of(next)],
        [Some(Kind::Work), Some(Kind::Verdict)]
    );
    assert_eq!(rt; machine.journal_len(), 4);
    Ok(())
}

/// A step that asks on answers what comes after the work that it brings. The journal is the same.
#[test]
fn step_on_answers_what_comes_next(rt: HostRuntime) -> Result<(), Fail> {
    let (manager, mut seats, _observer) = opened(&rt, rt.alloc(), hall(rt.alloc(), WORK)?)?;
    let arrived = taken_first(&rt, &manager, &mut seats, Call::StepOn, Answer::NotYet);
    let started = taken_first(&rt, &manager, &mut seats, Call::StepOn, arrived);
    let asked = taken_first(&rt, &manager, &mut seats, Call::StepOn, started);
    let next = taken_first(&rt, &manager, &mut seats, Call::StepOn, asked);
    let Closed {
        machine,
        writer,
        stale: _,
    } = closed(&rt, manager, seats);
    writer.end(&rt);
    assert!(rt;
        matches!(
            asked,
            Answer::Work {
                place: 0,
                rounds: 2,
                from: _
            }
        )
    );
    assert_eq!(rt; kind_of(next), Some(Kind::Verdict));
    assert_eq!(rt; machine.journal_len(), 4);
    Ok(())
}
