//! Notes that meet in cells, and an observer that reads what a writer publishes.

ghost use Rattle.std.specs.Prelude.{◌≡◌, length, replicate, true, IfOk};
ghost use Rattle.place_plan.specs.Plans.Places.{initials_of};

use crate::machines::plan_of;
use place_plan::plans::plan::Plan;
use shared_views::{Announcer, CommittedWriter, Observer, Reading, ResolutionCells};
use std::alloc::Global;
use std::process::Abort;
use std::sync::Wait;
use std::test::Fail;
use std::thread;
use std::thread::Threads;

/// Two objects, of the values 5 and 0, and no play.
const TWO_OBJECTS: &[u8] = b"object x 5\nobject y 0\n";

/// Announces in a thread of its own that place 1 was resolved to the exception 7, and says whether that was done.
fn announce_elsewhere<R: Threads + Wait + Sync>(
    rt: &R,
    cells: &ResolutionCells,
    announcer: Announcer,
) -> bool
    requires { (length cells.now ≡ 3) × (announcer ≡ replicate 3 true) }
{
    thread::scope(
        thread::scope_env(),
        rt,
        |scope| -> bool
            requires { (length cells.now ≡ 3) × (announcer ≡ replicate 3 true) }
        {
            let child = scope.spawn(
                move || -> bool
                    requires { (length cells.now ≡ 3) × (announcer ≡ replicate 3 true) }
                {
                    let mut announcer = announcer;
                    let mut note = cells.note(1);
                    cells.announce(&mut announcer, &mut note, 7).is_ok()
                },
            );
            match child {
                Ok(child) => child.join(rt),
                Err(_) => false,
            }
        },
    )
}

#[test]
fn notes_meet(rt: HostRuntime) -> Result<(), Fail> {
    let (cells, announcer) = ResolutionCells::open(rt.alloc(), 3)?;
    let mut first = cells.note(1);
    assert!(rt; cells.resolved(&mut first).is_none());
    assert!(rt; announce_elsewhere(&rt, &cells, announcer));
    let mut second = cells.note(1);
    assert_eq!(rt; cells.resolved(&mut second), Some(7));
    assert_eq!(rt; cells.resolved(&mut first), Some(7));
    cells.agree(&mut first, &mut second);
    assert!(rt; cells.resolved(&mut cells.note(2)).is_none());
    Ok(())
}

/// A writer of the objects of a plan, and an observer of it.
fn opened<R: Wait + Abort>(
    rt: &R,
    alloc: Global,
    plan: &Plan,
) -> Result<(CommittedWriter, Observer), Fail>
    ensures writer { IfOk result (λ r. r.0.initials ≡ initials_of plan.now) }
    ensures observer { IfOk result (λ r. r.1.initials ≡ initials_of plan.now) }
    ensures ours { IfOk result (λ r. r.1.known.book ≡ r.0.publications.book) }
{
    let (writer, mut observers) = CommittedWriter::open(rt, alloc, plan, 1)?;
    match observers.pop() {
        Some(observer) => Ok((writer, observer)),
        None => panic!(rt; "an observer was asked for"),
    }
}

/// What is read of y in turn: at first, after a publication of which the observer isn't told, and after one of which it is.
fn readings<R: Wait>(
    rt: &R,
    alloc: Global,
    writer: &mut CommittedWriter,
    observer: &mut Observer,
) -> [Option<Reading>; 4]
    requires objects { (length writer.old.initials ≡ 2) × (length observer.old.initials ≡ 2) }
    requires ours { observer.old.known.book ≡ writer.old.publications.book }
{
    let before = observer.read(1).ok();
    let is_first = writer.publish(rt, alloc, &[(0, 7), (1, 1)]).is_ok();
    let between = observer.read(1).ok();
    let is_second = writer.publish(rt, alloc, &[(1, 2)]).is_ok();
    observer.learn(writer.tell());
    let after = observer.read(1).ok();
    if is_first && is_second {
        [before, between, after, Some(writer.last(0))]
    } else {
        [None, None, None, None]
    }
}

fn says(reading: Option<Reading>, ends: u64, value: i64) -> bool {
    reading == Some(Reading { ends, value })
}

#[test]
fn observer_reads_publications(rt: HostRuntime) -> Result<(), Fail> {
    let alloc = rt.alloc();
    let plan = plan_of(alloc, TWO_OBJECTS)?;
    assert_eq!(rt; plan.objects(), 2);
    let (mut writer, mut observer) = opened(&rt, alloc, &plan)?;
    let readings = readings(&rt, alloc, &mut writer, &mut observer);
    writer.end(&rt);
    let [before, between, after, last] = readings;
    assert!(rt; says(before, 0, 0) && says(between, 1, 1) && says(after, 2, 2) && says(last, 2, 7));
    Ok(())
}
