//! Those who sleep until a play has ended.

use crate::machines::hall;
use action_manager::News;
use caa_base::outside::gate::EmptyGate;
use role_driver::running::{Finished, RunError, run};
use std::sync::Wait;
use std::sync::atomic::AtomicBool;
use std::test::Fail;
use std::thread::join;

/// Ann adds 1 to x, which is 0 at first, and in a play of his own bob does so too. Two watchers watch x and y.
const WATCHED: &[u8] =
    b"participant ann\nparticipant bob\nobject x 0\nobject y 0\naction w\nuse x\nroles r\nbody r\nread x\nadd x 1\nend\nplay w ann\nplay w bob\nwatch x\nwatch y\n";

/// So many times tells some that a play has ended, and waits until as much was told here.
fn tell_and_wait<R: Wait>(rt: &R, there: &News, here: &News, times: u64) {
    let over = AtomicBool::new(false);
    for told in 0..times {
        there.tell(rt);
        here.wait_past(rt, told, &over);
    }
}

/// Two threads wake each other in turn. If one isn't woken, both sleep for ever.
#[test]
fn readers_are_woken(rt: HostRuntime) -> Result<(), Fail> {
    let one = News::new();
    let two = News::new();
    join(
        &rt,
        || tell_and_wait(&rt, &one, &two, 2000),
        || tell_and_wait(&rt, &two, &one, 2000),
    );
    let over = AtomicBool::new(false);
    assert_eq!(rt; one.wait_past(&rt, 1999, &over), 2000);
    Ok(())
}

/// A watcher that isn't called back sleeps for ever, and the play doesn't end.
#[test]
fn watchers_are_called_back(rt: HostRuntime) -> Result<(), Fail> {
    for _ in 0..20 {
        match run(&rt, rt.alloc(), hall(rt.alloc(), WATCHED)?, &EmptyGate) {
            Ok(
                Finished {
                    machine: _,
                    seens,
                    refused: _,
                },
            ) => assert!(rt; seens.is_some()),
            Err(RunError { machine: _ }) => return Err(Fail::from("no memory")),
        }
    }
    Ok(())
}
