use crate::calls::{Meeting, TWO_WORKS, in_threads};
use caa_base::outside::gate::Gate;
use caa_base::written::entry::{Participant, Place};
use caa_commands::status::Status;
use std::sync::atomic::{AtomicU64, Ordering};
use std::test::Fail;

#[test]
fn pool_overlaps(rt: HostRuntime) -> Result<(), Fail> {
    let gate = Meeting::new();
    let ended = in_threads(&rt, rt.alloc(), &["pool", "2"], TWO_WORKS, &gate)?;
    assert_eq!(rt; ended, (Status::Done, Status::Done));
    assert!(rt; gate.have_met());
    Ok(())
}

/// A gate that holds each comer for a while, and notes how many were in it at once, at most.
#[derive(Drop)]
struct Narrow {
    inside: AtomicU64,
    most: AtomicU64,
}

impl Gate for Narrow {
    fn work(&self, _by: Participant, _place: Place) {
        let others = self.inside.fetch_add(1, Ordering::SeqCst);
        self.most
            .fetch_max(others.saturating_add(1), Ordering::SeqCst);
        for _ in 0..1_000_000 {
            self.inside.load(Ordering::SeqCst);
        }
        self.inside.fetch_sub(1, Ordering::SeqCst);
    }
}

#[test]
fn pool_width(rt: HostRuntime) -> Result<(), Fail> {
    let script =
        b"participant p1\nparticipant p2\nparticipant p3\nparticipant p4\naction w\nroles r\nbody r\nwork 1\nend\nplay w p1\nplay w p2\nplay w p3\nplay w p4\n".as_slice();
    let gate = Narrow {
        inside: AtomicU64::new(0),
        most: AtomicU64::new(0),
    };
    let ended = in_threads(&rt, rt.alloc(), &["pool", "2"], script, &gate)?;
    assert_eq!(rt; ended, (Status::Done, Status::Done));
    assert!(rt; gate.most.load(Ordering::SeqCst) <= 2);
    Ok(())
}
