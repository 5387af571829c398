use crate::calls::in_threads;
use caa_base::outside::gate::Gate;
use caa_base::written::entry::{Participant, Place};
use caa_commands::status::Status;
use std::sync::atomic::{AtomicU64, Ordering};
use std::test::Fail;

/// A gate that holds whoever works for so long that the others have fallen asleep.
#[derive(Drop)]
struct Slow {
    looks: AtomicU64,
}

impl Gate for Slow {
    fn work(&self, _by: Participant, _place: Place) {
        for _ in 0..1_000_000 {
            self.looks.load(Ordering::SeqCst);
        }
    }
}

/// Bob waits for ann in a nested action, at a raise and at a verdict, and carl for the end of the play that holds the object. Then
/// carl waits for bob.
const WAITS: &[u8] =
    b"participant ann\nparticipant bob\nparticipant carl\nobject x 0\ngraph g\nexception left\nend\naction quiet\nuse x\nroles a b\nbody a\nwork 1\nbody b\nend\naction duo\nuse x\ninternal g\nroles a b\nnest q quiet a b\nbody a\nenter q\nwork 1\nraise left\nhandler a left\nwork 1\nbody b\nenter q\nhandler b left\nend\naction solo\nuse x\nroles c\nbody c\nput x 1\nend\nplay duo ann bob\nplay solo carl\nplay duo bob carl\n";

/// Whoever isn't woken sleeps for ever, and the play doesn't end. Two of three workers sleep with a seat each, and whom an entry
/// wakes may be with either, so both are to be woken.
#[test]
fn sleepers_are_woken(rt: HostRuntime) -> Result<(), Fail> {
    let gate = Slow {
        looks: AtomicU64::new(0),
    };
    for words in [
        &["run"].as_slice(),
        &["pool", "2"].as_slice(),
        &["pool", "3"].as_slice(),
    ] {
        let ended = in_threads(&rt, rt.alloc(), words, WAITS, &gate)?;
        assert_eq!(rt; ended, (Status::Done, Status::Done));
    }
    Ok(())
}
