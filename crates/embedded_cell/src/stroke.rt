use caa_base::outside::gate::Gate;
use caa_base::written::entry::{Participant, Place};
use std::sync::atomic::{AtomicU64, Ordering};

/// How often one has to look at the end switch until a stroke has ended. In this simulated machine time passes by looks.
const LOOKS: u64 = 4;

/// The stroke that is under way, if any, as the end switch tells it. The device begins it, and the gate awaits its end.
#[derive(Drop)]
pub struct Stroke {
    looks_left: AtomicU64,
}

impl Stroke {
    /// None is under way.
    pub fn new() -> Stroke {
        Stroke {
            looks_left: AtomicU64::new(0),
        }
    }

    /// Begins a stroke, unless one is under way.
    pub fn begin(&self) -> bool {
        if self.looks_left.load(Ordering::SeqCst) > 0 {
            return false;
        }
        self.looks_left.store(LOOKS, Ordering::SeqCst);
        true
    }

    /// Looks at the end switch: whether no stroke is under way.
    fn has_ended(&self) -> bool {
        let left = self.looks_left.load(Ordering::SeqCst);
        self.looks_left
            .store(left.saturating_sub(1), Ordering::SeqCst);
        left == 0
    }
}

/// A gate that makes use of being told: who is about to work waits here for the end of the stroke. The entry of a work is made behind
/// the gate, so not before the stroke has ended; and a put after it finds the press at rest. A stroke that takes longer than any isn't
/// awaited: the press then refuses the next one.
impl Gate for Stroke {
    fn work(&self, _by: Participant, _place: Place) {
        for _look in 0..=LOOKS {
            if self.has_ended() {
                return;
            }
        }
    }
}
