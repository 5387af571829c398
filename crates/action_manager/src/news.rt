use std::sync::atomic::{AtomicBool, Ordering};
use std::sync::{Condvar, Mutex, Wait};

/// Where those sleep who read committed values: until one play more has ended, or until they are called back.
///
/// No promise rests on it, and no contract speaks of it. Nobody who sleeps here misses the end of a play: the ends are counted under
/// the mutex once a play's values can be read, and whoever sleeps has read since the last end that it was told of.
#[derive(Drop)]
pub struct News {
    ends: Mutex<u64>,
    bell: Condvar,
}

impl News {
    /// No play has ended.
    pub fn new() -> News {
        News {
            ends: Mutex::new(0),
            bell: Condvar::new(),
        }
    }

    /// Tells that a play has ended, and wakes all who sleep.
    pub fn tell<R: Wait>(&self, rt: &R) {
        let mut ends = self.ends.lock(rt);
        *ends = ends.saturating_add(1);
        self.bell.notify_all();
    }

    /// Sleeps until more than so many plays have ended, or until the flag is raised. Says how many have ended.
    pub fn wait_past<R: Wait>(&self, rt: &R, seen: u64, over: &AtomicBool) -> u64 {
        let ends = self.ends.lock(rt);
        let ends = self.bell.wait_while(
            rt,
            ends,
            |ends| *ends <= seen && !over.load(Ordering::SeqCst),
        );
        *ends
    }

    /// Wakes all who sleep, once flags were raised.
    pub fn call<R: Wait>(&self, rt: &R) {
        let _ends = self.ends.lock(rt);
        self.bell.notify_all();
    }
}
