use crate::news::News;
use caa_base::written::entry::Participant;
use core_words::crew::{Crew, is_in, nobody};
use std::alloc::{AllocError, Global};
use std::sync::{Condvar, Mutex, MutexGuard, Wait};

/// What stands behind the door: how long the journal was when a turn last ended and when an entry last woke somebody, and who sleeps.
#[derive(Drop)]
pub struct Waiting {
    length: u64,
    stirred: u64,
    asleep: Crew,
}

impl Waiting {
    /// Those who had no entry when they asked last, and whom no entry has woken since.
    pub fn asleep(&self) -> Crew {
        self.asleep
    }
}

/// Who sleeps.
#[derive(Clone, Copy)]
pub enum Sleeper {
    /// A participant, until an entry wakes it.
    Participant(Participant),
    /// A worker that takes turns for several participants, until an entry wakes any of them.
    Worker,
}

/// The door of a turn. Whoever wants a turn takes the mutex, and holds it until the turn is over: then the ticket that it draws is
/// served at once, and all others who want one sleep in the mutex. Who has no entry now sleeps on a bell of its own, which is rung
/// by the turn whose entry wakes it.
///
/// No promise rests on the door, and no contract speaks of it. Turns are kept apart by their tickets, and the machine isn't behind
/// the door: where `step` takes the mutex only once its turn is over, every proof stands. The door is where those sleep who would
/// only look.
///
/// Nobody is forgotten. Whether there is something for a sleeper is asked, and its sleep begins, under the mutex, and each turn
/// enters there whom its entry wakes. Who isn't woken has no entry: that is the law of sleepers (`sleeps_on`).
#[derive(Drop)]
pub struct Door {
    waiting: Mutex<Waiting>,
    bells: Vec<Condvar>,
    stir: Condvar,
    news: News,
}

impl Door {
    /// A door with a bell for each of so many participants. No turn was taken yet, and nobody sleeps.
    pub fn new(alloc: Global, participants: u32) -> Result<Door, AllocError> {
        let mut bells = Vec::new(alloc);
        for _by in 0..participants {
            bells.push(Condvar::new())?;
        }
        Ok(Door {
            waiting: Mutex::new(Waiting {
                length: 0,
                stirred: 0,
                asleep: nobody(),
            }),
            bells,
            stir: Condvar::new(),
            news: News::new(),
        })
    }

    /// Where those sleep who only read what plays commit. They don't stand in the door.
    pub fn news(&self) -> &News {
        &self.news
    }

    /// Takes the mutex, which is let go with the guard.
    pub fn enter<'d, R: Wait>(&'d self, rt: &R) -> MutexGuard<'d, Waiting> {
        self.waiting.lock(rt)
    }

    /// At the end of a turn: tells how long the journal is and who sleeps from now on, and wakes those who slept and don't any more.
    pub fn tell(&self, waiting: &mut Waiting, length: u64, asleep: Crew) {
        let woken = waiting.asleep & !asleep;
        waiting.length = length;
        waiting.asleep = asleep;
        if woken != 0 {
            waiting.stirred = length;
            self.stir.notify_all();
            self.ring(woken);
        }
    }

    /// Rings the bells of these.
    fn ring(&self, woken: Crew) {
        for by in 0..Crew::BITS {
            if is_in(woken, by) {
                if let Some(bell) = self.bells.get(by as usize) {
                    bell.notify_all();
                }
            }
        }
    }

    /// Sleeps until it is woken, and takes the mutex. So many entries it has seen.
    ///
    /// A participant that has seen the whole journal sleeps from now on. A worker doesn't sleep where anybody was woken by an entry
    /// that it hasn't seen.
    pub fn enter_woken<'d, R: Wait>(
        &'d self,
        rt: &R,
        sleeper: Sleeper,
        seen: u64,
    ) -> MutexGuard<'d, Waiting> {
        let waiting = self.waiting.lock(rt);
        match sleeper {
            Sleeper::Participant(by) => self.sleep(rt, waiting, by, seen),
            Sleeper::Worker => self
                .stir
                .wait_while(rt, waiting, |waiting| waiting.stirred <= seen),
        }
    }

    /// Sleeps until this participant is woken.
    fn sleep<'d, R: Wait>(
        &self,
        rt: &R,
        mut waiting: MutexGuard<'d, Waiting>,
        by: Participant,
        seen: u64,
    ) -> MutexGuard<'d, Waiting> {
        let Some(bell) = self.bells.get(by as usize) else {
            return waiting;
        };
        if waiting.length <= seen && by < Crew::BITS {
            waiting.asleep |= 1 << by;
        }
        bell.wait_while(rt, waiting, |waiting| is_in(waiting.asleep, by))
    }
}
