//! A log beside which somebody watches.

use crate::log::Log;
use caa_base::written::entry::Entry;
use place_plan::plans::plan::Plan;

/// Who sees each entry as it is made, such as an operator's display.
pub trait Watch {
    /// This entry was made.
    fn saw(&mut self, plan: &Plan, entry: &Entry);
}

/// Nobody watches.
#[derive(Drop)]
pub struct Nobody;

impl Watch for Nobody {
    fn saw(&mut self, _plan: &Plan, _entry: &Entry) {}
}

/// A log, and a watcher that sees each entry after the log was told of it, also where the log has stopped.
#[derive(Drop)]
pub struct Watched<L, W> {
    pub log: L,
    pub watcher: W,
}

impl<L: Log, W: Watch> Log for Watched<L, W> {
    ghost tells = { λ watched plan journal. L.tells watched.log plan journal };

    fn add(&mut self, plan: &Plan, entry: &Entry) {
        self.log.add(plan, entry);
        self.watcher.saw(plan, entry);
    }
}
