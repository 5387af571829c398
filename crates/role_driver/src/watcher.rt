//! A reading is recorded where it is the first, or where more plays had ended than at the last one recorded. Once all participants
//! are over each observer is told what the writer published, and takes one last reading; where that is refused, or isn't of all
//! publications, the writer's own stands in. What an observer might have seen of more than the writer published is left out,
//! though none sees more (`knows_no_more`).

ghost use Rattle.std.specs.Prelude.{◌≡◌, ◌<◌, true, nat_lt, length};
ghost use Rattle.role_driver.specs.inner.Records.{is_record, is_news};

use action_manager::News;
use caa_base::written::entry::Object;
use shared_views::{CommittedWriter, Observer, ReadRefused, Reading};
use std::sync::Wait;
use std::sync::atomic::{AtomicBool, Ordering};

/// Whether a reading is the first, or more plays had ended at it than at the last of these.
fn is_news(seen: &[Reading], reading: Reading) -> bool
    ensures { result ≡ is_news seen.now reading }
{
    seen.is_empty() || seen[seen.len() - 1].ends < reading.ends
}

/// Reads one object by an observer, and records what it reads as plays end.
#[derive(Drop)]
pub struct Watcher {
    object: Object,
    observer: Observer,
    seen: Vec<Reading>,
    /// The refusal of the last look, if that was refused.
    refused: Option<ReadRefused>,
    ghost known: { nat_lt object (length observer.initials) ≡ true },
    ghost right: { is_record observer.initials observer.known object seen.items ≡ true },
}

impl Watcher {
    ghost use Rattle.shared_views.specs.Publications.{Begins};
    ghost use Rattle.shared_views.specs.Committing.{IsReading};
    ghost use Rattle.role_driver.specs.inner.Watchers.{task_of, HasLooked};
    ghost use Rattle.role_driver.specs.inner.Gathering.{task_by};

    /// A watcher that has recorded nothing yet. It records no more than there is room for in the list, which is cleared.
    pub fn new(object: Object, observer: Observer, mut seen: Vec<Reading>) -> Watcher
        requires object { object < length observer.initials }
        ensures { task_of result ≡ record { object = object; initials = observer.initials; book = observer.known.book } }
    {
        seen.clear();
        Watcher {
            object,
            observer,
            seen,
            refused: None,
        }
    }

    /// Takes a reading, and records it where it is the first or more plays have ended than at the last recorded one.
    ///
    /// Where the reading is refused, or no room is left, nothing is recorded.
    fn look(&mut self)
        ensures task { task_of self.new ≡ task_of self.old }
        ensures looked { HasLooked self.new }
    {
        match self.observer.read(self.object) {
            Ok(reading) => {
                self.refused = None;
                if is_news(self.seen.as_slice(), reading)
                    && self.seen.len() < self.seen.capacity()
                {
                    self.seen.push_reserved(reading);
                }
            }
            Err(refused) => self.refused = Some(refused),
        }
    }

    /// Looks, and again each time that plays have ended, until the flag is raised. In between it sleeps. It need not return.
    pub fn watch<R: Wait>(mut self, rt: &R, news: &News, over: &AtomicBool) -> Watcher
        ensures task { task_of result ≡ task_of self }
        ensures looked { HasLooked result }
    {
        let mut ends = 0;
        for _ in rt.forever() {
            self.look();
            if over.load(Ordering::SeqCst) {
                return self;
            }
            ends = news.wait_past(rt, ends, over);
        }
        unreachable!()
    }

    /// What was recorded.
    pub fn seen(&self) -> &[Reading]
        ensures seen { result.now ≡ self.now.seen.items }
        ensures right { is_record self.now.observer.initials self.now.observer.known self.now.object result.now ≡ true }
    {
        self.seen.as_slice()
    }

    /// The reading after all publications of the writer: by the observer, once it was told of them, and by the writer where the
    /// observer's reading is refused or isn't after all of them.
    pub fn last_look(&mut self, writer: &mut CommittedWriter) -> Reading
        requires { task_of self.old ≡ task_by writer.old self.old.object }
        ensures task { task_of self.new ≡ task_of self.old }
        ensures writer { writer.new ≡ writer.old }
        ensures known { Begins writer.old.publications self.new.observer.known }
        ensures last { IsReading writer.old.initials writer.old.publications self.old.object result }
    {
        let told = writer.tell();
        let ends = told.ends();
        self.observer.learn(told);
        if let Ok(reading) = self.observer.read(self.object) {
            if reading.ends == ends {
                return reading;
            }
        }
        writer.last(self.object)
    }
}
