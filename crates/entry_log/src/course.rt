//! What came to a device with a log, as contracts alone read it. It takes no bytes, and its calls do nothing when the program runs.

ghost use Rattle.std.specs.Prelude.{◌≡◌, List, [], ◌∷◌, ◌++◌};
ghost use Rattle.std.specs.Borrow.{ftrue};
ghost use Rattle.entry_log.specs.Live.{Moment};

use caa_base::written::entry::{Drill, Entry, Object};
use std::marker::{Model, PhantomData};

/// What came to a device: what it was asked for, and whether it did it; or an entry that it was told of.
#[derive(Clone, Copy, Drop)]
pub(crate) enum Note<'a> {
    /// To be laid out with these values and drills, and with room for so many puts.
    Laid {
        values: &'a [i64],
        drills: &'a [Drill],
        puts: u64,
        done: bool,
    },
    /// To bring an object to a value.
    Put {
        object: Object,
        value: i64,
        back: bool,
        done: bool,
    },
    /// This entry stands in the journal.
    Entered {
        entry: &'a Entry,
    },
}

/// One thing that came, and the sink of the log as it was when it came.
#[derive(Drop)]
pub(crate) struct Notice<'a, K> {
    pub note: Note<'a>,
    pub sink: &'a K,
}

/// All that came to a device since it was made, each with the sink of its log as it then was; and that sink at the beginning.
#[derive(Drop)]
pub(crate) struct Course<K> {
    of: PhantomData<K>,
    /// The oldest first.
    pub ghost seen: { List (Moment K) },
    pub ghost opened: { K },
}

impl<K> Model for Course<K> {
    ghost also_owns = { λ _. ftrue };
}

// It owns nothing.
unsafe impl<K: Send> Send for Course<K> {}

impl<K> Course<K> {
    ghost use Rattle.entry_log.specs.Noting.{moment_by};

    /// Nothing came yet to a device whose log has this sink.
    pub(crate) fn over(sink: &K) -> Course<K>
        ensures { (result.seen ≡ []) × (result.opened ≡ sink.now) }
    {
        Course { of: PhantomData }
    }

    /// One thing more came.
    pub(crate) fn then(&self, notice: &Notice<'_, K>) -> Course<K>
        ensures { (result.seen ≡ self.now.seen ++ moment_by notice.now ∷ []) × (result.opened ≡ self.now.opened) }
    {
        Course { of: PhantomData }
    }
}
