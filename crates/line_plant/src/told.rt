//! A history that contracts alone read. It takes no bytes, and its calls do nothing when the program runs.

ghost use Rattle.std.specs.Prelude.{◌≡◌, List, [], ◌∷◌, ◌++◌};
ghost use Rattle.std.specs.Borrow.{ftrue};
ghost use Rattle.caa_base.specs.declared.outside.plant.Asked.{Asked as WasAsked};

use caa_base::written::entry::{Drill, Entry, Object};
use std::marker::{Model, PhantomData};

/// One thing that came to a device: what it was asked for, and whether it did it; or an entry that it was told of.
#[derive(Clone, Copy, Drop)]
pub(crate) enum Note<'a> {
    /// To be laid out with these values and drills, and with room for so many puts.
    Laid {
        values: &'a [i64],
        drills: &'a [Drill],
        puts: u64,
        done: bool,
    },
    /// To bring an object to a value.
    Put {
        object: Object,
        value: i64,
        back: bool,
        done: bool,
    },
    /// This entry stands in the journal.
    Entered {
        entry: &'a Entry,
    },
}

/// All that came to a device since it was made, and a stream of it as it was then.
#[derive(Drop)]
pub(crate) struct Told<K> {
    of: PhantomData<K>,
    /// The oldest first.
    pub ghost asked: { List WasAsked },
    pub ghost opened: { K },
}

impl<K> Model for Told<K> {
    ghost also_owns = { λ _. ftrue };
}

// It owns nothing.
unsafe impl<K: Send> Send for Told<K> {}

impl<K> Told<K> {
    ghost use Rattle.line_plant.specs.Asking.{asked_by};

    /// Nothing came yet to a device with this stream.
    pub(crate) fn over(stream: &K) -> Told<K>
        ensures { (result.asked ≡ []) × (result.opened ≡ stream.now) }
    {
        Told { of: PhantomData }
    }

    /// One thing more came.
    pub(crate) fn then(&self, note: &Note<'_>) -> Told<K>
        ensures { (result.asked ≡ self.now.asked ++ asked_by note.now ∷ []) × (result.opened ≡ self.now.opened) }
    {
        Told { of: PhantomData }
    }
}
