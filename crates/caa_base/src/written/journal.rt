ghost use Rattle.std.specs.Prelude.{◌≡◌, ◌∷◌, ◌++◌, [], ◌<◌, ◌↔◌, length, slice_index_or, IfOk, IsTrue};

use crate::written::entry::{Entry, OutOfMemory};
use std::alloc::Global;
use std::marker::Model;

/// The entries that were made, the oldest first, and room for more.
#[derive(Drop)]
pub struct Journal {
    items: Vec<Entry>,
}

impl Model for Journal {
    ghost use Rattle.caa_base.specs.Written.Journal.{Entries};
    ghost use Rattle.std.specs.Prelude.{vec_capacity};

    ghost Value = { Entries };

    ghost view = { λ j. record { entries = j.items.items; room = vec_capacity j.items } };
}

impl Journal {
    /// No entries, and no room for any. It takes no memory.
    pub fn empty(alloc: Global) -> Self
        ensures entries { result.entries ≡ [] }
        ensures room { result.room ≡ 0 }
    {
        Journal {
            items: Vec::new(alloc),
        }
    }

    /// No entries, and room for this many.
    pub fn with_room(alloc: Global, room: u64) -> Result<Self, OutOfMemory>
        ensures entries { IfOk result (λ j. j.entries ≡ []) }
        ensures room { IfOk result (λ j. j.room ≡ room) }
    {
        let items = Vec::with_capacity(alloc, room as usize)?;
        Ok(Journal { items })
    }

    /// The journal of these entries. It takes no memory.
    pub fn from_vec(items: Vec<Entry>) -> Self
        ensures { result.entries ≡ items.items }
    {
        Journal { items }
    }

    /// Adds an entry at the end, where there is room for it. It takes no memory.
    pub fn push(&mut self, entry: Entry)
        requires { length self.old.entries < self.old.room }
        ensures entries { self.new.entries ≡ self.old.entries ++ entry ∷ [] }
        ensures room { self.new.room ≡ self.old.room }
    {
        self.items.push_reserved(entry);
    }

    /// How many entries there are.
    pub fn len(&self) -> u64
        ensures { result ≡ length self.now.entries }
    {
        self.items.len() as u64
    }

    /// Whether there are none.
    pub fn is_empty(&self) -> bool
        ensures { IsTrue result ↔ (self.now.entries ≡ []) }
    {
        self.items.is_empty()
    }

    /// The entry at this index, counted from 0.
    pub fn get(&self, index: u64) -> Entry
        requires { index < length self.now.entries }
        ensures { result ≡ slice_index_or self.now.entries index result }
    {
        self.items[index as usize]
    }

    /// All entries, the oldest first.
    pub fn as_slice(&self) -> &[Entry]
        ensures { result.now ≡ self.now.entries }
    {
        self.items.as_slice()
    }
}
