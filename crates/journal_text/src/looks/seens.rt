ghost use Rattle.std.specs.Prelude.{◌≡◌, ◌∷◌, ◌++◌, [], ◌<◌, ◌≤◌, ◌↔◌, length, slice_index_or, IfOk, IsTrue};
ghost use Rattle.caa_base.specs.Written.Limits.{IsValue};
ghost use Rattle.journal_text.specs.Watching.Looks.{AreInOrder, last_watch};

use caa_base::written::entry::OutOfMemory;
use std::alloc::Global;
use std::marker::Model;

/// What one look of a watcher found.
#[derive(Clone, Copy, Debug, PartialEq, Eq)]
pub struct Seen {
    /// Which of the plan's watches it is, counted from 0.
    pub watch: u32,
    /// How many plays had ended.
    pub ends: u64,
    /// The value of the watched object, from -10^12 to 10^12.
    pub value: i64,
}

/// All that watchers saw, watch by watch, and room for more.
#[derive(Drop)]
pub struct Seens {
    items: Vec<Seen>,
}

impl Model for Seens {
    ghost use Rattle.std.specs.Prelude.{vec_capacity};
    ghost use Rattle.journal_text.specs.Watching.Looks.{Looks, AreInOrder};

    ghost Value = { Looks };

    ghost view = { λ s. record { seens = s.items.items; room = vec_capacity s.items } };

    ghost invariant = { λ s. AreInOrder s.items.items };
}

impl Seens {
    /// Nothing was seen, and there is no room for anything. It takes no memory.
    pub fn empty(alloc: Global) -> Self
        ensures seens { result.seens ≡ [] }
        ensures room { result.room ≡ 0 }
    {
        Seens {
            items: Vec::new(alloc),
        }
    }

    /// Nothing was seen, and there is room for this many looks.
    pub fn with_room(alloc: Global, room: u64) -> Result<Self, OutOfMemory>
        ensures seens { IfOk result (λ s. s.seens ≡ []) }
        ensures room { IfOk result (λ s. s.room ≡ room) }
    {
        let items = Vec::with_capacity(alloc, room as usize)?;
        Ok(Seens { items })
    }

    /// The looks of a vector, where they are in order. It takes no memory.
    pub(crate) fn from_vec(items: Vec<Seen>) -> Self
        requires { AreInOrder items.items }
        ensures { result.seens ≡ items.items }
    {
        Seens { items }
    }

    /// Adds a look at the end, where there is room for it. Its watch is none before that of the last look. It takes no memory.
    pub fn push(&mut self, seen: Seen)
        requires room { length self.old.seens < self.old.room }
        requires watch { last_watch 0 self.old.seens ≤ seen.watch }
        requires value { IsValue seen.value }
        ensures seens { self.new.seens ≡ self.old.seens ++ seen ∷ [] }
        ensures room { self.new.room ≡ self.old.room }
    {
        self.items.push_reserved(seen);
    }

    /// How many looks there are.
    pub fn len(&self) -> u64
        ensures { result ≡ length self.now.seens }
    {
        self.items.len() as u64
    }

    /// Whether there are none.
    pub fn is_empty(&self) -> bool
        ensures { IsTrue result ↔ (self.now.seens ≡ []) }
    {
        self.items.is_empty()
    }

    /// The look at this index, counted from 0.
    pub fn get(&self, index: u64) -> Seen
        requires { index < length self.now.seens }
        ensures { result ≡ slice_index_or self.now.seens index result }
    {
        self.items[index as usize]
    }

    /// All looks, the first first.
    pub fn as_slice(&self) -> &[Seen]
        ensures { result.now ≡ self.now.seens }
    {
        self.items.as_slice()
    }
}
