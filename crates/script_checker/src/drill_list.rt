ghost use Rattle.std.specs.Prelude.{◌≡◌, ◌++◌, ◌∷◌, [], length, OnOk, OnErr};
ghost use Rattle.std.specs.List.{list_any};
ghost use Rattle.script_checker.specs.Numbers.{is_drill};

use caa_base::written::entry::Drill;
use std::alloc::{AllocError, Global};
use std::collections::HashSet;
use std::marker::Model;

/// Drills in the order in which they were declared, seen as the list of them.
///
/// A table has the puts that they refuse, so a put is found in one look however many drills there are.
#[derive(Drop)]
pub struct DrillList {
    items: Vec<Drill>,
    /// Each as its object and which put of the object it is.
    puts: HashSet<(u32, u32)>,
}

impl Model for DrillList {
    ghost use Rattle.std.specs.Prelude.{List};
    ghost use Rattle.caa_base.specs.declared.written.entry.Drill.{Drill};
    ghost use Rattle.script_checker.specs.inner.DrillTable.{HasPutsOf};

    ghost Value = { List Drill };

    ghost view = { λ d. d.items.items };

    ghost invariant = { λ d. HasPutsOf d.puts d.items.items };
}

impl DrillList {
    /// No drills.
    pub fn new(alloc: Global) -> DrillList
        ensures { result ≡ [] }
    {
        DrillList {
            items: Vec::new(alloc),
            puts: HashSet::new(alloc),
        }
    }

    /// Adds a drill at the end.
    pub fn push(&mut self, drill: Drill) -> Result<(), AllocError>
        ensures added { OnOk result (self.new ≡ self.old ++ drill ∷ []) }
        ensures refused { OnErr result (self.new ≡ self.old) }
    {
        self.items.reserve(1)?;
        self.puts.insert((drill.object, drill.nth))?;
        self.items.push(drill)?;
        Ok(())
    }

    /// How many drills there are.
    pub fn len(&self) -> usize
        ensures { result ≡ length self.now }
    {
        self.items.len()
    }

    /// Whether a put of an object is drilled.
    pub fn contains(&self, object: u32, nth: u32) -> bool
        ensures { result ≡ list_any (is_drill object nth) self.now }
    {
        self.puts.contains(&(object, nth))
    }

    /// The drills, in order.
    pub fn into_vec(self) -> Vec<Drill>
        ensures { result.items ≡ self }
    {
        self.items
    }
}
