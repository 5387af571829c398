//! Names of a kind stand in an index set, in the order of their declarations. Lists that can't grow long are looked through
//! instead: the handlers of a role, the watches, the bodies of an action. For the objects of a `use` line the declared objects are
//! gone along, and those taken that the line has, as the definition does. Whether a name stands twice in a line is asked without
//! memory up to sixteen names, and else by a table for that line alone. So two tests of a line can find no memory; their answer is
//! that of any want of memory, never a cause.

ghost use Rattle.std.specs.Prelude.{◌≡◌, ◌≤◌, ◌++◌, ◌∷◌, [], false, true, length, OnOk, OnErr, IfOk};
ghost use Rattle.caa_base.specs.Written.Lists.{member, index_of, is_empty};
ghost use Rattle.place_plan.specs.Drafts.DraftRules.{all_differ};
ghost use Rattle.script_checker.specs.Numbers.{is_among, most_names};

use indexmap::IndexSet;
use std::alloc::{AllocError, Global};
use std::marker::Model;

/// Names of a list: so many that their number and the place of each are below the greatest `u32`.
const MOST_NAMES: u32 = 4_294_967_294;

/// Different names in the order in which they were declared, seen as the list of their numbers in the script.
///
/// A name is found in a few looks however many there are.
#[derive(Drop)]
pub struct NumberList {
    names: IndexSet<u32>,
}

impl Model for NumberList {
    ghost use Rattle.std.specs.Prelude.{List, ℕ, ◌≤◌, length};
    ghost use Rattle.script_checker.specs.Numbers.{most_names};

    ghost Value = { List ℕ };

    ghost view = { λ n. n.names.keys };

    ghost invariant = { λ n. length n.names.keys ≤ most_names };
}

impl NumberList {
    /// No names.
    pub fn new(alloc: Global) -> NumberList
        ensures { result ≡ [] }
    {
        NumberList {
            names: IndexSet::new(alloc),
        }
    }

    /// The list of these names. A list that would be too long wants memory too.
    #[tactic(auto, using(crate::proofs::NumberTables::fresh_next))]
    pub fn from_slice(alloc: Global, names: &[u32]) -> Result<NumberList, AllocError>
        requires { all_differ names.now ≡ true }
        ensures { IfOk result (λ list. list ≡ names.now) }
    {
        let mut list = NumberList::new(alloc);
        for name in names {
            list.push(*name)?;
        }
        Ok(list)
    }

    /// Adds a name at the end. A list that can't grow any more wants memory too.
    #[tactic(auto, using(crate::proofs::NumberTables::key_added))]
    pub fn push(&mut self, name: u32) -> Result<(), AllocError>
        requires { is_among self.old name ≡ false }
        ensures added { OnOk result (self.new ≡ self.old ++ name ∷ []) }
        ensures refused { OnErr result (self.new ≡ self.old) }
    {
        if self.len() >= MOST_NAMES {
            return Err(AllocError);
        }
        self.names.insert(name)?;
        Ok(())
    }

    /// How many names there are.
    pub fn len(&self) -> u32
        ensures count { result ≡ length self.now }
        ensures small { result ≤ most_names }
    {
        self.names.len() as u32
    }

    /// Whether there are none.
    pub fn is_empty(&self) -> bool
        ensures { result ≡ is_empty self.now }
    {
        self.names.as_slice().is_empty()
    }

    /// Where a name stands, or how many names there are where it isn't there.
    #[tactic(auto, using(crate::proofs::NumberTables::key_found, crate::proofs::NumberTables::key_absent))]
    pub fn find(&self, name: u32) -> u32
        ensures place { result ≡ index_of name self.now }
        ensures small { result ≤ most_names }
    {
        match self.names.get_index_of(&name) {
            Some(place) => place as u32,
            None => self.len(),
        }
    }

    /// Whether a name is there.
    #[tactic(auto, using(crate::proofs::NumberTables::among_is_member))]
    pub fn contains(&self, name: u32) -> bool
        ensures found { result ≡ is_among self.now name }
        ensures listed { result ≡ member name self.now }
    {
        self.find(name) < self.len()
    }

    /// The names, in order.
    pub fn items(&self) -> &[u32]
        ensures names { result.now ≡ self.now }
        ensures small { length result.now ≤ most_names }
    {
        self.names.as_slice()
    }
}
