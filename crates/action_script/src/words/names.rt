ghost use Rattle.std.specs.Prelude.{◌≡◌, ◌<◌, ◌+◌, ◌^◌, length, [], is_some, true, IfSome, IfOk, IfErr, OnOk};
ghost use Rattle.action_script.specs.Words.NumberedNames.{with_name, number_in};
ghost use Rattle.caa_base.specs.Written.Names.{is_name};
ghost use Rattle.action_script.specs.declared.script_error.ScriptCause.TheVariants as cause;

use crate::script_error::ScriptCause;
use caa_base::written::name::{Name, is_name};
use indexmap::IndexSet;
use std::alloc::Global;
use std::marker::Model;

/// The names of a script, seen as their list: a name that is new goes behind those that came before it.
#[derive(Drop)]
pub struct NameTable<'a> {
    names: IndexSet<&'a [u8]>,
}

impl<'a> Model for NameTable<'a> {
    ghost use Rattle.std.specs.Prelude.{◌≡◌, List, ℕ, map, true};
    ghost use Rattle.std.specs.List.{list_all};
    ghost use Rattle.caa_base.specs.Written.Names.{is_name};

    ghost Value = { List (List ℕ) };

    ghost view = { λ t. map (λ k. k.now) t.names.keys };

    ghost invariant = { λ t. list_all is_name (map (λ k. k.now) t.names.keys) ≡ true };
}

impl<'a> NameTable<'a> {
    /// No names.
    pub fn new(alloc: Global) -> Self
        ensures { result ≡ [] }
    {
        NameTable {
            names: IndexSet::new(alloc),
        }
    }

    /// Adds a name at the end, where it isn't there already, and tells its number.
    fn add(&mut self, name: &'a [u8]) -> Result<u32, ScriptCause>
        requires room { length self.old + 1 < 2 ^ 32 }
        requires name { is_name name.now ≡ true }
        ensures added { OnOk result (self.new ≡ with_name self.old name.now) }
        ensures number { IfOk result (λ number. number ≡ number_in self.new name.now) }
        ensures refused { IfErr result (λ e. e ≡ cause.OutOfMemory) }
    {
        let (number, _) = self.names.insert_full(name)?;
        Ok(number as u32)
    }

    /// The number of a name, which goes to the end where it isn't there already; none for a word that is no name.
    pub fn take(&mut self, word: &'a [u8]) -> Result<Option<u32>, ScriptCause>
        requires room { length self.old + 1 < 2 ^ 32 }
        ensures name { IfOk result (λ number. is_some number ≡ is_name word.now) }
        ensures added { IfOk result (λ number. is_some number ≡ true → self.new ≡ with_name self.old word.now) }
        ensures number { IfOk result (λ number. IfSome number (λ n. n ≡ number_in self.new word.now)) }
        ensures refused { IfErr result (λ e. e ≡ cause.OutOfMemory) }
    {
        if !is_name(word) {
            return Ok(None);
        }
        let number = self.add(word)?;
        Ok(Some(number))
    }

    /// The number of a name; where it isn't there, the count of names.
    pub fn number(&self, name: &[u8]) -> u32
        requires { length self.now < 2 ^ 32 }
        ensures value { result ≡ number_in self.now name.now }
    {
        match self.names.get_index_of(&name) {
            Some(number) => number as u32,
            None => self.names.len() as u32,
        }
    }

    /// The names, in order.
    pub fn to_names(&self, alloc: Global) -> Result<Vec<Name>, ScriptCause>
        ensures names { IfOk result (λ names. names.items ≡ self.now) }
        ensures refused { IfErr result (λ e. e ≡ cause.OutOfMemory) }
    {
        let mut names = Vec::new(alloc);
        for name in self.names.as_slice() {
            names.push(Name::from_bytes(alloc, name)?)?;
        }
        Ok(names)
    }
}
