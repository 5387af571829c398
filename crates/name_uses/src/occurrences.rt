//! Where the names of a script stand.

ghost use Rattle.std.specs.Prelude.{◌≡◌, ◌≢◌, ◌++◌, ℕ, List, Bool, map, filter, find, option_copied, IfOk, OnOk};
ghost use Rattle.action_script.specs.Forms.Uses.{used_words, declared_words};
ghost use Rattle.script_checker.specs.declared.declared.SoFar.{SoFar};
ghost use Rattle.script_checker.specs.After.{after};
ghost use Rattle.script_checker.specs.DeclaredSoFar.{nothing_yet};
ghost use Rattle.name_uses.specs.Occurrences.{occurrences, is_of, stands_at};
ghost use Rattle.name_uses.specs.inner.Scopes.{said};
ghost use Rattle.name_uses.specs.inner.Found.{occurrence_at, found_in};

use crate::declared_words::declared_words;
use crate::scope::Scope;
use crate::thing::Thing;
use action_script::forms::script::{Line, Script};
use action_script::forms::uses::{SortedWord, used_words};
use std::alloc::{AllocError, Global};

/// A name where it stands.
#[derive(Clone, Copy, Debug, PartialEq, Eq)]
pub struct Occurrence {
    /// Which line of the text it is in, counted from 1.
    pub line: u32,
    /// Which word of the line it is, where the first, which is no name, is 0.
    pub word: usize,
    /// The name, by its number in the script.
    pub name: u32,
    /// What it means there.
    pub thing: Thing,
    /// Whether the line declares it.
    pub declares: bool,
}

/// Adds these words of a line, where this is declared.
fn push_words(
    found: &mut Vec<Occurrence>,
    scope: &Scope,
    declares: bool,
    line: u32,
    words: &[SortedWord],
) -> Result<(), AllocError>
    ensures { OnOk result (found.new.items ≡ found.old.items ++ map (occurrence_at scope.now declares line) words.now) }
{
    for word in words {
        found.push(Occurrence {
            line,
            word: word.word,
            name: word.name,
            thing: scope.meaning(word.sort, word.name),
            declares,
        })?;
    }
    Ok(())
}

/// Takes a line, and adds its names.
fn take_line(
    alloc: Global,
    found: &mut Vec<Occurrence>,
    scope: &mut Scope,
    line: &Line,
) -> Result<(), AllocError>
    ensures scope { OnOk result (scope.new ≡ said scope.old line.now.form) }
    ensures found { OnOk result (found.new.items ≡ found.old.items ++ found_in scope.old scope.new line.now) }
{
    let used = used_words(alloc, &line.form)?;
    push_words(found, scope, false, line.number, &used)?;
    scope.say(alloc, &line.form)?;
    let declared = declared_words(alloc, &line.form)?;
    push_words(found, scope, true, line.number, &declared)
}

/// The names of the first lines of a script, line by line: in each those that it uses, and then those that it declares.
pub fn occurrences(
    alloc: Global,
    script: &Script,
    lines: &[Line],
) -> Result<Vec<Occurrence>, AllocError>
    ensures { IfOk result (λ found. found.items ≡ occurrences script.now.names lines.now) }
{
    let mut scope = Scope::new(alloc, script)?;
    let mut found = Vec::new(alloc);
    for line in lines {
        take_line(alloc, &mut found, &mut scope, line)?;
    }
    Ok(found)
}

/// Whether a name means this.
fn is_of(thing: Thing, occurrence: &Occurrence) -> bool
    ensures { result ≡ is_of thing occurrence.now }
{
    occurrence.thing.is(thing)
}

/// Those of some names that mean this.
pub fn of_thing(
    alloc: Global,
    all: &[Occurrence],
    thing: Thing,
) -> Result<Vec<Occurrence>, AllocError>
    ensures { IfOk result (λ some. some.items ≡ filter (is_of thing) all.now) }
{
    let mut some = Vec::new(alloc);
    for occurrence in all {
        if is_of(thing, occurrence) {
            some.push(*occurrence)?;
        }
    }
    Ok(some)
}

/// The name that is this word of this line.
pub fn name_at(all: &[Occurrence], line: u32, word: usize) -> Option<&Occurrence>
    ensures { option_copied result ≡ find (stands_at line word) all.now }
{
    all.iter().find(|occurrence| occurrence.line == line && occurrence.word == word)
}
