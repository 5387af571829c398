//! The names that a line declares.

ghost use Rattle.std.specs.Prelude.{◌≡◌, ◌++◌, IfOk, OnOk};
ghost use Rattle.std.specs.List.{flat_map};
ghost use Rattle.action_script.specs.Forms.Uses.{naming_by, named_word, named_from, sort_declared, declared_words};
ghost use Rattle.action_script.specs.inner.OneLine.{part_at};
ghost use Rattle.action_script.specs.declared.lines.sort.Naming.TheVariants as naming;
ghost use Rattle.name_uses.specs.inner.DeclaredWords.{declared_in};

use action_script::forms::form::Form;
use action_script::forms::uses::{SortedWord, naming_by};
use action_script::lines::field::{Field, Part};
use action_script::lines::sort::Naming;
use std::alloc::{AllocError, Global};

/// What the word of a line is asked to be that has so many before it; where the parts end, names go on.
fn part_at(parts: &[Part], index: usize) -> Part
    ensures { result ≡ part_at parts.now index }
{
    parts
        .get(index)
        .copied()
        .unwrap_or(Part::Name(Naming::Further))
}

/// Adds a word that is a name which the line declares.
fn push_declared(
    words: &mut Vec<SortedWord>,
    word: usize,
    naming: Naming,
    field: Field,
) -> Result<(), AllocError>
    ensures { OnOk result (words.new.items ≡ words.old.items ++ declared_in (named_word word naming field)) }
{
    if let (Field::Name(name), Naming::New(sort)) = (field, naming) {
        words.push(SortedWord { word, sort, name })?;
    }
    Ok(())
}

/// The names among the fields of a line which it declares, where its words are asked to be these parts.
fn declared_among(
    alloc: Global,
    parts: &[Part],
    fields: &[Field],
) -> Result<Vec<SortedWord>, AllocError>
    ensures { IfOk result (λ words. words.items ≡ declared_in (named_from 1 naming.Further parts.now fields.now)) }
{
    let mut words = Vec::new(alloc);
    let mut before = Naming::Further;
    for (index, field) in fields.iter().enumerate() {
        before = naming_by(before, part_at(parts, index));
        push_declared(&mut words, index + 1, before, *field)?;
    }
    Ok(words)
}

/// The names that a line declares, in its order.
pub fn declared_words(alloc: Global, form: &Form) -> Result<Vec<SortedWord>, AllocError>
    ensures { IfOk result (λ words. words.items ≡ declared_words form.now) }
{
    let wording = form.wording(alloc)?;
    declared_among(alloc, wording.kind.parts(), &wording.fields)
}
