ghost use Rattle.std.specs.Prelude.{◌≡◌, ◌<◌, ◌≤◌, ◌^◌, ◌++◌, ◌∷◌, [], All, true, drop, length, map, IfOk, OnOk};
ghost use Rattle.std.specs.List.{list_all};
ghost use Rattle.caa_base.specs.Written.Names.{is_name, name_at};
ghost use Rattle.action_script.specs.Words.NumberedNames.{number_in, with_name, with_names};
ghost use Rattle.action_script.specs.declared.forms.form.Form.TheVariants as form;
ghost use Rattle.graph_maker.specs.MadeScripts.{cover_form, made_forms, made_script};
ghost use Rattle.graph_maker.specs.SetNames.{set_name};

use crate::set_names::set_name;
use action_script::forms::form::Form;
use action_script::forms::script::{Script, number_in};
use caa_base::written::entry::OutOfMemory;
use caa_base::written::name::{Name, name_at};
use set_graphs::Set;
use std::alloc::Global;

/// Adds the names of these numbers.
pub fn push_named(
    words: &mut Vec<Name>,
    alloc: Global,
    names: &[Name],
    numbers: &[u32],
) -> Result<(), OutOfMemory>
    ensures { OnOk result (words.new.items ≡ words.old.items ++ map (name_at names.now) numbers.now) }
{
    for number in numbers {
        words.push(Name::from_bytes(alloc, name_at(names, *number))?)?;
    }
    Ok(())
}

/// Adds the names that are made for these sets.
pub fn push_made(
    words: &mut Vec<Name>,
    alloc: Global,
    primitives: u32,
    sets: &[Set],
) -> Result<(), OutOfMemory>
    requires { primitives < 128 }
    ensures { OnOk result (words.new.items ≡ words.old.items ++ map (set_name primitives) sets.now) }
{
    for set in sets {
        words.push(set_name(alloc, primitives, *set)?)?;
    }
    Ok(())
}

/// Adds a word to the names where it isn't there already.
fn push_new(names: &mut Vec<Name>, alloc: Global, word: &[u8]) -> Result<(), OutOfMemory>
    requires { length names.old.items < 2 ^ 31 }
    ensures { OnOk result (names.new.items ≡ with_name names.old.items word.now) }
{
    if number_in(names, word) as usize == names.len() {
        names.push(Name::from_bytes(alloc, word)?)?;
    }
    Ok(())
}

/// Each of these words once, in the order in which they first come.
fn distinct(alloc: Global, words: &[Name]) -> Result<Vec<Name>, OutOfMemory>
    requires { length words.now < 2 ^ 31 }
    ensures { IfOk result (λ names. names.items ≡ with_names [] words.now) }
{
    let mut names = Vec::new(alloc);
    for word in words {
        push_new(&mut names, alloc, word.bytes())?;
    }
    Ok(names)
}

/// The number of each of these words among the names.
fn numbers_of(alloc: Global, names: &[Name], words: &[Name]) -> Result<Vec<u32>, OutOfMemory>
    requires { length names.now < 2 ^ 32 }
    ensures { IfOk result (λ numbers. numbers.items ≡ map (number_in names.now) words.now) }
{
    let mut numbers = Vec::new(alloc);
    for word in words {
        numbers.push(number_in(names, word.bytes()))?;
    }
    Ok(numbers)
}

/// Adds the lines of these exceptions.
fn push_exceptions(forms: &mut Vec<Form>, numbers: &[u32]) -> Result<(), OutOfMemory>
    ensures { OnOk result (forms.new.items ≡ forms.old.items ++ map form.Exception numbers.now) }
{
    for number in numbers {
        forms.push(Form::Exception(*number))?;
    }
    Ok(())
}

/// Adds a line for each pair of an exception and one that it covers.
fn push_covers(
    forms: &mut Vec<Form>,
    numbers: &[u32],
    pairs: &[(u32, u32)],
) -> Result<(), OutOfMemory>
    requires { All (λ p. (p.0 < length numbers.now) × (p.1 < length numbers.now)) pairs.now }
    ensures { OnOk result (forms.new.items ≡ forms.old.items ++ map (cover_form numbers.now) pairs.now) }
{
    for (upper, lower) in pairs {
        forms.push(Form::Cover(numbers[*upper as usize], numbers[*lower as usize]))?;
    }
    Ok(())
}

/// The lines of a graph, by the numbers of names, its own first and then those of its exceptions, and its pairs.
fn graph_forms(
    alloc: Global,
    numbers: &[u32],
    pairs: &[(u32, u32)],
) -> Result<Vec<Form>, OutOfMemory>
    requires some { 0 < length numbers.now }
    requires in_range { All (λ p. (p.0 < length numbers.now) × (p.1 < length numbers.now)) pairs.now }
    ensures { IfOk result (λ forms. forms.items ≡ made_forms numbers.now pairs.now) }
{
    let mut forms = Vec::new(alloc);
    forms.push(Form::Graph(numbers[0]))?;
    push_exceptions(&mut forms, &numbers[1..])?;
    push_covers(&mut forms, numbers, pairs)?;
    forms.push(Form::End)?;
    Ok(forms)
}

/// The script of one graph: of these names, its own first and then those of its exceptions, and of these pairs of exceptions.
pub fn graph_script(
    alloc: Global,
    words: &[Name],
    pairs: &[(u32, u32)],
) -> Result<Script, OutOfMemory>
    requires some { 0 < length words.now }
    requires few { length words.now ≤ 128 }
    requires names { list_all is_name words.now ≡ true }
    requires in_range { All (λ p. (p.0 < length words.now) × (p.1 < length words.now)) pairs.now }
    requires few_pairs { length pairs.now ≤ 2 ^ 31 }
    ensures { IfOk result (λ script. script ≡ made_script words.now pairs.now) }
{
    let names = distinct(alloc, words)?;
    let numbers = numbers_of(alloc, &names, words)?;
    let forms = graph_forms(alloc, &numbers, pairs)?;
    Script::of_forms(alloc, names, forms)
}
