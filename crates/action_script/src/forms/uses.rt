//! Which names a line uses, and whether each is declared as it has to be.

ghost use Rattle.std.specs.Prelude.{◌≡◌, suc, ◌++◌, find, option_copied, IfOk, OnOk};
ghost use Rattle.std.specs.List.{list_all};
ghost use Rattle.action_script.specs.Forms.LineForms.{name_at};
ghost use Rattle.action_script.specs.Forms.Uses.{are_declared, TellsUses, TellsDeclared, naming_by, sort_used, named_word, named_from, used_in, used_words, is_undeclared, first_undeclared, with_fitting, fitting};
ghost use Rattle.action_script.specs.declared.lines.sort.Naming.TheVariants as naming;

use crate::forms::form::{Form, name_at};
use crate::lines::asked::part_at;
use crate::lines::field::{Field, Part};
use crate::lines::sort::{Naming, Sort};
use std::alloc::{AllocError, Global};

/// A name that a line uses.
#[derive(Clone, Copy)]
pub struct SortedWord {
    /// Which word of the line it is, where the one after the first is 1.
    pub word: usize,
    /// What it has to be declared as.
    pub sort: Sort,
    pub name: u32,
}

/// What is declared where a line stands.
pub trait Declares {
    ghost use Rattle.std.specs.Prelude.{◌≡◌, ℕ, Bool};
    ghost use Rattle.action_script.specs.declared.lines.sort.Sort.{Sort};

    ghost declares: { Self → Sort → ℕ → Bool };

    /// Whether a name is declared as this.
    fn has(&self, sort: Sort, name: u32) -> bool
        ensures { result ≡ declares self.now sort name };
}

/// Whether each of some names is declared as this.
fn has_all<D: Declares>(declared: &D, sort: Sort, names: &[u32]) -> bool
    ensures { result ≡ list_all (D.declares declared.now sort) names.now }
{
    names.iter().all(|name| declared.has(sort, *name))
}

/// Whether each name that a line uses is declared as it has to be.
pub fn are_declared<D: Declares>(declared: &D, form: &Form) -> bool
    ensures { result ≡ are_declared (D.declares declared.now) form.now }
{
    match form {
        Form::Drill(object, _)
        | Form::Watch(object)
        | Form::ReadStep(object)
        | Form::PutStep(object, _)
        | Form::AddStep(object, _) => declared.has(Sort::Object, *object),
        Form::Play(action, who) => {
            declared.has(Sort::Action, *action)
                && has_all(declared, Sort::Participant, who.as_slice())
        }
        Form::Cover(upper, lower) => {
            declared.has(Sort::Own, *upper) && declared.has(Sort::Own, *lower)
        }
        Form::Internal(graph) | Form::Interface(graph) => declared.has(Sort::Graph, *graph),
        Form::Fault(exception) | Form::CheckStep(_, _, exception) | Form::RaiseStep(exception) => {
            declared.has(Sort::Inner, *exception)
        }
        Form::Uses(objects) => has_all(declared, Sort::Object, objects.as_slice()),
        Form::Nest(_, action, roles) => {
            declared.has(Sort::Action, *action) && has_all(declared, Sort::Role, roles.as_slice())
        }
        Form::Map(nest, lower, upper) => {
            declared.has(Sort::Nest, *nest)
                && declared.has(Sort::Told(*nest), *lower)
                && declared.has(Sort::Inner, *upper)
        }
        Form::MapUndo(nest, exception) | Form::MapFailure(nest, exception) => {
            declared.has(Sort::Nest, *nest) && declared.has(Sort::Inner, *exception)
        }
        Form::Alternate(nest, action) => {
            declared.has(Sort::Nest, *nest) && declared.has(Sort::Action, *action)
        }
        Form::Abort(role, exception) | Form::AbortTest(role, _, _, exception) => {
            declared.has(Sort::Role, *role) && declared.has(Sort::Outer, *exception)
        }
        Form::Body(role) => declared.has(Sort::Role, *role),
        Form::Handler(role, exception) => {
            declared.has(Sort::Role, *role) && declared.has(Sort::Inner, *exception)
        }
        Form::EnterStep(nest) => declared.has(Sort::Nest, *nest),
        Form::SignalLine(exception) => declared.has(Sort::Outer, *exception),
        Form::Participant(_)
        | Form::Object(_, _)
        | Form::Graph(_)
        | Form::Action(_)
        | Form::Exception(_)
        | Form::End
        | Form::Roles(_)
        | Form::WorkStep(_)
        | Form::DoneLine
        | Form::UndoLine => true,
    }
}

// ---- by the table of the kinds

/// What a part says that a name is for, after one that was for this.
pub fn naming_by(before: Naming, part: Part) -> Naming
    ensures { result ≡ naming_by before part }
{
    match part {
        Part::Name(Naming::Further) => before,
        Part::Name(naming) => naming,
        Part::Value | Part::Count | Part::Rounds | Part::Test => before,
    }
}

/// What a name that is for this has to be declared as, in a line that names this nested use first; one that the line declares, as
/// nothing.
fn sort_used(nest: u32, naming: Naming) -> Option<Sort>
    ensures { result ≡ sort_used nest naming }
{
    match naming {
        Naming::Used(sort) => Some(sort),
        Naming::ToldOutside => Some(Sort::Told(nest)),
        Naming::New(_) | Naming::Further => None,
    }
}

/// Adds a word that is a name which the line uses.
fn push_used(
    words: &mut Vec<SortedWord>,
    nest: u32,
    word: usize,
    naming: Naming,
    field: Field,
) -> Result<(), AllocError>
    ensures { OnOk result (words.new.items ≡ words.old.items ++ used_in nest (named_word word naming field)) }
{
    if let Field::Name(name) = field {
        if let Some(sort) = sort_used(nest, naming) {
            words.push(SortedWord { word, sort, name })?;
        }
    }
    Ok(())
}

/// The names among the fields of a line which it uses, where its words are asked to be these parts.
fn used_among(
    alloc: Global,
    parts: &[Part],
    fields: &[Field],
) -> Result<Vec<SortedWord>, AllocError>
    ensures { IfOk result (λ words.
        words.items ≡ used_in (name_at fields.now 0) (named_from 1 naming.Further parts.now fields.now)) }
{
    let nest = name_at(fields, 0);
    let mut words = Vec::new(alloc);
    let mut before = Naming::Further;
    for (index, field) in fields.iter().enumerate() {
        before = naming_by(before, part_at(parts, index));
        push_used(&mut words, nest, index + 1, before, *field)?;
    }
    Ok(words)
}

/// The names that a line uses, in its order.
pub fn used_words(alloc: Global, form: &Form) -> Result<Vec<SortedWord>, AllocError>
    ensures { IfOk result (λ words. words.items ≡ used_words form.now) }
{
    let wording = form.wording(alloc)?;
    used_among(alloc, wording.kind.parts(), &wording.fields)
}

/// The first of some names that isn't declared as it has to be.
fn first_among<'a, D: Declares>(declared: &D, words: &'a [SortedWord]) -> Option<&'a SortedWord>
    ensures { option_copied result ≡ find (is_undeclared (D.declares declared.now)) words.now }
{
    words
        .iter()
        .find(|word| !declared.has(word.sort, word.name))
}

/// The first name that a line uses which isn't declared as it has to be.
pub fn first_undeclared<D: Declares>(
    alloc: Global,
    declared: &D,
    form: &Form,
) -> Result<Option<SortedWord>, AllocError>
    ensures { IfOk result (λ found. found ≡ first_undeclared (D.declares declared.now) form.now) }
{
    let words = used_words(alloc, form)?;
    Ok(first_among(declared, &words).copied())
}

/// Adds a name, where it is declared as this.
fn push_fitting<D: Declares>(
    names: &mut Vec<u32>,
    declared: &D,
    sort: Sort,
    name: u32,
) -> Result<(), AllocError>
    ensures { OnOk result (names.new.items ≡ with_fitting (D.declares declared.now sort) name names.old.items) }
{
    if declared.has(sort, name) {
        names.push(name)?;
    }
    Ok(())
}

/// The names up to this number that are declared as this.
pub fn fitting<D: Declares>(
    alloc: Global,
    declared: &D,
    sort: Sort,
    last: u32,
) -> Result<Vec<u32>, AllocError>
    ensures { IfOk result (λ names. names.items ≡ fitting (D.declares declared.now sort) (suc last)) }
{
    let mut names = Vec::new(alloc);
    for name in 0..last {
        push_fitting(&mut names, declared, sort, name)?;
    }
    push_fitting(&mut names, declared, sort, last)?;
    Ok(names)
}

/// The table of the kinds tells of each line which names it uses, and as what. A statement alone: the call does nothing.
pub fn tells_uses(form: &Form)
    ensures { TellsUses form.now }
{
    let _ = form;
}

/// The table of the kinds tells of each line which names it declares, and as what. A statement alone: the call does nothing.
pub fn tells_declared(form: &Form)
    ensures { TellsDeclared form.now }
{
    let _ = form;
}
