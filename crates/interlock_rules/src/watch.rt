//! What is kept of a rule from entry to entry: whether each part may fit, and where its object is for sure.

ghost use Rattle.std.specs.Prelude.{◌≡◌, ◌↔◌, ◌<◌, ◌&&◌, if◌then◌else◌, ℕ, List, [], ◌∷◌, false, length, slice_index_or, IfOk, IsTrue};
ghost use Rattle.std.specs.List.{list_all};
ghost use Rattle.caa_base.specs.declared.written.entry.Entry.{Entry as JournalEntry};
ghost use Rattle.place_plan.specs.Plans.PlanValue.{Plan as PlanValue};
ghost use Rattle.interlock_rules.specs.Interlocks.{Breaks};
ghost use Rattle.interlock_rules.specs.inner.Watched.{fit_after, may_fit, sure_after, is_sure, object_of, is_always, is_asked, no_part, Watches};

use crate::places::first_value;
use crate::rules::{Part, Rule, When, asks, is_fault_on, is_put_on};
use caa_base::written::entry::{Entry, Object, OutOfMemory};
use place_plan::plans::plan::Plan;
use std::alloc::Global;

/// What is kept of a rule from entry to entry.
#[derive(Drop)]
pub(crate) struct Watch {
    /// Whether each part may fit.
    fits: Vec<bool>,
    /// Where the object that is asked or moved is, if there is one number alone.
    sure: Option<i64>,
}

/// The object that a rule speaks of as asked or moved; else some other.
fn object_of(when: &When) -> Object
    ensures { result ≡ object_of when.now }
{
    match when {
        When::Always => 0,
        When::Asked(part) | When::Moved(part) => part.object,
    }
}

/// Whether a rule is looked at at each moment.
fn is_always(when: &When) -> bool
    ensures { result ≡ is_always when.now }
{
    matches!(when, When::Always)
}

/// Whether a part may fit after an entry, by whether it might before.
fn fit_after(part: &Part, entry: &Entry, was: bool) -> bool
    ensures { result ≡ fit_after part.now entry.now was }
{
    if is_put_on(part.object, entry) {
        part.fits(entry.value)
    } else {
        (is_fault_on(part.object, entry) && part.fits(entry.value)) || was
    }
}

/// Whether a part may fit before any entry.
fn fits_at_first(plan: &Plan, part: &Part) -> bool
    ensures { result ≡ may_fit plan.now [] part.now }
{
    part.fits(first_value(plan, part.object))
}

/// Whether an object is at this number for sure.
fn is_sure(sure: Option<i64>, number: i64) -> bool
    ensures { result ≡ is_sure sure number }
{
    match sure {
        Some(value) => value == number,
        None => false,
    }
}

/// Where an object is for sure after an entry, by where it was for sure before.
fn sure_after(object: Object, entry: &Entry, was: Option<i64>) -> Option<i64>
    ensures { result ≡ sure_after object entry.now was }
{
    if is_put_on(object, entry) {
        return Some(entry.value);
    }
    if !is_fault_on(object, entry) {
        return was;
    }
    match was {
        Some(value) if value == entry.value => was,
        _ => None,
    }
}

/// Notes for each part whether it may fit after an entry.
fn note_fits(fits: &mut Vec<bool>, parts: &[Part], entry: &Entry)
    requires { length fits.old.items ≡ length parts.now }
    ensures count { length fits.new.items ≡ length parts.now }
    ensures fits { (k : ℕ) → k < length parts.now
        → slice_index_or fits.new.items k false
        ≡ fit_after (slice_index_or parts.now k no_part) entry.now (slice_index_or fits.old.items k false) }
{
    for (index, part) in parts.iter().enumerate() {
        fits[index] = fit_after(part, entry, fits[index]);
    }
}

/// Whether a rule is broken, by what was asked for before the entry and by what may be after it.
fn is_broken(when: &When, was_asked: bool, all_fit: bool) -> bool
    ensures { result ≡ (if is_always when.now then all_fit else was_asked) }
{
    if is_always(when) { all_fit } else { was_asked }
}

impl Watch {
    /// What is kept before any entry.
    pub(crate) fn open(alloc: Global, plan: &Plan, rule: &Rule) -> Result<Watch, OutOfMemory>
        ensures { IfOk result (λ watch. Watches rule.now.parts (object_of rule.now.when) plan.now [] watch.fits.items watch.sure) }
    {
        let mut fits = Vec::new(alloc);
        let parts = rule.parts.as_slice();
        for part in parts {
            fits.push(fits_at_first(plan, part))?;
        }
        let sure = Some(first_value(plan, object_of(&rule.when)));
        Ok(Watch { fits, sure })
    }

    /// Whether all parts may fit.
    fn all_fit(&self) -> bool
        ensures { result ≡ list_all (λ fit. fit) self.now.fits.items }
    {
        self.fits.iter().all(|fit| *fit)
    }

    /// Whether an entry asks for what a rule forbids, by what is kept before it.
    fn is_asked(&self, when: &When, entry: &Entry) -> bool
        ensures { result ≡ is_asked when.now entry.now self.now.fits.items self.now.sure }
    {
        match when {
            When::Always => false,
            When::Asked(part) => asks(part, entry) && self.all_fit(),
            When::Moved(part) => {
                asks(part, entry) && !is_sure(self.sure, entry.value) && self.all_fit()
            },
        }
    }

    /// Whether the first values break a rule, by what is kept before any entry.
    pub(crate) fn is_broken_at_first(&self, rule: &Rule) -> bool
        ensures { result ≡ is_always rule.now.when && list_all (λ fit. fit) self.now.fits.items }
    {
        is_always(&rule.when) && self.all_fit()
    }

    /// Takes the next entry in, and says whether it breaks the rule.
    pub(crate) fn take_in(&mut self, rule: &Rule, entry: &Entry) -> bool
        requires { length self.old.fits.items ≡ length rule.now.parts }
        ensures stands { (plan : PlanValue) (past : List JournalEntry)
            → Watches rule.now.parts (object_of rule.now.when) plan past self.old.fits.items self.old.sure
            → Watches rule.now.parts (object_of rule.now.when) plan (entry.now ∷ past) self.new.fits.items self.new.sure }
        ensures broken { (plan : PlanValue) (past : List JournalEntry)
            → Watches rule.now.parts (object_of rule.now.when) plan past self.old.fits.items self.old.sure
            → IsTrue result ↔ Breaks rule.now plan (entry.now ∷ past) }
    {
        let was_asked = self.is_asked(&rule.when, entry);
        note_fits(&mut self.fits, rule.parts.as_slice(), entry);
        self.sure = sure_after(object_of(&rule.when), entry, self.sure);
        is_broken(&rule.when, was_asked, self.all_fit())
    }
}
