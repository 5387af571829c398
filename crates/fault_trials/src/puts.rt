//! The puts of a journal.

ghost use Rattle.std.specs.Prelude.{◌≡◌, true, reverse, IfSome, IfNone, Some};
ghost use Rattle.place_plan.specs.Plans.Places.{place_at};
ghost use Rattle.place_plan.specs.RulesOfJournals.Journals.{LegalPast};
ghost use Rattle.place_plan.specs.RulesOfJournals.Whereabouts.{inside};
ghost use Rattle.fault_trials.specs.Puts.{spot_of, step_spot, IsPutAt, HasNoPutAt};

use crate::modes::Spot;
use caa_base::written::entry::{Drill, Entry, Kind, Object, Place};
use journal_replay::look_back::LookBack;
use journal_replay::past::Past;
use journal_replay::records::Records;
use place_plan::plans::plan::Plan;
use rehearsals::facts::{takes_put, tries_put};

/// A put of a journal that the device took.
#[derive(Clone, Copy)]
pub struct Put {
    pub entry: Entry,
    /// The number of its entry, counted from 0.
    pub index: usize,
    pub spot: Spot,
    /// Which put of its object it is, counted from 1.
    pub drill: Drill,
    /// Which put of all it is, counted from 1.
    pub count: u64,
}

/// The number of the action of a place; 0 for one that the plan doesn't have.
pub fn action_number(plan: &Plan, place: Place) -> u32
    ensures { result ≡ (place_at plan.now place).action }
{
    if place < plan.places() {
        plan.action_of(place)
    } else {
        0
    }
}

/// The step of its role that a put is, which comes after these entries.
fn step_spot(plan: &Plan, past: &[Entry], entry: Entry) -> Spot
    requires legal { LegalPast plan.now (reverse past.now) }
    requires here { inside plan.now (reverse past.now) entry.by ≡ Some entry.place }
    ensures { result ≡ step_spot plan.now (reverse past.now) entry }
{
    let records = LookBack;
    let past = Past {
        plan,
        records: &records,
        journal: past,
    };
    let progress = LookBack::progress_of(&past, entry.place, entry.by);
    let action = action_number(plan, entry.place);
    let role = plan.role_of(entry.place, entry.by).unwrap_or(0);
    Spot::Step {
        action,
        role,
        handler: progress.handled,
        step: progress.position,
    }
}

/// What a put stands for, which comes after these entries.
fn spot_of(plan: &Plan, past: &[Entry], entry: Entry) -> Spot
    requires legal { LegalPast plan.now (reverse past.now) }
    requires here { inside plan.now (reverse past.now) entry.by ≡ Some entry.place }
    ensures { result ≡ spot_of plan.now (reverse past.now) entry }
{
    match entry.kind {
        Kind::Restore => {
            let action = action_number(plan, entry.place);
            Spot::Back {
                action,
                object: entry.arg,
            }
        }
        _ => step_spot(plan, past, entry),
    }
}

/// How many puts of an object are among these entries, taken or refused.
fn tries_of(entries: &[Entry], object: Object) -> u32 {
    let mut count = 0u32;
    for entry in entries {
        if tries_put(entry) && entry.arg == object {
            count = count.saturating_add(1);
        }
    }
    count
}

/// How many puts are among these entries, taken or refused.
fn all_tries(entries: &[Entry]) -> u64 {
    let mut count = 0u64;
    for entry in entries {
        if tries_put(entry) {
            count = count.saturating_add(1);
        }
    }
    count
}

/// The put that is the entry of this index, if it is one that the device took.
pub fn put_at(plan: &Plan, entries: &[Entry], index: usize) -> Option<Put>
    requires { LegalPast plan.now (reverse entries.now) }
    ensures put { IfSome result (λ put. IsPutAt plan.now entries.now index put) }
    ensures none { IfNone result (HasNoPutAt entries.now index) }
{
    if index >= entries.len() {
        return None;
    }
    let entry = entries[index];
    if !takes_put(&entry) {
        return None;
    }
    let past = &entries[..index];
    let spot = spot_of(plan, past, entry);
    let nth = tries_of(past, entry.arg).saturating_add(1);
    let count = all_tries(past).saturating_add(1);
    Some(Put {
        entry,
        index,
        spot,
        drill: Drill {
            object: entry.arg,
            nth,
        },
        count,
    })
}
