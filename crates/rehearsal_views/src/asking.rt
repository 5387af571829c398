//! What a call asks for, and what it comes to.

ghost use Rattle.std.specs.Prelude.{◌≤◌, IfOk, IfSome};
ghost use Rattle.place_plan.specs.RulesOfJournals.WellFormed.{AllWellFormed};

use crate::plan_names::PlanNames;
use crate::playing_page::playing_text;
use crate::rehearsal_page::Telling;
use action_script::forms::script::Script;
use action_script::words::word::natural_of;
use caa_base::written::entry::{Drill, Object, OutOfMemory};
use caa_base::written::limits::MOST_ENTRIES;
use place_plan::plans::plan::Plan;
use rehearsals::numbered::{Played, play_numbered, usual_length};
use rehearsals::refusing::{Refusals, RefusingPlant, Trouble};
use rehearsals::rehearsing::{Rehearsal, drills_of, rehearse};
use script_checker::lines::Lines;
use script_outcomes::outlooks::outlooks;
use std::alloc::Global;

/// How many schedules a rehearsal has where no number is given.
pub const USUAL_REHEARSAL: u32 = 300;

/// Entries that all schedules of a call may have together.
const MOST_PLAYED: u64 = 2_000_000_000;

/// What a view came to.
#[derive(Drop)]
pub enum Told {
    /// The page, and whether what it tells counts against the script.
    Page { text: Vec<u8>, is_bad: bool },
    /// There are too many schedules for this script: so many at most.
    TooMany { most: u64 },
    /// The words behind the file are none of this view, or name an object that the script doesn't have.
    BadWords,
}

/// A number of schedules.
pub fn count_of(word: &str) -> Option<u32>
    ensures { IfSome result (λ count. count ≤ 1000000) }
{
    let count = natural_of(word.as_bytes(), MOST_ENTRIES)?;
    if count == 0 {
        return None;
    }
    Some(count as u32)
}

/// The object of this name.
pub fn object_of(plan: &Plan, word: &str) -> Option<Object> {
    for object in 0..plan.objects() {
        if plan.object_name(object) == word.as_bytes() {
            return Some(object);
        }
    }
    None
}

/// How many schedules a script may have at most.
pub fn most_schedules(plan: &Plan) -> u64 {
    MOST_PLAYED / plan.bound().max(1)
}

/// What is asked of a rehearsal.
#[derive(Clone, Copy)]
struct Rehearsing {
    count: u32,
    as_csv: bool,
}

/// What the words behind the file ask of a rehearsal.
fn rehearsing_of(words: &[String]) -> Option<Rehearsing>
    ensures { IfSome result (λ asked. asked.count ≤ 1000000) }
{
    match words {
        [] => Some(Rehearsing {
            count: USUAL_REHEARSAL,
            as_csv: false,
        }),
        [count] => Some(Rehearsing {
            count: count_of(count.as_str())?,
            as_csv: false,
        }),
        [count, csv] if csv.as_str() == "csv" => Some(Rehearsing {
            count: count_of(count.as_str())?,
            as_csv: true,
        }),
        _ => None,
    }
}

/// The text of a rehearsal.
fn rehearsal_text(
    alloc: Global,
    script: &Script,
    lines: &Lines,
    rehearsal: &Rehearsal,
    file: &[u8],
    as_csv: bool,
) -> Result<Vec<u8>, OutOfMemory> {
    let outlooks = outlooks(alloc, script, &rehearsal.plan)?;
    let telling = Telling {
        names: script.names(),
        parts: PlanNames {
            plan: &rehearsal.plan,
            lines,
        },
        rehearsal,
        outlooks: &outlooks,
    };
    if as_csv {
        telling.csv(alloc)
    } else {
        telling.page(alloc, file)
    }
}

/// A rehearsal of a script.
pub fn show_rehearsal(
    alloc: Global,
    script: &Script,
    lines: &Lines,
    plan: Plan,
    file: &[u8],
    words: &[String],
) -> Result<Told, OutOfMemory> {
    let Some(asked) = rehearsing_of(words) else {
        return Ok(Told::BadWords);
    };
    let most = most_schedules(&plan);
    if u64::from(asked.count) > most {
        return Ok(Told::TooMany { most });
    }
    let rehearsal = rehearse(alloc, plan, asked.count)?;
    Ok(Told::Page {
        text: rehearsal_text(alloc, script, lines, &rehearsal, file, asked.as_csv)?,
        is_bad: rehearsal.has_failed,
    })
}

/// What words that name refused puts begin with.
#[derive(Clone, Copy)]
enum Named<'a> {
    /// A put, with the words behind it.
    Put(Drill, &'a [String]),
    /// What is refused beside the puts that were named. It is the last.
    Last(Trouble),
    /// Something else.
    Wrong,
}

/// The put of this object that has this number.
fn drill_of(plan: &Plan, name: &str, nth: &str) -> Option<Drill> {
    let object = object_of(plan, name)?;
    let nth = count_of(nth)?;
    Some(Drill { object, nth })
}

/// What words that name refused puts begin with: an object and a number; or at the end `from` and a number for all puts from there on,
/// or `on` behind a pair for all later puts of the object, too.
fn named_first<'a>(plan: &Plan, words: &'a [String]) -> Named<'a> {
    match words {
        [] => Named::Last(Trouble::Nothing),
        [from, count] if from.as_str() == "from" => match count_of(count.as_str()) {
            Some(count) => Named::Last(Trouble::Dead(u64::from(count))),
            None => Named::Wrong,
        },
        [name, nth, on] if on.as_str() == "on" => match drill_of(
            plan,
            name.as_str(),
            nth.as_str(),
        ) {
            Some(drill) => Named::Last(Trouble::Stuck(drill)),
            None => Named::Wrong,
        },
        [name, nth, more @ ..] => match drill_of(plan, name.as_str(), nth.as_str()) {
            Some(drill) => Named::Put(drill, more),
            None => Named::Wrong,
        },
        _ => Named::Wrong,
    }
}

/// The puts that words name, beside these.
fn refusals_by(
    plan: &Plan,
    own: Vec<Drill>,
    words: &[String],
) -> Result<Option<Refusals>, OutOfMemory> {
    let mut drills = own;
    let mut rest = words;
    for _ in 0..words.len() {
        match named_first(plan, rest) {
            Named::Put(drill, more) => {
                drills.push(drill)?;
                rest = more;
            }
            Named::Last(trouble) => return Ok(Some(Refusals { drills, trouble })),
            Named::Wrong => return Ok(None),
        }
    }
    Ok(Some(Refusals {
        drills,
        trouble: Trouble::Nothing,
    }))
}

/// What is asked of a single play.
#[derive(Drop)]
struct Playing {
    number: u32,
    /// The script's own drills are left out.
    is_bare: bool,
    refusals: Refusals,
}

/// The script's own drills, if they aren't left out.
fn own_drills(alloc: Global, plan: &Plan, is_bare: bool) -> Result<Vec<Drill>, OutOfMemory> {
    if is_bare {
        Ok(Vec::new(alloc))
    } else {
        drills_of(alloc, plan)
    }
}

/// Whether words begin with `bare`.
fn are_bare(words: &[String]) -> bool {
    match words.first() {
        Some(word) => word.as_str() == "bare",
        None => false,
    }
}

/// What the words behind the file and the number ask of a single play: its device refuses what the script's drills name, unless it is
/// bare, and what the words name.
fn playing_of(
    alloc: Global,
    plan: &Plan,
    number: u32,
    words: &[String],
) -> Result<Option<Playing>, OutOfMemory> {
    let is_bare = are_bare(words);
    let own = own_drills(alloc, plan, is_bare)?;
    let puts = if is_bare {
        words.get(1..).unwrap_or(&[])
    } else {
        words
    };
    match refusals_by(plan, own, puts)? {
        Some(refusals) => Ok(Some(Playing {
            number,
            is_bare,
            refusals,
        })),
        None => Ok(None),
    }
}

/// Plays a plan as it is asked.
fn play_so(alloc: Global, plan: Plan, asked: Playing) -> Result<Played, OutOfMemory>
    ensures { IfOk result (λ played. AllWellFormed played.plan played.journal.entries) }
{
    let Playing {
        number,
        is_bare,
        refusals,
    } = asked;
    let usual = Refusals {
        drills: own_drills(alloc, &plan, is_bare)?,
        trouble: Trouble::Nothing,
    };
    let found = usual_length(alloc, plan, RefusingPlant::new(alloc, usual))?;
    let (plan, length) = found;
    let plant = RefusingPlant::new(alloc, refusals);
    let told = play_numbered(alloc, plan, number, length, plant)?;
    let (played, _) = told;
    Ok(played)
}

/// The text of a play that is asked for.
fn playing_page(
    alloc: Global,
    script: &Script,
    plan: Plan,
    text: &[u8],
    asked: Playing,
) -> Result<Vec<u8>, OutOfMemory> {
    let Played { plan, journal } = play_so(alloc, plan, asked)?;
    playing_text(alloc, script, &plan, text, &journal)
}

/// A script with the journal of a schedule behind it.
pub fn show_playing(
    alloc: Global,
    script: &Script,
    plan: Plan,
    text: &[u8],
    words: &[String],
) -> Result<Told, OutOfMemory> {
    let [number, rest @ ..] = words else {
        return Ok(Told::BadWords);
    };
    let Some(number) = count_of(number.as_str()) else {
        return Ok(Told::BadWords);
    };
    let Some(asked) = playing_of(alloc, &plan, number, rest)? else {
        return Ok(Told::BadWords);
    };
    Ok(Told::Page {
        text: playing_page(alloc, script, plan, text, asked)?,
        is_bad: false,
    })
}
