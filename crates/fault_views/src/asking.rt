//! What a call asks of tries of faults, and what it comes to.

use crate::fault_page::{FaultTelling, has_bad_row};
use crate::rows::rows_of;
use action_script::forms::script::Script;
use caa_base::written::entry::{Object, OutOfMemory};
use fault_trials::trials::{Progress, Question, Trial, try_faults};
use fault_trials::try_error::TryError;
use place_plan::drafts::draft_rows::{ActionRow, Program, Step};
use place_plan::plans::plan::Plan;
use rehearsal_views::asking::{Told, count_of, most_schedules, object_of};
use rehearsal_views::plan_names::PlanNames;
use script_checker::lines::Lines;
use script_outcomes::outlooks::outlooks;
use std::alloc::Global;

/// How many schedules are tried for faults where no number is given.
pub const USUAL_FAULTS: u32 = 8;

/// What the words behind the file ask of tries of faults.
#[derive(Drop)]
struct Trying {
    schedules: u32,
    has_pairs: bool,
    as_csv: bool,
    off: Vec<Object>,
}

/// Objects that have to be off, by their names; none where a name is no object's.
fn off_objects(
    alloc: Global,
    plan: &Plan,
    words: &[String],
) -> Result<Option<Vec<Object>>, OutOfMemory> {
    let mut objects = Vec::new(alloc);
    for word in words {
        match object_of(plan, word.as_str()) {
            Some(object) => objects.push(object)?,
            None => return Ok(None),
        }
    }
    Ok(Some(objects))
}

/// Whether an `add` step of a body or a handler writes an object.
fn adds_to(program: &Program, object: Object) -> bool {
    program.steps.iter().any(|step| matches!(step, Step::Add(added, _) if *added == object))
}

/// Whether an `add` step of an action writes an object.
fn is_added_in(action: &ActionRow, object: Object) -> bool {
    action.roles.iter().any(|role| {
        adds_to(&role.body, object)
            || role
                .handlers
                .iter()
                .any(|handler| adds_to(&handler.program, object))
    })
}

/// The objects that an `add` step writes.
fn counted_objects(alloc: Global, plan: &Plan) -> Result<Vec<Object>, OutOfMemory> {
    let mut counted = Vec::new(alloc);
    for object in 0..plan.objects() {
        if plan
            .action_rows()
            .iter()
            .any(|action| is_added_in(action, object))
        {
            counted.push(object)?;
        }
    }
    Ok(counted)
}

/// The number of schedules that words begin with, if they begin with one.
fn first_count(words: &[String]) -> Option<u32> {
    count_of(words.first()?.as_str())
}

/// Whether words begin with this one.
fn begin_with(words: &[String], wanted: &str) -> bool {
    match words.first() {
        Some(word) => word.as_str() == wanted,
        None => false,
    }
}

/// Words without the first, where it was taken.
fn behind(words: &[String], is_taken: bool) -> &[String] {
    if is_taken {
        words.get(1..).unwrap_or(&[])
    } else {
        words
    }
}

/// The objects that words name as those that have to be off: all behind the word `off`, one at least; none where nothing is said, and
/// nothing where something else is.
fn off_of(
    alloc: Global,
    plan: &Plan,
    words: &[String],
) -> Result<Option<Vec<Object>>, OutOfMemory> {
    if words.is_empty() {
        return Ok(Some(Vec::new(alloc)));
    }
    if !begin_with(words, "off") || words.len() < 2 {
        return Ok(None);
    }
    off_objects(alloc, plan, behind(words, true))
}

/// What the words behind the file ask of tries of faults.
fn trying_of(alloc: Global, plan: &Plan, words: &[String]) -> Result<Option<Trying>, OutOfMemory> {
    let count = first_count(words);
    let words = behind(words, count.is_some());
    let has_pairs = begin_with(words, "pairs");
    let words = behind(words, has_pairs);
    let as_csv = begin_with(words, "csv");
    let words = behind(words, as_csv);
    match off_of(alloc, plan, words)? {
        Some(off) => Ok(Some(Trying {
            schedules: count.unwrap_or(USUAL_FAULTS),
            has_pairs,
            as_csv,
            off,
        })),
        None => Ok(None),
    }
}

/// What a view of faults came to.
#[derive(Drop)]
pub enum FaultsTold {
    /// As other views of plays.
    Told(Told),
    /// A schedule went another way before the put that was refused. That is a mistake of the program.
    WentAnotherWay,
}

/// The text of a table.
fn table_text(
    alloc: Global,
    script: &Script,
    lines: &Lines,
    plan: &Plan,
    trial: &Trial,
    file: &[u8],
    as_csv: bool,
) -> Result<Vec<u8>, OutOfMemory> {
    let outlooks = outlooks(alloc, script, plan)?;
    let rows = rows_of(alloc, &trial.findings)?;
    let telling = FaultTelling {
        names: script.names(),
        parts: PlanNames { plan, lines },
        trial,
        rows: &rows,
        outlooks: &outlooks,
    };
    if as_csv {
        telling.csv(alloc)
    } else {
        telling.page(alloc, file)
    }
}

/// What tries of faults came to.
fn told_of(
    alloc: Global,
    script: &Script,
    lines: &Lines,
    plan: &Plan,
    trial: &Trial,
    file: &[u8],
    as_csv: bool,
) -> Result<FaultsTold, OutOfMemory> {
    Ok(FaultsTold::Told(Told::Page {
        text: table_text(alloc, script, lines, plan, trial, file, as_csv)?,
        is_bad: has_bad_row(plan, trial),
    }))
}

/// The failure modes of a script and their effects, by these words. Who waits is told how far it has come.
pub fn show_faults<P: Progress>(
    alloc: Global,
    script: &Script,
    lines: &Lines,
    plan: Plan,
    file: &[u8],
    words: &[String],
    progress: &mut P,
) -> Result<FaultsTold, OutOfMemory> {
    let Some(asked) = trying_of(alloc, &plan, words)? else {
        return Ok(FaultsTold::Told(Told::BadWords));
    };
    let most = most_schedules(&plan);
    if u64::from(asked.schedules) > most {
        return Ok(FaultsTold::Told(Told::TooMany { most }));
    }
    let Trying {
        schedules,
        has_pairs,
        as_csv,
        off,
    } = asked;
    let question = Question {
        schedules,
        off,
        counted: counted_objects(alloc, &plan)?,
        has_pairs,
    };
    match try_faults(alloc, plan, question, progress) {
        Ok((plan, trial)) => told_of(alloc, script, lines, &plan, &trial, file, as_csv),
        Err(TryError::OutOfMemory) => Err(OutOfMemory),
        Err(TryError::TooMany { most }) => Ok(FaultsTold::Told(Told::TooMany {
            most: u64::from(most),
        })),
        Err(TryError::WentAnotherWay) => Ok(FaultsTold::WentAnotherWay),
    }
}
