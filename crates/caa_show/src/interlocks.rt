//! The view of interlocks: rules of what never is, hunted for or held against a journal.

ghost use Rattle.std.specs.Prelude.{◌≡◌, true};
ghost use Rattle.place_plan.specs.RulesOfJournals.WellFormed.{AllWellFormed};
ghost use Rattle.journal_text.specs.Texts.Naming.{is_well_named};
ghost use Rattle.caa_show.specs.Interlocks.{status_of};

use crate::plays::too_many;
use crate::reading::{Input, Reading, read_journal};
use crate::showing::{Shown, Status, journal_behind, script_text, with_status};
use action_script::words::journal_start::JournalStart;
use caa_base::written::entry::OutOfMemory;
use caa_base::written::journal::Journal;
use interlock_views::asking::{RulesCall, RulesTold, USUAL_PLAYS, show_hunt, show_kept};
use interlock_views::hunting::HuntProgress;
use place_plan::plans::plan::Plan;
use rehearsal_views::asking::{count_of, most_schedules};
use script_checker::own_names::has_own_names;
use script_views::explaining::{Seen, look};
use std::alloc::Global;

/// What is asked: the files of the script and of the rules, none for standard input, which `-` stands for, and how many plays a hunt has
/// at most.
#[derive(Clone, Copy)]
pub struct InterlockCall<'a> {
    pub script: Option<&'a str>,
    pub rules: Option<&'a str>,
    pub plays: u32,
}

/// The file that a word names; none where it stands for standard input.
fn file_of(word: &str) -> Option<&str> {
    if word == "-" { None } else { Some(word) }
}

/// The call that these words are, if they ask for interlocks. One of the two files at most is standard input.
pub fn interlock_asked(words: &[String]) -> Option<InterlockCall> {
    let (view, script, rules, plays) = match words {
        [view, script, rules] => (view, script, rules, USUAL_PLAYS),
        [view, script, rules, plays] => (view, script, rules, count_of(plays.as_str())?),
        _ => return None,
    };
    if view.as_str() != "interlock" {
        return None;
    }
    let script = file_of(script.as_str());
    let rules = file_of(rules.as_str());
    if script.is_none() && rules.is_none() {
        return None;
    }
    Some(InterlockCall {
        script,
        rules,
        plays,
    })
}

/// The status of what became of the rules.
fn status_of(told: &RulesTold) -> Status
    ensures { result ≡ status_of told.now }
{
    match told {
        RulesTold::Refused(_) => Status::Refused,
        RulesTold::Hunted { .. } | RulesTold::Judged { .. } => {
            if told.is_bad() {
                Status::Found
            } else {
                Status::Done
            }
        }
    }
}

/// What became of the rules, with its status.
fn shown_of(told: RulesTold) -> Shown
    ensures { result.status ≡ status_of told }
{
    let status = status_of(&told);
    with_status(status, told.into_text())
}

/// What a hunt comes to, if it isn't too long.
fn show_hunted<P: HuntProgress>(
    alloc: Global,
    plan: Plan,
    call: &RulesCall,
    file: &[u8],
    progress: &mut P,
) -> Result<Shown, OutOfMemory> {
    let most = most_schedules(&plan);
    if u64::from(call.plays) > most {
        return too_many(alloc, file, most);
    }
    Ok(shown_of(show_hunt(alloc, plan, call, progress)?))
}

/// Whether a journal keeps the rules.
fn show_journal(
    alloc: Global,
    plan: &Plan,
    call: &RulesCall,
    journal: &Journal,
) -> Result<Shown, OutOfMemory>
    requires { AllWellFormed plan.now journal.now.entries }
{
    Ok(shown_of(show_kept(alloc, plan, call, journal.as_slice())?))
}

/// Whether the journal behind a script keeps the rules, as far as it goes.
fn show_behind(
    alloc: Global,
    plan: &Plan,
    call: &RulesCall,
    input: &Input,
    start: JournalStart,
) -> Result<Shown, OutOfMemory>
    requires { is_well_named plan.now ≡ true }
{
    let text = input.bytes.get(start.offset..).unwrap_or(&[]);
    match read_journal(alloc, plan, input, text)? {
        Reading::Whole(journal, _seens) => show_journal(alloc, plan, call, &journal),
        Reading::Cut(journal, _way) => show_journal(alloc, plan, call, &journal),
        Reading::Refused(why) => Ok(with_status(Status::Illegal, why)),
    }
}

/// What becomes of rules over a script, or over the journal behind it; `file` is what the script is called. Who waits is told how far a
/// hunt has come.
pub fn show_interlocks<P: HuntProgress>(
    alloc: Global,
    call: &RulesCall,
    file: &[u8],
    bytes: &[u8],
    progress: &mut P,
) -> Result<Shown, OutOfMemory> {
    let start = journal_behind(bytes);
    let (script, plan) = match look(alloc, file, script_text(bytes, start))? {
        Seen::Accepted(script, plan) => (script, plan),
        Seen::Refused(refusal) => return Ok(with_status(Status::Refused, refusal.text)),
    };
    match start {
        Some(start) => {
            has_own_names(&script, &plan);
            let input = Input {
                file,
                bytes,
                script_lines: start.lines,
            };
            show_behind(alloc, &plan, call, &input, start)
        }
        None => show_hunted(alloc, plan, call, file, progress),
    }
}
