//! What a call asks of rules, and what it comes to.

ghost use Rattle.std.specs.List.{list_any};
ghost use Rattle.std.specs.Prelude.{◌≡◌, IfOk};
ghost use Rattle.place_plan.specs.RulesOfJournals.WellFormed.{AllWellFormed};
ghost use Rattle.interlock_views.specs.Told.{is_bad, is_broken, TellsHunt, TellsJudged};

use crate::found::{Found, JudgedRule, judge_rules};
use crate::hunting::{Hunt, HuntProgress, hunt_in};
use crate::reading::{RuleLine, RulesFile, RulesRead, read_rules};
use crate::telling::Telling;
use caa_base::written::entry::{Entry, OutOfMemory};
use place_plan::plans::plan::Plan;
use script_views::page::Page;
use std::alloc::Global;

/// How many plays a hunt has at most where no number is given.
pub const USUAL_PLAYS: u32 = 2000;

/// A file of rules, and what it and the script are called.
#[derive(Clone, Copy)]
pub struct RulesCall<'a> {
    pub script: &'a [u8],
    pub file: &'a [u8],
    pub text: &'a [u8],
    /// How many plays a hunt has at most.
    pub plays: u32,
}

/// What a view of rules came to, and the lines of text that tell it.
#[derive(Drop)]
pub enum RulesTold {
    /// The rules were hunted for.
    Hunted {
        text: Vec<u8>,
        hunt: Hunt,
    },
    /// A journal was judged by each rule.
    Judged {
        text: Vec<u8>,
        judged: Vec<JudgedRule>,
    },
    /// The rules are refused.
    Refused(Vec<u8>),
}

/// Whether a journal breaks the rule.
fn is_broken(rule: &JudgedRule) -> bool
    ensures { result ≡ is_broken rule.now }
{
    rule.broken.is_some()
}

/// Whether a journal breaks one of these rules.
fn any_is_broken(judged: &[JudgedRule]) -> bool
    ensures { result ≡ list_any is_broken judged.now }
{
    judged.iter().any(|rule| is_broken(rule))
}

impl RulesTold {
    /// Whether a rule is broken.
    pub fn is_bad(&self) -> bool
        ensures { result ≡ is_bad self.now }
    {
        match self {
            RulesTold::Hunted { hunt, .. } => !hunt.found.is_empty(),
            RulesTold::Judged { judged, .. } => any_is_broken(judged),
            RulesTold::Refused(_) => false,
        }
    }

    /// The lines of text.
    pub fn into_text(self) -> Vec<u8> {
        match self {
            RulesTold::Hunted { text, hunt: _hunt } => text,
            RulesTold::Judged {
                text,
                judged: _judged,
            } => text,
            RulesTold::Refused(why) => why,
        }
    }
}

impl<'a> RulesCall<'a> {
    /// How it is told what becomes of the rules.
    fn telling(&self, alloc: Global, plan: &'a Plan) -> Telling<'a> {
        Telling {
            alloc,
            plan,
            script: self.script,
            file: self.file,
            text: self.text,
        }
    }
}

/// The rule of this line among those that were found broken.
fn found_at(found: &[Found], number: u32) -> Option<&Found> {
    found.iter().find(|found| found.line.number == number)
}

/// The text of a hunt over the rules of these lines, in their order.
fn hunt_text(
    alloc: Global,
    call: &RulesCall,
    numbers: &[u32],
    hunt: &Hunt,
) -> Result<Vec<u8>, OutOfMemory> {
    let telling = call.telling(alloc, &hunt.plan);
    let mut page = Page::new(alloc, &[]);
    for number in numbers {
        match found_at(&hunt.found, *number) {
            Some(found) => telling.say_found(&mut page, found)?,
            None => telling.say_not_seen(&mut page, *number, hunt.plays)?,
        }
    }
    telling.say_taken(&mut page, &hunt.taken)?;
    Ok(page.into_text())
}

/// The numbers of the lines of these rules.
fn numbers_of(alloc: Global, rules: &[RuleLine]) -> Result<Vec<u32>, OutOfMemory> {
    let mut numbers = Vec::new(alloc);
    for line in rules {
        numbers.push(line.number)?;
    }
    Ok(numbers)
}

/// Hunts for journals that break the rules, and tells what comes of each. Who waits is told how far it has come.
pub fn show_hunt<P: HuntProgress>(
    alloc: Global,
    plan: Plan,
    call: &RulesCall,
    progress: &mut P,
) -> Result<RulesTold, OutOfMemory>
    ensures { IfOk result (TellsHunt plan) }
{
    let rules = match read_rules(alloc, &plan, call.file, call.text)? {
        RulesRead::Read(rules) => rules,
        RulesRead::Refused(why) => return Ok(RulesTold::Refused(why)),
    };
    let RulesFile { taken, rules } = rules;
    let numbers = numbers_of(alloc, &rules)?;
    let hunt = hunt_in(alloc, plan, taken, rules, call.plays, progress)?;
    let text = hunt_text(alloc, call, &numbers, &hunt)?;
    Ok(RulesTold::Hunted { text, hunt })
}

/// The text of what a journal comes to for each rule.
fn judged_text(
    alloc: Global,
    plan: &Plan,
    call: &RulesCall,
    judged: &[JudgedRule],
) -> Result<Vec<u8>, OutOfMemory> {
    let telling = call.telling(alloc, plan);
    let mut page = Page::new(alloc, &[]);
    for rule in judged {
        telling.say_judged(&mut page, rule)?;
    }
    Ok(page.into_text())
}

/// Tells of each rule whether a journal keeps it. The journal need not be legal, nor complete.
pub fn show_kept(
    alloc: Global,
    plan: &Plan,
    call: &RulesCall,
    entries: &[Entry],
) -> Result<RulesTold, OutOfMemory>
    requires { AllWellFormed plan.now entries.now }
    ensures { IfOk result (TellsJudged plan.now entries.now) }
{
    let rules = match read_rules(alloc, plan, call.file, call.text)? {
        RulesRead::Read(rules) => rules,
        RulesRead::Refused(why) => return Ok(RulesTold::Refused(why)),
    };
    let judged = judge_rules(alloc, plan, rules.rules, entries)?;
    let text = judged_text(alloc, plan, call, &judged)?;
    Ok(RulesTold::Judged { text, judged })
}
