//! Where everybody stands, and what the rules allow each.

use crate::judging::Scene;
use crate::lines::line_of;
use crate::words::Moments;
use caa_base::written::entry::{Entry, OutOfMemory, Participant};
use caa_base::written::journal::Journal;
use journal_replay::moves::{Move, Wait, refused};
use journal_states::states::States;
use journal_states::words::{lack_words, participant_name, push_awaited};
use journal_text::looks::seens::Seens;
use journal_text::texts::text_writer::write;
use place_plan::plans::plan::Plan;
use place_plan::rules::well_formed::is_well_formed;
use script_checker::lines::Lines;
use script_views::page::{Page, Piece};
use script_views::source::line_at;
use std::alloc::Global;

/// The line of an entry, without its line feed; empty for one that no journal of the plan can have.
pub fn entry_line(alloc: Global, plan: &Plan, entry: Entry) -> Result<Vec<u8>, OutOfMemory> {
    if !is_well_formed(plan, &entry) {
        return Ok(Vec::new(alloc));
    }
    let entries = vec![in alloc; entry]?;
    let text = write(
        alloc,
        plan,
        &Journal::from_vec(entries),
        &Seens::empty(alloc),
    )?;
    Ok(Vec::from_slice(alloc, line_at(&text, 2))?)
}

/// Adds that a participant may make this entry.
fn tell_may(alloc: Global, plan: &Plan, entry: Entry, page: &mut Page) -> Result<(), OutOfMemory> {
    page.say(&[Piece::Text(" may: ")])?;
    let line = entry_line(alloc, plan, entry)?;
    page.say(&[Piece::Word(&line)])
}

/// Adds the entry that is made where the device refuses.
fn tell_refused(
    alloc: Global,
    plan: &Plan,
    entry: Entry,
    page: &mut Page,
) -> Result<(), OutOfMemory> {
    page.say(&[Piece::Text(" or, where the device refuses: ")])?;
    let line = entry_line(alloc, plan, entry)?;
    page.say(&[Piece::Word(&line)])
}

/// Adds the name of a participant, its place and the line of the script at which it stands.
fn tell_spot(
    states: &States,
    lines: &Lines,
    by: Participant,
    page: &mut Page,
) -> Result<(), OutOfMemory> {
    let plan = states.plan();
    page.say(&[Piece::Text("  = "), Piece::Word(participant_name(plan, by))])?;
    let Some(spot) = states.spot(by) else {
        return Ok(());
    };
    page.say(&[
        Piece::Text(" in "),
        Piece::Number(u64::from(spot.place)),
        Piece::Text(" "),
        Piece::Word(plan.action_name(spot.place)),
    ])?;
    match line_of(lines, plan, by, &spot) {
        Some(line) => page.say(&[Piece::Text(", line "), Piece::Number(u64::from(line))]),
        None => Ok(()),
    }
}

/// Adds whom or what a participant waits for.
fn tell_wait(
    alloc: Global,
    states: &States,
    wait: &Wait,
    page: &mut Page,
) -> Result<(), OutOfMemory> {
    let mut awaited = Vec::new(alloc);
    push_awaited(&mut awaited, states, wait)?;
    page.say(&[Piece::Text(" has to wait for"), Piece::Word(&awaited)])?;
    page.say(&[Piece::Text(" "), Piece::Word(lack_words(wait.lack))])
}

/// Adds a line of its own about a participant: where it stands, and what it may do or waits for.
pub fn tell_standing(
    alloc: Global,
    states: &States,
    lines: &Lines,
    by: Participant,
    page: &mut Page,
) -> Result<(), OutOfMemory> {
    let plan = states.plan();
    tell_spot(states, lines, by, page)?;
    match states.move_of(by) {
        Move::Make(entry) => tell_may(alloc, plan, entry, page)?,
        Move::Mix(work) => tell_may(alloc, plan, work.entry(by), page)?,
        Move::Put(entry) => {
            tell_may(alloc, plan, entry, page)?;
            tell_refused(alloc, plan, refused(entry), page)?;
        }
        Move::Wait(wait) => tell_wait(alloc, states, &wait, page)?,
        Move::Over => page.say(&[Piece::Text(" is through with all its plays")])?,
    }
    page.say(&[Piece::Text("\n")])
}

/// Adds a line about each participant but one.
pub fn tell_all(
    alloc: Global,
    states: &States,
    lines: &Lines,
    but: Option<Participant>,
    page: &mut Page,
) -> Result<(), OutOfMemory> {
    for by in 0..states.plan().participants() {
        if Some(by) != but {
            tell_standing(alloc, states, lines, by, page)?;
        }
    }
    Ok(())
}

/// The cursor behind so many entries of a journal, or behind the last that the rules let come.
pub fn states_at<'a>(
    alloc: Global,
    plan: &'a Plan,
    journal: &'a Journal,
    count: u64,
) -> Result<States<'a>, OutOfMemory> {
    let mut states = States::open(alloc, plan, journal.as_slice())?;
    for _ in 0..count {
        if !states.step() {
            break;
        }
    }
    Ok(states)
}

/// Adds where everybody stands behind so many entries.
fn tell_moment(
    alloc: Global,
    states: &States,
    lines: &Lines,
    all: u64,
    page: &mut Page,
) -> Result<(), OutOfMemory> {
    page.say(&[
        Piece::Text("behind entry "),
        Piece::Number(states.taken() as u64),
        Piece::Text(" of "),
        Piece::Number(all),
        Piece::Text("\n"),
    ])?;
    tell_all(alloc, states, lines, None, page)
}

/// Where everybody stands behind each of these entries of a journal, as far as the rules let its entries come.
pub fn tell_moments(
    alloc: Global,
    scene: &Scene,
    journal: &Journal,
    moments: Moments,
) -> Result<Vec<u8>, OutOfMemory> {
    let mut page = Page::new(alloc, &[]);
    let mut states = states_at(alloc, scene.plan, journal, moments.first)?;
    tell_moment(alloc, &states, scene.lines, journal.len(), &mut page)?;
    for _ in 1..moments.count {
        if !states.step() {
            break;
        }
        tell_moment(alloc, &states, scene.lines, journal.len(), &mut page)?;
    }
    if (states.taken() as u64) < journal.len() && states.is_at_end() {
        page.say(&[Piece::Text("the next entry may not come by the rules\n")])?;
    }
    Ok(page.into_text())
}
