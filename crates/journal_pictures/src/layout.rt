//! Where in a picture things stand.

ghost use Rattle.std.specs.Prelude.{◌≡◌, ◌+◌, ◌<◌, ◌≤◌, ◌^◌, length, slice_index_or, IfOk};
ghost use Rattle.journal_pictures.specs.Pictures.{axis, middle, level, AreApart};

use crate::stretches::Note;
use crate::words::label_of;
use caa_base::written::entry::{Entry, Kind, OutOfMemory, Participant};
use journal_states::words::{participant_name, push_place};
use place_plan::plans::plan::Plan;
use std::alloc::Global;

/// How far from the left the first lane begins.
pub const LEFT: u64 = 48;

/// How far from the edge of a lane its marks stand.
pub const TO_AXIS: u64 = 34;

/// How far from the top the first row begins.
pub const TOP: u64 = 138;

/// How high a row is.
pub const ROW_HEIGHT: u64 = 20;

/// What is left free at the right and at the bottom.
pub const MARGIN: u64 = 10;

/// How wide a lane is at least; at most by the words in it; and at most by its name.
const LEAST_LANE: u64 = 120;

const MOST_LANE: u64 = 400;

const WIDEST_LANE: u64 = 1 << 20;

/// How wide the legend is.
const LEGEND_WIDTH: u64 = 880;

/// How wide a letter is, about.
const LETTER_WIDTH: u64 = 6;

/// How far from the top the marks of a row stand. Above each fortieth row there is room for the names of the lanes.
pub fn middle(row: u32) -> u64
    ensures { result ≡ middle row }
{
    TOP + ROW_HEIGHT / 2 + u64::from(row) * ROW_HEIGHT + u64::from(row / 40) * 24
}

/// The part of a journal that is drawn: all its entries, those that are drawn, the number of the first of these, how many there are, and
/// where the lanes stand.
#[derive(Clone, Copy)]
pub struct View<'a> {
    pub plan: &'a Plan,
    pub entries: &'a [Entry],
    pub part: &'a [Entry],
    pub first: u64,
    pub rows: u32,
    /// How far from the left the marks of each lane stand.
    pub axes: &'a [u64],
    /// How wide the picture is.
    pub width: u64,
}

/// How far from the left the marks of a lane stand.
pub fn axis(axes: &[u64], lane: Participant) -> u64
    ensures { result ≡ axis axes.now lane }
{
    match axes.get(lane as usize) {
        Some(axis) => *axis,
        None => 0,
    }
}

impl<'a> View<'a> {
    /// How far from the left the marks of a lane stand.
    pub fn axis(&self, lane: Participant) -> u64
        ensures { result ≡ axis self.now.axes.now lane }
    {
        axis(self.axes, lane)
    }

    /// How far from the left a lane begins.
    pub fn lane_left(&self, lane: Participant) -> u64 {
        self.axis(lane).saturating_sub(TO_AXIS)
    }

    /// How far from the left a lane ends.
    pub fn lane_right(&self, lane: Participant) -> u64 {
        let next = lane.saturating_add(1);
        if next < self.plan.participants() {
            self.lane_left(next)
        } else {
            self.width.saturating_sub(MARGIN)
        }
    }
}

/// How far down the part reaches.
pub fn bottom(view: &View) -> u64
    ensures { result ≡ middle view.now.rows }
{
    middle(view.rows)
}

/// How high the picture is.
pub fn height(view: &View) -> u64
    ensures { result ≡ middle view.now.rows + 10 }
{
    middle(view.rows) + MARGIN
}

/// The row of the entry of this number, if it is drawn.
pub fn row_of(view: &View, number: u64) -> Option<u32> {
    let row = number.checked_sub(view.first)?;
    if row < u64::from(view.rows) {
        Some(row as u32)
    } else {
        None
    }
}

/// How far down the entry of this number stands: at the top of the part where it comes before, at its bottom where it comes after.
pub fn level(view: &View, number: u64) -> u64 {
    match row_of(view, number) {
        Some(row) => middle(row),
        None if number < view.first => TOP,
        None => bottom(view),
    }
}

/// How far down a moment is, which is behind so many entries: where the last of them stands.
pub fn level_behind(view: &View, moment: u64) -> u64
    ensures { result ≡ level view.now.first view.now.rows moment }
{
    if moment <= view.first {
        return TOP;
    }
    let row = (moment - 1 - view.first).min(u64::from(view.rows));
    middle(row as u32)
}

/// Whether the part shows something of what goes from one entry to another.
pub fn is_seen(view: &View, from: u64, to: u64) -> bool {
    to >= view.first && from < view.first.saturating_add(u64::from(view.rows))
}

/// How wide so many letters are.
fn width_of(letters: usize) -> u64 {
    LETTER_WIDTH.saturating_mul(letters as u64)
}

/// How far the words beside an entry reach from its mark.
fn reach_of(alloc: Global, plan: &Plan, entry: &Entry) -> Result<u64, OutOfMemory> {
    if entry.kind == Kind::Arrive {
        let mut place = Vec::new(alloc);
        push_place(&mut place, plan, entry.place)?;
        return Ok(width_of(place.len()).saturating_add(66));
    }
    let label = label_of(alloc, plan, entry)?;
    Ok(width_of(label.len()).saturating_add(16))
}

/// Makes a lane as wide as this needs.
fn widen(widths: &mut [u64], lane: Participant, reach: u64) {
    if let Some(width) = widths.get_mut(lane as usize) {
        let needed = reach.saturating_add(TO_AXIS).saturating_add(8);
        *width = (*width).max(needed.min(MOST_LANE));
    }
}

/// How wide each lane has to be for its name, and all words in it.
fn widths_of(
    alloc: Global,
    plan: &Plan,
    part: &[Entry],
    notes: &[Note],
) -> Result<Vec<u64>, OutOfMemory> {
    let mut widths = Vec::new(alloc);
    for lane in 0..plan.participants() {
        let name = width_of(participant_name(plan, lane).len()).saturating_mul(3) / 2;
        widths.push(name.saturating_add(40))?;
    }
    for entry in part {
        widen(&mut widths, entry.by, reach_of(alloc, plan, entry)?);
    }
    for note in notes {
        let reach = width_of(note.words.len()).saturating_add(16);
        widen(&mut widths, note.lane, reach);
    }
    Ok(widths)
}

/// How wide a lane is, of those that have to be so wide.
fn lane_width(widths: &[u64], lane: Participant) -> u64
    ensures least { 120 ≤ result }
    ensures most { result ≤ 2 ^ 20 }
{
    match widths.get(lane as usize) {
        Some(width) => (*width).max(LEAST_LANE).min(WIDEST_LANE),
        None => LEAST_LANE,
    }
}

/// How far from the left the marks of each lane stand, and how wide the picture is.
pub fn axes_of(
    alloc: Global,
    plan: &Plan,
    part: &[Entry],
    notes: &[Note],
) -> Result<(Vec<u64>, u64), OutOfMemory>
    ensures { IfOk result (λ made. AreApart (length plan.now.participants) made.1 made.0.items) }
{
    let widths = widths_of(alloc, plan, part, notes)?;
    let mut axes = Vec::new(alloc);
    let mut left = LEFT;
    for lane in 0..plan.participants() {
        axes.push(left + TO_AXIS)?;
        left += lane_width(&widths, lane);
    }
    Ok((axes, left.max(LEGEND_WIDTH) + MARGIN))
}
