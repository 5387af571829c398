//! A journal as a picture.

ghost use Rattle.std.specs.Prelude.{◌≡◌, ◌≤◌, ◌++◌, ◌∷◌, [], length, filter, OnOk, IfOk};
ghost use Rattle.std.specs.List.{All, flat_map};
ghost use Rattle.place_plan.specs.RulesOfJournals.WellFormed.{IsWellFormed, AllWellFormed};
ghost use Rattle.journal_pictures.specs.Marks.{drawn, marks_from, most_rows};
ghost use Rattle.journal_pictures.specs.Pictures.{shape_text, bar_text, mark_text, body_text, AreApart, IsBar, stretches_shown, IsPicture};
ghost use Rattle.journal_pictures.specs.Stretches.{IsRight, half_width};
ghost use Rattle.journal_pictures.specs.inner.Lanes.{AreOne};
ghost use Rattle.journal_pictures.specs.inner.Parts.{is_here, AreBars};

use crate::frame::frame;
use crate::layout::{View, axes_of, height, level_behind};
use crate::marks::{Mark, drawn, marks_of};
use crate::render::{push_bar, push_front, push_mark, push_shape};
use crate::shapes::{Bar, Shape};
use crate::stretches::{Doing, Stretch, Told, stretches_of};
use caa_base::written::entry::OutOfMemory;
use caa_base::written::journal::Journal;
use caa_base::written::line::push_word;
use journal_states::words::participant_name;
use place_plan::plans::plan::Plan;
use std::alloc::Global;

/// The picture, as SVG text, of `count` entries of a journal from number `first` on, counted from 0: as many of these as there are, and
/// no more than `MOST_ROWS`.
///
/// Time goes downwards. Each participant has a lane, each entry a row of its own and a mark in its participant's lane, and each place
/// a box inside that of the place round it, in each lane from where its participant arrives to where it leaves. Stretches in a lane say
/// what its participant may do by the rules, or that it waits; from an entry on that may not come there are none.
pub fn chart(
    alloc: Global,
    plan: &Plan,
    journal: &Journal,
    first: u64,
    count: u64,
) -> Result<Vec<u8>, OutOfMemory>
    requires { AllWellFormed plan.now journal.now.entries }
    ensures { IfOk result (λ text. IsPicture plan.now journal.now.entries first (drawn first count journal.now.entries) text.items) }
{
    let entries = journal.as_slice();
    let part = drawn(entries, first, count);
    let told = stretches_of(alloc, plan, entries, first, part.len() as u64)?;
    let (axes, width) = axes_of(alloc, plan, part, &told.notes)?;
    let view = View {
        plan,
        entries,
        part,
        first,
        rows: part.len() as u32,
        axes: &axes,
        width,
    };
    let parts = parts_of(alloc, &view, &told)?;
    text_of(alloc, &view, &parts)
}

/// What a picture is put together from.
#[derive(Drop)]
struct Parts {
    shapes: Vec<Shape>,
    bars: Vec<Bar>,
    marks: Vec<Mark>,
}

/// The parts of a picture of which this is told.
fn parts_of(alloc: Global, view: &View, told: &Told) -> Result<Parts, OutOfMemory>
    requires few { length view.now.part.now ≤ most_rows }
    requires told { All (IsRight view.now.plan.now view.now.entries.now view.now.first view.now.rows) told.now.stretches.items }
    requires number { AreOne view.now.plan.now view.now.entries.now view.now.first view.now.rows told.now.stretches.items }
    ensures bars { IfOk result (λ parts. AreBars view.now parts.bars.items) }
    ensures marks { IfOk result (λ parts. parts.marks.items ≡ marks_from 0 view.now.part.now) }
{
    let shapes = frame(alloc, view, told)?;
    let bars = bars_of(alloc, view, &told.stretches)?;
    let marks = marks_of(alloc, view.part)?;
    Ok(Parts {
        shapes,
        bars,
        marks,
    })
}

/// The text of a picture of these parts.
fn text_of(alloc: Global, view: &View, parts: &Parts) -> Result<Vec<u8>, OutOfMemory>
    requires rows { view.now.rows ≡ length view.now.part.now }
    requires lanes { AreApart (length view.now.plan.now.participants) view.now.width view.now.axes.now }
    requires bars { AreBars view.now parts.now.bars.items }
    requires marks { parts.now.marks.items ≡ marks_from 0 view.now.part.now }
    requires formed { All (λ m. IsWellFormed view.now.plan.now m.entry) parts.now.marks.items }
    ensures { IfOk result (λ text. IsPicture view.now.plan.now view.now.entries.now view.now.first view.now.part.now text.items) }
{
    let mut text = Vec::new(alloc);
    push_front(&mut text, view.width, height(view))?;
    push_body(alloc, &mut text, view, parts)?;
    Ok(text)
}

/// Where a stretch is drawn, and what is told of it.
fn bar_of(alloc: Global, view: &View, stretch: Stretch) -> Result<Bar, OutOfMemory>
    ensures stretch { IfOk result (λ bar. bar.stretch ≡ stretch) }
    ensures placed { IfOk result (IsBar view.now.axes.now view.now.first view.now.rows) }
{
    let half = half_of(stretch.doing);
    let top = level_behind(view, stretch.from);
    let base = level_behind(view, stretch.to);
    Ok(Bar {
        stretch,
        left: view.axis(stretch.lane).saturating_sub(half),
        top,
        width: half + half,
        height: base.saturating_sub(top),
        title: title_of(alloc, view.plan, stretch)?,
    })
}

/// Half how wide a stretch is drawn.
fn half_of(doing: Doing) -> u64
    ensures half { result ≡ half_width doing }
    ensures small { result ≤ 5 }
{
    match doing {
        Doing::Away | Doing::Turn => 1,
        Doing::Body | Doing::Handler | Doing::Wait(_) => 5,
    }
}

/// What is told of a stretch.
fn title_of(alloc: Global, plan: &Plan, stretch: Stretch) -> Result<Vec<u8>, OutOfMemory> {
    let mut title = Vec::from_slice(alloc, participant_name(plan, stretch.lane))?;
    push_word(
        &mut title,
        match stretch.doing {
            Doing::Away => b"is in no place",
            Doing::Turn => b"may go on",
            Doing::Body => b"may make the next step of its body",
            Doing::Handler => b"may make the next step of its handler",
            Doing::Wait(_) => b"has to wait",
        },
    )?;
    Ok(title)
}

/// Whether a stretch is of somebody who is in a place.
fn is_here(stretch: &Stretch) -> bool
    ensures { result ≡ is_here stretch.now }
{
    !matches!(stretch.doing, Doing::Away)
}

/// Adds where a stretch is drawn, where it is one of somebody who is in a place.
fn push_here(
    alloc: Global,
    bars: &mut Vec<Bar>,
    view: &View,
    stretch: &Stretch,
) -> Result<(), OutOfMemory>
    ensures shown { OnOk result (stretches_shown bars.new.items ≡ stretches_shown bars.old.items ++ filter is_here (stretch.now ∷ [])) }
    ensures placed { OnOk result (All (IsBar view.now.axes.now view.now.first view.now.rows) bars.old.items → All (IsBar view.now.axes.now view.now.first view.now.rows) bars.new.items) }
{
    if !is_here(stretch) {
        return Ok(());
    }
    bars.push(bar_of(alloc, view, *stretch)?)?;
    Ok(())
}

/// The stretches of those who are in a place, where they are drawn.
fn bars_of(alloc: Global, view: &View, stretches: &[Stretch]) -> Result<Vec<Bar>, OutOfMemory>
    ensures shown { IfOk result (λ bars. stretches_shown bars.items ≡ filter is_here stretches.now) }
    ensures placed { IfOk result (λ bars. All (IsBar view.now.axes.now view.now.first view.now.rows) bars.items) }
{
    let mut bars = Vec::new(alloc);
    for stretch in stretches {
        push_here(alloc, &mut bars, view, stretch)?;
    }
    Ok(bars)
}

/// Adds what is no mark, the marks, and the end.
fn push_body(
    alloc: Global,
    text: &mut Vec<u8>,
    view: &View,
    parts: &Parts,
) -> Result<(), OutOfMemory>
    requires { All (λ m. IsWellFormed view.now.plan.now m.entry) parts.now.marks.items }
    ensures { OnOk result (text.new.items ≡ text.old.items ++ body_text view.now.plan.now view.now.axes.now parts.now.shapes.items parts.now.bars.items parts.now.marks.items) }
{
    push_shapes(text, &parts.shapes)?;
    push_bars(text, &parts.bars)?;
    push_marks(alloc, text, view.plan, view.axes, &parts.marks)?;
    text.extend_from_slice(b"</svg>\n")?;
    Ok(())
}

/// Adds what is neither a stretch nor a mark.
fn push_shapes(text: &mut Vec<u8>, shapes: &[Shape]) -> Result<(), OutOfMemory>
    ensures { OnOk result (text.new.items ≡ text.old.items ++ flat_map shape_text shapes.now) }
{
    for shape in shapes {
        push_shape(text, shape)?;
    }
    Ok(())
}

/// Adds the stretches.
fn push_bars(text: &mut Vec<u8>, bars: &[Bar]) -> Result<(), OutOfMemory>
    ensures { OnOk result (text.new.items ≡ text.old.items ++ flat_map bar_text bars.now) }
{
    for bar in bars {
        push_bar(text, bar)?;
    }
    Ok(())
}

/// Adds the marks.
fn push_marks(
    alloc: Global,
    text: &mut Vec<u8>,
    plan: &Plan,
    axes: &[u64],
    marks: &[Mark],
) -> Result<(), OutOfMemory>
    requires { All (λ m. IsWellFormed plan.now m.entry) marks.now }
    ensures { OnOk result (text.new.items ≡ text.old.items ++ flat_map (mark_text plan.now axes.now) marks.now) }
{
    for mark in marks {
        push_mark(alloc, text, plan, axes, mark)?;
    }
    Ok(())
}
