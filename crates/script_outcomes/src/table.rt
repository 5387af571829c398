//! For each action a table of who handles what, and of what comes of it.

use crate::outlooks::{Outlook, Row, handlers_of, outlooks};
use crate::programs::{Program, Said, handler_of};
use crate::ways::Way;
use action_script::forms::script::{Line, Script};
use caa_base::written::entry::OutOfMemory;
use place_plan::plans::plan::Plan;
use script_views::covers::{CoverLine, below, covers_of};
use script_views::looking::{action_block, first_line, graph_block, internal_of, roles_of};
use script_views::page::{Page, Piece};
use std::alloc::Global;

/// What stands in a cell of which the role has no handler.
const NO_HANDLER: &[u8] = b"-";

/// What stands above the column that tells how a place ends.
const ENDS: &[u8] = b"the place ends";

/// The cells of a table, row by row, the heads of the columns first. The last cell of a row has no column of its own.
#[derive(Drop)]
struct Cells {
    columns: usize,
    cells: Vec<Vec<u8>>,
}

impl Cells {
    /// How wide the column of this number is.
    fn width(&self, column: usize) -> usize {
        let mut width = 0;
        for (index, cell) in self.cells.iter().enumerate() {
            if index % self.columns.max(1) == column {
                width = width.max(cell.len());
            }
        }
        width
    }

    /// How wide the columns are.
    fn widths(&self, alloc: Global) -> Result<Vec<usize>, OutOfMemory> {
        let mut widths = Vec::new(alloc);
        for column in 0..self.columns {
            widths.push(self.width(column))?;
        }
        Ok(widths)
    }

    /// Adds all rows.
    fn write(&self, alloc: Global, page: &mut Page) -> Result<(), OutOfMemory> {
        let widths = self.widths(alloc)?;
        let columns = self.columns.max(1);
        let mut spaces = 0usize;
        for (index, cell) in self.cells.iter().enumerate() {
            if index % columns == 0 {
                page.say(&[Piece::Text(if index == 0 { " " } else { "\n " })])?;
                spaces = 1;
            }
            if !cell.is_empty() {
                page.fill(b' ', spaces)?;
                page.show(cell)?;
                spaces = 0;
            }
            let width = widths.get(index % columns).copied().unwrap_or(0);
            spaces = spaces
                .saturating_add(width.saturating_sub(cell.len()))
                .saturating_add(2);
        }
        page.say(&[Piece::Text("\n")])
    }
}

/// A text of these pieces.
fn text_of(alloc: Global, script: &Script, pieces: &[Piece]) -> Result<Vec<u8>, OutOfMemory> {
    let mut page = Page::new(alloc, script.names());
    page.say(pieces)?;
    Ok(page.into_text())
}

/// The verdict that a handler comes to: `undo` also where it raises.
fn verdict_text(alloc: Global, script: &Script, program: &Program) -> Result<Vec<u8>, OutOfMemory> {
    match program.said {
        _ if program.raises() => text_of(alloc, script, &[Piece::Text("undo")]),
        Said::Undo => text_of(alloc, script, &[Piece::Text("undo")]),
        Said::Done => text_of(alloc, script, &[Piece::Text("done")]),
        Said::Signal(exception) => text_of(
            alloc,
            script,
            &[Piece::Text("signal "), Piece::Named(exception)],
        ),
    }
}

/// What stands in the cell of a handler.
fn handler_text(
    alloc: Global,
    script: &Script,
    program: &Option<Program>,
) -> Result<Vec<u8>, OutOfMemory> {
    let Some(program) = program else {
        return Ok(Vec::from_slice(alloc, NO_HANDLER)?);
    };
    let mut text = verdict_text(alloc, script, program)?;
    if program.can_fail() && text.as_slice() != b"undo".as_slice() {
        text.extend_from_slice(b" +")?;
    }
    Ok(text)
}

/// How a place ends, in words.
fn way_text(alloc: Global, script: &Script, row: &Row) -> Result<Vec<u8>, OutOfMemory> {
    if !row.can_come {
        return text_of(alloc, script, &[Piece::Text("never")]);
    }
    match row.way {
        Way::Commit => text_of(alloc, script, &[Piece::Text("commit")]),
        Way::Signal(exception) => text_of(
            alloc,
            script,
            &[Piece::Text("signal "), Piece::Named(exception)],
        ),
        Way::Undone | Way::Failed => text_of(alloc, script, &[Piece::Text("all set back")]),
    }
}

/// The lines that can raise an exception, or that it comes as a cover alone.
fn lines_text(alloc: Global, script: &Script, row: &Row) -> Result<Vec<u8>, OutOfMemory> {
    let mut page = Page::new(alloc, script.names());
    for (index, line) in row.lines.iter().enumerate() {
        if index > 0 {
            page.say(&[Piece::Text(", ")])?;
        }
        page.say(&[Piece::Number(u64::from(*line))])?;
    }
    if row.can_come && row.lines.is_empty() {
        page.say(&[Piece::Text("(as a cover)")])?;
    }
    Ok(page.into_text())
}

/// The heads of the columns.
fn heads(alloc: Global, script: &Script, block: &[Line]) -> Result<Vec<Vec<u8>>, OutOfMemory> {
    let mut cells = Vec::new(alloc);
    cells.push(Vec::new(alloc))?;
    for role in roles_of(block) {
        cells.push(text_of(alloc, script, &[Piece::Named(*role)])?)?;
    }
    cells.push(Vec::from_slice(alloc, ENDS)?)?;
    cells.push(text_of(alloc, script, &[Piece::Text("raised by lines")])?)?;
    Ok(cells)
}

/// Adds the cells of an exception.
fn push_row(
    alloc: Global,
    cells: &mut Vec<Vec<u8>>,
    script: &Script,
    block: &[Line],
    row: &Row,
) -> Result<(), OutOfMemory> {
    cells.push(text_of(alloc, script, &[Piece::Named(row.exception)])?)?;
    for program in handlers_of(alloc, block, row.exception)?.iter() {
        cells.push(handler_text(alloc, script, program)?)?;
    }
    cells.push(way_text(alloc, script, row)?)?;
    cells.push(lines_text(alloc, script, row)?)?;
    Ok(())
}

/// The cells of an action.
fn cells_of(
    alloc: Global,
    script: &Script,
    block: &[Line],
    outlook: &Outlook,
) -> Result<Cells, OutOfMemory> {
    let mut cells = heads(alloc, script, block)?;
    let columns = cells.len();
    for row in outlook.rows.iter() {
        push_row(alloc, &mut cells, script, block, row)?;
    }
    Ok(Cells { columns, cells })
}

/// Adds the line that names an action and its internal graph, and the order in which its objects are set back.
fn write_title(page: &mut Page, block: &[Line], outlook: &Outlook) -> Result<(), OutOfMemory> {
    page.say(&[
        Piece::Text("action "),
        Piece::Named(outlook.action),
        Piece::Text(" (line "),
        Piece::Number(u64::from(first_line(block))),
    ])?;
    match internal_of(block) {
        Some(graph) => page.say(&[
            Piece::Text("), what is raised inside: graph "),
            Piece::Named(graph),
        ])?,
        None => page.say(&[Piece::Text("), what is raised inside: universal alone")])?,
    }
    if outlook.set_back.is_empty() {
        return page.say(&[Piece::Text("; it has no objects\n")]);
    }
    page.say(&[Piece::Text("; set back in the order ")])?;
    page.list(&outlook.set_back)?;
    page.say(&[Piece::Text("\n")])
}

/// Whether an exception can be resolved.
fn can_come(outlook: &Outlook, exception: u32) -> bool {
    outlook
        .rows
        .iter()
        .any(|row| row.exception == exception && row.can_come)
}

/// Whether a role that handles one exception has no handler for another.
fn is_served_by_upper_alone(block: &[Line], upper: u32, lower: u32) -> bool {
    roles_of(block).iter().any(|role| {
        handler_of(block, *role, upper).is_some() && handler_of(block, *role, lower).is_none()
    })
}

/// The exceptions that another one covers, that one aside.
fn covered(
    alloc: Global,
    covers: &[CoverLine],
    outlook: &Outlook,
    upper: u32,
    universal: u32,
) -> Result<Vec<u32>, OutOfMemory> {
    if upper != universal {
        return below(alloc, covers, upper);
    }
    let mut names = Vec::new(alloc);
    for row in outlook.rows.iter() {
        names.push(row.exception)?;
    }
    Ok(names)
}

/// What the notes of an action are about.
#[derive(Drop)]
struct Notes<'a> {
    script: &'a Script,
    block: &'a [Line],
    outlook: &'a Outlook,
    covers: Vec<CoverLine>,
}

impl<'a> Notes<'a> {
    /// Tells for which exceptions that can come the handlers of a cover don't serve; tells whether there are any.
    fn write_note(&self, alloc: Global, page: &mut Page, upper: u32) -> Result<bool, OutOfMemory> {
        let mut missing = Vec::new(alloc);
        let universal = self.script.universal();
        for lower in covered(alloc, &self.covers, self.outlook, upper, universal)? {
            if can_come(self.outlook, lower) && is_served_by_upper_alone(self.block, upper, lower) {
                missing.push(lower)?;
            }
        }
        if missing.is_empty() {
            return Ok(false);
        }
        page.say(&[
            Piece::Text("  note: the handlers for "),
            Piece::Named(upper),
            Piece::Text(" don't serve for what it covers: "),
            Piece::List(&missing),
            Piece::Text("\n"),
        ])?;
        Ok(true)
    }

    /// Adds the notes; tells whether there are any.
    fn write(&self, alloc: Global, page: &mut Page) -> Result<bool, OutOfMemory> {
        let mut has_note = false;
        for row in self.outlook.rows.iter() {
            has_note = self.write_note(alloc, page, row.exception)? || has_note;
        }
        Ok(has_note)
    }
}

/// Adds the table of an action; tells whether it has a note.
fn write_action(
    alloc: Global,
    page: &mut Page,
    script: &Script,
    outlook: &Outlook,
) -> Result<bool, OutOfMemory> {
    let block = action_block(script.lines(), outlook.action);
    write_title(page, block, outlook)?;
    cells_of(alloc, script, block, outlook)?.write(alloc, page)?;
    let graph = match internal_of(block) {
        Some(graph) => graph_block(script.lines(), graph),
        None => &[],
    };
    let covers = covers_of(alloc, graph)?;
    Notes {
        script,
        block,
        outlook,
        covers,
    }
    .write(alloc, page)
}

/// For each action of a script a table: a row for each exception of its internal graph, and a column for each role. A cell has the
/// verdict of the role's handler for just this exception, and `-` where there is none; then all is set back. `+` says that a step of
/// the handler can be refused or can raise, which makes its verdict an undo. Behind them stands how the place ends, `never` where the
/// exception is never resolved, and the lines that can raise it. Below a table notes tell of each cover that has
/// handlers for which exceptions below it they don't serve.
pub fn tables(alloc: Global, script: &Script, plan: &Plan) -> Result<Vec<u8>, OutOfMemory> {
    let mut page = Page::new(alloc, script.names());
    let mut has_note = false;
    for outlook in outlooks(alloc, script, plan)?.iter() {
        has_note = write_action(alloc, &mut page, script, outlook)? || has_note;
    }
    if has_note {
        page.say(&[Piece::Text(
            "A handler serves the exception of its own line, and none that this one covers.\n",
        )])?;
    }
    Ok(page.into_text())
}
