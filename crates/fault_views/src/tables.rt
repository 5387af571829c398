//! Rows of cells, laid out in columns.

use caa_base::written::entry::OutOfMemory;
use script_views::page::Page;
use std::alloc::Global;

/// Rows of cells.
#[derive(Drop)]
pub struct Table {
    rows: Vec<Vec<Vec<u8>>>,
}

/// How many characters a cell has. A byte that goes on with a character isn't counted.
fn width_of(cell: &[u8]) -> usize {
    let mut width = 0usize;
    for byte in cell {
        if *byte < 128 || *byte > 191 {
            width = width.saturating_add(1);
        }
    }
    width
}

/// How wide the cells of a column are.
fn column_width(rows: &[Vec<Vec<u8>>], column: usize) -> usize {
    let mut width = 0;
    for row in rows {
        if let Some(cell) = row.get(column) {
            width = width.max(width_of(cell));
        }
    }
    width
}

/// How many cells of a row stand up to its last that isn't empty.
fn filled(row: &[Vec<u8>]) -> usize {
    let mut count = 0;
    for (index, cell) in row.iter().enumerate() {
        if !cell.is_empty() {
            count = index.saturating_add(1);
        }
    }
    count
}

/// Shows a row, with two spaces between cells and none at its end.
fn show_row(page: &mut Page, row: &[Vec<u8>], widths: &[usize]) -> Result<(), OutOfMemory> {
    let count = filled(row);
    for (index, cell) in row.iter().enumerate() {
        if index >= count {
            break;
        }
        page.show(cell)?;
        if index.saturating_add(1) < count {
            let width = widths.get(index).copied().unwrap_or(0);
            let gap = width.saturating_sub(width_of(cell)).saturating_add(2);
            page.fill(b' ', gap)?;
        }
    }
    page.fill(b'\n', 1)
}

impl Table {
    /// No rows.
    pub fn new(alloc: Global) -> Self {
        Table {
            rows: Vec::new(alloc),
        }
    }

    /// Adds a row.
    pub fn push(&mut self, row: Vec<Vec<u8>>) -> Result<(), OutOfMemory> {
        self.rows.push(row)?;
        Ok(())
    }

    /// Shows all rows.
    pub fn show(&self, alloc: Global, page: &mut Page) -> Result<(), OutOfMemory> {
        let mut columns = 0usize;
        for row in &self.rows {
            columns = columns.max(row.len());
        }
        let mut widths = Vec::new(alloc);
        for column in 0..columns {
            widths.push(column_width(&self.rows, column))?;
        }
        for row in &self.rows {
            show_row(page, row, &widths)?;
        }
        Ok(())
    }
}
