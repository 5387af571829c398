//! What comes of two refused puts: of one that comes only after a fault, and of pairs that are worse than either alone.

use crate::fault_page::{Ending, FaultTelling, class_word, note_ending};
use crate::rows::{FaultRow, Seen};
use crate::spots::line_of;
use caa_base::written::entry::OutOfMemory;
use fault_trials::modes::{Mode, Spot, rank_of};
use rehearsals::paths::number_of;
use script_views::page::{Page, Piece};
use std::alloc::Global;

/// How many pairs are told.
const MOST_PAIRS: usize = 20;

/// A put that comes only after a fault, with what came of it where it was refused, too.
#[derive(Drop)]
struct LaterRow<'a> {
    spot: Spot,
    endings: Vec<Ending>,
    /// The first that came to the worst class.
    worst: Seen<'a>,
}

/// Two puts, with the first try of both that came to the worst class.
#[derive(Clone, Copy)]
struct Pair<'a> {
    first: Spot,
    second: Spot,
    worst: Seen<'a>,
}

/// A row or a pair as it is put in order.
type Ranked = (u32, u32, u32, u32);

/// Whether this came to a worse class than the other.
fn is_worse(seen: &Seen, other: &Seen) -> bool {
    rank_of(seen.effect.class) > rank_of(other.effect.class)
}

/// Where the row of a put stands among these.
fn later_at(later: &[LaterRow], spot: Spot) -> Option<usize> {
    for (index, row) in later.iter().enumerate() {
        if row.spot == spot {
            return Some(index);
        }
    }
    None
}

/// A put that comes only after a fault, of which this is the first try.
fn first_later<'a>(
    alloc: Global,
    spot: Spot,
    seen: &Seen<'a>,
) -> Result<LaterRow<'a>, OutOfMemory> {
    let mut endings = Vec::new(alloc);
    note_ending(&mut endings, seen.effect, seen.times)?;
    Ok(LaterRow {
        spot,
        endings,
        worst: *seen,
    })
}

/// Takes note of a try of a put that comes only after a fault.
fn note_later<'a>(
    alloc: Global,
    later: &mut Vec<LaterRow<'a>>,
    spot: Spot,
    seen: &Seen<'a>,
) -> Result<(), OutOfMemory> {
    let Some(index) = later_at(later, spot) else {
        later.push(first_later(alloc, spot, seen)?)?;
        return Ok(());
    };
    if let Some(row) = later.get_mut(index) {
        if is_worse(seen, &row.worst) {
            row.worst = *seen;
        }
        note_ending(&mut row.endings, seen.effect, seen.times)?;
    }
    Ok(())
}

/// Where two puts stand among these.
fn pair_at(pairs: &[Pair], first: Spot, second: Spot) -> Option<usize> {
    for (index, pair) in pairs.iter().enumerate() {
        if pair.first == first && pair.second == second {
            return Some(index);
        }
    }
    None
}

/// Takes note of a try of two puts.
fn note_pair<'a>(
    pairs: &mut Vec<Pair<'a>>,
    first: Spot,
    second: Spot,
    seen: &Seen<'a>,
) -> Result<(), OutOfMemory> {
    let Some(index) = pair_at(pairs, first, second) else {
        pairs.push(Pair {
            first,
            second,
            worst: *seen,
        })?;
        return Ok(());
    };
    if let Some(pair) = pairs.get_mut(index) {
        if is_worse(seen, &pair.worst) {
            pair.worst = *seen;
        }
    }
    Ok(())
}

/// The worst class that a put came to alone, as it stands among the others.
fn rank_alone(row: &FaultRow) -> u32 {
    let mut worst = 0;
    for seen in &row.seen {
        if seen.mode == Mode::Once {
            worst = worst.max(rank_of(seen.effect.class));
        }
    }
    worst
}

impl<'a> FaultTelling<'a> {
    /// The row of a put; none where it comes only after a fault.
    fn row_of(&self, spot: Spot) -> Option<&'a FaultRow<'a>> {
        for row in self.rows {
            if row.spot == spot {
                return Some(row);
            }
        }
        None
    }

    /// How bad a put alone can be.
    fn class_alone(&self, spot: Spot) -> u32 {
        match self.row_of(spot) {
            Some(row) => rank_alone(row),
            None => 0,
        }
    }

    /// Takes note of the tries of a row with a second put.
    fn note_seconds(
        &self,
        alloc: Global,
        row: &'a FaultRow<'a>,
        later: &mut Vec<LaterRow<'a>>,
        pairs: &mut Vec<Pair<'a>>,
    ) -> Result<(), OutOfMemory> {
        for seen in &row.seen {
            let Some(second) = seen.second else {
                continue;
            };
            if self.row_of(second).is_none() {
                note_later(alloc, later, second, seen)?;
            } else {
                note_pair(pairs, row.spot, second, seen)?;
            }
        }
        Ok(())
    }

    /// Says of a put that comes only after a fault how plays end where it is refused, too.
    fn say_later_row(
        &self,
        alloc: Global,
        page: &mut Page,
        row: &LaterRow,
    ) -> Result<(), OutOfMemory> {
        let effect = row.worst.effect;
        page.say(&[Piece::Text("  ")])?;
        self.say_where(page, row.spot)?;
        page.say(&[Piece::Text(" ")])?;
        self.say_title(page, row.spot)?;
        page.say(&[Piece::Text(": ")])?;
        self.say_counted(alloc, page, &row.endings, true)?;
        page.say(&[
            Piece::Text("; class "),
            Piece::Text(class_word(effect.class)),
        ])?;
        if !effect.away.is_empty() {
            page.say(&[Piece::Text("; away ")])?;
            self.say_standings(page, &effect.away, " ", "=")?;
        }
        self.say_example(page, row.worst.example)
    }

    /// Says the puts that come only after a fault, in the order of their lines.
    fn say_later(
        &self,
        alloc: Global,
        page: &mut Page,
        later: &[LaterRow],
    ) -> Result<(), OutOfMemory> {
        page.say(&[Piece::Text("puts that come only after a fault, refused beside it:\n")])?;
        let mut keys = Vec::new(alloc);
        for (index, row) in later.iter().enumerate() {
            keys.push((line_of(&self.parts, row.spot), number_of(index)))?;
        }
        keys.sort()?;
        for (_, index) in &keys {
            if let Some(row) = later.get(*index as usize) {
                self.say_later_row(alloc, page, row)?;
            }
        }
        if keys.is_empty() {
            page.say(&[Piece::Text("  none\n")])?;
        }
        Ok(())
    }

    /// Whether two puts come to a worse class than either alone.
    fn is_worse_pair(&self, pair: &Pair) -> bool {
        let rank = rank_of(pair.worst.effect.class);
        rank > self.class_alone(pair.first) && rank > self.class_alone(pair.second)
    }

    /// The pairs that come to a worse class than either alone, the worst first and then by their lines.
    fn worse_pairs(&self, alloc: Global, pairs: &[Pair]) -> Result<Vec<Ranked>, OutOfMemory> {
        let mut keys: Vec<Ranked> = Vec::new(alloc);
        for (index, pair) in pairs.iter().enumerate() {
            if self.is_worse_pair(pair) {
                keys.push((
                    u32::MAX - rank_of(pair.worst.effect.class),
                    line_of(&self.parts, pair.first),
                    line_of(&self.parts, pair.second),
                    number_of(index),
                ))?;
            }
        }
        keys.sort()?;
        Ok(keys)
    }

    /// Says two puts that come to a worse class than either alone.
    fn say_pair(&self, page: &mut Page, pair: &Pair) -> Result<(), OutOfMemory> {
        page.say(&[
            Piece::Text("  "),
            Piece::Text(class_word(pair.worst.effect.class)),
            Piece::Text("  "),
        ])?;
        self.say_where(page, pair.first)?;
        page.say(&[Piece::Text(" ")])?;
        self.say_title(page, pair.first)?;
        page.say(&[Piece::Text(", ")])?;
        self.say_where(page, pair.second)?;
        page.say(&[Piece::Text(" ")])?;
        self.say_title(page, pair.second)?;
        self.say_example(page, pair.worst.example)
    }

    /// Says the pairs that come to a worse class than either alone, as many as are told.
    fn say_worse_pairs(
        &self,
        alloc: Global,
        page: &mut Page,
        pairs: &[Pair],
    ) -> Result<(), OutOfMemory> {
        let worse = self.worse_pairs(alloc, pairs)?;
        page.say(&[
            Piece::Text("two puts refused that come without a fault: "),
            Piece::Number(pairs.len() as u64),
            Piece::Text(" pairs, "),
            Piece::Number(worse.len() as u64),
            Piece::Text(" worse than either alone\n"),
        ])?;
        for (_, _, _, index) in worse.as_slice().get(..MOST_PAIRS).unwrap_or(&worse) {
            if let Some(pair) = pairs.get(*index as usize) {
                self.say_pair(page, pair)?;
            }
        }
        if worse.len() > MOST_PAIRS {
            let more = worse.len() - MOST_PAIRS;
            page.say(&[
                Piece::Text("  and "),
                Piece::Number(more as u64),
                Piece::Text(" more\n"),
            ])?;
        }
        Ok(())
    }

    /// Says what comes of two refused puts of bodies and handlers.
    pub fn say_pairs(&self, alloc: Global, page: &mut Page) -> Result<(), OutOfMemory> {
        let mut later = Vec::new(alloc);
        let mut pairs = Vec::new(alloc);
        for row in self.rows {
            self.note_seconds(alloc, row, &mut later, &mut pairs)?;
        }
        self.say_later(alloc, page, &later)?;
        self.say_worse_pairs(alloc, page, &pairs)
    }
}
