//! A line that stands in no text of a journal of a script, told word by word.

use caa_base::written::entry::OutOfMemory;
use journal_states::wanted::{Fault, KINDS, OUTCOMES, VERDICTS, Wanted, entry_of};
use journal_states::words::participant_name;
use journal_text::texts::text_writer::{kind_word, object_name};
use place_plan::plans::plan::Plan;
use script_views::page::{Page, Piece};
use script_views::source::{line_at, show_carets, width_at};

/// The greatest number of a line that is shown.
pub fn shown_number(line: u64) -> u32 {
    line.min(u64::from(u32::MAX)) as u32
}

/// A line of the whole input that is told of.
#[derive(Clone, Copy)]
pub struct Odd<'a> {
    pub number: u32,
    pub line: &'a [u8],
}

/// Where the word of this index begins, where each blank parts two words; past the last word, behind the line.
fn column_of(line: &[u8], word: usize) -> usize {
    let mut words = 0usize;
    for (index, byte) in line.iter().enumerate() {
        if words == word {
            return index;
        }
        if *byte == b' ' {
            words = words.saturating_add(1);
        }
    }
    if words == word {
        line.len()
    } else {
        line.len().saturating_add(1)
    }
}

/// Adds carets under what stands after a column.
fn show_fault(page: &mut Page, odd: &Odd, column: usize) -> Result<(), OutOfMemory> {
    show_carets(
        page,
        odd.line,
        odd.number,
        column,
        width_at(odd.line, column),
    )
}

/// A blank that stands where no text of a journal has one: its column, and what it is.
fn blank_at(line: &[u8]) -> Option<(usize, &'static str)> {
    let mut after_space = true;
    for (index, byte) in line.iter().enumerate() {
        match *byte {
            b'\r' => return Some((
                index,
                "here stands a carriage return: the lines of a journal end with a line feed alone",
            )),
            b'\t' => return Some((index, "here stands a tab: one space parts two words")),
            b' ' if after_space => return Some((index, "here stands a space too many")),
            _ => {}
        }
        after_space = *byte == b' ';
    }
    if after_space && !line.is_empty() {
        return Some((
            line.len().saturating_sub(1),
            "here stands a space too many, at the end of the line",
        ));
    }
    None
}

/// What is wanted, in words.
fn words_of(wanted: Wanted) -> &'static str {
    match wanted {
        Wanted::Kind => "a kind of entry is wanted here, one of:",
        Wanted::Place => "the number of a place is wanted here, from 0 to",
        Wanted::Participant => "a participant is wanted here, one of:",
        Wanted::Object => "an object is wanted here, one of:",
        Wanted::Value =>
            "a value is wanted here: a whole number from -1000000000000 to 1000000000000, as it is printed",
        Wanted::Rounds => "a number of rounds is wanted here, from 0 to 1000000",
        Wanted::Exception(_) => "an exception is wanted here, one of:",
        Wanted::Named(_) => "an exception or nothing is wanted here; the exceptions are:",
        Wanted::Verdict => "a verdict is wanted here, one of:",
        Wanted::Outcome => "an outcome is wanted here, one of:",
        Wanted::Taken => "well or failed is wanted here: whether the device took it",
        Wanted::Nothing => "nothing more may stand here",
    }
}

/// Adds words, each after a space.
fn say_words(page: &mut Page, words: &[&'static [u8]]) -> Result<(), OutOfMemory> {
    for word in words {
        page.say(&[Piece::Text(" "), Piece::Word(word)])?;
    }
    Ok(())
}

/// Adds the exceptions of a graph, each after a space.
fn say_exceptions(page: &mut Page, plan: &Plan, graph: u32) -> Result<(), OutOfMemory> {
    for exception in 0..plan.exceptions_of(graph) {
        page.say(&[
            Piece::Text(" "),
            Piece::Word(plan.exception_name(graph, exception)),
        ])?;
    }
    Ok(())
}

/// Adds what may stand where this is wanted.
fn say_choices(page: &mut Page, plan: &Plan, wanted: Wanted) -> Result<(), OutOfMemory> {
    match wanted {
        Wanted::Kind => {
            for kind in KINDS {
                page.say(&[Piece::Text(" "), Piece::Word(kind_word(kind))])?;
            }
        }
        Wanted::Place => page.say(&[
            Piece::Text(" "),
            Piece::Number(u64::from(plan.places().saturating_sub(1))),
        ])?,
        Wanted::Participant => {
            for by in 0..plan.participants() {
                page.say(&[Piece::Text(" "), Piece::Word(participant_name(plan, by))])?;
            }
        }
        Wanted::Object => {
            for object in 0..plan.objects() {
                page.say(&[Piece::Text(" "), Piece::Word(object_name(plan, object))])?;
            }
        }
        Wanted::Exception(graph) | Wanted::Named(graph) => say_exceptions(page, plan, graph)?,
        Wanted::Verdict => say_words(page, &VERDICTS)?,
        Wanted::Outcome => say_words(page, &OUTCOMES)?,
        Wanted::Value | Wanted::Rounds | Wanted::Taken | Wanted::Nothing => {}
    }
    Ok(())
}

/// Tells which word of an entry line can't stand there, and what may.
fn tell_word(page: &mut Page, plan: &Plan, odd: &Odd, fault: Fault) -> Result<(), OutOfMemory> {
    show_fault(page, odd, column_of(odd.line, fault.word))?;
    page.say(&[Piece::Text("  = "), Piece::Text(words_of(fault.wanted))])?;
    say_choices(page, plan, fault.wanted)?;
    page.say(&[Piece::Text("\n")])
}

/// The first column at which two lines differ.
fn column_differing(line: &[u8], other: &[u8]) -> usize {
    let mut column = 0usize;
    for (index, byte) in line.iter().enumerate() {
        if other.get(index).copied() != Some(*byte) {
            break;
        }
        if *byte == b' ' {
            column = index.saturating_add(1);
        }
    }
    column
}

/// Whether a line begins with the word of a line that closes a journal.
fn closes(line: &[u8]) -> bool {
    line.starts_with(b"object ".as_slice())
        || line.starts_with(b"outcome ".as_slice())
        || line.starts_with(b"seen ".as_slice())
}

/// Tells what is odd about a line. `right` is the line that would stand there, where the journal ended before it; it is empty where none
/// would.
pub fn tell_odd(page: &mut Page, plan: &Plan, odd: &Odd, right: &[u8]) -> Result<(), OutOfMemory> {
    if let Some((column, words)) = blank_at(odd.line) {
        show_fault(page, odd, column)?;
        return page.note(&[Piece::Text(words)]);
    }
    if closes(odd.line) {
        return tell_closing(page, odd, right);
    }
    match entry_of(plan, odd.line) {
        Err(fault) => tell_word(page, plan, odd, fault),
        Ok(_) => page.note(&[Piece::Text(
            "no entry may stand here: the lines that close the journal have begun",
        )]),
    }
}

/// Tells which line would close a journal here.
fn tell_closing(page: &mut Page, odd: &Odd, right: &[u8]) -> Result<(), OutOfMemory> {
    if right.is_empty() {
        return page.note(&[Piece::Text(
            "the lines that close the journal are all there, and of what was seen no line stands here so",
        )]);
    }
    show_fault(page, odd, column_differing(odd.line, right))?;
    page.note(&[
        Piece::Text("by the entries above, this line is: "),
        Piece::Word(right),
    ])
}

/// The line of a text of this number, counted from 1, without its line feed.
pub fn line_of_text(text: &[u8], number: u64) -> &[u8] {
    line_at(text, shown_number(number))
}
