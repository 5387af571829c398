//! The words that the program is called with.

use action_script::words::word::natural_of;
use caa_base::written::limits::MOST_ENTRIES;

/// What is to be shown.
#[derive(Clone, Copy)]
pub enum View {
    /// Why a script is refused, or a journal illegal.
    Explain,
    /// Who handles what.
    Table,
    /// What the author of a script may not have meant; with notes where they are asked for.
    Warn { notes: bool },
    /// The graphs and the nesting, for `dot`.
    Graph,
    /// A picture of so many entries of a journal, from the entry of this number on, counted from 0.
    Chart { first: u64, count: u64 },
    /// A journal in sentences.
    Story,
    /// Where everybody stands behind these entries of a journal.
    Where(Moments),
    /// One page with all of it, as HTML.
    Page,
    /// A journal as a trace of Chrome's.
    Trace,
}

/// The moments behind entries of a journal: `count` of them, from that behind so many entries on.
#[derive(Clone, Copy)]
pub struct Moments {
    pub first: u64,
    pub count: u64,
}

impl View {
    /// Whether what is shown is for a program: then a refusal doesn't belong into the output.
    pub fn is_for_machine(&self) -> bool {
        matches!(self, View::Graph | View::Chart { .. } | View::Trace)
    }
}

/// The usage line.
pub const USAGE: &[u8] =
    b"usage: explain [FILE] | table [FILE] | warn [FILE [notes]] | graph [FILE] | chart [FILE [FIRST COUNT]] | story [FILE] | where [FILE [FIRST COUNT]] | page [FILE] | trace [FILE] | rehearse [FILE [COUNT [csv]]] | faults [FILE [COUNT] [pairs] [csv] [off OBJECT ..]] | playing FILE NUMBER [bare] [OBJECT NTH .. [on] | from N] | interlock SCRIPT RULES [PLAYS] | lines | --help | --version\n";

/// Its name, its version, and the commit that it was built from: zeros, until `./build_caa` has written twelve digits there.
pub const VERSION: &[u8] = b"caa_show 1.0, commit 000000000000\n";

/// The view of a word.
fn view_of(word: &str) -> Option<View> {
    match word {
        "explain" => Some(View::Explain),
        "table" => Some(View::Table),
        "warn" => Some(View::Warn { notes: false }),
        "graph" => Some(View::Graph),
        "chart" => Some(View::Chart {
            first: 0,
            count: u64::MAX,
        }),
        "story" => Some(View::Story),
        "page" => Some(View::Page),
        "trace" => Some(View::Trace),
        "where" => Some(View::Where(Moments {
            first: u64::MAX,
            count: 1,
        })),
        _ => None,
    }
}

/// A part of a journal, by two numbers: how many entries are drawn, from one on that is counted from 1; or behind how many entries it is
/// told where everybody stands, and at how many moments from there on.
fn part_of(view: &str, first: &str, count: &str) -> Option<View> {
    let first = natural_of(first.as_bytes(), MOST_ENTRIES)?;
    let count = natural_of(count.as_bytes(), MOST_ENTRIES)?;
    match view {
        "chart" => Some(View::Chart {
            first: first.checked_sub(1)?,
            count,
        }),
        "where" => Some(View::Where(Moments { first, count })),
        _ => None,
    }
}

/// What is shown without an input.
#[derive(Clone, Copy)]
pub enum Alone {
    /// The table of the kinds of lines.
    LineTable,
    /// The usage line.
    Help,
    Version,
}

/// What is asked for that needs no input, if that is so.
pub fn asked_alone(words: &[String]) -> Option<Alone> {
    match words {
        [word] => match word.as_str() {
            "lines" => Some(Alone::LineTable),
            "--help" => Some(Alone::Help),
            "--version" => Some(Alone::Version),
            _ => None,
        },
        _ => None,
    }
}

/// What is asked for: a view, and the file that is read; none for standard input.
pub fn asked(words: &[String]) -> Option<(View, Option<&str>)> {
    match words {
        [view] => Some((view_of(view.as_str())?, None)),
        [view, file] => Some((view_of(view.as_str())?, Some(file.as_str()))),
        [view, file, more] => match (view.as_str(), more.as_str()) {
            ("warn", "notes") => Some((View::Warn { notes: true }, Some(file.as_str()))),
            _ => None,
        },
        [view, file, first, count] => {
            let view = part_of(view.as_str(), first.as_str(), count.as_str())?;
            Some((view, Some(file.as_str())))
        }
        _ => None,
    }
}
