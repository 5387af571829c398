//! Lines of entries, read word by word: what each says, or the first word that can't stand where it does and what is wanted there.

use caa_base::written::digits::digits_within;
use caa_base::written::entry::{Entry, Exception, Kind, Object, Participant, Place};
use caa_base::written::limits::{MOST_COUNT, MOST_MAGNITUDE};
use journal_text::texts::text_writer::{kind_word, object_name};
use place_plan::plans::plan::Plan;

/// What may stand as a word of a line.
#[derive(Clone, Copy, PartialEq, Eq)]
pub enum Wanted {
    /// The word of a kind of entry.
    Kind,
    /// The number of a place.
    Place,
    /// The name of a participant.
    Participant,
    /// The name of an object.
    Object,
    /// A value.
    Value,
    /// A number of rounds.
    Rounds,
    /// An exception of this graph.
    Exception(u32),
    /// An exception of this graph, or nothing.
    Named(u32),
    /// A verdict.
    Verdict,
    /// An outcome.
    Outcome,
    /// Whether the device took a restore.
    Taken,
    /// Nothing more.
    Nothing,
}

/// The first word of a line, counted from 0, that can't stand there, and what is wanted in its place.
#[derive(Clone, Copy)]
pub struct Fault {
    pub word: usize,
    pub wanted: Wanted,
}

/// All kinds.
pub const KINDS: [Kind; 18] = [
    Kind::Arrive,
    Kind::Withdraw,
    Kind::Start,
    Kind::Read,
    Kind::Work,
    Kind::Write,
    Kind::Check,
    Kind::PutFault,
    Kind::Raise,
    Kind::Inform,
    Kind::Resolve,
    Kind::Handle,
    Kind::Verdict,
    Kind::Abort,
    Kind::Undo,
    Kind::Restore,
    Kind::End,
    Kind::Leave,
];

/// The participant of this name, or a number past the last one.
fn participant_in(plan: &Plan, word: &[u8]) -> Participant {
    for by in 0..plan.participants() {
        if plan.participant_name(by) == word {
            return by;
        }
    }
    plan.participants()
}

/// The object of this name, or a number past the last one.
fn object_in(plan: &Plan, word: &[u8]) -> Object {
    for object in 0..plan.objects() {
        if object_name(plan, object) == word {
            return object;
        }
    }
    plan.objects()
}

/// The exception of this name in a graph, or a number past the last one.
fn exception_in(plan: &Plan, graph: u32, word: &[u8]) -> Exception {
    for exception in 0..plan.exceptions_of(graph) {
        if plan.exception_name(graph, exception) == word {
            return exception;
        }
    }
    plan.exceptions_of(graph)
}

/// The kind of a word.
fn kind_of(word: &[u8]) -> Option<Kind> {
    KINDS.iter().copied().find(|kind| kind_word(*kind) == word)
}

/// Whether a word is a number as it is printed, up to the most.
fn is_number(word: &[u8], most: u64) -> bool {
    if word.is_empty() || (word.len() > 1 && word.first().copied() == Some(b'0')) {
        return false;
    }
    word.iter().all(|byte| byte.is_ascii_digit()) && digits_within(word, most).is_some()
}

/// Whether a word is a value as it is printed.
fn is_value(word: &[u8]) -> bool {
    match word.split_first() {
        Some((b'-', digits)) => digits != b"0".as_slice() && is_number(digits, MOST_MAGNITUDE),
        _ => is_number(word, MOST_MAGNITUDE),
    }
}

/// Whether a word is one of these.
fn is_one_of(word: &[u8], words: &[&'static [u8]]) -> bool {
    words.iter().any(|other| *other == word)
}

/// The words of a verdict.
pub const VERDICTS: [&[u8]; 3] = [b"done", b"signal", b"undo"];

/// The words of an outcome.
pub const OUTCOMES: [&[u8]; 5] = [b"commit", b"signal", b"undone", b"aborted", b"failed"];

/// The words of a restore.
pub const TAKEN: [&[u8]; 2] = [b"well", b"failed"];

/// Whether a word is what is wanted.
fn fits(plan: &Plan, wanted: Wanted, word: &[u8]) -> bool {
    match wanted {
        Wanted::Kind => kind_of(word).is_some(),
        Wanted::Place => is_number(word, u64::from(plan.places().saturating_sub(1))),
        Wanted::Participant => participant_in(plan, word) < plan.participants(),
        Wanted::Object => object_in(plan, word) < plan.objects(),
        Wanted::Value => is_value(word),
        Wanted::Rounds => is_number(word, u64::from(MOST_COUNT)),
        Wanted::Exception(graph) | Wanted::Named(graph) => {
            exception_in(plan, graph, word) < plan.exceptions_of(graph)
        }
        Wanted::Verdict => is_one_of(word, &VERDICTS),
        Wanted::Outcome => is_one_of(word, &OUTCOMES),
        Wanted::Taken => is_one_of(word, &TAKEN),
        Wanted::Nothing => false,
    }
}

/// What is wanted as the word of this index behind kind, place and name, where this word stands before it.
fn wanted_after(plan: &Plan, kind: Kind, place: Place, index: usize, before: &[u8]) -> Wanted {
    match (kind, index) {
        (Kind::Read | Kind::Write | Kind::PutFault | Kind::Restore, 0) => Wanted::Object,
        (Kind::Read | Kind::Write | Kind::PutFault | Kind::Restore, 1) => Wanted::Value,
        (Kind::Restore, 2) => Wanted::Taken,
        (Kind::Work, 0) => Wanted::Rounds,
        (Kind::Work, 1) => Wanted::Value,
        (Kind::Raise | Kind::Resolve | Kind::Handle, 0) => {
            Wanted::Exception(plan.internal_number(place))
        }
        (Kind::Verdict, 0) => Wanted::Verdict,
        (Kind::End, 0) => Wanted::Outcome,
        (Kind::Verdict | Kind::End, 1) if before == b"signal".as_slice() => {
            Wanted::Exception(plan.interface_number(place))
        }
        (Kind::Abort, 0) => Wanted::Named(plan.interface_number(place)),
        (Kind::Leave, 0) => match plan.parent(place) {
            Some(outer) => Wanted::Named(plan.internal_number(outer)),
            None => Wanted::Nothing,
        },
        _ => Wanted::Nothing,
    }
}

/// The word of this index of a line, where one space parts two words.
fn word_at(line: &[u8], index: usize) -> Option<&[u8]> {
    let mut rest = Some(line);
    for _ in 0..index {
        rest = match rest {
            Some(text) => after_space(text),
            None => None,
        };
    }
    let text = rest?;
    match text.iter().position(|byte| *byte == b' ') {
        Some(end) => text.get(..end),
        None => Some(text),
    }
}

/// What stands behind the first space of a text.
fn after_space(text: &[u8]) -> Option<&[u8]> {
    let end = text.iter().position(|byte| *byte == b' ')?;
    text.get(end.saturating_add(1)..)
}

/// What is wanted as the word of this index of the line of an entry.
fn wanted_at(plan: &Plan, line: &[u8], index: usize) -> Wanted {
    match index {
        0 => Wanted::Kind,
        1 => Wanted::Place,
        2 => Wanted::Participant,
        _ => {
            let kind = match word_at(line, 0) {
                Some(word) => kind_of(word),
                None => None,
            };
            let place = digits_within(word_at(line, 1).unwrap_or(b"0"), u64::from(u32::MAX));
            let before = word_at(line, index.saturating_sub(1)).unwrap_or(b"");
            match kind {
                Some(kind) => wanted_after(
                    plan,
                    kind,
                    place.unwrap_or(0) as u32,
                    index.saturating_sub(3),
                    before,
                ),
                None => Wanted::Nothing,
            }
        }
    }
}

/// How many words a line of an entry has at most.
const MOST_WORDS: usize = 7;

/// The first word of the line of an entry that can't stand there; or none, where each may.
fn fault_in(plan: &Plan, line: &[u8]) -> Option<Fault> {
    for word in 0..MOST_WORDS {
        let wanted = wanted_at(plan, line, word);
        let fault = Fault { word, wanted };
        match word_at(line, word) {
            Some(text) if fits(plan, wanted, text) => {}
            Some(_) => return Some(fault),
            None if matches!(wanted, Wanted::Nothing | Wanted::Named(_)) => return None,
            None => return Some(fault),
        }
    }
    None
}

/// The number that a word says, or 0.
fn number_of(word: Option<&[u8]>) -> u32 {
    let Some(word) = word else {
        return 0;
    };
    match digits_within(word, u64::from(u32::MAX)) {
        Some(number) => number as u32,
        None => 0,
    }
}

/// The value that a word says, or 0.
fn value_of(word: &[u8]) -> i64 {
    match word.split_first() {
        Some((b'-', digits)) => -(digits_within(digits, MOST_MAGNITUDE).unwrap_or(0) as i64),
        _ => digits_within(word, MOST_MAGNITUDE).unwrap_or(0) as i64,
    }
}

/// Where a word stands in a list of words, or how many these are.
fn index_in(word: &[u8], words: &[&'static [u8]]) -> u32 {
    let mut index = 0u32;
    for other in words {
        if *other == word {
            return index;
        }
        index = index.saturating_add(1);
    }
    index
}

/// An entry with the words behind kind, place and name taken in, up to one.
fn with_word(plan: &Plan, entry: Entry, wanted: Wanted, word: &[u8]) -> Entry {
    match wanted {
        Wanted::Object => Entry {
            arg: object_in(plan, word),
            ..entry
        },
        Wanted::Value => Entry {
            value: value_of(word),
            ..entry
        },
        Wanted::Rounds => Entry {
            arg: number_of(Some(word)),
            ..entry
        },
        Wanted::Exception(graph) => Entry {
            arg: exception_in(plan, graph, word),
            ..entry
        },
        Wanted::Named(graph) => Entry {
            arg: exception_in(plan, graph, word),
            mark: 1,
            ..entry
        },
        Wanted::Verdict => Entry {
            mark: index_in(word, &VERDICTS),
            ..entry
        },
        Wanted::Outcome => Entry {
            mark: index_in(word, &OUTCOMES),
            ..entry
        },
        Wanted::Taken => Entry {
            mark: index_in(word, &TAKEN),
            ..entry
        },
        Wanted::Kind | Wanted::Place | Wanted::Participant | Wanted::Nothing => entry,
    }
}

/// What the line of an entry says, without its line feed; or the first word that can't stand where it does.
pub fn entry_of(plan: &Plan, line: &[u8]) -> Result<Entry, Fault> {
    if let Some(fault) = fault_in(plan, line) {
        return Err(fault);
    }
    let mut entry = Entry {
        kind: kind_of(word_at(line, 0).unwrap_or(b"")).unwrap_or(Kind::Arrive),
        place: number_of(word_at(line, 1)),
        by: participant_in(plan, word_at(line, 2).unwrap_or(b"")),
        arg: 0,
        mark: 0,
        value: 0,
    };
    for index in 3..MOST_WORDS {
        if let Some(word) = word_at(line, index) {
            entry = with_word(plan, entry, wanted_at(plan, line, index), word);
        }
    }
    Ok(entry)
}
