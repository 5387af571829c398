//! Why a line of rules is refused.

use crate::reading::MOST_RULES;
use crate::words::Word;
use caa_base::written::entry::OutOfMemory;
use caa_base::written::limits::{MOST_LINE_BYTES, MOST_MAGNITUDE};
use journal_text::texts::text_writer::object_name;
use place_plan::plans::plan::Plan;
use script_views::characters::push_character;
use script_views::page::{Page, Piece};
use script_views::source::{line_at, show_carets, show_line, width_at};
use std::alloc::Global;

/// How many objects are listed at most.
const MOST_CHOICES: u32 = 40;

/// What is wrong with a line of rules.
#[derive(Clone, Copy, Debug, PartialEq, Eq)]
pub enum Fault {
    /// No line of rules begins with this word.
    NoKind,
    /// Behind this word an object is wanted, and none stands there.
    ObjectLeftOut,
    /// No object of the script has this name.
    UnknownObject,
    /// Behind this object a test is wanted, and none stands there.
    TestLeftOut,
    /// This word is no test.
    NoTest,
    /// Behind this test a number is wanted, and none stands there.
    NumberLeftOut,
    /// This word is no number that a value may be.
    NoNumber,
    /// This object has a part of the rule already.
    ObjectTwice,
    /// A byte that no line may have but in a comment.
    OddByte,
    /// The line has more bytes than a line may have.
    TooLong,
    /// There are more rules than a file may have.
    TooMany,
}

/// What is wrong with a line, and with which word of it.
#[derive(Clone, Copy)]
pub struct Misread<'a> {
    pub word: Word<'a>,
    pub fault: Fault,
}

/// Why a line isn't read: it is misread, or no memory was found.
#[derive(Clone, Copy)]
pub enum LineError<'a> {
    Misread(Misread<'a>),
    OutOfMemory,
}

impl<'a> From<OutOfMemory> for LineError<'a> {
    fn from(_error: OutOfMemory) -> Self {
        LineError::OutOfMemory
    }
}

/// A word that is at fault.
pub fn at_fault<'a>(word: Word<'a>, fault: Fault) -> LineError<'a> {
    LineError::Misread(Misread { word, fault })
}

impl Fault {
    /// The fault in a word or two, as those of scripts.
    pub fn phrase(self) -> &'static str {
        match self {
            Fault::UnknownObject => "unknown",
            Fault::ObjectTwice => "twice",
            Fault::NoNumber => "bad-number",
            Fault::TooLong => "too-long",
            Fault::TooMany => "limit",
            Fault::NoKind
            | Fault::ObjectLeftOut
            | Fault::TestLeftOut
            | Fault::NoTest
            | Fault::NumberLeftOut
            | Fault::OddByte => "bad-line",
        }
    }
}

/// Tells which objects there are.
fn tell_objects(page: &mut Page, plan: &Plan) -> Result<(), OutOfMemory> {
    page.say(&[Piece::Text("  = here may stand:")])?;
    for object in 0..plan.objects().min(MOST_CHOICES) {
        page.say(&[Piece::Text(" "), Piece::Word(object_name(plan, object))])?;
    }
    let more = plan.objects().saturating_sub(MOST_CHOICES);
    if more > 0 {
        page.say(&[
            Piece::Text(", and "),
            Piece::Number(u64::from(more)),
            Piece::Text(" more"),
        ])?;
    }
    page.say(&[Piece::Text("\n")])
}

/// Tells something of a word.
fn tell_of(page: &mut Page, word: Word, what: &'static str) -> Result<(), OutOfMemory> {
    page.note(&[Piece::Text("`"), Piece::Word(word.text), Piece::Text(what)])
}

/// Tells how the lines of rules are written.
fn tell_written(page: &mut Page) -> Result<(), OutOfMemory> {
    page.tell("it is written: never [asked OBJECT [TEST VALUE ..],] OBJECT TEST VALUE .., ..")?;
    page.tell("or with moved in place of asked; or: taken OBJECT ..; or: with OBJECT ..")
}

/// Tells a word that should be a number.
fn tell_no_number(page: &mut Page, word: Word) -> Result<(), OutOfMemory> {
    page.note(&[
        Piece::Text("`"),
        Piece::Word(word.text),
        Piece::Text("` stands where VALUE is wanted, a whole number from -"),
        Piece::Number(MOST_MAGNITUDE),
        Piece::Text(" to "),
        Piece::Number(MOST_MAGNITUDE),
    ])
}

/// Tells that no line begins with a word.
fn tell_no_kind(page: &mut Page, word: Word) -> Result<(), OutOfMemory> {
    page.note(&[
        Piece::Text("no line of rules begins with `"),
        Piece::Word(word.text),
        Piece::Text("`"),
    ])?;
    page.tell("a line here begins with never taken with")
}

/// Tells a byte that no line may have.
fn tell_odd_byte(page: &mut Page, word: Word) -> Result<(), OutOfMemory> {
    push_character(page, word.text)?;
    page.say(&[Piece::Text(" may stand in comments alone: other lines are written in ASCII\n")])
}

/// Tells of so many bytes or rules that they are too many.
fn tell_limit(
    page: &mut Page,
    has: &'static str,
    most: usize,
    what: &'static str,
) -> Result<(), OutOfMemory> {
    page.note(&[
        Piece::Text(has),
        Piece::Number(most as u64),
        Piece::Text(what),
    ])
}

/// Tells what is wrong with a word of a line.
fn tell_word(page: &mut Page, plan: &Plan, misread: Misread) -> Result<(), OutOfMemory> {
    let word = misread.word;
    match misread.fault {
        Fault::NoKind => tell_no_kind(page, word),
        Fault::ObjectLeftOut => tell_of(page, word, "`: behind this an object is wanted"),
        Fault::UnknownObject => {
            tell_of(page, word, "` is no object of the script")?;
            tell_objects(page, plan)
        }
        Fault::TestLeftOut => tell_of(page, word, "`: behind this object a test is wanted"),
        Fault::NoTest => tell_of(
            page,
            word,
            "` is no test: a test is one of equal, not, below, above",
        ),
        Fault::NumberLeftOut => tell_of(page, word, "`: behind this test a number is wanted"),
        Fault::NoNumber => tell_no_number(page, word),
        Fault::ObjectTwice => tell_of(
            page,
            word,
            "` has a part of this rule already: all its tests stand there",
        ),
        Fault::OddByte => tell_odd_byte(page, word),
        Fault::TooLong => tell_limit(page, "a line may have ", MOST_LINE_BYTES, " bytes"),
        Fault::TooMany => tell_limit(
            page,
            "a file may have ",
            MOST_RULES,
            " rules, and this is one more",
        ),
    }
}

/// Whether it helps to say how a line is written.
fn is_of_shape(fault: Fault) -> bool {
    matches!(
        fault,
        Fault::ObjectLeftOut | Fault::TestLeftOut | Fault::NoTest | Fault::NumberLeftOut
    )
}

/// The head of a refusal: the line, the column counted from 1, and what is wrong in a word.
fn tell_head(
    page: &mut Page,
    file: &[u8],
    number: u32,
    column: usize,
    phrase: &'static str,
) -> Result<(), OutOfMemory> {
    page.say(&[
        Piece::Word(file),
        Piece::Text(":"),
        Piece::Number(u64::from(number)),
        Piece::Text(":"),
        Piece::Number((column as u64).saturating_add(1)),
        Piece::Text(": refused: "),
        Piece::Text(phrase),
        Piece::Text("\n"),
    ])
}

/// Tells why a line of rules is refused, with carets under the word that is at fault.
pub fn tell_misread(
    alloc: Global,
    plan: &Plan,
    file: &[u8],
    text: &[u8],
    number: u32,
    misread: Misread,
) -> Result<Vec<u8>, OutOfMemory> {
    let mut page = Page::new(alloc, &[]);
    let word = misread.word;
    tell_head(&mut page, file, number, word.column, misread.fault.phrase())?;
    show_line(&mut page, text, number)?;
    let line = line_at(text, number);
    show_carets(&mut page, line, number, word.column, width_at(word.text, 0))?;
    tell_word(&mut page, plan, misread)?;
    if is_of_shape(misread.fault) {
        tell_written(&mut page)?;
    }
    Ok(page.into_text())
}

/// Tells of a text as a whole that it is refused.
pub fn tell_whole(
    alloc: Global,
    file: &[u8],
    phrase: &'static str,
    pieces: &[Piece],
) -> Result<Vec<u8>, OutOfMemory> {
    let mut page = Page::new(alloc, &[]);
    tell_head(&mut page, file, 0, 0, phrase)?;
    page.note(pieces)?;
    Ok(page.into_text())
}
