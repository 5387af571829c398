//! A line that can't be read.

use crate::characters::{has_returns_alone, push_character};
use crate::looking::{begins_block, block_name, first_line};
use crate::page::{Page, Piece};
use crate::scene::Scene;
use crate::shapes::{
    MANUAL, in_steps, kind_part, push_written, section_after, section_of, section_phrase,
    stand_phrase,
};
use crate::source::{column_of, line_at, show_line};
use action_script::forms::form::Form;
use action_script::forms::script::Line;
use action_script::lines::field::Part;
use action_script::lines::kind::{LineKind, Section, Stand};
use action_script::script_error::ScriptCause;
use action_script::words::cuts::{is_blank, words_of};
use action_script::words::word::{count_of, rounds_of, test_of, value_of};
use caa_base::written::entry::OutOfMemory;
use caa_base::written::limits::{
    MOST_COUNT, MOST_LINE_BYTES, MOST_MAGNITUDE, MOST_NAME_BYTES, MOST_SCRIPT_BYTES,
};
use caa_base::written::name::is_name;
use std::alloc::Global;

/// Where the carets stand under a line: under a word, or under a byte.
#[derive(Clone, Copy)]
pub enum Spot {
    Word(usize),
    Byte(usize),
}

/// The bytes that some editors write in front of a text.
const BYTE_ORDER_MARK: [u8; 3] = [239, 187, 191];

// ---- where the line stands

/// The verdict line that closed the steps right before a line, if it is so.
fn verdict_before(block: &[Line]) -> Option<u32> {
    let line = block.last()?;
    if let Form::DoneLine | Form::SignalLine(_) | Form::UndoLine = &line.form {
        Some(line.number)
    } else {
        None
    }
}

/// The line that opened the last block which has ended, and the line that ended it.
fn last_ended(before: &[Line]) -> Option<(u32, u32)> {
    let mut opening = None;
    let mut found = None;
    for line in before {
        if begins_block(&line.form).is_some() {
            opening = Some(line.number);
        } else if let (Form::End, Some(first)) = (&line.form, opening) {
            found = Some((first, line.number));
        }
    }
    found
}

/// The line that began the last steps of an open action which have ended, and the line that ended them.
fn last_steps(alloc: Global, block: &[Line]) -> Result<Option<(u32, u32)>, OutOfMemory> {
    let mut section = Section::Top;
    let mut first = 0;
    let mut found = None;
    for line in block {
        let next = section_of(alloc, section, &line.form)?;
        if in_steps(next) && matches!(&line.form, Form::Body(_) | Form::Handler(_, _)) {
            first = line.number;
        } else if in_steps(section) && !in_steps(next) {
            found = Some((first, line.number));
        }
        section = next;
    }
    Ok(found)
}

/// Tells where the line stands.
fn tell_section(scene: &Scene, section: Section, notes: &mut Page) -> Result<(), OutOfMemory> {
    let Some(name) = block_name(scene.block) else {
        return notes.note(&[Piece::Text(section_phrase(section))]);
    };
    notes.note(&[
        Piece::Text(section_phrase(section)),
        Piece::Named(name),
        Piece::Text(", which line "),
        Piece::Number(u64::from(first_line(scene.block))),
        Piece::Text(" opens"),
    ])
}

// ---- words that begin a line

/// The first kind of lines that begin with this word.
fn kind_of(word: &[u8]) -> Option<LineKind> {
    MANUAL.iter().copied().find(|kind| kind.word() == word)
}

/// The kind of lines that begin with this word and have so many more.
fn kind_with(word: &[u8], count: usize) -> Option<LineKind> {
    MANUAL
        .iter()
        .copied()
        .find(|kind| kind.word() == word && kind.takes(count))
}

/// Tells how a line of a kind is written.
fn tell_written(kind: LineKind, notes: &mut Page) -> Result<(), OutOfMemory> {
    notes.say(&[Piece::Text("  = it is written: ")])?;
    push_written(notes, kind)?;
    notes.say(&[Piece::Text("\n")])
}

/// Tells which words may begin a line here.
fn tell_beginnings(section: Section, notes: &mut Page) -> Result<(), OutOfMemory> {
    notes.say(&[Piece::Text("  = a line here begins with")])?;
    let mut last: &[u8] = &[];
    for kind in &MANUAL {
        let word = kind.word();
        if kind.stands_in(section) && word != last {
            notes.say(&[Piece::Text(" "), Piece::Word(word)])?;
        }
        last = word;
    }
    notes.say(&[Piece::Text("\n")])
}

/// Tells that no line begins with a word.
fn tell_no_kind(
    scene: &Scene,
    word: &[u8],
    section: Section,
    notes: &mut Page,
) -> Result<(), OutOfMemory> {
    notes.note(&[
        Piece::Text("no line of a script begins with `"),
        Piece::Word(word),
        Piece::Text("`"),
    ])?;
    tell_section(scene, section, notes)?;
    tell_beginnings(section, notes)
}

/// Tells which `end` closed what was open, where a line stands at the top that can't stand there.
fn tell_ended(scene: &Scene, notes: &mut Page) -> Result<(), OutOfMemory> {
    let Some((first, last)) = last_ended(scene.before) else {
        return notes.note(&[Piece::Text(
            "no graph and no action is open here: is an `end` above too many, or is its beginning missing?",
        )]);
    };
    notes.note(&[
        Piece::Text("the `end` of line "),
        Piece::Number(u64::from(last)),
        Piece::Text(" has closed what line "),
        Piece::Number(u64::from(first)),
        Piece::Text(" opens: does it stand too early, or is a beginning missing?"),
    ])
}

/// Tells which line ended the steps, where a step stands behind them.
fn tell_steps_ended(scene: &Scene, notes: &mut Page) -> Result<(), OutOfMemory> {
    let Some((first, last)) = last_steps(scene.alloc, scene.block)? else {
        return notes.note(&[Piece::Text(
            "steps follow a `body` or `handler` line, and go on until another line of the action comes",
        )]);
    };
    notes.note(&[
        Piece::Text("line "),
        Piece::Number(u64::from(last)),
        Piece::Text(" has closed the steps that line "),
        Piece::Number(u64::from(first)),
        Piece::Text(" begins: they go on until another line of the action comes"),
    ])
}

/// Tells what may be missing above a line that can't stand where it stands.
fn tell_missing(
    scene: &Scene,
    stands: Stand,
    section: Section,
    notes: &mut Page,
) -> Result<(), OutOfMemory> {
    if section.at_top() {
        return tell_ended(scene, notes);
    }
    if matches!(stands, Stand::Top) || matches!(section, Section::Graph) {
        return notes.note(&[
            Piece::Text("is an `end` missing above, for line "),
            Piece::Number(u64::from(first_line(scene.block))),
            Piece::Text("?"),
        ]);
    }
    if matches!(section, Section::Action) {
        return match verdict_before(scene.block) {
            Some(line) => notes.note(&[
                Piece::Text("the verdict of line "),
                Piece::Number(u64::from(line)),
                Piece::Text(" has closed the steps: a verdict stands behind the last step"),
            ]),
            None => tell_steps_ended(scene, notes),
        };
    }
    Ok(())
}

/// Tells that a line can't stand where it stands.
fn tell_misplaced(
    scene: &Scene,
    kind: LineKind,
    section: Section,
    notes: &mut Page,
) -> Result<(), OutOfMemory> {
    let stands = kind.stand();
    notes.note(&[
        Piece::Text("`"),
        Piece::Word(kind.word()),
        Piece::Text("` stands "),
        Piece::Text(stand_phrase(stands)),
    ])?;
    tell_section(scene, section, notes)?;
    tell_missing(scene, stands, section, notes)
}

/// The first word that begins as a comment does.
fn comment_word(words: &[&[u8]]) -> Option<usize> {
    for (index, word) in words.iter().enumerate() {
        if word.first() == Some(&b'#') {
            return Some(index);
        }
    }
    None
}

/// Tells that a line has too few or too many words.
fn tell_word_count(kind: LineKind, words: &[&[u8]], notes: &mut Page) -> Result<Spot, OutOfMemory> {
    let least = kind.parts().len().saturating_add(1);
    let amount = if words.len() < least {
        " words, which are too few"
    } else {
        " words, which are too many"
    };
    notes.note(&[
        Piece::Text("this line has "),
        Piece::Number(words.len() as u64),
        Piece::Text(amount),
    ])?;
    for other in &MANUAL {
        if other.word() == kind.word() {
            tell_written(*other, notes)?;
        }
    }
    if let Some(index) = comment_word(words) {
        notes.note(&[Piece::Text("a comment needs a line of its own")])?;
        return Ok(Spot::Word(index));
    }
    Ok(Spot::Word(words.len().min(least)))
}

// ---- words that are none of those that are asked for

/// Whether a word is what it is asked to be.
fn is_part(part: Part, word: &[u8]) -> bool {
    match part {
        Part::Name(_) => is_name(word),
        Part::Value => value_of(word).is_some(),
        Part::Count => count_of(word).is_some(),
        Part::Rounds => rounds_of(word).is_some(),
        Part::Test => test_of(word).is_some(),
    }
}

/// The first word of a line that isn't what it is asked to be; only a test, where tests are asked for.
fn first_wrong(kind: LineKind, words: &[&[u8]], tests: bool) -> Option<usize> {
    for (index, word) in words.iter().enumerate() {
        if index > 0 {
            let part = kind_part(kind, index - 1);
            if (matches!(part, Part::Test) || !tests) && !is_part(part, word) {
                return Some(index);
            }
        }
    }
    None
}

/// Tells a word that should be a test.
fn tell_no_test(word: &[u8], notes: &mut Page) -> Result<(), OutOfMemory> {
    notes.note(&[
        Piece::Text("`"),
        Piece::Word(word),
        Piece::Text("` is no test: a test is one of below, above, equal"),
    ])
}

/// Whether a word has digits alone.
fn has_digits_alone(word: &[u8]) -> bool {
    !word.is_empty() && word.iter().all(|byte| byte.is_ascii_digit())
}

/// What is wrong with a number.
fn number_fault(word: &[u8]) -> &'static str {
    let digits = word.strip_prefix(b"-".as_slice()).unwrap_or(word);
    if word.first() == Some(&b'+') {
        "a number has no plus sign"
    } else if digits.contains(&b'.') || digits.contains(&b',') {
        "a number has no point and no comma: choose a unit in which it is whole"
    } else if !has_digits_alone(digits) {
        "a number is written in digits alone"
    } else if word == b"-0".as_slice() {
        "zero is written 0"
    } else if digits.len() > 1 && digits.first() == Some(&b'0') {
        "a number has no leading zeros"
    } else {
        "this number is out of range"
    }
}

/// What the manual calls a number.
fn number_name(part: Part) -> &'static str {
    match part {
        Part::Count => "COUNT",
        Part::Rounds => "ROUNDS",
        Part::Value | Part::Test | Part::Name(_) => "VALUE",
    }
}

/// The least that a number may be.
fn least_number(part: Part) -> &'static str {
    match part {
        Part::Count => "1",
        Part::Rounds => "0",
        Part::Value | Part::Test | Part::Name(_) => "-1000000000000",
    }
}

/// The most that a number may be.
fn most_number(part: Part) -> u64 {
    match part {
        Part::Count | Part::Rounds => u64::from(MOST_COUNT),
        Part::Value | Part::Test | Part::Name(_) => MOST_MAGNITUDE,
    }
}

/// Tells a word that should be a number.
fn tell_no_number(part: Part, word: &[u8], notes: &mut Page) -> Result<(), OutOfMemory> {
    notes.note(&[
        Piece::Text("`"),
        Piece::Word(word),
        Piece::Text("` stands where "),
        Piece::Text(number_name(part)),
        Piece::Text(" is wanted, a whole number from "),
        Piece::Text(least_number(part)),
        Piece::Text(" to "),
        Piece::Number(most_number(part)),
    ])?;
    notes.tell(number_fault(word))
}

/// Whether a byte may stand in a name.
fn is_name_byte(byte: u8) -> bool {
    byte.is_ascii_alphanumeric() || byte == b'_' || byte == b'-'
}

/// Tells a word that should be a name.
fn tell_no_name(word: &[u8], notes: &mut Page) -> Result<(), OutOfMemory> {
    notes.note(&[
        Piece::Text("`"),
        Piece::Word(word),
        Piece::Text(
            "` is no name: a name is a letter, and then at most 31 letters, digits, _ and -",
        ),
    ])?;
    for byte in word {
        if !is_name_byte(*byte) {
            return notes.note(&[
                Piece::Text("`"),
                Piece::Word(&[*byte]),
                Piece::Text("` may not stand in a name"),
            ]);
        }
    }
    if word.len() > MOST_NAME_BYTES {
        return notes.note(&[
            Piece::Text("it has "),
            Piece::Number(word.len() as u64),
            Piece::Text(" characters"),
        ]);
    }
    notes.note(&[Piece::Text("it doesn't begin with a letter")])
}

/// Tells a word that isn't what it is asked to be.
fn tell_wrong_word(
    kind: LineKind,
    part: Part,
    word: &[u8],
    notes: &mut Page,
) -> Result<(), OutOfMemory> {
    match part {
        Part::Name(_) => tell_no_name(word, notes)?,
        Part::Test => tell_no_test(word, notes)?,
        Part::Value | Part::Count | Part::Rounds => tell_no_number(part, word, notes)?,
    }
    tell_written(kind, notes)
}

/// Tells the word of a line that isn't what it is asked to be.
fn tell_wrong(kind: LineKind, words: &[&[u8]], notes: &mut Page) -> Result<Spot, OutOfMemory> {
    let Some(index) = first_wrong(kind, words, true).or(first_wrong(kind, words, false)) else {
        return Ok(Spot::Word(0));
    };
    let part = kind_part(kind, index.saturating_sub(1));
    let word = words.get(index).copied().unwrap_or(&[]);
    tell_wrong_word(kind, part, word, notes)?;
    Ok(Spot::Word(index))
}

// ---- the line as a whole

/// The first byte of a line that no line may have but a comment.
fn first_odd_byte(line: &[u8]) -> Option<(usize, u8)> {
    for (index, byte) in line.iter().enumerate() {
        if !is_blank(*byte) && (*byte < 33 || *byte > 126) {
            return Some((index, *byte));
        }
    }
    None
}

/// Tells a byte that no line may have.
fn tell_odd_byte(
    scene: &Scene,
    index: usize,
    byte: u8,
    notes: &mut Page,
) -> Result<Spot, OutOfMemory> {
    if scene.number == 1 && scene.text.starts_with(BYTE_ORDER_MARK.as_slice()) {
        notes.note(&[Piece::Text(
            "the text begins with a byte order mark, three bytes that editors don't show",
        )])?;
        notes.note(&[Piece::Text("save it as UTF-8 without a byte order mark")])?;
        return Ok(Spot::Byte(0));
    }
    if scene.number == 1 && (byte == 254 || byte == 255) {
        notes.note(&[Piece::Text("is the text written in UTF-16? Save it as ASCII or UTF-8")])?;
        return Ok(Spot::Byte(index));
    }
    let line = line_at(scene.text, scene.number);
    push_character(notes, line.get(index..).unwrap_or(&[]))?;
    notes.say(&[Piece::Text(" may stand in comments alone: other lines are written in ASCII\n")])?;
    notes.note(&[Piece::Text(
        "a name has letters without accents, digits, _ and -; a comment has # as the first byte of its line",
    )])?;
    Ok(Spot::Byte(index))
}

/// Tells that the script ends inside a block.
fn tell_open_end(scene: &Scene, notes: &mut Page) -> Result<Spot, OutOfMemory> {
    let kind = if matches!(section_after(scene.alloc, scene.block)?, Section::Graph) {
        "graph "
    } else {
        "action "
    };
    notes.note(&[
        Piece::Text("the script ends inside the "),
        Piece::Text(kind),
        Piece::Named(block_name(scene.block).unwrap_or(scene.universal)),
        Piece::Text(", which line "),
        Piece::Number(u64::from(first_line(scene.block))),
        Piece::Text(" opens: close it with a line `end`"),
    ])?;
    show_line(notes, scene.text, first_line(scene.block))?;
    Ok(Spot::Word(0))
}

/// Tells what is wrong with the words of a line.
fn tell_words(scene: &Scene, words: &[&[u8]], notes: &mut Page) -> Result<Spot, OutOfMemory> {
    let section = section_after(scene.alloc, scene.block)?;
    let Some((word, more)) = words.split_first() else {
        return tell_open_end(scene, notes);
    };
    let Some(first) = kind_of(word) else {
        tell_no_kind(scene, word, section, notes)?;
        return Ok(Spot::Word(0));
    };
    if !first.stands_in(section) {
        tell_misplaced(scene, first, section, notes)?;
        return Ok(Spot::Word(0));
    }
    match kind_with(word, more.len()) {
        Some(kind) => tell_wrong(kind, words, notes),
        None => tell_word_count(first, words, notes),
    }
}

/// Tells that the script, or the line, is too long.
fn tell_too_long(scene: &Scene, line: &[u8], notes: &mut Page) -> Result<Spot, OutOfMemory> {
    let (what, has, most) = if scene.number == 0 {
        ("the script", scene.text.len(), MOST_SCRIPT_BYTES)
    } else {
        ("the line", line.len(), MOST_LINE_BYTES as u64)
    };
    notes.note(&[
        Piece::Text(what),
        Piece::Text(" has "),
        Piece::Number(has as u64),
        Piece::Text(" bytes, and may have "),
        Piece::Number(most),
    ])?;
    Ok(Spot::Word(0))
}

/// Tells that the lines of a text end with carriage returns alone.
fn tell_returns(notes: &mut Page) -> Result<Spot, OutOfMemory> {
    notes.note(&[Piece::Text(
        "the text has carriage returns and no line feed, so all of it is one line: save it with line feeds",
    )])?;
    Ok(Spot::Word(0))
}

/// Tells why a line can't be read, and where the carets stand under it.
pub fn tell_misread(
    scene: &Scene,
    cause: ScriptCause,
    notes: &mut Page,
) -> Result<Spot, OutOfMemory> {
    let line = line_at(scene.text, scene.number);
    if cause == ScriptCause::TooLong {
        return tell_too_long(scene, line, notes);
    }
    if has_returns_alone(scene.text) {
        return tell_returns(notes);
    }
    if let Some((index, byte)) = first_odd_byte(line) {
        return tell_odd_byte(scene, index, byte, notes);
    }
    let words = words_of(scene.alloc, line)?;
    tell_words(scene, &words, notes)
}

/// How many bytes of a line stand before a spot.
pub fn column_at(line: &[u8], spot: Spot) -> usize {
    match spot {
        Spot::Word(index) => column_of(line, index),
        Spot::Byte(index) => index,
    }
}
