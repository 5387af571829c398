//! A script in which something has another name.

ghost use Rattle.std.specs.Prelude.{◌≡◌, true, length, IfOk};
ghost use Rattle.name_uses.specs.Occurrences.{occurrences};
ghost use Rattle.name_uses.specs.Renamed.{is_alike, is_renamed, are_renamed, are_in_order, replaced, IsRenamedBy, IsRenaming};

use crate::occurrences::{Occurrence, name_at, occurrences, of_thing};
use crate::spans::{Span, TextLines};
use crate::thing::Thing;
use action_script::forms::script::Script;
use action_script::lines::reader::read;
use action_script::script_error::ScriptCause;
use caa_base::written::entry::OutOfMemory;
use caa_base::written::name::{self, Name, is_name};
use script_checker::refused::refused_at;
use std::alloc::{AllocError, Global};

/// Why something isn't given another name.
#[derive(Clone, Copy, Debug, PartialEq, Eq)]
pub enum Unrenamed {
    /// No name stands there.
    NoName,
    /// What stands there is `universal`, which each graph has.
    Universal,
    /// The other name is none.
    NotAName,
    /// The script is refused, so it isn't known what its names mean.
    Refused,
    /// With the other name the script is refused, or its names don't mean what they meant: something has that name.
    Taken,
}

/// A text with another name of something, and what changed.
#[derive(Drop)]
pub struct Renamed {
    /// What had its name changed.
    pub thing: Thing,
    /// Where the old name stood, in the order of the text.
    pub spans: Vec<Span>,
    /// The text with the new name.
    pub text: Vec<u8>,
}

/// A text with another name of something, or why there is none.
#[derive(Drop)]
pub enum Renaming {
    Done(Renamed),
    Refused(Unrenamed),
}

/// Whether pieces lie in a text of so many bytes, one behind the other.
fn are_in_order(spans: &[Span], count: usize) -> bool
    ensures { result ≡ are_in_order 0 count spans.now }
{
    let mut done = 0;
    let mut rest = spans;
    while let Some((span, more)) = rest.split_first() {
        if span.start < done || span.end < span.start {
            return false;
        }
        done = span.end;
        rest = more;
    }
    done <= count
}

/// A text with this word in place of these pieces of it.
#[tactic(auto, using(crate::proofs::InOrder::in_text, crate::proofs::InOrder::begins_behind, crate::proofs::InOrder::begins_within, crate::proofs::InOrder::others_behind))]
fn replaced(alloc: Global, text: &[u8], spans: &[Span], word: &[u8]) -> Result<Vec<u8>, AllocError>
    requires { are_in_order 0 (length text.now) spans.now ≡ true }
    ensures { IfOk result (λ made. made.items ≡ replaced text.now 0 spans.now word.now) }
{
    let mut made = Vec::new(alloc);
    let mut done = 0;
    let mut rest = spans;
    while let Some((span, more)) = rest.split_first() {
        made.extend_from_slice(&text[done..span.start])?;
        made.extend_from_slice(word)?;
        done = span.end;
        rest = more;
    }
    made.extend_from_slice(&text[done..])?;
    Ok(made)
}

/// Where some names of a text stand.
pub fn spans_of(
    alloc: Global,
    lines: &TextLines,
    some: &[Occurrence],
) -> Result<Vec<Span>, AllocError> {
    let mut spans = Vec::new(alloc);
    for occurrence in some {
        if let Some(span) = lines.word(occurrence.line, occurrence.word) {
            spans.push(span)?;
        }
    }
    Ok(spans)
}

// ---- the new text is tried

/// Whether a name of the new script stands where one of the old does, and means the same.
fn is_alike(old: &Occurrence, new: &Occurrence) -> bool
    ensures { result ≡ is_alike old.now new.now }
{
    old.line == new.line
        && old.word == new.word
        && old.thing.is(new.thing)
        && old.declares == new.declares
}

/// Whether a name of the new script is what one of the old has become: this word where it means this, and else what it was.
fn is_renamed(
    thing: Thing,
    word: &[u8],
    names: &[Name],
    others: &[Name],
    old: &Occurrence,
    new: &Occurrence,
) -> bool
    ensures { result ≡ is_renamed thing word.now names.now others.now old.now new.now }
{
    let wanted = if old.thing.is(thing) {
        word
    } else {
        name::name_at(names, old.name)
    };
    is_alike(old, new) && name::name_at(others, new.name) == wanted
}

/// Whether the names of the new script are what those of the old have become.
fn are_renamed(
    thing: Thing,
    word: &[u8],
    names: &[Name],
    others: &[Name],
    old: &[Occurrence],
    new: &[Occurrence],
) -> bool
    ensures { result ≡ are_renamed thing word.now names.now others.now old.now new.now }
{
    let mut rest = new;
    for before in old {
        let Some((first, more)) = rest.split_first() else {
            return false;
        };
        if !is_renamed(thing, word, names, others, before, first) {
            return false;
        }
        rest = more;
    }
    rest.is_empty()
}

/// Whether a text is the script of these names with this word for that; it is read and checked.
fn is_done(
    alloc: Global,
    script: &Script,
    all: &[Occurrence],
    thing: Thing,
    word: &[u8],
    text: &[u8],
) -> Result<bool, OutOfMemory>
    requires { all.now ≡ occurrences script.now.names script.now.lines }
    ensures { IfOk result (λ yes. yes ≡ true → IsRenamedBy script.now thing word.now text.now) }
{
    let other = match read(alloc, text) {
        Ok(other) => other,
        Err(error) if error.cause == ScriptCause::OutOfMemory => return Err(OutOfMemory),
        Err(_) => return Ok(false),
    };
    if refused_at(alloc, &other)?.is_some() {
        return Ok(false);
    }
    let found = occurrences(alloc, &other, other.lines())?;
    Ok(are_renamed(thing, word, script.names(), other.names(), all, &found))
}

/// What a name may not be changed for.
fn cannot_rename(found: &Occurrence, word: &[u8]) -> Option<Unrenamed> {
    if !is_name(word) {
        return Some(Unrenamed::NotAName);
    }
    match found.thing {
        Thing::Exception(_, 0) => Some(Unrenamed::Universal),
        _ => None,
    }
}

/// The text of a script with another name of what this word of this line means. The pieces that change are as many as its names, and
/// the new text is read and checked, and handed out only where it is the script with the other name: so nothing but time rests on how
/// they are found.
pub fn rename(
    alloc: Global,
    text: &[u8],
    script: &Script,
    line: u32,
    word: usize,
    name: &[u8],
) -> Result<Renaming, OutOfMemory>
    ensures { IfOk result (IsRenaming text.now script.now line word name.now) }
{
    if refused_at(alloc, script)?.is_some() {
        return Ok(Renaming::Refused(Unrenamed::Refused));
    }
    let all = occurrences(alloc, script, script.lines())?;
    let Some(found) = name_at(&all, line, word) else {
        return Ok(Renaming::Refused(Unrenamed::NoName));
    };
    if let Some(why) = cannot_rename(found, name) {
        return Ok(Renaming::Refused(why));
    }
    let thing = found.thing;
    let some = of_thing(alloc, &all, thing)?;
    let lines = TextLines::of(alloc, text)?;
    let spans = spans_of(alloc, &lines, &some)?;
    if spans.len() != some.len() || !are_in_order(&spans, text.len()) {
        return Ok(Renaming::Refused(Unrenamed::Taken));
    }
    let made = replaced(alloc, text, &spans, name)?;
    if !is_done(alloc, script, &all, thing, name, &made)? {
        return Ok(Renaming::Refused(Unrenamed::Taken));
    }
    Ok(Renaming::Done(Renamed {
        thing,
        spans,
        text: made,
    }))
}
