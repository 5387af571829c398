//! The text of a picture, part by part. Where no memory is found a part may have been added.

ghost use Rattle.std.specs.Prelude.{◌≡◌, ◌∷◌, ◌++◌, [], codes, decimal, is_ok, OnOk, IfOk};
ghost use Rattle.std.specs.List.{flat_map};
ghost use Rattle.place_plan.specs.RulesOfJournals.WellFormed.{IsWellFormed};
ghost use Rattle.journal_text.specs.Texts.Text.{entry_line};
ghost use Rattle.journal_pictures.specs.Pictures.{escaped_byte, escaped, length_text, element_text, told_text, area_text, line_text, words_text, line_class, words_class, shape_text, bar_text, sign_name, sign_text, title_text, mark_text, box_text, front_text};
ghost use Rattle.journal_pictures.specs.Stretches.{class_of};

use crate::layout::{axis, middle};
use crate::marks::Mark;
use crate::shapes::{Bar, LineLook, Shape, WordsLook};
use crate::signs::{OPENING, SIGNS};
use crate::stretches::Doing;
use caa_base::written::entry::{Entry, OutOfMemory};
use journal_text::texts::text_writer::{kind_word, push_entry};
use place_plan::plans::plan::Plan;
use std::alloc::Global;
use std::io::Write;

/// Adds bytes, with those written otherwise that mean something in a picture's text.
fn push_escaped(text: &mut Vec<u8>, bytes: &[u8]) -> Result<(), OutOfMemory>
    ensures { OnOk result (text.new.items ≡ text.old.items ++ escaped bytes.now) }
{
    for byte in bytes {
        push_escaped_byte(text, *byte)?;
    }
    Ok(())
}

/// Adds a byte, written otherwise where it means something in a picture's text.
fn push_escaped_byte(text: &mut Vec<u8>, byte: u8) -> Result<(), OutOfMemory>
    ensures { OnOk result (text.new.items ≡ text.old.items ++ escaped_byte byte) }
{
    match byte {
        b'&' => text.extend_from_slice(b"&amp;")?,
        b'<' => text.extend_from_slice(b"&lt;")?,
        b'>' => text.extend_from_slice(b"&gt;")?,
        _ => text.push(byte)?,
    }
    Ok(())
}

/// Adds an attribute that is a length.
fn push_length(text: &mut Vec<u8>, name: &[u8], length: u64) -> Result<(), OutOfMemory>
    ensures { OnOk result (text.new.items ≡ text.old.items ++ length_text name.now length) }
{
    text.push(b' ')?;
    text.extend_from_slice(name)?;
    text.extend_from_slice(b"=\"")?;
    push_decimal(text, length)?;
    text.push(b'"')?;
    Ok(())
}

/// Adds a number.
fn push_decimal(text: &mut Vec<u8>, number: u64) -> Result<(), OutOfMemory>
    ensures { OnOk result (text.new.items ≡ text.old.items ++ decimal number) }
{
    match write!(text, "{number}") {
        Ok(()) => Ok(()),
        Err(_) => Err(OutOfMemory),
    }
}

/// Adds how an element begins, with its class.
fn push_element(text: &mut Vec<u8>, element: &[u8], class: &[u8]) -> Result<(), OutOfMemory>
    ensures { OnOk result (text.new.items ≡ text.old.items ++ element_text element.now class.now) }
{
    text.push(b'<')?;
    text.extend_from_slice(element)?;
    text.extend_from_slice(b" class=\"")?;
    text.extend_from_slice(class)?;
    text.push(b'"')?;
    Ok(())
}

/// The class of a line.
fn line_class(look: LineLook) -> &'static [u8]
    ensures { result.now ≡ line_class look }
{
    match look {
        LineLook::Lane => b"lane",
        LineLook::Edge => b"edge",
        LineLook::Joint => b"joint",
        LineLook::Joined => b"joined",
        LineLook::Break => b"break",
    }
}

/// The class of words.
fn words_class(look: WordsLook) -> &'static [u8]
    ensures { result.now ≡ words_class look }
{
    match look {
        WordsLook::Name => b"name",
        WordsLook::Number => b"number",
        WordsLook::Says => b"says",
        WordsLook::Action => b"action",
        WordsLook::Awaits => b"awaits",
        WordsLook::Broken => b"broken",
    }
}

/// Adds what is neither a stretch nor a mark.
pub fn push_shape(text: &mut Vec<u8>, shape: &Shape) -> Result<(), OutOfMemory>
    ensures { OnOk result (text.new.items ≡ text.old.items ++ shape_text shape.now) }
{
    match shape {
        Shape::Piece {
            left,
            top,
            width,
            height,
            title,
        } => push_area(text, b"place", *left, *top, *width, *height, title),
        Shape::Line {
            look,
            left,
            top,
            right,
            bottom,
        } => push_line(text, line_class(*look), *left, *top, *right, *bottom),
        Shape::Words {
            look,
            left,
            base,
            words,
        } => push_words(text, words_class(*look), *left, *base, words),
    }
}

/// Adds what is told of a part of the picture.
fn push_told(text: &mut Vec<u8>, words: &[u8]) -> Result<(), OutOfMemory>
    ensures { OnOk result (text.new.items ≡ text.old.items ++ told_text words.now) }
{
    text.extend_from_slice(b"<title>")?;
    push_escaped(text, words)?;
    text.extend_from_slice(b"</title>")?;
    Ok(())
}

/// Adds a rectangle, and what is told of it.
fn push_area(
    text: &mut Vec<u8>,
    class: &[u8],
    left: u64,
    top: u64,
    width: u64,
    height: u64,
    title: &[u8],
) -> Result<(), OutOfMemory>
    ensures { OnOk result (text.new.items ≡ text.old.items ++ area_text class.now left top width height title.now) }
{
    push_element(text, b"rect", class)?;
    push_length(text, b"x", left)?;
    push_length(text, b"y", top)?;
    push_length(text, b"width", width)?;
    push_length(text, b"height", height)?;
    text.push(b'>')?;
    push_told(text, title)?;
    text.extend_from_slice(b"</rect>\n")?;
    Ok(())
}

/// How a stretch looks.
fn class_of(doing: Doing) -> &'static [u8]
    ensures { result.now ≡ class_of doing }
{
    match doing {
        Doing::Wait(_) => b"wait",
        Doing::Body => b"body",
        Doing::Handler => b"handler",
        Doing::Turn | Doing::Away => b"turn",
    }
}

/// Adds the rectangle of a stretch.
pub fn push_bar(text: &mut Vec<u8>, bar: &Bar) -> Result<(), OutOfMemory>
    ensures { OnOk result (text.new.items ≡ text.old.items ++ bar_text bar.now) }
{
    push_area(
        text,
        class_of(bar.stretch.doing),
        bar.left,
        bar.top,
        bar.width,
        bar.height,
        &bar.title,
    )
}

/// Adds a line.
fn push_line(
    text: &mut Vec<u8>,
    class: &[u8],
    left: u64,
    top: u64,
    right: u64,
    bottom: u64,
) -> Result<(), OutOfMemory>
    ensures { OnOk result (text.new.items ≡ text.old.items ++ line_text class.now left top right bottom) }
{
    push_element(text, b"line", class)?;
    push_length(text, b"x1", left)?;
    push_length(text, b"y1", top)?;
    push_length(text, b"x2", right)?;
    push_length(text, b"y2", bottom)?;
    text.extend_from_slice(b"/>\n")?;
    Ok(())
}

/// Adds words.
fn push_words(
    text: &mut Vec<u8>,
    class: &[u8],
    left: u64,
    base: u64,
    words: &[u8],
) -> Result<(), OutOfMemory>
    ensures { OnOk result (text.new.items ≡ text.old.items ++ words_text class.now left base words.now) }
{
    push_element(text, b"text", class)?;
    push_length(text, b"x", left)?;
    push_length(text, b"y", base)?;
    text.push(b'>')?;
    push_escaped(text, words)?;
    text.extend_from_slice(b"</text>\n")?;
    Ok(())
}

/// Adds a mark: the sign of its entry, where its lane and its row cross, under which the line of the entry stands.
#[tactic(auto, unfolding(crate::specs::Pictures::mark_text))]
pub fn push_mark(
    alloc: Global,
    text: &mut Vec<u8>,
    plan: &Plan,
    axes: &[u64],
    mark: &Mark,
) -> Result<(), OutOfMemory>
    requires { IsWellFormed plan.now mark.now.entry }
    ensures { OnOk result (text.new.items ≡ text.old.items ++ mark_text plan.now axes.now mark.now) }
{
    let line = line_of(alloc, plan, &mark.entry)?;
    push_sign(text, axes, mark)?;
    push_title(text, &line)
}

/// Adds the name of the sign of an entry: that of its kind, and its mark where that isn't 0.
fn push_sign_name(text: &mut Vec<u8>, entry: &Entry) -> Result<(), OutOfMemory>
    ensures { OnOk result (text.new.items ≡ text.old.items ++ sign_name entry.now) }
{
    text.extend_from_slice(kind_word(entry.kind))?;
    if entry.mark == 0 {
        return Ok(());
    }
    text.push(b'-')?;
    push_decimal(text, u64::from(entry.mark))
}

/// Adds the sign of a mark.
fn push_sign(text: &mut Vec<u8>, axes: &[u64], mark: &Mark) -> Result<(), OutOfMemory>
    ensures { OnOk result (text.new.items ≡ text.old.items ++ sign_text axes.now mark.now) }
{
    text.extend_from_slice(b"<use href=\"#")?;
    push_sign_name(text, &mark.entry)?;
    text.push(b'"')?;
    push_length(text, b"x", axis(axes, mark.lane))?;
    push_length(text, b"y", middle(mark.row))?;
    text.push(b'>')?;
    Ok(())
}

/// Adds what stands under a sign.
fn push_title(text: &mut Vec<u8>, line: &[u8]) -> Result<(), OutOfMemory>
    ensures { OnOk result (text.new.items ≡ text.old.items ++ title_text line.now) }
{
    push_told(text, line)?;
    text.extend_from_slice(b"</use>\n")?;
    Ok(())
}

/// The line of an entry, as it stands in the text of a journal.
fn line_of(alloc: Global, plan: &Plan, entry: &Entry) -> Result<Vec<u8>, OutOfMemory>
    requires { IsWellFormed plan.now entry.now }
    ensures { IfOk result (λ line. line.items ≡ entry_line plan.now entry.now) }
{
    let mut line = Vec::new(alloc);
    push_entry(&mut line, plan, entry)?;
    Ok(line)
}

/// Adds the front of a picture of this size.
pub fn push_front(text: &mut Vec<u8>, width: u64, height: u64) -> Result<(), OutOfMemory>
    ensures { OnOk result (text.new.items ≡ text.old.items ++ front_text width height) }
{
    text.extend_from_slice(OPENING)?;
    push_length(text, b"width", width)?;
    push_length(text, b"height", height)?;
    push_box(text, width, height)?;
    text.extend_from_slice(SIGNS)?;
    Ok(())
}

/// Adds the box that a picture of this size shows, and ends the opening of the picture.
fn push_box(text: &mut Vec<u8>, width: u64, height: u64) -> Result<(), OutOfMemory>
    ensures { OnOk result (text.new.items ≡ text.old.items ++ box_text width height) }
{
    text.extend_from_slice(b" viewBox=\"0 0 ")?;
    push_decimal(text, width)?;
    text.push(b' ')?;
    push_decimal(text, height)?;
    text.extend_from_slice(b"\">\n")?;
    Ok(())
}
