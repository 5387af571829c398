ghost use Rattle.std.specs.Prelude.{◌≡◌, if◌then◌else◌, map, Ok, Err, None, IfSome, IfOk, IfErr};
ghost use Rattle.std.specs.List.{list_all};
ghost use Rattle.action_script.specs.Words.CutLines.{is_plain, words_of, begins_comment};
ghost use Rattle.action_script.specs.Lines.Spelling.{is_here, kind_here, line_of};
ghost use Rattle.action_script.specs.inner.OneLine.{IsOfKind};
ghost use Rattle.action_script.specs.declared.script_error.ScriptCause.TheVariants as cause;

use crate::lines::kind::{KINDS, LineKind, Section};
use crate::script_error::ScriptCause;
use crate::words::cuts::is_blank;
use caa_base::written::limits::MOST_LINE_BYTES;

fn is_plain(byte: u8) -> bool
    ensures { result ≡ is_plain byte }
{
    is_blank(byte) || (byte >= 33 && byte <= 126)
}

/// Whether a line has no other bytes than a line may have that isn't skipped.
fn are_plain(line: &[u8]) -> bool
    ensures { result ≡ list_all is_plain line.now }
{
    line.iter().all(|byte| is_plain(*byte))
}

/// Whether this word begins a comment.
fn begins_comment(word: &[u8]) -> bool
    ensures { result ≡ begins_comment word.now }
{
    word.first() == Some(&b'#')
}

/// Whether a line is of this kind that begins with this word and has so many more, where the reader is here.
fn is_here(section: Section, word: &[u8], count: usize, kind: LineKind) -> bool
    ensures { result ≡ is_here section word.now count kind }
{
    word == kind.word() && kind.takes(count) && kind.stands_in(section)
}

/// The kind of a line that begins with this word and has so many more, where the reader is here.
fn kind_here(section: Section, word: &[u8], count: usize) -> Option<LineKind>
    ensures { result ≡ kind_here section word.now count }
{
    KINDS
        .iter()
        .copied()
        .find(|kind| is_here(section, word, count, *kind))
}

/// The fault of a line whose words have this one: a byte that no line may have is told before it.
///
/// Words that are right have plain bytes alone, so the bytes of a line are looked at only where a word is wrong.
pub fn fault_of(line: &[u8], of_words: ScriptCause) -> ScriptCause
    ensures { result ≡ (if list_all is_plain line.now then of_words else cause.BadLine) }
{
    if are_plain(line) {
        of_words
    } else {
        ScriptCause::BadLine
    }
}

/// The kind of a line with these words where the reader is here, and its words after the first, if it says something.
pub fn kind_of_line<'b, 'a>(
    section: Section,
    line: &[u8],
    words: &'b [&'a [u8]],
) -> Result<Option<(LineKind, &'b [&'a [u8]])>, ScriptCause>
    requires words { map (λ w. w.now) words.now ≡ words_of line.now }
    ensures nothing { IfOk result (λ kind. kind ≡ None → line_of section line.now ≡ Ok None) }
    ensures kind { IfOk result (λ kind. IfSome kind (λ k. IsOfKind section line.now k.0 (map (λ w. w.now) k.1.now))) }
    ensures refused { IfErr result (λ e. line_of section line.now ≡ Err e) }
{
    if line.len() > MOST_LINE_BYTES {
        return Err(ScriptCause::TooLong);
    }
    let Some((word, more)) = words.split_first() else {
        return Ok(None);
    };
    if begins_comment(word) {
        return Ok(None);
    }
    match kind_here(section, word, more.len()) {
        Some(kind) => Ok(Some((kind, more))),
        None => Err(ScriptCause::BadLine),
    }
}
