//! Where the text of a journal begins that stands behind a script.

ghost use Rattle.std.specs.Prelude.{◌≡◌, ◌≤◌, ◌+◌, ◌-◌, ℕ, length, drop};
ghost use Rattle.std.specs.List.{list_all};
ghost use Rattle.action_script.specs.Words.CutLines.{is_blank};
ghost use Rattle.action_script.specs.Words.JournalStarts.{without_blanks, begins_journal, after_lines, script_lines, journal_part};

use crate::words::cuts::{cut_line, is_blank};

/// Where the text of a journal begins in an input.
#[derive(Clone, Copy)]
pub struct JournalStart {
    /// The number of bytes before it.
    pub offset: usize,
    /// The number of lines before it.
    pub lines: u64,
}

/// The line without the blanks that it begins with.
fn without_blanks(line: &[u8]) -> &[u8]
    ensures { result.now ≡ without_blanks line.now }
{
    let mut rest = line;
    while let Some((byte, more)) = rest.split_first() {
        if !is_blank(*byte) {
            return rest;
        }
        rest = more;
    }
    rest
}

fn are_blank(bytes: &[u8]) -> bool
    ensures { result ≡ list_all is_blank bytes.now }
{
    bytes.iter().all(|byte| is_blank(*byte))
}

/// Whether a text is the word `journal`, and blanks.
fn begins_journal(text: &[u8]) -> bool
    ensures { result ≡ begins_journal text.now }
{
    if text.len() < 7 {
        return false;
    }
    &text[..7] == b"journal".as_slice() && are_blank(&text[7..])
}

/// What stands after the lines before the first whose only word is `journal`, and how many these are.
fn skip_script(bytes: &[u8]) -> (&[u8], u64)
    ensures lines { result.1 ≡ script_lines bytes.now }
    ensures after { (n : ℕ) → after_lines (result.1 + n) bytes.now ≡ after_lines n result.0.now }
    ensures few { result.1 + length result.0.now ≤ length bytes.now }
{
    let mut rest = bytes;
    let mut lines = 0;
    while !rest.is_empty() {
        let (line, more) = cut_line(rest);
        if begins_journal(without_blanks(line)) {
            break;
        }
        rest = more;
        lines += 1;
    }
    (rest, lines)
}

/// Where the first line stands whose only word is `journal`, or the end of the input.
pub fn find_journal(bytes: &[u8]) -> JournalStart
    ensures before { result.offset ≡ length bytes.now - length (journal_part bytes.now) }
    ensures journal { drop result.offset bytes.now ≡ journal_part bytes.now }
    ensures within { result.offset ≤ length bytes.now }
    ensures lines { result.lines ≡ script_lines bytes.now }
    ensures few { result.lines ≤ result.offset }
{
    let (rest, lines) = skip_script(bytes);
    JournalStart {
        offset: bytes.len() - rest.len(),
        lines,
    }
}
