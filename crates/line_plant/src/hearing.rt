ghost use Rattle.std.specs.Prelude.{◌≡◌, ◌⊎◌, ◌∷◌, ◌++◌, [], IsTrue, IsFalse, IfSome, None};
ghost use Rattle.std.specs.Io.KnownBytes.{prepend_known, IsAtEnd};
ghost use Rattle.caa_base.specs.Outside.Counts.{counted_up};
ghost use Rattle.line_plant.specs.Answers.{ended, Heard, IsNotNext, is_well};

use crate::heard::HeardLine;
use caa_base::outside::source::Source;
use itoa::Buffer;

/// What a device answers to a line.
#[derive(Clone, Copy)]
pub enum Answer {
    /// It did what was asked: the line `well NUMBER`.
    Well,
    /// It refused: the line `failed NUMBER`.
    Failed,
    /// It answered with anything else, or not at all.
    Lost,
}

impl Answer {
    /// Whether the device did what was asked.
    pub fn is_well(self) -> bool
        ensures { result ≡ is_well self }
    {
        match self {
            Answer::Well => true,
            Answer::Failed | Answer::Lost => false,
        }
    }
}

/// Takes the next byte, where there is one, and keeps it.
fn next_byte<S: Source>(source: &mut S, heard: &mut HeardLine) -> Option<u8>
    ensures byte { IfSome result (λ byte. S.left source.old ≡ prepend_known (byte ∷ []) (S.left source.new)) }
    ensures unfailed { IfSome result (λ _. S.faults source.new ≡ S.faults source.old) }
    ensures none { result ≡ None → (S.faults source.new ≡ counted_up (S.faults source.old))
        ⊎ ((S.faults source.new ≡ S.faults source.old) × IsAtEnd (S.left source.old)) }
{
    let mut byte = [0u8; 1];
    let next = match source.read(&mut byte) {
        Ok(1) => Some(byte[0]),
        _ => None,
    };
    heard.add(next);
    next
}

/// Takes these bytes, where they come next. Else it takes some of what comes.
fn takes<S: Source>(source: &mut S, heard: &mut HeardLine, wanted: &[u8]) -> bool
    ensures taken { IsTrue result → S.left source.old ≡ prepend_known wanted.now (S.left source.new) }
    ensures unfailed { IsTrue result → S.faults source.new ≡ S.faults source.old }
    ensures other { IsFalse result → IsNotNext (S.left source.old) (S.faults source.old) (S.faults source.new) wanted.now }
{
    for byte in wanted {
        let Some(next) = next_byte(source, heard) else {
            return false;
        };
        if next != *byte {
            return false;
        }
    }
    true
}

/// Takes these bytes and those behind them, where they come next. Else it takes some of what comes.
fn takes_both<S: Source>(source: &mut S, heard: &mut HeardLine, front: &[u8], back: &[u8]) -> bool
    ensures taken { IsTrue result → S.left source.old ≡ prepend_known (front.now ++ back.now) (S.left source.new) }
    ensures unfailed { IsTrue result → S.faults source.new ≡ S.faults source.old }
    ensures other { IsFalse result → IsNotNext (S.left source.old) (S.faults source.old) (S.faults source.new) (front.now ++ back.now) }
{
    if takes(source, heard, front) {
        return takes(source, heard, back);
    }
    false
}

/// Takes this number and a line feed, where they come next. Else it takes some of what comes.
fn takes_number<S: Source>(source: &mut S, heard: &mut HeardLine, number: u64) -> bool
    ensures taken { IsTrue result → S.left source.old ≡ prepend_known (ended number) (S.left source.new) }
    ensures unfailed { IsTrue result → S.faults source.new ≡ S.faults source.old }
    ensures other { IsFalse result → IsNotNext (S.left source.old) (S.faults source.old) (S.faults source.new) (ended number) }
{
    takes_both(
        source,
        heard,
        Buffer::new().format(number).as_bytes(),
        b"\n",
    )
}

/// Takes a word, this number and a line feed, where they come next. Else it takes some of what comes.
fn takes_answer<S: Source>(source: &mut S, heard: &mut HeardLine, word: &[u8], number: u64) -> bool
    ensures taken { IsTrue result → S.left source.old ≡ prepend_known (word.now ++ ended number) (S.left source.new) }
    ensures unfailed { IsTrue result → S.faults source.new ≡ S.faults source.old }
    ensures other { IsFalse result → IsNotNext (S.left source.old) (S.faults source.old) (S.faults source.new) (word.now ++ ended number) }
{
    if takes(source, heard, word) {
        return takes_number(source, heard, number);
    }
    false
}

/// Hears the answer to the line of this number. None of the bytes behind an answer are taken.
pub fn hear<S: Source>(source: &mut S, heard: &mut HeardLine, number: u64) -> Answer
    ensures { Heard ⟦<S as Source>⟧ number source.old source.new result }
{
    *heard = HeardLine::empty();
    match next_byte(source, heard) {
        Some(b'w') if takes_answer(source, heard, b"ell ", number) => Answer::Well,
        Some(b'f') if takes_answer(source, heard, b"ailed ", number) => Answer::Failed,
        _ => Answer::Lost,
    }
}

/// Takes what comes of a line that began otherwise than an answer, up to its line feed, and no more than is kept.
pub fn hear_rest<S: Source>(source: &mut S, heard: &mut HeardLine) {
    for _ in 0..32 {
        if heard.is_open() {
            next_byte(source, heard);
        }
    }
}
