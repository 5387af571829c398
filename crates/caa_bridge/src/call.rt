ghost use Rattle.std.specs.Prelude.{◌≤◌, IfSome};

use action_script::words::word::natural_of;

/// The greatest seed.
const MOST_SEED: u64 = 2_147_483_647;

/// The most workers.
const MOST_WORKERS: u64 = 16;

/// A call that plays a script.
#[derive(Drop)]
pub struct Call<'a> {
    /// The words that say how to play: those of `caa`.
    pub command: &'a [String],
    /// The path of the script.
    pub script: &'a str,
    /// The path of the file that the journal is written to; what it had is lost.
    pub journal: &'a str,
    /// Whether the device is still asked after a play that ended as failed.
    pub goes_on: bool,
    /// Whether the status says as well that a play was signalled, undone or not begun.
    pub is_strict: bool,
    /// Whether each line of the journal waits until the disk has it.
    pub syncs: bool,
}

/// What a call of the program asks for.
#[derive(Drop)]
pub enum Asked<'a> {
    /// How it is called.
    Help,
    /// Its version.
    Version,
    /// To play a script.
    Play(Call<'a>),
    /// Nothing that it knows.
    Unknown,
}

/// How many of the words say how to play; none where they say nothing that is known.
fn command_words(words: &[String]) -> Option<usize>
    ensures { IfSome result (λ count. count ≤ 2) }
{
    let (way, rest) = words.split_first()?;
    let number = rest.first()?.as_bytes();
    match way.as_str() {
        "run" => Some(1),
        "sim" if natural_of(number, MOST_SEED).is_some() => Some(2),
        "pool" if natural_of(number, MOST_WORKERS).is_some_and(|workers| workers > 0) => Some(2),
        _ => None,
    }
}

/// How many of the first words are options.
fn option_words(words: &[String]) -> usize {
    for (index, word) in words.iter().enumerate() {
        if !matches!(word.as_str(), "--go-on" | "--strict" | "--sync") {
            return index;
        }
    }
    words.len()
}

/// The call that plays, of these words.
fn call_of(words: &[String]) -> Option<Call<'_>> {
    let count = option_words(words);
    let options = words.get(..count)?;
    let words = words.get(count..)?;
    let command = command_words(words)?;
    if words.len() != command + 2 {
        return None;
    }
    Some(Call {
        command: &words[..command],
        script: words[command].as_str(),
        journal: words[command + 1].as_str(),
        goes_on: options.iter().any(|word| word.as_str() == "--go-on"),
        is_strict: options.iter().any(|word| word.as_str() == "--strict"),
        syncs: options.iter().any(|word| word.as_str() == "--sync"),
    })
}

/// What these words ask for: `[--go-on] [--strict] [--sync]` and `sim SEED SCRIPT JOURNAL`, `run SCRIPT JOURNAL` or `pool W SCRIPT JOURNAL`; or
/// `--help` or `--version` alone.
pub fn asked_by(words: &[String]) -> Asked<'_> {
    if let [word] = words {
        return match word.as_str() {
            "--help" => Asked::Help,
            "--version" => Asked::Version,
            _ => Asked::Unknown,
        };
    }
    match call_of(words) {
        Some(call) => Asked::Play(call),
        None => Asked::Unknown,
    }
}
