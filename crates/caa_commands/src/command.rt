ghost use Rattle.std.specs.Prelude.{◌≡◌, true, Some, option_map, map, string_bytes, IfSome};
ghost use Rattle.caa_commands.specs.Commands.{command_of, number_alone, alone, is_threaded, asks_for_threads, without_threads, IsWithinRange};
ghost use Rattle.caa_commands.specs.inner.Parts.{quiet_command, threaded_command};

use action_script::words::word::value_of;
use cell_workload::MOST_CYCLES;

/// The greatest seed.
const MOST_SEED: u32 = 2_147_483_647;

/// The most members that a set of exceptions may have.
const MOST_MEMBERS: u32 = 7;

/// The most workers of a pool.
const MOST_WORKERS: u32 = 16;

/// A command line that is served.
#[derive(Clone, Copy)]
pub enum Command {
    /// Checks a script, and tells the numbers of its plan.
    Check,
    /// Plays a script by the schedule of this seed, which is below 2^31.
    Sim(u32),
    /// Plays a script, each participant in a thread of its own.
    Run,
    /// Judges a journal by the script before it.
    Audit,
    /// Makes the graph of all sets of at most so many of a script's exceptions, from 1 to 7.
    Graph(u32),
    /// Lets the roles of a script's first play agree by messages. This seed, below 2^31, says what their network delivers.
    Messages(u32),
    /// Plays a script by so many workers, from 1 to 16, each in a thread of its own, who take the seats of participants by turns.
    Pool(u32),
    /// Plays the script of a production cell for so many cycles, from 1 to 2,000.
    Cell(u32),
}

/// A command that needs no threads.
#[derive(Clone, Copy)]
pub enum Quiet {
    /// `cell`, which reads no input.
    Cell(u32),
    OverInput(OverInput),
}

/// A command over an input that needs no threads.
#[derive(Clone, Copy)]
pub enum OverInput {
    Check,
    Graph(u32),
    OverPlan(OverPlan),
}

/// A command over the plan of the script in its input that needs no threads.
#[derive(Clone, Copy)]
pub enum OverPlan {
    Sim(u32),
    Audit,
    Messages(u32),
}

/// A command over the plan of the script that is its input, which is played in threads and may wait.
#[derive(Clone, Copy)]
pub enum Threaded {
    Run,
    Pool(u32),
}

impl Command {
    /// The command as one that needs no threads.
    fn quiet(self) -> Option<Quiet>
        requires { IsWithinRange self }
        ensures command { option_map quiet_command result ≡ without_threads (Some self) }
        ensures range { IfSome result (λ c. IsWithinRange (quiet_command c)) }
    {
        match self {
            Command::Check => Some(Quiet::OverInput(OverInput::Check)),
            Command::Sim(seed) => Some(Quiet::OverInput(OverInput::OverPlan(OverPlan::Sim(seed)))),
            Command::Audit => Some(Quiet::OverInput(OverInput::OverPlan(OverPlan::Audit))),
            Command::Graph(most) => Some(Quiet::OverInput(OverInput::Graph(most))),
            Command::Messages(seed) => {
                Some(Quiet::OverInput(OverInput::OverPlan(OverPlan::Messages(seed))))
            }
            Command::Cell(cycles) => Some(Quiet::Cell(cycles)),
            Command::Run | Command::Pool(_) => None,
        }
    }

    /// The command as one that needs threads.
    fn threaded(self) -> Option<Threaded>
        requires { IsWithinRange self }
        ensures command { is_threaded self ≡ true → option_map threaded_command result ≡ Some self }
        ensures range { IfSome result (λ c. IsWithinRange (threaded_command c)) }
    {
        match self {
            Command::Run => Some(Threaded::Run),
            Command::Pool(workers) => Some(Threaded::Pool(workers)),
            Command::Check
            | Command::Sim(_)
            | Command::Audit
            | Command::Graph(_)
            | Command::Messages(_)
            | Command::Cell(_) => None,
        }
    }
}

/// Just a number from the least to the greatest, in decimal digits without a sign and without leading zeros.
fn number_alone(least: u32, most: u32, words: &[String]) -> Option<u32>
    ensures { result ≡ number_alone least most (map string_bytes words.now) }
{
    let [word] = words else {
        return None;
    };
    match value_of(word.as_bytes()) {
        Some(value) if i64::from(least) <= value && value <= i64::from(most) => Some(value as u32),
        _ => None,
    }
}

/// This command, where no word stands behind its own.
fn alone(command: Command, words: &[String]) -> Option<Command>
    ensures { result ≡ alone command (map string_bytes words.now) }
{
    if words.is_empty() {
        Some(command)
    } else {
        None
    }
}

/// The command of these words, where they are those of one that is served.
pub fn command_of(words: &[String]) -> Option<Command>
    ensures command { result ≡ command_of (map string_bytes words.now) }
    ensures range { IfSome result IsWithinRange }
{
    let (word, more) = words.split_first()?;
    if word.as_str() == "check" {
        alone(Command::Check, more)
    } else if word.as_str() == "sim" {
        Some(Command::Sim(number_alone(0, MOST_SEED, more)?))
    } else if word.as_str() == "run" {
        alone(Command::Run, more)
    } else if word.as_str() == "audit" {
        alone(Command::Audit, more)
    } else if word.as_str() == "graph" {
        Some(Command::Graph(number_alone(1, MOST_MEMBERS, more)?))
    } else if word.as_str() == "messages" {
        Some(Command::Messages(number_alone(0, MOST_SEED, more)?))
    } else if word.as_str() == "pool" {
        Some(Command::Pool(number_alone(1, MOST_WORKERS, more)?))
    } else if word.as_str() == "cell" {
        Some(Command::Cell(number_alone(1, MOST_CYCLES, more)?))
    } else {
        None
    }
}

/// Whether these words ask for `run` or `pool`, which are played in threads and may wait.
pub fn asks_for_threads(words: &[String]) -> bool
    ensures { result ≡ asks_for_threads (command_of (map string_bytes words.now)) }
{
    matches!(command_of(words), Some(Command::Run | Command::Pool(_)))
}

/// The command of these words, where it is one that needs no threads.
pub fn quiet_command_of(words: &[String]) -> Option<Quiet>
    ensures command { option_map quiet_command result ≡ without_threads (command_of (map string_bytes words.now)) }
    ensures range { IfSome result (λ c. IsWithinRange (quiet_command c)) }
{
    command_of(words)?.quiet()
}

/// The command of these words, where it is one that needs threads.
pub fn threaded_command_of(words: &[String]) -> Option<Threaded>
    ensures command { asks_for_threads (command_of (map string_bytes words.now)) ≡ true →
        option_map threaded_command result ≡ command_of (map string_bytes words.now) }
    ensures range { IfSome result (λ c. IsWithinRange (threaded_command c)) }
{
    command_of(words)?.threaded()
}
