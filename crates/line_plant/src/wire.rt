ghost use Rattle.std.specs.Prelude.{◌≡◌, true, false};
ghost use Rattle.line_plant.specs.Wires.{AskCame, WasStopped};

use crate::heard::HeardLine;
use crate::hearing::{Answer, hear, hear_rest};
use caa_base::outside::count::counted_up;
use caa_base::outside::reading::write_all;
use caa_base::outside::sink::Sink;
use caa_base::outside::source::Source;

/// Where a device answers and where it is asked.
#[derive(Drop)]
pub struct Wire<S, K> {
    pub answers: S,
    pub commands: K,
    /// The number of the next line that is answered. No number comes twice, up to the last one, where it stays.
    pub next: u64,
    /// Whether an answer was lost, or the device was given up, so that nothing is asked any longer.
    pub is_broken: bool,
    /// Whether a write failed, so that a line was written in part.
    pub is_cut: bool,
    /// Whether `stop` was sent.
    pub was_stopped: bool,
    /// The last line that was heard.
    pub heard: HeardLine,
}

impl<S: Source, K: Sink> Wire<S, K> {
    /// A wire on which nothing was sent yet.
    pub fn new(answers: S, commands: K) -> Self
        ensures answers { result.answers ≡ answers }
        ensures commands { result.commands ≡ commands }
        ensures first { result.next ≡ 0 }
        ensures whole { result.is_broken ≡ false }
        ensures uncut { result.is_cut ≡ false }
        ensures unstopped { result.was_stopped ≡ false }
    {
        Wire {
            answers,
            commands,
            next: 0,
            is_broken: false,
            is_cut: false,
            was_stopped: false,
            heard: HeardLine::empty(),
        }
    }

    /// Nothing is sent any longer, since a line was cut off.
    fn give_up(&mut self) -> Answer
        ensures lost { result ≡ Answer.Lost }
        ensures broken { self.new ≡ record self.old { is_broken = true; is_cut = true } }
    {
        self.is_broken = true;
        self.is_cut = true;
        Answer::Lost
    }

    /// Sends a line and hears the answer to it. Where not all of the line was sent, none is awaited.
    pub fn ask(&mut self, text: &[u8]) -> Answer
        ensures { AskCame ⟦<S as Source>⟧ ⟦<K as Sink>⟧ self.old self.new text.now result }
    {
        if self.is_broken {
            return Answer::Lost;
        }
        let number = self.next;
        self.next = counted_up(number);
        if write_all(&mut self.commands, text).is_err() {
            return self.give_up();
        }
        let answer = hear(&mut self.answers, &mut self.heard, number);
        self.is_broken = answer == Answer::Lost;
        answer
    }

    /// Sends `stop`, which isn't answered, and nothing any longer. It is sent once, and not behind a line that was cut off.
    pub fn stop(&mut self)
        ensures { WasStopped ⟦<K as Sink>⟧ self.old self.new }
    {
        self.is_broken = true;
        if self.is_cut || self.was_stopped {
            return;
        }
        self.was_stopped = true;
        self.is_cut = write_all(&mut self.commands, b"stop\n").is_err();
    }

    /// Takes what comes of a line that is no answer, up to its line feed or 32 bytes.
    pub fn hear_rest(&mut self)
        ensures { self.new ≡ record self.old { answers = self.new.answers; heard = self.new.heard } }
    {
        hear_rest(&mut self.answers, &mut self.heard);
    }
}
