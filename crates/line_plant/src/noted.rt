ghost use Rattle.std.specs.Prelude.{◌≡◌, None, Some};
ghost use Rattle.line_plant.specs.Devices.{constants_of};

use crate::heard::{HeardEnd, HeardLine};
use crate::plant::LinePlant;
use caa_base::outside::plant::{Plant, PlantError};
use caa_base::outside::sink::Sink;
use caa_base::outside::source::Source;
use caa_base::written::entry::{Drill, Entry, Failed, Object};
use std::alloc::Global;
use std::io::Write;

/// What became of the link to a device.
#[derive(Clone, Copy, PartialEq, Eq)]
pub enum Link {
    /// It holds.
    Whole,
    /// The answer to the line of this number is lost.
    Broken { number: u64 },
    /// A play ended as failed, and the device was given up.
    GivenUp,
}

/// A device of lines that tells an operator what isn't done: each put that the device refuses, and the first that isn't answered. The
/// lines that aren't sent after that are counted. Wherever the link breaks, the line `stop` is sent.
#[derive(Drop)]
pub struct Noted<S: Source, K: Sink, W> {
    pub plant: LinePlant<S, K>,
    operator: W,
    link: Link,
    unsent: u64,
}

/// Writes these bytes, those that aren't printed as a question mark.
fn write_printed<W: Write>(operator: &mut W, bytes: &[u8]) {
    for byte in bytes {
        let printed = if (32..127).contains(byte) {
            *byte
        } else {
            b'?'
        };
        let _ = operator.write_all(&[printed]);
    }
}

/// Tells what came in place of an answer.
fn tell_heard<W: Write>(operator: &mut W, heard: &HeardLine) {
    if heard.end() != HeardEnd::NoMore || !heard.as_slice().is_empty() {
        let _ = operator.write_all(b"  heard: ");
        write_printed(operator, heard.as_slice());
        let _ = operator.write_all(b"\n");
    }
    if heard.end() == HeardEnd::NoMore {
        let _ = operator.write_all(b"  the answers ended\n");
    }
}

/// Sends `stop`, and tells what came in place of an answer.
fn give_up<S: Source, K: Sink, W: Write>(plant: &mut LinePlant<S, K>, operator: &mut W)
    ensures { plant.new ≡ record plant.old { wire = plant.new.wire } }
{
    let was_cut = plant.is_cut();
    plant.stop();
    if was_cut {
        let _ = operator.write_all(b"  the line couldn't be written\n");
        return;
    }
    plant.hear_rest();
    tell_heard(operator, plant.heard());
}

impl<S: Source, K: Sink, W: Write> Noted<S, K, W> {
    /// This device, with an operator who is told.
    pub fn new(plant: LinePlant<S, K>, operator: W) -> Self
        ensures { result.plant ≡ plant }
    {
        Noted {
            plant,
            operator,
            link: Link::Whole,
            unsent: 0,
        }
    }

    /// What became of the link.
    pub fn link(&self) -> Link {
        self.link
    }

    /// How many puts weren't sent since the device was given up.
    pub fn unsent(&self) -> u64 {
        self.unsent
    }

    /// Notes that a put of this number wasn't done, and tells it.
    fn note(&mut self, word: &[u8], number: u64, object: Object, value: i64)
        ensures { self.new.plant ≡ record self.old.plant { wire = self.new.plant.wire } }
    {
        if self.link != Link::Whole {
            self.unsent = self.unsent.saturating_add(1);
            return;
        }
        let _ = self.operator.write_all(word);
        let _ = write!(self.operator, " {number} (");
        let _ = self.operator.write_all(self.plant.name(object));
        if !self.plant.is_broken() {
            let _ = write!(self.operator, " {value}): the device refused it\n");
            return;
        }
        let _ = write!(
            self.operator,
            " {value}): no right answer; the link is broken, and nothing more is sent but stop\n"
        );
        self.link = Link::Broken { number };
        give_up(&mut self.plant, &mut self.operator);
    }

    /// Notes that the device wasn't laid out, and tells it.
    fn note_lay(&mut self, number: u64)
        ensures { self.new.plant ≡ record self.old.plant { wire = self.new.plant.wire } }
    {
        if !self.plant.is_broken() {
            let _ = write!(self.operator, "lay {number}: the device refused it\n");
            return;
        }
        let _ = write!(
            self.operator,
            "lay {number}: no right answer; the link is broken, and nothing more is sent but stop\n"
        );
        self.link = Link::Broken { number };
        give_up(&mut self.plant, &mut self.operator);
    }
}

impl<S: Source, K: Sink, W: Write> Plant for Noted<S, K, W> {
    ghost lay_faults = { λ p. p.plant.lay_faults };

    ghost faults = { λ p. p.plant.faults };

    ghost state = { λ _. None };

    ghost history = { λ p. Some p.plant.asked };

    ghost calls = { λ p. p.plant.calls };

    ghost room = { λ p. p.plant.room };

    ghost objects = { λ p. p.plant.objects };

    ghost constants = { λ p. constants_of p.plant };

    fn lay(
        &mut self,
        alloc: Global,
        values: &[i64],
        drills: &[Drill],
        puts: u64,
    ) -> Result<(), PlantError> {
        let number = self.plant.next_number();
        let result = self.plant.lay(alloc, values, drills, puts);
        if let Err(PlantError::Failed) = result {
            self.note_lay(number);
        }
        result
    }

    fn put(&mut self, object: Object, value: i64) -> Result<(), Failed> {
        let number = self.plant.next_number();
        let result = self.plant.put(object, value);
        if result.is_err() {
            self.note(b"put", number, object, value);
        }
        result
    }

    fn restore(&mut self, object: Object, value: i64) -> Result<(), Failed> {
        let number = self.plant.next_number();
        let result = self.plant.restore(object, value);
        if result.is_err() {
            self.note(b"restore", number, object, value);
        }
        result
    }

    fn entered(&mut self, entry: &Entry) {
        self.plant.entered(entry);
        if self.link == Link::Whole && self.plant.was_stopped() {
            self.link = Link::GivenUp;
        }
    }

    fn lay_faults(&self) -> u64 {
        self.plant.lay_faults()
    }

    fn faults(&self) -> u64 {
        self.plant.faults()
    }
}
