//! An answer is read byte by byte, never further than its line feed: no byte of the next one is taken early, and no line that is
//! too long is kept. A line is made whole before it is written, so that it goes out in one piece. The memory for the line of a put
//! is taken as the device is laid out: the line of `lay` names each object, so with 45 bytes more, for a longer word, a number and a
//! value, its memory holds the line of any put. So a put wants no memory, and has no free answer.
//!
//! The numbers are the wire's own, and are never set back, also where the device is laid out again: a late answer to the first laying
//! out isn't taken for that to the second.

ghost use Rattle.std.specs.Prelude.{◌≡◌, ◌⊎◌, ◌<◌, ◌≤◌, ◌+◌, [], ◌∷◌, ◌++◌, length, None, Some, false, true, is_ok, if◌then◌else◌, IfOk, OnOk, OnErr, vec_capacity};
ghost use Rattle.caa_base.specs.declared.outside.plant.Asked.TheVariants as asked;
ghost use Rattle.caa_base.specs.Outside.Counts.{counted_up, faults_after};
ghost use Rattle.caa_base.specs.Outside.PlantState.{is_refused};
ghost use Rattle.caa_base.specs.Written.Lists.{member};
ghost use Rattle.caa_base.specs.Written.Names.{name_at};
ghost use Rattle.line_plant.specs.Lines.{asking_line, object_names, put_word, restore_word};
ghost use Rattle.line_plant.specs.GivenUp.{fatal_places, says_failed};
ghost use Rattle.line_plant.specs.Sent.{word_of};
ghost use Rattle.line_plant.specs.Answers.{is_well};
ghost use Rattle.line_plant.specs.Wires.{AskCame, WasStopped};
ghost use Rattle.line_plant.specs.Devices.{LayCame, PutCame, WireCarried, constants_of};
ghost use Rattle.line_plant.specs.inner.Room.{most_put_bytes, HasRoom};

use crate::heard::HeardLine;
use crate::hearing::Answer;
use crate::lines::{make_lay, make_put};
use crate::names::object_names;
use crate::told::{Note, Told};
use crate::wire::Wire;
use caa_base::outside::count::counted_up;
use caa_base::outside::plant::{Plant, PlantError};
use caa_base::outside::sink::Sink;
use caa_base::outside::source::Source;
use caa_base::written::entry::{Drill, Entry, Failed, Kind, Object, OutOfMemory, Outcome, Place};
use caa_base::written::name::{Name, name_at};
use place_plan::plans::plan::Plan;
use std::alloc::Global;
use std::marker::Model;

/// A device that is asked for each put by a line, and answers it by a line. It tells no values.
///
/// `lay NUMBER NAME VALUE NAME VALUE ..` asks it to bring all objects to their first values, `put NUMBER NAME VALUE` to bring one
/// object to a value, and `restore NUMBER NAME VALUE` to bring it back, as an action is undone. It answers `well NUMBER` where it did
/// that, and `failed NUMBER` where it refused, and may be asked again. Numbers count the lines from 0 on. Anything else, an answer with
/// another number, the end of the answers, and a read or a write that fails, is an answer that is lost: nobody knows any longer what
/// the device did. From then on nothing is asked, and each call fails.
///
/// It is given up when it is told that a play has failed, unless it goes on: the line `stop` is sent at once, and from then on nothing is
/// asked, and each call fails.
///
/// The memory for the line of a put is taken when the device is laid out, and kept from one to the next. So a put never wants any.
#[derive(Drop)]
pub struct LinePlant<S: Source, K: Sink> {
    names: Vec<Name>,
    /// The places whose failure ends its use.
    fatal: Vec<Place>,
    wire: Wire<S, K>,
    told: Told<K>,
    listened: Told<S>,
    line: Vec<u8>,
    objects: u64,
    calls: u64,
    room: u64,
    lay_faults: u64,
    faults: u64,
}

impl<S: Source, K: Sink> Model for LinePlant<S, K> {
    ghost use Rattle.std.specs.Prelude.{vec_capacity};
    ghost use Rattle.line_plant.specs.Devices.{LineDevice};
    ghost use Rattle.line_plant.specs.inner.Room.{HasRoom};
    ghost use Rattle.line_plant.specs.inner.Telling.{Keeps, KeepsStill};

    ghost Value = { LineDevice S K };

    ghost view = { λ p. record {
      names = p.names.items;
      fatal = p.fatal.items;
      wire = p.wire;
      start = K.held p.told.opened;
      to_come = S.left p.listened.opened;
      asked = p.told.asked;
      objects = p.objects;
      calls = p.calls;
      room = p.room;
      lay_faults = p.lay_faults;
      faults = p.faults;
    } };

    ghost invariant = { λ p. HasRoom p.objects p.names.items (vec_capacity p.line)
        × ∥ Keeps ⟦<S as Source>⟧ ⟦<K as Sink>⟧ p.names.items p.listened p.told p.wire × KeepsStill p.fatal.items p.told.asked p.wire ∥₁ };
}

/// Whether a place is among these.
fn is_among(places: &[Place], place: Place) -> bool
    ensures { result ≡ member place places.now }
{
    places.iter().any(|other| *other == place)
}

/// Whether an entry says that one of these places ended as failed.
fn says_failed(places: &[Place], entry: &Entry) -> bool
    ensures { result ≡ says_failed places.now entry.now }
{
    entry.kind == Kind::End
        && entry.mark == Outcome::Failed.mark().0
        && is_among(places, entry.place)
}

/// The word that asks for a put, by a step or `back` by an undo.
fn word_of(back: bool) -> &'static [u8]
    ensures word { result.now ≡ word_of back }
    ensures short { length result.now ≤ 7 }
{
    if back { b"restore" } else { b"put" }
}

/// Asks a device by a wire to be laid out, and gives the line back: its memory holds the line of any put.
fn ask_lay<S: Source, K: Sink>(
    wire: &mut Wire<S, K>,
    alloc: Global,
    names: &[Name],
    values: &[i64],
) -> Result<Vec<u8>, PlantError>
    ensures came { LayCame ⟦<S as Source>⟧ ⟦<K as Sink>⟧ names.now wire.old wire.new values.now result }
    ensures room { IfOk result (λ line. HasRoom (length values.now) names.now (vec_capacity line)) }
    ensures fit { IfOk result (λ _. length names.now ≡ length values.now) }
{
    if values.len() != names.len() {
        return Err(PlantError::Failed);
    }
    let line = make_lay(alloc, wire.next, names, values)?;
    if wire.ask(line.as_slice()) != Answer::Well {
        return Err(PlantError::Failed);
    }
    Ok(line)
}

/// Asks for a put or a restore by a wire, in memory that has room for its line.
fn ask_put<S: Source, K: Sink>(
    wire: &mut Wire<S, K>,
    line: &mut Vec<u8>,
    word: &[u8],
    name: &[u8],
    value: i64,
) -> Answer
    requires short { length word.now ≤ 7 }
    requires room { most_put_bytes name.now ≤ vec_capacity line.old }
    ensures came { AskCame ⟦<S as Source>⟧ ⟦<K as Sink>⟧ wire.old wire.new (asking_line word.now wire.old.next name.now value) result }
    ensures room { vec_capacity line.old ≤ vec_capacity line.new }
{
    make_put(line, word, wire.next, name, value);
    wire.ask(line.as_slice())
}

impl<S: Source + Drop, K: Sink + Drop> LinePlant<S, K> {
    /// A device with the objects of a plan, each by its name, which answers on a source what it is asked on a sink. It is given up when
    /// it is told that a play of the plan has failed, unless it goes on. Nothing is sent yet.
    pub fn for_plan(
        alloc: Global,
        plan: &Plan,
        goes_on: bool,
        answers: S,
        commands: K,
    ) -> Result<Self, OutOfMemory>
        ensures names { IfOk result (λ device. device.names ≡ object_names plan.now) }
        ensures fatal { IfOk result (λ device. device.fatal ≡ fatal_places goes_on plan.now) }
        ensures answers { IfOk result (λ device. device.wire.answers ≡ answers) }
        ensures commands { IfOk result (λ device. device.wire.commands ≡ commands) }
        ensures first { IfOk result (λ device. device.wire.next ≡ 0) }
        ensures whole { IfOk result (λ device. device.wire.is_broken ≡ false) }
        ensures uncut { IfOk result (λ device. device.wire.is_cut ≡ false) }
        ensures unstopped { IfOk result (λ device. device.wire.was_stopped ≡ false) }
        ensures start { IfOk result (λ device. device.start ≡ K.held commands) }
        ensures to_come { IfOk result (λ device. device.to_come ≡ S.left answers) }
        ensures unasked { IfOk result (λ device. device.asked ≡ []) }
    {
        let names = object_names(alloc, plan)?;
        let fatal = if goes_on {
            Vec::new(alloc)
        } else {
            plan.play_places().to_vec(alloc)?
        };
        Ok(LinePlant::new(alloc, names, fatal, answers, commands))
    }
}

impl<S: Source, K: Sink> LinePlant<S, K> {
    /// A device with objects of these names, which answers on a source what it is asked on a sink. It is given up when it is told that
    /// one of these places has failed. Nothing is sent yet.
    pub fn new(alloc: Global, names: Vec<Name>, fatal: Vec<Place>, answers: S, commands: K) -> Self
        ensures names { result.names ≡ names.items }
        ensures fatal { result.fatal ≡ fatal.items }
        ensures answers { result.wire.answers ≡ answers }
        ensures commands { result.wire.commands ≡ commands }
        ensures first { result.wire.next ≡ 0 }
        ensures whole { result.wire.is_broken ≡ false }
        ensures uncut { result.wire.is_cut ≡ false }
        ensures unstopped { result.wire.was_stopped ≡ false }
        ensures start { result.start ≡ K.held commands }
        ensures to_come { result.to_come ≡ S.left answers }
        ensures unasked { result.asked ≡ [] }
        ensures lay_faults { result.lay_faults ≡ 0 }
        ensures faults { result.faults ≡ 0 }
    {
        LinePlant {
            names,
            fatal,
            told: Told::over(&commands),
            listened: Told::over(&answers),
            wire: Wire::new(answers, commands),
            line: Vec::new(alloc),
            objects: 0,
            calls: 0,
            room: 0,
            lay_faults: 0,
            faults: 0,
        }
    }

    /// Whether an answer was lost, or the device was stopped, so that it is asked for nothing any longer.
    pub fn is_broken(&self) -> bool
        ensures { result ≡ self.now.wire.is_broken }
    {
        self.wire.is_broken
    }

    /// Whether a write failed, so that a line was cut off.
    pub fn is_cut(&self) -> bool
        ensures { result ≡ self.now.wire.is_cut }
    {
        self.wire.is_cut
    }

    /// Whether `stop` was sent.
    pub fn was_stopped(&self) -> bool
        ensures { result ≡ self.now.wire.was_stopped }
    {
        self.wire.was_stopped
    }

    /// The number of the next line that is answered.
    pub fn next_number(&self) -> u64
        ensures { result ≡ self.now.wire.next }
    {
        self.wire.next
    }

    /// The name of an object, which is empty past the last one.
    pub fn name(&self, object: Object) -> &[u8]
        ensures { result.now ≡ name_at self.now.names object }
    {
        name_at(self.names.as_slice(), object)
    }

    /// The last line that was heard: of an answer that is lost, as far as it was read.
    pub fn heard(&self) -> &HeardLine {
        &self.wire.heard
    }

    /// Reads on in a line that is no answer, up to its line feed or 32 bytes, so that [`LinePlant::heard`] has more of it. Where no
    /// answer was lost, nothing is read.
    pub fn hear_rest(&mut self)
        ensures { self.new ≡ record self.old {
          wire = record self.old.wire {
            answers = self.new.wire.answers;
            heard = self.new.wire.heard;
          };
        } }
    {
        if self.wire.is_broken {
            self.wire.hear_rest();
        }
    }

    /// Gives the device up: the line `stop` is sent, which isn't answered, and nothing any longer. The device may take its machine to
    /// a safe state. The line is sent once, whatever becomes of it, and not behind a line that was cut off.
    pub fn stop(&mut self)
        ensures came { WasStopped ⟦<K as Sink>⟧ self.old.wire self.new.wire }
        ensures others { self.new ≡ record self.old { wire = self.new.wire } }
    {
        self.wire.stop();
    }

    /// What was sent, and what the device was asked for: the lines of all that, in their order, with the names of its objects, and last
    /// `stop`, if it was given up. And what was heard: an answer to each line, `well` to just those that were done, as long as it answered.
    pub fn sent(&self)
        ensures { ∥ WireCarried ⟦<S as Source>⟧ ⟦<K as Sink>⟧ self.now ∥₁ }
    {
        let _ = &self.told;
    }

    /// Asks for a put, by a step or `back` by an undo, and tells that it was asked for.
    fn ask_for(&mut self, object: Object, value: i64, back: bool) -> Answer
        requires laid { object < self.old.objects }
        ensures came { AskCame ⟦<S as Source>⟧ ⟦<K as Sink>⟧ self.old.wire self.new.wire
            (asking_line (word_of back) self.old.wire.next (name_at self.old.names object) value) result }
        ensures others { self.new ≡ record self.old {
          wire = self.new.wire;
          asked = self.old.asked ++ asked.Put object value back (is_well result) ∷ [];
        } }
    {
        let name = name_at(self.names.as_slice(), object);
        let answer = ask_put(&mut self.wire, &mut self.line, word_of(back), name, value);
        self.told = self.told.then(&Note::Put {
            object,
            value,
            back,
            done: answer.is_well(),
        });
        answer
    }

    /// Asks to be laid out, and tells that this was asked for.
    fn ask_to_lay(
        &mut self,
        alloc: Global,
        values: &[i64],
        drills: &[Drill],
        puts: u64,
    ) -> Result<Vec<u8>, PlantError>
        ensures came { LayCame ⟦<S as Source>⟧ ⟦<K as Sink>⟧ self.old.names self.old.wire self.new.wire values.now result }
        ensures room { IfOk result (λ line. HasRoom (length values.now) self.old.names (vec_capacity line)) }
        ensures others { self.new ≡ record self.old {
          wire = self.new.wire;
          asked = self.old.asked ++ asked.Laid values.now drills.now puts (is_ok result) ∷ [];
        } }
    {
        let laid = ask_lay(&mut self.wire, alloc, self.names.as_slice(), values);
        self.told = self.told.then(&Note::Laid {
            values,
            drills,
            puts,
            done: laid.is_ok(),
        });
        laid
    }

    /// Asks for a put, by a step or `back` by an undo.
    fn ask_by(&mut self, object: Object, value: i64, back: bool) -> Result<(), Failed>
        requires room { self.old.calls < self.old.room }
        requires laid { object < self.old.objects }
        ensures came { PutCame ⟦<S as Source>⟧ ⟦<K as Sink>⟧ (word_of back) self.old self.new object value result }
        ensures asked { self.new.asked ≡ self.old.asked ++ asked.Put object value back (is_ok result) ∷ [] }
        ensures start { self.new.start ≡ self.old.start }
        ensures to_come { self.new.to_come ≡ self.old.to_come }
        ensures fatal { self.new.fatal ≡ self.old.fatal }
        ensures names { self.new.names ≡ self.old.names }
        ensures calls { self.new.calls ≡ self.old.calls + 1 }
        ensures room { self.new.room ≡ self.old.room }
        ensures objects { self.new.objects ≡ self.old.objects }
        ensures faults { self.new.faults ≡ faults_after result self.old.faults }
        ensures lay_faults { self.new.lay_faults ≡ self.old.lay_faults }
    {
        self.calls += 1;
        match self.ask_for(object, value, back) {
            Answer::Well => Ok(()),
            Answer::Failed | Answer::Lost => {
                self.faults = counted_up(self.faults);
                Err(Failed)
            }
        }
    }
}

impl<S: Source, K: Sink> Plant for LinePlant<S, K> {
    ghost lay_faults = { λ p. p.lay_faults };

    ghost faults = { λ p. p.faults };

    ghost state = { λ _. None };

    ghost history = { λ p. Some p.asked };

    ghost calls = { λ p. p.calls };

    ghost room = { λ p. p.room };

    ghost objects = { λ p. p.objects };

    ghost constants = { λ p. constants_of p };

    fn lay(
        &mut self,
        alloc: Global,
        values: &[i64],
        drills: &[Drill],
        puts: u64,
    ) -> Result<(), PlantError>
        ensures came { LayCame ⟦<S as Source>⟧ ⟦<K as Sink>⟧ self.old.names self.old.wire self.new.wire values.now result }
        ensures names { self.new.names ≡ self.old.names }
        ensures asked { self.new.asked ≡ self.old.asked ++ asked.Laid values.now drills.now puts (is_ok result) ∷ [] }
        ensures start { self.new.start ≡ self.old.start }
        ensures to_come { self.new.to_come ≡ self.old.to_come }
        ensures fatal { self.new.fatal ≡ self.old.fatal }
        ensures objects { OnOk result (self.new.objects ≡ length values.now) }
        ensures calls { OnOk result (self.new.calls ≡ 0) }
        ensures room { OnOk result (self.new.room ≡ puts) }
        ensures refused { OnErr result (self.new.calls ≡ self.old.calls) }
        ensures lay_faults { self.new.lay_faults ≡
            (if is_refused result then counted_up self.old.lay_faults else self.old.lay_faults) }
        ensures faults { self.new.faults ≡ self.old.faults }
    {
        match self.ask_to_lay(alloc, values, drills, puts) {
            Ok(line) => {
                self.line = line;
                self.objects = values.len() as u64;
                self.calls = 0;
                self.room = puts;
                Ok(())
            }
            Err(error) => {
                if error == PlantError::Failed {
                    self.lay_faults = counted_up(self.lay_faults);
                }
                Err(error)
            }
        }
    }

    fn put(&mut self, object: Object, value: i64) -> Result<(), Failed>
        requires room { self.old.calls < self.old.room }
        requires laid { object < self.old.objects }
        ensures came { PutCame ⟦<S as Source>⟧ ⟦<K as Sink>⟧ put_word self.old self.new object value result }
        ensures asked { self.new.asked ≡ self.old.asked ++ asked.Put object value false (is_ok result) ∷ [] }
        ensures start { self.new.start ≡ self.old.start }
        ensures to_come { self.new.to_come ≡ self.old.to_come }
        ensures fatal { self.new.fatal ≡ self.old.fatal }
        ensures names { self.new.names ≡ self.old.names }
        ensures calls { self.new.calls ≡ self.old.calls + 1 }
        ensures room { self.new.room ≡ self.old.room }
        ensures objects { self.new.objects ≡ self.old.objects }
        ensures faults { self.new.faults ≡ faults_after result self.old.faults }
        ensures lay_faults { self.new.lay_faults ≡ self.old.lay_faults }
    {
        self.ask_by(object, value, false)
    }

    fn restore(&mut self, object: Object, value: i64) -> Result<(), Failed>
        requires room { self.old.calls < self.old.room }
        requires laid { object < self.old.objects }
        ensures came { PutCame ⟦<S as Source>⟧ ⟦<K as Sink>⟧ restore_word self.old self.new object value result }
        ensures asked { self.new.asked ≡ self.old.asked ++ asked.Put object value true (is_ok result) ∷ [] }
        ensures start { self.new.start ≡ self.old.start }
        ensures to_come { self.new.to_come ≡ self.old.to_come }
        ensures fatal { self.new.fatal ≡ self.old.fatal }
        ensures names { self.new.names ≡ self.old.names }
        ensures calls { self.new.calls ≡ self.old.calls + 1 }
        ensures room { self.new.room ≡ self.old.room }
        ensures objects { self.new.objects ≡ self.old.objects }
        ensures faults { self.new.faults ≡ faults_after result self.old.faults }
        ensures lay_faults { self.new.lay_faults ≡ self.old.lay_faults }
    {
        self.ask_by(object, value, true)
    }

    fn entered(&mut self, entry: &Entry)
        ensures asked { self.new ≡ record self.old { wire = self.new.wire; asked = self.old.asked ++ asked.Entered entry.now ∷ [] } }
        ensures on { says_failed self.old.fatal entry.now ≡ false → self.new.wire ≡ self.old.wire }
        ensures stopped { says_failed self.old.fatal entry.now ≡ true → WasStopped ⟦<K as Sink>⟧ self.old.wire self.new.wire }
    {
        self.told = self.told.then(&Note::Entered { entry });
        if says_failed(self.fatal.as_slice(), entry) {
            self.wire.stop();
        }
    }

    fn lay_faults(&self) -> u64 {
        self.lay_faults
    }

    fn faults(&self) -> u64 {
        self.faults
    }
}
