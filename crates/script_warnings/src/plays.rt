//! What is told of the plays of a script.

use crate::objects::{Thing, Things};
use crate::rule::Rule;
use crate::subject::{Part, add_name, part_of, reached_from};
use crate::tells::{Tells, digits_of};
use action_script::forms::form::Form;
use action_script::forms::script::Line;
use caa_base::written::entry::OutOfMemory;
use script_outcomes::outlooks::Outlook;
use script_views::looking::first_line;
use script_views::page::Piece;
use std::alloc::Global;

/// An action that is played: how often, which actions a play of it reaches, and which objects their bodies put.
#[derive(Drop)]
struct Played {
    action: u32,
    count: u32,
    reached: Vec<u32>,
    puts: Vec<u32>,
}

/// The objects that the bodies of these actions put.
fn puts_of(alloc: Global, parts: &[Part], actions: &[u32]) -> Result<Vec<u32>, OutOfMemory> {
    let mut things = Vec::new(alloc);
    for action in actions {
        if let Some(part) = part_of(parts, *action) {
            let more = part.puts(alloc)?;
            add_names(&mut things, &more)?;
        }
    }
    Ok(things)
}

/// Adds those of these names that aren't there.
fn add_names(names: &mut Vec<u32>, more: &[u32]) -> Result<(), OutOfMemory> {
    for name in more {
        add_name(names, *name)?;
    }
    Ok(())
}

/// Counts one more play of an action, if it was played before.
fn count_again(played: &mut Vec<Played>, action: u32) -> bool {
    for one in played.iter_mut() {
        if one.action == action {
            one.count = one.count.saturating_add(1);
            return true;
        }
    }
    false
}

/// The plays of a script: of each action that is played what a play of it comes to.
#[derive(Drop)]
pub struct Plays {
    played: Vec<Played>,
    /// The line of the second play.
    second: Option<u32>,
}

impl Plays {
    /// The plays of the script that these actions are of.
    pub fn of(
        alloc: Global,
        lines: &[Line],
        outlooks: &[Outlook],
        parts: &[Part],
    ) -> Result<Plays, OutOfMemory> {
        let mut plays = Plays {
            played: Vec::new(alloc),
            second: None,
        };
        for line in lines {
            if let Form::Play(action, _) = &line.form {
                plays.add(alloc, outlooks, parts, *action, line.number)?;
            }
        }
        Ok(plays)
    }

    /// Adds a play.
    fn add(
        &mut self,
        alloc: Global,
        outlooks: &[Outlook],
        parts: &[Part],
        action: u32,
        line: u32,
    ) -> Result<(), OutOfMemory> {
        if self.second.is_none() && !self.played.is_empty() {
            self.second = Some(line);
        }
        if !count_again(&mut self.played, action) {
            let reached = reached_from(alloc, outlooks, parts, action)?;
            let puts = puts_of(alloc, parts, &reached)?;
            self.played.push(Played {
                action,
                count: 1,
                reached,
                puts,
            })?;
        }
        Ok(())
    }

    /// Whether a play reaches an action.
    fn reach(&self, action: u32) -> bool {
        self.played
            .iter()
            .any(|one| one.reached.as_slice().contains(&action))
    }

    /// How many plays put an object.
    fn putting(&self, object: u32) -> u32 {
        let mut count = 0u32;
        for one in self.played.iter() {
            if one.puts.as_slice().contains(&object) {
                count = count.saturating_add(one.count);
            }
        }
        count
    }

    /// The objects that several plays put.
    fn shared(&self, alloc: Global, things: &Things) -> Result<Vec<u32>, OutOfMemory> {
        let mut shared = Vec::new(alloc);
        for thing in things.all.iter() {
            if self.putting(thing.name) > 1 {
                shared.push(thing.name)?;
            }
        }
        Ok(shared)
    }

    /// Those of these actions that a play reaches. Tells of the others.
    pub fn reached<'a>(
        &self,
        tells: &mut Tells,
        parts: Vec<Part<'a>>,
    ) -> Result<Vec<Part<'a>>, OutOfMemory> {
        let mut reached = Vec::new(tells.alloc);
        for part in parts {
            if self.reach(part.outlook.action) {
                reached.push(part)?;
            } else {
                say_never_played(tells, &part)?;
            }
        }
        Ok(reached)
    }

    /// Tells which objects a play after a failed one finds as that one left them.
    pub fn tell_next_play(&self, tells: &mut Tells, things: &Things) -> Result<(), OutOfMemory> {
        let shared = self.shared(tells.alloc, things)?;
        if let Some(line) = self.second {
            if !shared.is_empty() {
                tells.say(
                    Rule::NextPlay,
                    line,
                    &[
                        Piece::Text("several plays put "),
                        Piece::List(&shared),
                        Piece::Text(
                            ": where one ends as failed, the next begins with what it left, and its undo goes back to that",
                        ),
                    ],
                )?;
            }
        }
        Ok(())
    }

    /// Tells which objects are put to one value alone by several plays: then the restore of a later play is that very put.
    pub fn tell_asks_again(
        &self,
        tells: &mut Tells,
        parts: &[Part],
        things: &Things,
    ) -> Result<(), OutOfMemory> {
        for thing in things.all.iter() {
            if self.putting(thing.name) > 1 {
                if let Values::One(value) = values_of(parts, thing.name) {
                    if value != thing.value {
                        say_asks_again(tells, thing, value)?;
                    }
                }
            }
        }
        Ok(())
    }
}

/// Tells that no play reaches an action.
fn say_never_played(tells: &mut Tells, part: &Part) -> Result<(), OutOfMemory> {
    tells.say(
        Rule::NeverPlayed,
        first_line(part.block),
        &[
            Piece::Text("no play reaches action "),
            Piece::Named(part.outlook.action),
        ],
    )
}

/// Tells that an object is put to this value alone.
fn say_asks_again(tells: &mut Tells, thing: &Thing, value: i64) -> Result<(), OutOfMemory> {
    let digits = digits_of(tells.alloc, value)?;
    tells.say(
        Rule::AsksAgain,
        thing.line,
        &[
            Piece::Named(thing.name),
            Piece::Text(" is put to"),
            Piece::Word(&digits),
            Piece::Text(
                " alone and never back: from the second play on its restore is that very put",
            ),
        ],
    )
}

/// The values that an object is put to.
#[derive(Clone, Copy)]
enum Values {
    None,
    One(i64),
    /// Several, or others than steps name.
    Several,
}

impl Values {
    /// These and one more.
    fn and(self, value: i64) -> Values {
        match self {
            Values::None => Values::One(value),
            Values::One(other) if other == value => self,
            Values::One(_) | Values::Several => Values::Several,
        }
    }
}

/// These values, and those that the steps of an action put an object to.
fn values_in(block: &[Line], object: u32, before: Values) -> Values {
    let mut values = before;
    for line in block {
        match &line.form {
            Form::PutStep(name, value) if *name == object => values = values.and(*value),
            Form::AddStep(name, _) if *name == object => values = Values::Several,
            _ => {}
        }
    }
    values
}

/// The values that the steps of these actions put an object to.
fn values_of(parts: &[Part], object: u32) -> Values {
    let mut values = Values::None;
    for part in parts {
        values = values_in(part.block, object, values);
    }
    values
}
