//! In which order objects are set back, and in which they moved.

use crate::moves::{Course, Earlier, Move};
use crate::objects::{Thing, Things};
use crate::rule::Rule;
use crate::tells::Tells;
use caa_base::written::entry::OutOfMemory;
use script_views::page::{Page, Piece};
use std::alloc::Global;

/// How many pairs are told of an action.
const MOST_PAIRS: usize = 3;

/// Two objects of which the first moves before the second, which then moves while the first is away, and the lines of both moves.
#[derive(Clone, Copy)]
struct Pair {
    first: u32,
    second: u32,
    first_line: u32,
    second_line: u32,
}

/// All pairs of a script, and those among them that were told, since what moves first is set back first.
#[derive(Drop)]
pub struct Pairs {
    all: Vec<Pair>,
    told: Vec<Pair>,
}

/// Whether a pair of the same objects stands in a list.
fn has_pair(pairs: &[Pair], pair: &Pair) -> bool {
    pairs
        .iter()
        .any(|it| it.first == pair.first && it.second == pair.second)
}

/// Adds a pair, unless one of the same objects is there; tells whether it was added.
fn add_pair(pairs: &mut Vec<Pair>, pair: Pair) -> Result<bool, OutOfMemory> {
    if has_pair(pairs, &pair) {
        return Ok(false);
    }
    pairs.push(pair)?;
    Ok(true)
}

/// The pair that a move makes with an object that is away.
fn pair_of(one: &Move, earlier: &Earlier) -> Pair {
    Pair {
        first: earlier.object,
        second: one.object,
        first_line: earlier.line,
        second_line: earlier.later_line,
    }
}

/// Adds two objects and the lines at which they move.
fn write_pair(page: &mut Page, pair: &Pair) -> Result<(), OutOfMemory> {
    page.say(&[
        Piece::Named(pair.first),
        Piece::Text(" (moves at line "),
        Piece::Number(u64::from(pair.first_line)),
        Piece::Text(") before "),
        Piece::Named(pair.second),
        Piece::Text(" ("),
        Piece::Number(u64::from(pair.second_line)),
        Piece::Text(")"),
    ])
}

/// Adds the first pairs, and how many more there are.
fn write_pairs(page: &mut Page, pairs: &[Pair]) -> Result<(), OutOfMemory> {
    for (index, pair) in pairs.iter().enumerate() {
        if index < MOST_PAIRS {
            page.say(&[Piece::Text(if index == 0 { "" } else { ", " })])?;
            write_pair(page, pair)?;
        }
    }
    match pairs.len().saturating_sub(MOST_PAIRS) {
        0 => Ok(()),
        1 => page.say(&[Piece::Text(", and 1 more pair")]),
        more => page.say(&[
            Piece::Text(", and "),
            Piece::Number(more as u64),
            Piece::Text(" more pairs"),
        ]),
    }
}

impl Pairs {
    /// None yet.
    pub fn new(alloc: Global) -> Pairs {
        Pairs {
            all: Vec::new(alloc),
            told: Vec::new(alloc),
        }
    }

    /// Adds the pairs of a move; those that are to be told, and weren't before, are added to others, too.
    fn add_move(
        &mut self,
        things: &Things,
        one: &Move,
        wrong: &mut Vec<Pair>,
    ) -> Result<(), OutOfMemory> {
        for earlier in one.earlier.iter() {
            let pair = pair_of(one, earlier);
            add_pair(&mut self.all, pair)?;
            if things.is_before(pair.first, pair.second) && add_pair(&mut self.told, pair)? {
                wrong.push(pair)?;
            }
        }
        Ok(())
    }

    /// Tells what moves first in an action and is set back first, unless an action nested in it told that.
    pub fn tell(
        &mut self,
        tells: &mut Tells,
        things: &Things,
        course: &Course,
        action: u32,
        line: u32,
    ) -> Result<(), OutOfMemory> {
        let mut wrong = Vec::new(tells.alloc);
        for one in course.moves.iter() {
            self.add_move(things, one, &mut wrong)?;
        }
        if wrong.is_empty() {
            return Ok(());
        }
        let mut page = Page::new(tells.alloc, tells.script.names());
        write_pairs(&mut page, &wrong)?;
        let text = page.into_text();
        tells.say(
            Rule::SetBackOrder,
            line,
            &[
                Piece::Named(action),
                Piece::Text(": set back first what moves first: "),
                Piece::Word(&text),
            ],
        )
    }

    /// Whether an object moves before one of these, and so is to be set back behind it.
    fn waits(&self, object: u32, others: &[u32]) -> bool {
        self.all.iter().any(|pair| pair.first == object && others.contains(&pair.second))
    }

    /// The first of these objects that moves before no other of them.
    fn next(&self, objects: &[u32]) -> Option<u32> {
        for object in objects {
            if !self.waits(*object, objects) {
                return Some(*object);
            }
        }
        None
    }

    /// An order of the objects in which what moved last is set back first, if there is one.
    fn order(&self, alloc: Global, things: &[Thing]) -> Result<Option<Vec<u32>>, OutOfMemory> {
        let mut left = names_of(alloc, things)?;
        let mut order = Vec::new(alloc);
        for _ in 0..things.len() {
            let Some(next) = self.next(&left) else {
                return Ok(None);
            };
            order.push(next)?;
            left = names_without(alloc, &left, next)?;
        }
        Ok(Some(order))
    }

    /// Offers an order of the object lines in which what moves last is set back first, where something else was told of.
    pub fn tell_order(&self, tells: &mut Tells, things: &Things) -> Result<(), OutOfMemory> {
        let Some(line) = things.first_line() else {
            return Ok(());
        };
        if self.told.is_empty() {
            return Ok(());
        }
        match self.order(tells.alloc, &things.all)? {
            Some(order) => tells.say(
                Rule::SetBackOrder,
                line,
                &[
                    Piece::Text(
                        "what moves last is set back first with the object lines in the order ",
                    ),
                    Piece::List(&order),
                ],
            ),
            None => tells.say(
                Rule::SetBackOrder,
                line,
                &[Piece::Text(
                    "no order of the object lines has what moves last set back first in all actions",
                )],
            ),
        }
    }
}

/// The names of these objects.
fn names_of(alloc: Global, things: &[Thing]) -> Result<Vec<u32>, OutOfMemory> {
    let mut names = Vec::new(alloc);
    for thing in things {
        names.push(thing.name)?;
    }
    Ok(names)
}

/// These names without one of them.
fn names_without(alloc: Global, names: &[u32], name: u32) -> Result<Vec<u32>, OutOfMemory> {
    let mut others = Vec::new(alloc);
    for other in names {
        if *other != name {
            others.push(*other)?;
        }
    }
    Ok(others)
}
