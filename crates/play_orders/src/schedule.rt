//! Schedules by number. Odd numbers are fair. Even ones are ranked: number n has 0, 1, 2 or 4 falls, by n / 2 modulo 4.
//!
//! A schedule depends on its number, on how many participants there are, and on how many entries the fair schedule of number 0 makes.
//! It never changes, since tables name schedules by their numbers. All draws are those of `Draws` that begin at the number.
//!
//! - Fair: where so many participants are awake, a draw below this count says how many of them are passed over, in the order of their
//!   lines.
//! - Ranked, with f falls: participant i, counted from 0, begins with rank f + i. For each i from 1 on, a draw below i + 1 says with whom
//!   participant i changes ranks. Then f turns are drawn, each below the length of the fair schedule. Whoever makes the entry of the turn
//!   that was drawn as the jth, counted from 0, falls to rank j.

ghost use Rattle.std.specs.Prelude.{◌≡◌, ◌<◌, ◌≤◌, None, false, true};
ghost use Rattle.play_orders.specs.Asking.{NotAllSleep};
ghost use Rattle.cover_table.specs.Cover.{has_bit};

use crate::draws::Draws;
use crate::order::Order;
use caa_base::written::entry::{OutOfMemory, Participant};
use core_words::crew::{Crew, is_in};
use std::alloc::Global;

/// A turn after which whoever made its entry falls to this rank.
#[derive(Clone, Copy)]
struct Fall {
    turn: u32,
    rank: u32,
}

/// Each of those who are awake is as likely to be asked as the others.
#[derive(Drop)]
pub struct Fair {
    draws: Draws,
}

/// Participants have ranks, and the highest of those who are awake is asked (Burckhardt and others, 2010).
#[derive(Drop)]
pub struct Ranked {
    /// The rank of each participant.
    ranks: Vec<u32>,
    falls: Vec<Fall>,
    /// How many entries were made.
    turn: u32,
}

/// The schedule of a number.
#[derive(Drop)]
pub enum Schedule {
    Fair(Fair),
    Ranked(Ranked),
}

/// How many of the first so many participants are awake.
fn count_awake(asleep: Crew, participants: u32) -> u32
    ensures { result ≤ participants }
{
    let mut count = 0;
    for by in 0..participants {
        if !is_in(asleep, by) {
            count += 1;
        }
    }
    count
}

/// The participant before which so many others are awake; the last that is awake, where there are too few.
fn awake_after(asleep: Crew, participants: u32, others: u32) -> Participant
    requires { NotAllSleep asleep participants }
    ensures known { result < participants }
    ensures awake { has_bit asleep result ≡ false }
{
    let mut left = others;
    let mut last = None;
    for by in 0..participants {
        if is_in(asleep, by) {
            continue;
        }
        if left == 0 {
            return by;
        }
        left -= 1;
        last = Some(by);
    }
    match last {
        Some(by) => by,
        None => unreachable!(),
    }
}

impl Order for Fair {
    fn pick(&mut self, asleep: Crew, participants: u32) -> Participant {
        let count = count_awake(asleep, participants);
        let others = if count == 0 {
            0
        } else {
            self.draws.below(count)
        };
        awake_after(asleep, participants, others)
    }

    fn went(&mut self, _by: Participant) {}
}

/// The rank of a participant.
fn rank_of(ranks: &[u32], by: Participant) -> u32 {
    ranks.get(by as usize).copied().unwrap_or(0)
}

/// Whether this participant is asked before that one.
fn is_higher(ranks: &[u32], by: Participant, other: Option<Participant>) -> bool
    ensures { other ≡ None → result ≡ true }
{
    match other {
        Some(other) => rank_of(ranks, by) > rank_of(ranks, other),
        None => true,
    }
}

/// The participant of the highest rank, of those who are awake.
fn highest(ranks: &[u32], asleep: Crew, participants: u32) -> Participant
    requires { NotAllSleep asleep participants }
    ensures known { result < participants }
    ensures awake { has_bit asleep result ≡ false }
{
    let mut best = None;
    for by in 0..participants {
        if is_in(asleep, by) {
            continue;
        }
        if is_higher(ranks, by, best) {
            best = Some(by);
        }
    }
    match best {
        Some(by) => by,
        None => unreachable!(),
    }
}

impl Order for Ranked {
    fn pick(&mut self, asleep: Crew, participants: u32) -> Participant {
        highest(&self.ranks, asleep, participants)
    }

    fn went(&mut self, by: Participant) {
        for fall in &self.falls {
            if fall.turn == self.turn {
                if let Some(rank) = self.ranks.get_mut(by as usize) {
                    *rank = fall.rank;
                }
            }
        }
        self.turn = self.turn.saturating_add(1);
    }
}

impl Order for Schedule {
    fn pick(&mut self, asleep: Crew, participants: u32) -> Participant {
        match self {
            Schedule::Fair(order) => order.pick(asleep, participants),
            Schedule::Ranked(order) => order.pick(asleep, participants),
        }
    }

    fn went(&mut self, by: Participant) {
        match self {
            Schedule::Fair(order) => order.went(by),
            Schedule::Ranked(order) => order.went(by),
        }
    }
}

/// Ranks in an order that is drawn, all above the falls: each participant but the first changes places with itself or with one
/// before it.
fn drawn_ranks(
    alloc: Global,
    draws: &mut Draws,
    participants: u32,
    lowest: u32,
) -> Result<Vec<u32>, OutOfMemory> {
    let mut ranks = Vec::new(alloc);
    for index in 0..participants {
        ranks.push(lowest.saturating_add(index))?;
    }
    for index in 1..participants {
        let other = draws.below(index + 1);
        if (index as usize) < ranks.len() {
            ranks.swap(index as usize, other as usize);
        }
    }
    Ok(ranks)
}

/// So many falls, at turns that are drawn among the first so many. The first drawn is the deepest.
fn drawn_falls(
    alloc: Global,
    draws: &mut Draws,
    falls: u32,
    length: u32,
) -> Result<Vec<Fall>, OutOfMemory> {
    let mut drawn = Vec::new(alloc);
    for rank in 0..falls {
        let turn = draws.below(length.max(1));
        drawn.push(Fall { turn, rank })?;
    }
    Ok(drawn)
}

/// How many falls a ranked schedule has.
fn falls_of(number: u32) -> u32
    ensures { result ≤ 4 }
{
    match number / 2 % 4 {
        0 => 0,
        1 => 1,
        2 => 2,
        _ => 4,
    }
}

impl Schedule {
    /// The fair schedule that is drawn from this number.
    pub fn fair(number: u32) -> Self {
        Schedule::Fair(Fair {
            draws: Draws::new(u64::from(number)),
        })
    }

    /// The schedule of this number for so many participants; `length` is how many entries the fair schedule of number 0 makes.
    pub fn numbered(
        alloc: Global,
        number: u32,
        participants: u32,
        length: u32,
    ) -> Result<Self, OutOfMemory> {
        if number % 2 == 1 {
            return Ok(Self::fair(number));
        }
        let mut draws = Draws::new(u64::from(number));
        let falls = falls_of(number);
        let ranks = drawn_ranks(alloc, &mut draws, participants, falls)?;
        let falls = drawn_falls(alloc, &mut draws, falls, length)?;
        Ok(Schedule::Ranked(Ranked {
            ranks,
            falls,
            turn: 0,
        }))
    }
}
