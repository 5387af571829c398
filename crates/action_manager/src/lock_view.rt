use caa_base::written::entry::Entry;
use place_plan::plans::plan::Plan;
use place_plan::rules::machine::Base;
use std::collections::LinkedList;
use std::marker::Model;

/// The name of a list of publications. No value of it is made.
#[derive(Drop)]
pub struct BookName {
    pub number: u64,
    pub log_name: u64,
    pub cells_name: u64,
}

impl Model for BookName {
    ghost use Rattle.logbook.specs.Pages.{Book};

    ghost Value = { Book };

    ghost view = { λ b. record { number = b.number; log_name = b.log_name; cells_name = b.cells_name } };
}

/// What the machine at home keeps to, in every turn. No value of it is made.
#[derive(Drop)]
pub struct Terms {
    /// The plan of the machine that was handed in.
    pub plan: Plan,
    /// The base of that machine.
    pub base: Base,
    /// The names of the cells of resolved exceptions.
    pub cells: LinkedList<u64>,
    /// The name of the list of publications.
    pub book: BookName,
}

/// What a seat at the table knows. No value of it is made.
pub struct View {
    /// It is a participant's, and wasn't taken in by another.
    pub seated: bool,
    /// It is the maker's.
    pub making: bool,
    pub terms: Terms,
    /// The participant.
    pub who: u32,
    /// Of the maker: how many seats it has made.
    pub next: u64,
    /// It has drawn a ticket, and not handed the turn on since.
    pub holds: bool,
    pub ticket: u64,
    /// The turn is its own, and `book` is the journal with which that turn began.
    pub has_book: bool,
    pub book: LinkedList<Entry>,
    /// The journal that it saw last.
    pub seen: LinkedList<Entry>,
    /// The participants of the seats that it took in, each with what that seat had seen.
    pub taken: LinkedList<(u32, LinkedList<Entry>)>,
}
