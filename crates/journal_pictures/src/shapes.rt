//! What stands in a picture beside its marks.
//!
//! Which shapes there are no contract says, but no shape looks as a stretch. A definition of them would be the code again, and whether
//! a picture is clear can only be seen. A place's box has a piece in each lane of its roles, from where the participant arrives to where
//! it leaves. Boxes from the first arrival to the last leave lay over one another where a place begins for some while others are still in
//! the one before. Pieces of lanes side by side are drawn as one. Waiting and boxes are known from the whole journal, so a part shows
//! them as the whole does. One place alone can't be asked for: without the entries of others nobody would see for whom its roles wait.

use crate::stretches::Stretch;

/// How a line looks.
#[derive(Clone, Copy)]
pub enum LineLook {
    Lane,
    /// An edge of a place's box.
    Edge,
    /// What goes through all who begin, resolve or end together, and where it meets the lane of each.
    Joint,
    Joined,
    /// What stands above the first entry that may not come.
    Break,
}

/// How words look.
#[derive(Clone, Copy)]
pub enum WordsLook {
    /// The name of a participant.
    Name,
    Number,
    /// What an entry says.
    Says,
    /// The action of a place.
    Action,
    /// For whom or what somebody waits.
    Awaits,
    /// What stands beside a `Break`.
    Broken,
}

/// A part of the picture that is neither a stretch nor a mark. Lengths are pixels, counted from the left and from the top.
#[derive(Drop)]
pub enum Shape {
    /// A piece of a place's box, and what is told of it.
    Piece {
        left: u64,
        top: u64,
        width: u64,
        height: u64,
        title: Vec<u8>,
    },
    /// A line.
    Line {
        look: LineLook,
        left: u64,
        top: u64,
        right: u64,
        bottom: u64,
    },
    /// Words that can be selected.
    Words {
        look: WordsLook,
        left: u64,
        base: u64,
        words: Vec<u8>,
    },
}

/// A stretch that is drawn, where, and what is told of it.
#[derive(Drop)]
pub struct Bar {
    pub stretch: Stretch,
    pub left: u64,
    pub top: u64,
    pub width: u64,
    pub height: u64,
    pub title: Vec<u8>,
}
