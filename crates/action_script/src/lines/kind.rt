ghost use Rattle.std.specs.Prelude.{◌≡◌, true, false};
ghost use Rattle.action_script.specs.Lines.Kinds.{row, row_of, word_of, parts_of, may_go_on, takes, at_top, in_graph, in_action, in_program, in_body, is_at, stands_in, goes_to};

use crate::lines::field::Part;
use crate::lines::field::Part::{Count, Name, Rounds, Test, Value};
use crate::lines::sort::Naming::{New, ToldOutside, Used};
use crate::lines::sort::Sort;
use std::marker::Model;

/// Where the reader of a script is.
#[derive(Clone, Copy)]
pub enum Section {
    /// Outside all graphs and actions.
    Top,
    /// In a graph.
    Graph,
    /// In an action, outside its bodies and handlers.
    Action,
    /// In the body of a role.
    Body,
    /// In a handler of a role.
    Handler,
}

impl Section {
    /// Whether it is outside all graphs and actions.
    pub fn at_top(self) -> bool
        ensures { result ≡ at_top self }
    {
        matches!(self, Section::Top)
    }

    fn in_graph(self) -> bool
        ensures { result ≡ in_graph self }
    {
        matches!(self, Section::Graph)
    }

    fn in_body(self) -> bool
        ensures { result ≡ in_body self }
    {
        matches!(self, Section::Body)
    }

    /// Whether it is in a body or a handler.
    fn in_program(self) -> bool
        ensures { result ≡ in_program self }
    {
        matches!(self, Section::Body | Section::Handler)
    }

    /// Whether it is in an action, be it in a body or a handler or not.
    fn in_action(self) -> bool
        ensures { result ≡ in_action self }
    {
        matches!(self, Section::Action | Section::Body | Section::Handler)
    }
}

/// Which kind of line a line is, by its first word and the number of its words.
#[derive(Clone, Copy)]
pub enum LineKind {
    /// A participant is declared.
    Participant,
    /// An object is declared.
    Object,
    /// A put of the device is drilled to fail.
    Drill,
    /// An object is watched.
    Watch,
    /// A graph of exceptions begins.
    Graph,
    /// An action begins.
    Action,
    /// An action is played.
    Play,
    /// The graph has an exception.
    Exception,
    /// An exception covers another.
    Cover,
    /// The graph or the action ends.
    End,
    /// The graph of the exceptions that are raised.
    Internal,
    /// The graph of the exceptions that are signalled.
    Interface,
    /// The exception that a refused put raises.
    Fault,
    /// The objects of the action.
    Use,
    /// The roles of the action.
    Roles,
    /// A nested use.
    Nest,
    /// How an exception is carried out of a nested use.
    Map,
    /// How undo is carried out of a nested use.
    MapUndo,
    /// How failure is carried out of a nested use.
    MapFailure,
    /// A further action of a nested use.
    Alternate,
    /// What a role names where its action is aborted.
    Abort,
    /// The same, where its register meets a test.
    AbortTest,
    /// The body of a role begins.
    Body,
    /// A handler of a role begins.
    Handler,
    /// A read step.
    Read,
    /// A put step.
    Put,
    /// An add step.
    Add,
    /// A work step.
    Work,
    /// A check step.
    Check,
    /// A raise step.
    Raise,
    /// An enter step.
    Enter,
    /// The body or handler ends well.
    Done,
    /// The body or handler ends with a signal.
    Signal,
    /// The body or handler asks for undo.
    Undo,
}

/// All kinds of lines. Those of which a script mostly has many come first, since they are tried in turn.
pub const KINDS: [LineKind; 34] = [
    LineKind::Play,
    LineKind::Exception,
    LineKind::Cover,
    LineKind::Read,
    LineKind::Put,
    LineKind::Add,
    LineKind::Work,
    LineKind::Check,
    LineKind::Raise,
    LineKind::Enter,
    LineKind::Done,
    LineKind::Signal,
    LineKind::Undo,
    LineKind::Nest,
    LineKind::Map,
    LineKind::MapUndo,
    LineKind::MapFailure,
    LineKind::Alternate,
    LineKind::Body,
    LineKind::Handler,
    LineKind::Abort,
    LineKind::AbortTest,
    LineKind::End,
    LineKind::Use,
    LineKind::Roles,
    LineKind::Graph,
    LineKind::Action,
    LineKind::Internal,
    LineKind::Interface,
    LineKind::Fault,
    LineKind::Participant,
    LineKind::Object,
    LineKind::Drill,
    LineKind::Watch,
];

/// Where a line may stand.
#[derive(Clone, Copy)]
pub enum Stand {
    /// Outside all graphs and actions.
    Top,
    /// In a graph.
    Graph,
    /// In an action, be it in a body or a handler or not.
    Action,
    /// In a body or a handler.
    Program,
    /// In a body.
    Body,
    /// In a graph or an action.
    Block,
}

impl Stand {
    /// Whether the reader is there.
    fn is_at(self, section: Section) -> bool
        ensures { result ≡ is_at self section }
    {
        match self {
            Stand::Top => section.at_top(),
            Stand::Graph => section.in_graph(),
            Stand::Action => section.in_action(),
            Stand::Program => section.in_program(),
            Stand::Body => section.in_body(),
            Stand::Block => !section.at_top(),
        }
    }
}

/// What all lines of a kind have in common.
#[derive(Drop)]
struct KindRow {
    /// The word that begins the line.
    word: &'static [u8],
    /// What the words after the first are asked to be; where names may go on, these are the fewest.
    parts: &'static [Part],
    /// Whether further names may follow.
    goes_on: bool,
    /// Where the line may stand.
    stand: Stand,
    /// Where the reader is after it; none where it stays where it was.
    leads_to: Option<Section>,
}

impl Model for KindRow {
    ghost use Rattle.action_script.specs.Lines.Kinds.{KindRow as Row};

    ghost Value = { Row };

    ghost view = { λ r. record { word = r.word.now; parts = r.parts.now; goes_on = r.goes_on; stand = r.stand; leads_to = r.leads_to } };
}

/// The row of a kind whose lines have just these words.
fn row(
    word: &'static [u8],
    parts: &'static [Part],
    stand: Stand,
    leads_to: Option<Section>,
) -> KindRow
    ensures { result ≡ row word.now parts.now false stand leads_to }
{
    KindRow {
        word,
        parts,
        goes_on: false,
        stand,
        leads_to,
    }
}

/// The row of a kind whose lines may have further names.
fn row_with_more(
    word: &'static [u8],
    parts: &'static [Part],
    stand: Stand,
    leads_to: Option<Section>,
) -> KindRow
    ensures { result ≡ row word.now parts.now true stand leads_to }
{
    KindRow {
        word,
        parts,
        goes_on: true,
        stand,
        leads_to,
    }
}

impl LineKind {
    /// The table of the kinds.
    fn row(self) -> KindRow
        ensures { result ≡ row_of self }
    {
        match self {
            LineKind::Participant => row(
                b"participant",
                &[Name(New(Sort::Participant))],
                Stand::Top,
                None,
            ),
            LineKind::Object => row(
                b"object",
                &[Name(New(Sort::Object)), Value],
                Stand::Top,
                None,
            ),
            LineKind::Drill => row(
                b"drill",
                &[Name(Used(Sort::Object)), Count],
                Stand::Top,
                None,
            ),
            LineKind::Watch => row(b"watch", &[Name(Used(Sort::Object))], Stand::Top, None),
            LineKind::Graph => row(
                b"graph",
                &[Name(New(Sort::Graph))],
                Stand::Top,
                Some(Section::Graph),
            ),
            LineKind::Action => row(
                b"action",
                &[Name(New(Sort::Action))],
                Stand::Top,
                Some(Section::Action),
            ),
            LineKind::Play => row_with_more(
                b"play",
                &[Name(Used(Sort::Action)), Name(Used(Sort::Participant))],
                Stand::Top,
                None,
            ),
            LineKind::Exception => row(b"exception", &[Name(New(Sort::Own))], Stand::Graph, None),
            LineKind::Cover => row(
                b"cover",
                &[Name(Used(Sort::Own)), Name(Used(Sort::Own))],
                Stand::Graph,
                None,
            ),
            LineKind::End => row(b"end", &[], Stand::Block, Some(Section::Top)),
            LineKind::Internal => row(
                b"internal",
                &[Name(Used(Sort::Graph))],
                Stand::Action,
                Some(Section::Action),
            ),
            LineKind::Interface => row(
                b"interface",
                &[Name(Used(Sort::Graph))],
                Stand::Action,
                Some(Section::Action),
            ),
            LineKind::Fault => row(
                b"fault",
                &[Name(Used(Sort::Inner))],
                Stand::Action,
                Some(Section::Action),
            ),
            LineKind::Use => row_with_more(
                b"use",
                &[Name(Used(Sort::Object))],
                Stand::Action,
                Some(Section::Action),
            ),
            LineKind::Roles => row_with_more(
                b"roles",
                &[Name(New(Sort::Role))],
                Stand::Action,
                Some(Section::Action),
            ),
            LineKind::Nest => row_with_more(
                b"nest",
                &[
                    Name(New(Sort::Nest)),
                    Name(Used(Sort::Action)),
                    Name(Used(Sort::Role)),
                ],
                Stand::Action,
                Some(Section::Action),
            ),
            LineKind::Map => row(
                b"map",
                &[
                    Name(Used(Sort::Nest)),
                    Name(ToldOutside),
                    Name(Used(Sort::Inner)),
                ],
                Stand::Action,
                Some(Section::Action),
            ),
            LineKind::MapUndo => row(
                b"mapundo",
                &[Name(Used(Sort::Nest)), Name(Used(Sort::Inner))],
                Stand::Action,
                Some(Section::Action),
            ),
            LineKind::MapFailure => row(
                b"mapfailure",
                &[Name(Used(Sort::Nest)), Name(Used(Sort::Inner))],
                Stand::Action,
                Some(Section::Action),
            ),
            LineKind::Alternate => row(
                b"alternate",
                &[Name(Used(Sort::Nest)), Name(Used(Sort::Action))],
                Stand::Action,
                Some(Section::Action),
            ),
            LineKind::Abort => row(
                b"abort",
                &[Name(Used(Sort::Role)), Name(Used(Sort::Outer))],
                Stand::Action,
                Some(Section::Action),
            ),
            LineKind::AbortTest => row(
                b"abort",
                &[Name(Used(Sort::Role)), Test, Value, Name(Used(Sort::Outer))],
                Stand::Action,
                Some(Section::Action),
            ),
            LineKind::Body => row(
                b"body",
                &[Name(Used(Sort::Role))],
                Stand::Action,
                Some(Section::Body),
            ),
            LineKind::Handler => row(
                b"handler",
                &[Name(Used(Sort::Role)), Name(Used(Sort::Inner))],
                Stand::Action,
                Some(Section::Handler),
            ),
            LineKind::Read => row(b"read", &[Name(Used(Sort::Object))], Stand::Program, None),
            LineKind::Put => row(
                b"put",
                &[Name(Used(Sort::Object)), Value],
                Stand::Program,
                None,
            ),
            LineKind::Add => row(
                b"add",
                &[Name(Used(Sort::Object)), Value],
                Stand::Program,
                None,
            ),
            LineKind::Work => row(b"work", &[Rounds], Stand::Program, None),
            LineKind::Check => row(
                b"check",
                &[Test, Value, Name(Used(Sort::Inner))],
                Stand::Program,
                None,
            ),
            LineKind::Raise => row(b"raise", &[Name(Used(Sort::Inner))], Stand::Program, None),
            LineKind::Enter => row(b"enter", &[Name(Used(Sort::Nest))], Stand::Body, None),
            LineKind::Done => row(b"done", &[], Stand::Program, Some(Section::Action)),
            LineKind::Signal => row(
                b"signal",
                &[Name(Used(Sort::Outer))],
                Stand::Program,
                Some(Section::Action),
            ),
            LineKind::Undo => row(b"undo", &[], Stand::Program, Some(Section::Action)),
        }
    }

    /// The word that begins the line.
    pub fn word(self) -> &'static [u8]
        ensures { result.now ≡ word_of self }
    {
        self.row().word
    }

    /// What the words after the first are asked to be; where names may go on, these are the fewest.
    pub fn parts(self) -> &'static [Part]
        ensures { result.now ≡ parts_of self }
    {
        self.row().parts
    }

    /// Whether further names may follow these words.
    pub fn goes_on(self) -> bool
        ensures { result ≡ may_go_on self }
    {
        self.row().goes_on
    }

    /// Where the line may stand.
    pub fn stand(self) -> Stand
        ensures { result ≡ (row_of self).stand }
    {
        self.row().stand
    }

    /// Whether the line has so many words after the first.
    pub fn takes(self, count: usize) -> bool
        ensures { result ≡ takes self count }
    {
        let row = self.row();
        if row.goes_on {
            row.parts.len() <= count
        } else {
            row.parts.len() == count
        }
    }

    /// Whether the line may stand where the reader is.
    pub fn stands_in(self, section: Section) -> bool
        ensures { result ≡ stands_in self section }
    {
        self.row().stand.is_at(section)
    }

    /// Where the reader is after the line.
    pub fn goes_to(self, section: Section) -> Section
        ensures { result ≡ goes_to self section }
    {
        self.row().leads_to.unwrap_or(section)
    }
}
