ghost use Rattle.std.specs.Prelude.{◌≡◌, nat_lt, if◌then◌else◌, [], ◌∷◌, ◌++◌, length, IfOk, OnErr};
ghost use Rattle.logbook.specs.Pages.{may_write};
ghost use Rattle.shared_views.specs.Publications.{Begins};

use caa_base::written::entry::{Object, OutOfMemory};
use logbook::{Gain, Offer, Pen, Plain, Play, Rule, Seen, Start, Word};
use std::marker::Model;

/// The changes of one publication. A clause reads an array as a list, of any length.
pub type Changes = [(Object, i64); 0];

/// An entry of the list: a publication, and the key of the cell whose pen adds the next one. No value of it is made.
pub struct Entered {
    pub changes: Changes,
    pub next: u64,
}

/// The rule of a list of publications, to which one pen adds.
pub struct Chronicle;

impl Rule<Entered, u64> for Chronicle {
    ghost use Rattle.std.specs.Prelude.{[]};
    ghost use base.Fml.{ftrue};
    ghost use Rattle.shared_views.specs.inner.Chronicles.{IsKept};

    ghost holds = { λ cells log. IsKept cells log };

    ghost first = { [] };

    ghost hinted = { λ n log. Unit {0} };

    ghost shows = { λ log. [] };

    ghost keeps = { λ names log. ftrue };

    ghost moves = { λ ask before after answer. Unit {0} };
}

/// Nothing is traded.
pub struct Nothing;

impl Gain<Entered, u64> for Nothing {
    ghost use base.Fml.{ftrue};

    ghost after = { λ names about answer. ftrue };
}

/// Asks for no entry.
pub struct Silent;

impl Plain<(), Entered, u64> for Silent {
    ghost use Rattle.std.specs.Prelude.{[], None};

    ghost ask = { λ nothing. record { changes = []; next = 0 } };

    ghost state = { λ nothing. None };
}

/// A publication that is to be added, and the pen that adds the one after it.
pub struct Draft {
    changes: Vec<(Object, i64)>,
    next: Pen,
}

impl Plain<Draft, Entered, u64> for Draft {
    ghost use Rattle.std.specs.Prelude.{None};

    ghost ask = { λ d. record { changes = d.changes.items; next = d.next.nib.key } };

    ghost state = { λ d. None };
}

/// The step that opens a list.
pub struct Open;

impl Play<Entered, u64> for Open {
    ghost use Rattle.shared_views.specs.inner.Chronicles.{Opens};

    ghost then = { Opens };
}

/// The step that makes a pen.
pub struct Ready;

impl Play<Entered, u64> for Ready {
    ghost use Rattle.shared_views.specs.inner.Chronicles.{Readies};

    ghost then = { Readies };
}

/// The step that adds a publication.
pub struct Enter;

impl Play<Entered, u64> for Enter {
    ghost use Rattle.shared_views.specs.inner.Chronicles.{Enters};

    ghost then = { Enters };
}

/// The step that sees how many entries there are.
pub struct Count;

impl Play<Entered, u64> for Count {
    ghost use Rattle.shared_views.specs.inner.Chronicles.{Counts};

    ghost then = { Counts };
}

/// What a step offers that adds no entry of the caller's, or the draft's.
type Asked = Offer<Entered, u64, Chronicle, Nothing>;

/// The first so many publications of a committed writer, as its holder knows of them. Contracts see what they are.
#[derive(Drop)]
pub struct Publications {
    ends: u64,
    reached: Seen<Entered, u64, Chronicle>,
}

impl Model for Publications {
    ghost use Rattle.std.specs.Prelude.{◌≡◌, ◌+◌, length};
    ghost use Rattle.shared_views.specs.Publications.{Known};
    ghost use Rattle.shared_views.specs.inner.Chronicles.{listed};

    ghost Value = { Known };

    ghost view = { λ p. record { book = p.reached.book; list = listed p.reached.log } };

    ghost invariant = { λ p. length p.reached.log ≡ p.ends + 1 };
}

/// One publication, and all of them up to it.
#[derive(Drop)]
pub struct Publication {
    pub(crate) changes: Vec<(Object, i64)>,
    pub(crate) publications: Publications,
}

/// All publications of a list, and the right to add to it. Contracts see what they are.
#[derive(Drop)]
pub struct Head {
    ends: u64,
    reached: Seen<Entered, u64, Chronicle>,
    word: Word<Entered, u64, Chronicle>,
    pen: Pen,
}

impl Model for Head {
    ghost use Rattle.shared_views.specs.Publications.{Known};
    ghost use Rattle.shared_views.specs.inner.Chronicles.{listed};
    ghost use Rattle.shared_views.specs.inner.Entering.{IsAtEnd};

    ghost Value = { Known };

    ghost view = { λ h. record { book = h.reached.book; list = listed h.reached.log } };

    ghost invariant = { IsAtEnd };
}

impl Publications {
    /// How many they are.
    pub fn ends(&self) -> u64
        ensures { result ≡ length self.now.list }
    {
        self.ends
    }

    /// The same once more.
    pub(crate) fn again(&self) -> Publications
        ensures { result ≡ self.now }
    {
        Publications {
            ends: self.ends,
            reached: self.reached.again(),
        }
    }

    /// The more of two beginnings of one list.
    pub(crate) fn longer(&self, other: &Publications) -> Publications
        requires book { other.now.book ≡ self.now.book }
        ensures this { Begins self.now result }
        ensures that { Begins other.now result }
        ensures one { result ≡ (if nat_lt (length self.now.list) (length other.now.list) then other.now else self.now) }
    {
        let mut both = self.reached.again();
        both.learn(&other.reached);
        if self.ends < other.ends {
            other.again()
        } else {
            self.again()
        }
    }
}

impl Head {
    /// The right to add to a new list, in which there is nothing.
    ///
    /// Where the list is open already the answer is as where no memory is found. As nobody else has the list that doesn't come,
    /// but no contract of `logbook` says so.
    pub(crate) fn open() -> Result<Head, OutOfMemory>
        ensures { IfOk result (λ h. h.list ≡ []) }
    {
        let (mut reached, mut first, _second) = Seen::open(Start::alone(), 0, 0);
        let word = Word::tracked(0, &mut first);
        let mut asked: Asked = reached.plain::<Nothing, (), Silent>(&());
        let mut pen = reached.no_pen();
        let found = word.compare_exchange::<Open, Nothing>(
            0,
            1,
            &mut reached,
            &mut asked,
            &mut pen,
        );
        if found != 0 {
            return Err(OutOfMemory);
        }
        let _cell: Word<Entered, u64, Chronicle> = Word::tracked(0, &mut pen);
        Ok(Head {
            ends: 0,
            reached,
            word,
            pen,
        })
    }

    /// All publications of the list.
    pub(crate) fn reached(&self) -> Publications
        ensures { result ≡ self.now }
    {
        Publications {
            ends: self.ends,
            reached: self.reached.again(),
        }
    }

    /// A pen for a new cell.
    fn another_pen(&self) -> Pen
        ensures { (result.book ≡ self.now.book) × (result.nib.right ≡ may_write) }
    {
        let mut seen = self.reached.again();
        let mut asked: Asked = seen.plain::<Nothing, (), Silent>(&());
        let mut pen = seen.no_pen();
        self.word
            .compare_exchange::<Ready, Nothing>(0, 0, &mut seen, &mut asked, &mut pen);
        let _cell: Word<Entered, u64, Chronicle> = Word::tracked(0, &mut pen);
        pen
    }

    /// Adds a publication of these changes to the list. After 2^64 - 1 publications no further one can be counted, and the answer
    /// is as where no memory is found.
    pub(crate) fn enter(&mut self, changes: Vec<(Object, i64)>) -> Result<Publication, OutOfMemory>
        ensures book { self.new.book ≡ self.old.book }
        ensures changes { IfOk result (λ p. p.changes.items ≡ changes.items) }
        ensures all { IfOk result (λ p. p.publications ≡ self.new) }
        ensures more { IfOk result (λ p. self.new.list ≡ self.old.list ++ changes.items ∷ []) }
        ensures refused { OnErr result (self.new ≡ self.old) }
    {
        if self.ends == u64::MAX {
            return Err(OutOfMemory);
        }
        let draft = Draft {
            changes,
            next: self.another_pen(),
        };
        let mut asked: Asked = self.reached.plain::<Nothing, Draft, Draft>(&draft);
        self.word
            .compare_exchange::<Enter, Nothing>(0, 0, &mut self.reached, &mut asked, &mut self.pen);
        let Draft { changes, next } = draft;
        self.pen = next;
        self.ends += 1;
        Ok(Publication {
            changes,
            publications: self.reached(),
        })
    }

    /// A law: whatever is known of the list begins what was added to it. Nothing changes.
    pub(crate) fn knows_no_more(&mut self, known: &Publications)
        requires book { known.now.book ≡ self.old.book }
        ensures same { self.new ≡ self.old }
        ensures begins { Begins known.now self.old }
    {
        let mut both = self.reached.again();
        both.learn(&known.reached);
        let mut asked: Asked = both.plain::<Nothing, (), Silent>(&());
        let ends = self.ends;
        self.word
            .compare_exchange::<Count, Nothing>(ends, ends, &mut both, &mut asked, &mut self.pen);
    }
}
