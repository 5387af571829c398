ghost use Rattle.std.specs.Prelude.{◌≡◌, ◌<◌, ℕ, true, length};
ghost use Rattle.cover_table.specs.Cover.{has_bit};
ghost use Rattle.place_plan.specs.RulesOfJournals.Machine.{Answers};
ghost use Rattle.shared_views.specs.Telling.{cells_of};
ghost use Rattle.action_manager.specs.Stepping.{did_work};
ghost use Rattle.action_manager.specs.Waking.{did_end, SleepsOn};
ghost use Rattle.action_manager.specs.inner.Asking.{AnswersAs};

use crate::home::Home;
use crate::publishing::Publishing;
use crate::sleepers::unwoken;
use caa_base::written::entry::{Kind, Participant};
use caa_base::written::work::WorkDone;
use core_words::crew::{Crew, with};
use journal_laws::is_well_formed;
use place_plan::rules::machine::{Answer, Machine};
use place_plan::rules::one_entry::ends_play;
use shared_views::{Announcement, Bulletin, CommittedWriter, ResolutionCells};
use std::sync::Wait;

/// What lies in the slot: a machine, and what keeps up with its journal.
pub struct Housed<M> {
    pub machine: M,
    pub bulletin: Bulletin,
    pub publishing: Publishing,
}

impl<M> Housed<M> {
    /// The machine, and the writer of its committed values.
    pub fn into_parts(self) -> (M, CommittedWriter)
        ensures { result ≡ (self.machine, self.publishing.writer) }
    {
        let Housed {
            machine,
            bulletin: _,
            publishing,
        } = self;
        (machine, publishing.into_writer())
    }
}

impl<M: Machine> Home for Housed<M> {
    ghost use Rattle.action_manager.specs.Publishing.{book_of};
    ghost use Rattle.action_manager.specs.Stepping.{terms_of};
    ghost use Rattle.action_manager.specs.inner.Housed.{IsRight};

    ghost journal = { λ h. M.journal_of h.machine };

    ghost terms = { λ plan h. terms_of plan (M.base_of h.machine) (cells_of h.bulletin) (book_of h.publishing) };

    ghost right = { IsRight M.plan_of M.base_of M.journal_of };
}

impl<M: Machine> Housed<M> {
    ghost use Rattle.action_manager.specs.Publishing.{book_of};
    ghost use Rattle.action_manager.specs.inner.Housed.{IsKept};
    ghost use Rattle.action_manager.specs.Tidings.{TellsAfter};

    /// Makes the entry of a participant, and takes it in: it announces a Resolve, and publishes where a play ends.
    pub fn next<R: Wait>(
        &mut self,
        rt: &R,
        cells: &ResolutionCells,
        by: Participant,
        hint: Option<WorkDone>,
    ) -> (Answer, Announcement)
        requires who { by < length (M.plan_of self.old.machine).participants }
        requires ours { cells_of self.old.bulletin ≡ cells.now }
        requires kept { IsKept M.plan_of M.journal_of self.old }
        ensures plan { M.plan_of self.new.machine ≡ M.plan_of self.old.machine }
        ensures base { M.base_of self.new.machine ≡ M.base_of self.old.machine }
        ensures cells { cells_of self.new.bulletin ≡ cells_of self.old.bulletin }
        ensures book { book_of self.new.publishing ≡ book_of self.old.publishing }
        ensures kept { IsKept M.plan_of M.journal_of self.new }
        ensures answer { Answers (M.plan_of self.old.machine) (M.journal_of self.old.machine) (M.journal_of self.new.machine)
            by hint result.0 }
        ensures told { TellsAfter cells.now result.0 result.1 }
    {
        let answer = self.machine.next(by, hint);
        let told = match answer {
            Answer::Did(entry) => {
                self.publishing.take_in(rt, &self.machine, entry);
                is_well_formed(self.machine.plan());
                self.bulletin.take_in(cells, entry)
            }
            _ => Announcement::Nothing,
        };
        (answer, told)
    }

    /// One turn of a participant: its next entry. Where that is the work that it brings, a turn that asks on makes the one after it too.
    pub fn turn<R: Wait>(
        &mut self,
        rt: &R,
        cells: &ResolutionCells,
        by: Participant,
        hint: Option<WorkDone>,
        asks_on: bool,
    ) -> (Answer, Announcement)
        requires who { by < length (M.plan_of self.old.machine).participants }
        requires ours { cells_of self.old.bulletin ≡ cells.now }
        requires kept { IsKept M.plan_of M.journal_of self.old }
        ensures plan { M.plan_of self.new.machine ≡ M.plan_of self.old.machine }
        ensures base { M.base_of self.new.machine ≡ M.base_of self.old.machine }
        ensures cells { cells_of self.new.bulletin ≡ cells_of self.old.bulletin }
        ensures book { book_of self.new.publishing ≡ book_of self.old.publishing }
        ensures kept { IsKept M.plan_of M.journal_of self.new }
        ensures answer { AnswersAs asks_on (M.plan_of self.old.machine) (M.journal_of self.old.machine)
            (M.journal_of self.new.machine) by hint result.0 }
        ensures told { TellsAfter cells.now result.0 result.1 }
    {
        let (first, told) = self.next(rt, cells, by, hint);
        if asks_on && is_work(first) {
            self.next(rt, cells, by, None)
        } else {
            (first, told)
        }
    }
}

impl<M: Machine> Housed<M> {
    /// Whether an answer is the entry that ended a play.
    pub fn ended_play(&self, answer: Answer) -> bool
        ensures { result ≡ did_end (M.plan_of self.now.machine) answer }
    {
        match answer {
            Answer::Did(entry) => ends_play(self.machine.plan(), &entry),
            _ => false,
        }
    }

    /// Who of a crew sleeps on after an answer to a participant: all whom its entry doesn't wake, and it, where it has none now.
    pub fn asleep_after(&self, by: Participant, answer: Answer, asleep: Crew) -> Crew
        requires { by < length (M.plan_of self.now.machine).participants }
        ensures { (t : ℕ) → has_bit result t ≡ true
            → SleepsOn (M.plan_of self.now.machine) (M.journal_of self.now.machine) by answer asleep t }
    {
        self.machine.plan().is_closed();
        match answer {
            Answer::Did(entry) => unwoken(&self.machine, &entry, asleep),
            Answer::NotYet => with(asleep, by),
            Answer::Work { .. } | Answer::Over => asleep,
        }
    }
}

/// Whether an answer is the entry of a work.
fn is_work(answer: Answer) -> bool
    ensures { result ≡ did_work answer }
{
    match answer {
        Answer::Did(entry) => match entry.kind {
            Kind::Work => true,
            _ => false,
        },
        _ => false,
    }
}
