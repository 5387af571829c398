ghost use Rattle.std.specs.Prelude.{ℕ, ◌≡◌, ◌+◌, ◌<◌, [], ◌∷◌, length, map, replicate, reverse, All, false, IsTrue, ◌↔◌, IfOk, IfErr, OnOk, IfSome, IfNone, vec_capacity};
ghost use mathlib.Core.List.{IsPrefix};
ghost use Rattle.std.specs.List.{range_with_len};
ghost use Rattle.place_plan.specs.RulesOfJournals.Journals.{plays_ended, IsLegal};
ghost use Rattle.shared_views.specs.Telling.{cells_of, IsFresh};
ghost use Rattle.shared_views.specs.Committing.{placeless};
ghost use Rattle.action_manager.specs.OwnEntries.{entries_by};
ghost use Rattle.action_manager.specs.inner.Turns.{maker, held, Has, Stands};
ghost use Rattle.action_manager.specs.Stepping.{IsAtRest, Steps, StepsOn, Looks};
ghost use Rattle.action_manager.specs.Locks.{home_at, plan_at};
ghost use Rattle.action_manager.specs.Openings.{IsUnresolved};
ghost use Rattle.action_manager.specs.Publishing.{Publishes, publications_of, book_of, new_observer};
ghost use Rattle.action_manager.specs.inner.Asking.{StepsAs};
ghost use Rattle.action_manager.specs.inner.Housed.{IsKept, IsRight};
ghost use Rattle.action_manager.specs.Tidings.{TellsAfter};
ghost use Rattle.action_manager.specs.Seats.{IsNewSeat, participant_of, seen_by, told_to, stand, has_seat, HaveAll, IsLeastMissing, Accounts};

use crate::door::{Door, Sleeper};
use crate::housed::Housed;
use crate::lock::Lock;
use crate::news::News;
use crate::publishing::Publishing;
use crate::seat::Seat;
use crate::turns::Token;
use caa_base::written::entry::{OutOfMemory, Participant};
use caa_base::written::work::WorkDone;
use place_plan::plans::plan::Plan;
use place_plan::rules::machine::{Answer, Machine};
use shared_views::{Announcement, Bulletin, CommittedWriter, Observer, ResolutionCells};
use std::alloc::{AllocError, Global};
use std::snapshot::Snapshot;
use std::sync::Wait;

/// Keeps a machine, whose participants take turns at it from threads of their own.
pub struct Manager<M: Machine> {
    lock: Lock<Housed<M>>,
    participants: u32,
    cells: ResolutionCells,
    door: Door,
    ghost counted: { participants ≡ length (plan_at lock).participants },
    ghost named: { cells ≡ cells_of (home_at lock).bulletin },
}

/// A manager with its seats, one for each participant, in order, and with the observers of its committed values.
pub struct Opened<M: Machine> {
    pub manager: Manager<M>,
    pub seats: Vec<Seat<M>>,
    pub observers: Vec<Observer>,
}

/// No memory was found. The machine comes back unchanged.
pub struct ManagerError<M> {
    pub machine: M,
}

/// What a manager that was closed gives back.
pub struct Closed<M> {
    pub machine: M,
    /// The writer whose publications the manager's observers read.
    pub writer: CommittedWriter,
    /// A publication found no memory. From then on nothing was published.
    pub stale: bool,
}

impl<M> Closed<M> {
    /// What comes out of the slot.
    fn of(home: Housed<M>) -> Closed<M>
        ensures machine { result.machine ≡ home.machine }
        ensures writer { result.writer ≡ home.publishing.writer }
        ensures stale { result.stale ≡ home.publishing.writer.is_stale }
    {
        let (machine, writer) = home.into_parts();
        let stale = writer.is_stale();
        Closed {
            machine,
            writer,
            stale,
        }
    }
}

/// A participant's seat isn't among those handed in: the least such participant, and all as it was.
pub struct StillOut<M: Machine> {
    pub manager: Manager<M>,
    pub seats: Vec<Seat<M>>,
    pub missing: Participant,
}

/// Whether some seat in the list is this participant's.
fn has_seat<M>(seats: &[Seat<M>], by: Participant) -> bool
    ensures { result ≡ has_seat by seats.now }
{
    seats.iter().any(|seat| seat.participant == by)
}

/// How many entries of a participant the journal of a machine has.
fn own_entries<M: Machine>(machine: &M, by: Participant) -> u64
    ensures { result ≡ length (entries_by by (M.journal_of machine.now)) }
{
    let mut made = 0;
    for index in 0..machine.journal_len() {
        if machine.entry(index).by == by {
            made += 1;
        }
    }
    made
}

/// The same for each participant, in order.
fn own_counts<M: Machine>(
    alloc: Global,
    machine: &M,
    participants: u32,
) -> Result<Vec<u64>, AllocError>
    ensures { IfOk result (λ counts.
        counts.items ≡ map (λ t. length (entries_by t (M.journal_of machine.now))) (range_with_len 0 participants)) }
{
    let mut counts = Vec::new(alloc);
    for by in 0..participants {
        counts.push(own_entries(machine, by))?;
    }
    Ok(counts)
}

/// Empty cells for the places of a plan, and a bulletin by which nothing was told.
fn fresh_cells(alloc: Global, plan: &Plan) -> Result<(ResolutionCells, Bulletin), OutOfMemory>
    ensures cells { IfOk result (λ r. (r.0 ≡ cells_of r.1) × (length r.0 ≡ length plan.now.places)) }
    ensures fresh { IfOk result (λ r. IsFresh r.1) }
{
    let (cells, announcer) = ResolutionCells::open(alloc, plan.places())?;
    let bulletin = Bulletin::open(alloc, &cells, announcer)?;
    Ok((cells, bulletin))
}

impl<M: Machine> Manager<M> {
    ghost use Rattle.action_manager.specs.Managers.{table_of, plan_in, handed_in, cells_in, book_in, terms_in, IsSeatIn};

    /// A lock round a machine and what keeps up with it, with the maker's seat.
    fn set_up<R: Wait>(
        rt: &R,
        alloc: Global,
        home: Housed<M>,
        cells: ResolutionCells,
        door: Door,
    ) -> Result<(Manager<M>, Token<Housed<M>>), ManagerError<M>>
        requires cells { cells ≡ cells_of home.bulletin }
        requires kept { IsKept M.plan_of M.journal_of home }
        ensures machine { IfOk result (λ r. handed_in r.0 ≡ home.machine) }
        ensures book { IfOk result (λ r. book_in r.0 ≡ book_of home.publishing) }
        ensures plan { IfOk result (λ r. plan_in r.0 ≡ M.plan_of home.machine) }
        ensures making { IfOk result (λ r.
            (r.1.table_id ≡ table_of r.0) × (r.1.me ≡ (maker (terms_in M.base_of r.0) 0 (M.journal_of home.machine), []))) }
        ensures refused { IfErr result (λ e. e.machine ≡ home.machine) }
    {
        let participants = home.machine.plan().participants();
        let plan = Snapshot::of(home.machine.plan());
        match Lock::open(alloc, home, plan) {
            Ok((lock, making)) => Ok((
                Manager {
                    lock,
                    participants,
                    cells,
                    door,
                },
                making,
            )),
            Err(home) => {
                let (machine, writer) = home.into_parts();
                writer.end(rt);
                Err(ManagerError { machine })
            }
        }
    }

    /// A seat for the next participant.
    fn make_seat(
        &self,
        making: &mut Token<Housed<M>>,
        participant: Participant,
        seen: u64,
        made: u64,
    ) -> Seat<M>
        requires table { making.old.table_id ≡ table_of self.now }
        requires making { making.old.me
            ≡ (maker (terms_in M.base_of self.now) making.old.me.0.next (M.journal_of (handed_in self.now)), []) }
        requires who { participant ≡ making.old.me.0.next }
        requires room { making.old.me.0.next < length (plan_in self.now).participants }
        requires seen { seen ≡ length (M.journal_of (handed_in self.now)) }
        requires made { made ≡ length (entries_by making.old.me.0.next (M.journal_of (handed_in self.now))) }
        ensures table { making.new.table_id ≡ making.old.table_id }
        ensures making { making.new.me
            ≡ (maker (terms_in M.base_of self.now) (making.old.me.0.next + 1) (M.journal_of (handed_in self.now)), []) }
        ensures who { participant_of result ≡ making.old.me.0.next }
        ensures new { IsNewSeat (table_of self.now) (terms_in M.base_of self.now) (M.journal_of (handed_in self.now)) result }
    {
        let token = self.lock.make_seat(making);
        Seat {
            token,
            participant,
            seen,
            made,
            told: Announcement::Nothing,
        }
    }

    /// The seats of all participants, in order, where there is room for them.
    fn make_seats(
        &self,
        mut making: Token<Housed<M>>,
        mut seats: Vec<Seat<M>>,
        counts: Vec<u64>,
        seen: u64,
    ) -> Vec<Seat<M>>
        requires table { making.table_id ≡ table_of self.now }
        requires making { making.me ≡ (maker (terms_in M.base_of self.now) 0 (M.journal_of (handed_in self.now)), []) }
        requires room { (seats.items ≡ []) × (vec_capacity seats ≡ self.now.participants) }
        requires counts { counts.items
            ≡ map (λ t. length (entries_by t (M.journal_of (handed_in self.now)))) (range_with_len 0 self.now.participants) }
        requires seen { seen ≡ length (M.journal_of (handed_in self.now)) }
        ensures order { map participant_of result.items ≡ range_with_len 0 self.now.participants }
        ensures new { All (λ s. IsNewSeat (table_of self.now) (terms_in M.base_of self.now) (M.journal_of (handed_in self.now)) s)
            result.items }
    {
        for by in 0..self.participants {
            seats.push_reserved(self.make_seat(&mut making, by, seen, counts[by as usize]));
        }
        let _maker = making.into_badge();
        seats
    }

    /// A manager round a machine, a seat for each participant, in order, and so many observers.
    ///
    /// What each seat has seen is the machine's journal, in which nothing is resolved yet and no play has ended. At `Err` no
    /// memory was found, and the machine comes back as it was. It may wait.
    pub fn open<R: Wait>(
        rt: &R,
        alloc: Global,
        machine: M,
        observers: u32,
    ) -> Result<Opened<M>, ManagerError<M>>
        requires unresolved { IsUnresolved (reverse (M.journal_of machine)) }
        requires none_ended { plays_ended (M.plan_of machine) (reverse (M.journal_of machine)) ≡ [] }
        ensures machine { IfOk result (λ o. handed_in o.manager ≡ machine) }
        ensures plan { IfOk result (λ o. plan_in o.manager ≡ M.plan_of machine) }
        ensures order { IfOk result (λ o.
            map participant_of o.seats.items ≡ range_with_len 0 (length (M.plan_of machine).participants)) }
        ensures new { IfOk result (λ o.
            All (λ s. IsNewSeat (table_of o.manager) (terms_in M.base_of o.manager) (M.journal_of machine) s) o.seats.items) }
        ensures observers { IfOk result (λ o.
            map placeless o.observers.items ≡ replicate observers (new_observer (M.plan_of machine) (book_in o.manager))) }
        ensures refused { IfErr result (λ e. e.machine ≡ machine) }
    {
        let participants = machine.plan().participants();
        let seen = machine.journal_len();
        let Ok(counts) = own_counts(alloc, &machine, participants) else {
            return Err(ManagerError { machine });
        };
        let Ok(room) = Vec::with_capacity(alloc, participants as usize) else {
            return Err(ManagerError { machine });
        };
        let Ok((cells, bulletin)) = fresh_cells(alloc, machine.plan()) else {
            return Err(ManagerError { machine });
        };
        let Ok(door) = Door::new(alloc, participants) else {
            return Err(ManagerError { machine });
        };
        let Ok((publishing, observers)) = Publishing::open(rt, alloc, machine.plan(), observers)
        else {
            return Err(ManagerError { machine });
        };
        let home = Housed {
            machine,
            bulletin,
            publishing,
        };
        match Manager::set_up(rt, alloc, home, cells, door) {
            Ok((manager, making)) => {
                let seats = manager.make_seats(making, room, counts, seen);
                Ok(Opened {
                    manager,
                    seats,
                    observers,
                })
            }
            Err(error) => Err(error),
        }
    }

    /// The cells of resolved exceptions, which any thread may ask.
    pub fn cells(&self) -> &ResolutionCells
        ensures { result.now ≡ cells_in self.now }
    {
        &self.cells
    }

    /// Where readers of committed values sleep until a play more has ended.
    pub fn news(&self) -> &News {
        self.door.news()
    }

    /// One step of the seat's participant: its next entry, or the machine's answer that it has none now.
    ///
    /// At `Did` the seat has seen one entry of its participant more, the last that it has seen. At every other answer it has seen
    /// none more, and that is the machine's answer on what it has seen then. Where a work is brought, what comes after the work is
    /// the answer to the next step: `step_on` is for whoever wants that at once.
    ///
    /// After a Resolve or a Handle the seat has the note of that place, to be taken. Where the turn ended a play, it also published
    /// its values, by the allocator that `open` was given. The entry stands whether or not memory was found for what is told of it.
    /// It may wait, and need not return.
    pub fn step<R: Wait>(&self, rt: &R, seat: &mut Seat<M>, hint: Option<WorkDone>) -> Answer
        requires opened { IsSeatIn M.base_of self.now seat.old }
        ensures opened { IsSeatIn M.base_of self.now seat.new }
        ensures same { participant_of seat.new ≡ participant_of seat.old }
        ensures turn { Steps (plan_in self.now) (seen_by seat.old) (seen_by seat.new) (participant_of seat.old) hint result }
        ensures legal { IsLegal (plan_in self.now) (seen_by seat.new) }
        ensures told { TellsAfter (cells_in self.now) result (told_to seat.new) }
    {
        self.turn(rt, seat, hint, false)
    }

    /// A step that asks on: where it enters the work that it brings, it goes on in the same turn, and its answer is the one after
    /// the work. All else is as at `step`.
    ///
    /// It is for whoever drives a seat: a work that was mixed costs one turn, not two. Then the answer doesn't say that the work was
    /// entered; the journal that the seat has seen does. Whoever is to be answered for each entry calls `step`.
    pub fn step_on<R: Wait>(&self, rt: &R, seat: &mut Seat<M>, hint: Option<WorkDone>) -> Answer
        requires opened { IsSeatIn M.base_of self.now seat.old }
        ensures opened { IsSeatIn M.base_of self.now seat.new }
        ensures same { participant_of seat.new ≡ participant_of seat.old }
        ensures turn { StepsOn (plan_in self.now) (seen_by seat.old) (seen_by seat.new) (participant_of seat.old) hint result }
        ensures told { TellsAfter (cells_in self.now) result (told_to seat.new) }
    {
        self.turn(rt, seat, hint, true)
    }

    /// One turn of the seat's participant, which asks on where the work that it brings is entered, or doesn't.
    fn turn<R: Wait>(
        &self,
        rt: &R,
        seat: &mut Seat<M>,
        hint: Option<WorkDone>,
        asks_on: bool,
    ) -> Answer
        requires opened { IsSeatIn M.base_of self.now seat.old }
        ensures opened { IsSeatIn M.base_of self.now seat.new }
        ensures same { participant_of seat.new ≡ participant_of seat.old }
        ensures turn { StepsAs asks_on (plan_in self.now) (seen_by seat.old) (seen_by seat.new) (participant_of seat.old) hint result }
        ensures legal { IsLegal (plan_in self.now) (seen_by seat.new) }
        ensures told { TellsAfter (cells_in self.now) result (told_to seat.new) }
    {
        let mut waiting = self.door.enter(rt);
        let (ticket, mut home) = self.lock.begin(rt, &mut seat.token);
        let was = home.machine.journal_len();
        let (answer, told) = home.turn(rt, &self.cells, seat.participant, hint, asks_on);
        let seen = home.machine.journal_len();
        let ended = home.ended_play(answer);
        let asleep = home.asleep_after(seat.participant, answer, waiting.asleep());
        self.lock.hand_on(&mut seat.token, ticket, home);
        seat.made += seen - was;
        seat.seen = seen;
        seat.told = told;
        self.door.tell(&mut waiting, seen, asleep);
        if ended {
            self.news().tell(rt);
        }
        answer
    }

    /// Brings what the seat has seen up to date, in a turn without an entry, and says whether there was more to see. Whoever calls it
    /// stands in the door.
    fn look<R: Wait>(&self, rt: &R, seat: &mut Seat<M>) -> bool
        requires opened { IsSeatIn M.base_of self.now seat.old }
        ensures opened { IsSeatIn M.base_of self.now seat.new }
        ensures same { (participant_of seat.new ≡ participant_of seat.old) × (told_to seat.new ≡ told_to seat.old) }
        ensures turn { Looks (plan_in self.now) (seen_by seat.old) (seen_by seat.new) (participant_of seat.old) }
        ensures longer { IsTrue result ↔ (length (seen_by seat.old) < length (seen_by seat.new)) }
    {
        let was = seat.seen;
        let (ticket, home) = self.lock.begin(rt, &mut seat.token);
        let seen = home.machine.journal_len();
        self.lock.hand_on(&mut seat.token, ticket, home);
        seat.seen = seen;
        was < seen
    }

    /// A law, for whoever has a seat and an observer of this manager: what the observer knows begins what the plays publish that
    /// have ended in the journal that the seat then has seen. It takes a turn without an entry, and need not return.
    pub fn knows_no_more<R: Wait>(&self, rt: &R, seat: &mut Seat<M>, observer: &Observer)
        requires opened { IsSeatIn M.base_of self.now seat.old }
        requires ours { observer.now.known.book ≡ book_in self.now }
        ensures opened { IsSeatIn M.base_of self.now seat.new }
        ensures same { (participant_of seat.new ≡ participant_of seat.old) × (told_to seat.new ≡ told_to seat.old) }
        ensures turn { Looks (plan_in self.now) (seen_by seat.old) (seen_by seat.new) (participant_of seat.old) }
        ensures begins { IsPrefix observer.now.known.list (publications_of (plan_in self.now) (reverse (seen_by seat.new))) }
    {
        let _waiting = self.door.enter(rt);
        let (ticket, mut home) = self.lock.begin(rt, &mut seat.token);
        let seen = home.machine.journal_len();
        home.publishing.knows_no_more(observer);
        self.lock.hand_on(&mut seat.token, ticket, home);
        seat.seen = seen;
    }

    /// Sleeps until somebody was woken, and looks, until there is more to see.
    fn sleep<R: Wait>(&self, rt: &R, seat: &mut Seat<M>, sleeper: Sleeper)
        requires opened { IsSeatIn M.base_of self.now seat.old }
        ensures opened { IsSeatIn M.base_of self.now seat.new }
        ensures same { (participant_of seat.new ≡ participant_of seat.old) × (told_to seat.new ≡ told_to seat.old) }
        ensures turn { Looks (plan_in self.now) (seen_by seat.old) (seen_by seat.new) (participant_of seat.old) }
        ensures longer { length (seen_by seat.old) < length (seen_by seat.new) }
    {
        for _ in rt.forever() {
            let _waiting = self.door.enter_woken(rt, sleeper, seat.seen);
            if self.look(rt, seat) {
                return;
            }
        }
        unreachable!()
    }

    /// Waits until the journal is longer than what the seat has seen, by entries of others alone. Then the seat has seen it.
    ///
    /// It sleeps until one of those entries may give the seat's participant an entry. It need not return.
    pub fn wait_past<R: Wait>(&self, rt: &R, seat: &mut Seat<M>)
        requires opened { IsSeatIn M.base_of self.now seat.old }
        ensures opened { IsSeatIn M.base_of self.now seat.new }
        ensures same { (participant_of seat.new ≡ participant_of seat.old) × (told_to seat.new ≡ told_to seat.old) }
        ensures turn { Looks (plan_in self.now) (seen_by seat.old) (seen_by seat.new) (participant_of seat.old) }
        ensures longer { length (seen_by seat.old) < length (seen_by seat.new) }
    {
        self.sleep(rt, seat, Sleeper::Participant(seat.participant));
    }

    /// The same for whoever takes turns for several seats: it sleeps until an entry may give an entry to anybody who had none.
    pub fn wait_past_any<R: Wait>(&self, rt: &R, seat: &mut Seat<M>)
        requires opened { IsSeatIn M.base_of self.now seat.old }
        ensures opened { IsSeatIn M.base_of self.now seat.new }
        ensures same { (participant_of seat.new ≡ participant_of seat.old) × (told_to seat.new ≡ told_to seat.old) }
        ensures turn { Looks (plan_in self.now) (seen_by seat.old) (seen_by seat.new) (participant_of seat.old) }
        ensures longer { length (seen_by seat.old) < length (seen_by seat.new) }
    {
        self.sleep(rt, seat, Sleeper::Worker);
    }

    /// The least participant that has no seat in the list.
    fn missing(&self, seats: &[Seat<M>]) -> Option<Participant>
        ensures some { IfSome result (λ m. IsLeastMissing self.now.participants seats.now m) }
        ensures none { IfNone result (HaveAll self.now.participants seats.now) }
    {
        for by in 0..self.participants {
            if !has_seat(seats, by) {
                return Some(by);
            }
        }
        None
    }

    /// One seat takes in all others.
    fn gather(&self, first: Token<Housed<M>>, mut others: Vec<Seat<M>>) -> Token<Housed<M>>
        requires first { (first.table_id ≡ table_of self.now) × IsAtRest (terms_in M.base_of self.now) first.me }
        requires others { All (λ s. IsSeatIn M.base_of self.now s) others.items }
        ensures kept { (result.table_id ≡ table_of self.now) × (result.me.0.has_book ≡ false) }
        ensures all { held result.me.0 ≡ (first.me.0.who, first.me.0.seen) ∷ reverse (map stand others.items) }
    {
        let mut kept = first;
        while let Some(seat) = others.pop() {
            self.lock.take_in(&mut kept, seat.into_token());
        }
        kept
    }

    /// Gives the machine and the writer back, where every participant's seat is in the list.
    ///
    /// What each seat has seen begins the machine's journal, which has no further entry of that participant. The writer is of the
    /// list that the manager's observers read. It has published for the plays of that journal one after another as they ended,
    /// and has left out none unless it is stale. At `Err` a seat is missing, and manager and seats come back as they were.
    pub fn close(self, mut seats: Vec<Seat<M>>) -> Result<Closed<M>, StillOut<M>>
        requires opened { All (λ s. IsSeatIn M.base_of self s) seats.items }
        ensures all { OnOk result (HaveAll (length (plan_in self).participants) seats.items) }
        ensures plan { IfOk result (λ c. M.plan_of c.machine ≡ plan_in self) }
        ensures base { IfOk result (λ c. M.base_of c.machine ≡ M.base_of (handed_in self)) }
        ensures begins { IfOk result (λ c. IsPrefix (M.journal_of (handed_in self)) (M.journal_of c.machine)) }
        ensures accounts { IfOk result (λ c. All (λ s. Accounts (M.journal_of c.machine) s) seats.items) }
        ensures book { IfOk result (λ c. c.writer.publications.book ≡ book_in self) }
        ensures published { IfOk result (λ c. Publishes (plan_in self) (reverse (M.journal_of c.machine)) c.writer) }
        ensures stale { IfOk result (λ c. c.stale ≡ c.writer.is_stale) }
        ensures missing { IfErr result (λ e. IsLeastMissing (length (plan_in self).participants) seats.items e.missing) }
        ensures same { IfErr result (λ e. (e.manager ≡ self) × (e.seats.items ≡ seats.items)) }
    {
        if let Some(missing) = self.missing(seats.as_slice()) {
            return Err(StillOut {
                manager: self,
                seats,
                missing,
            });
        }
        match seats.pop() {
            Some(last) => {
                let kept = self.gather(last.into_token(), seats);
                Ok(Closed::of(self.shut_with(kept)))
            }
            None => Ok(Closed::of(self.shut_empty())),
        }
    }

    /// What lies in the slot, where the seat stands for all participants.
    fn shut_with(self, kept: Token<Housed<M>>) -> Housed<M>
        requires kept { (kept.table_id ≡ table_of self) × (kept.me.0.has_book ≡ false) }
        requires all { (t : ℕ) → t < self.participants → Has t (held kept.me.0) }
        ensures right { IsRight M.plan_of M.base_of M.journal_of (terms_in M.base_of self) result }
        ensures begins { IsPrefix (M.journal_of (handed_in self)) (M.journal_of result.machine) }
        ensures stands { Stands (M.journal_of result.machine) (held kept.me.0) }
    {
        let Manager {
            lock,
            participants: _,
            cells: _,
            door: _,
        } = self;
        lock.close_with(kept)
    }

    /// The same, where there is no participant.
    fn shut_empty(self) -> Housed<M>
        requires none { self.participants ≡ 0 }
        ensures right { IsRight M.plan_of M.base_of M.journal_of (terms_in M.base_of self) result }
        ensures begins { IsPrefix (M.journal_of (handed_in self)) (M.journal_of result.machine) }
    {
        let Manager {
            lock,
            participants: _,
            cells: _,
            door: _,
        } = self;
        lock.close()
    }
}
