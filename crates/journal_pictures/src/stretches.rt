//! What each participant does over a stretch of a journal, by the rules.

ghost use Rattle.std.specs.Prelude.{◌≡◌, ◌<◌, ◌+◌, ◌^◌, ◌==◌, ◌&&◌, ◌↔◌, ◌++◌, ℕ, IfOk, IsTrue, length, true, false};
ghost use Rattle.std.specs.List.{All, count_by};
ghost use Rattle.journal_states.specs.Past.{plan_in, journal_in, taken_in, past_in};
ghost use Rattle.journal_pictures.specs.Stretches.{is_wait, is_away, HasToWait, IsRightAt, IsRight, has_moment};
ghost use Rattle.journal_pictures.specs.inner.Lanes.{LiesIn, GoesTo, AreOpen, AreOne, Reached, one_if};

use caa_base::written::entry::{Entry, Kind, OutOfMemory, Participant};
use caa_base::written::line::push_word;
use journal_replay::moves::{Move, Wait};
use journal_states::spots::Phase;
use journal_states::states::States;
use journal_states::words::{lack_words, push_some_awaited};
use place_plan::plans::plan::Plan;
use std::alloc::Global;

/// What a participant does.
#[derive(Clone, Copy)]
pub enum Doing {
    /// It is in no place.
    Away,
    /// It may go on, and not with a step of its own.
    Turn,
    /// It may make the next step of its body.
    Body,
    /// It may make the next step of its handler.
    Handler,
    /// It may make no entry.
    Wait(Wait),
}

/// What a participant does at the moments from one up to another. A moment is behind so many entries.
#[derive(Clone, Copy, Drop)]
pub struct Stretch {
    pub lane: Participant,
    pub doing: Doing,
    pub from: u64,
    /// The first moment after it.
    pub to: u64,
}

/// Words that stand beside a lane from a moment on.
#[derive(Drop)]
pub struct Note {
    pub lane: Participant,
    pub moment: u64,
    pub words: Vec<u8>,
}

/// What a participant does in a place whose next entry is of this kind.
fn doing_before(states: &States, by: Participant, kind: Kind) -> Doing
    ensures goes { is_wait result ≡ false }
    ensures here { is_away result ≡ false }
{
    let Some(spot) = states.spot(by) else {
        return Doing::Turn;
    };
    let is_step = match kind {
        Kind::Read | Kind::Work | Kind::Write | Kind::Check | Kind::Raise | Kind::Arrive => true,
        Kind::Verdict => spot.handled.is_some() || !states.is_raised(spot.place),
        _ => false,
    };
    match spot.phase {
        Phase::Body if is_step => Doing::Body,
        Phase::Handler if is_step => Doing::Handler,
        _ => Doing::Turn,
    }
}

/// What a participant does in a place at the moment of a cursor. Nobody is over there.
fn doing_inside(states: &States, by: Participant) -> Doing
    requires { by < length (plan_in states.now).participants }
    ensures waits { (is_wait result ≡ true) ↔ HasToWait (plan_in states.now) (past_in states.now) by }
    ensures here { is_away result ≡ false }
{
    match states.move_of(by) {
        Move::Wait(wait) => Doing::Wait(wait),
        Move::Over => Doing::Turn,
        Move::Put(entry) => doing_before(states, by, entry.kind),
        Move::Make(entry) => doing_before(states, by, entry.kind),
        Move::Mix(_) => doing_before(states, by, Kind::Work),
    }
}

/// What a participant does at the moment of a cursor. Who is in no place may go to the next play, or is over.
pub(crate) fn doing_of(states: &States, by: Participant) -> Doing
    requires { by < length (plan_in states.now).participants }
    ensures { IsRightAt (plan_in states.now) (journal_in states.now) (taken_in states.now) by result }
{
    states.plan().is_closed();
    match states.place_of(by) {
        Some(_) => doing_inside(states, by),
        None => Doing::Away,
    }
}

/// A stretch of one moment.
fn begun(lane: Participant, doing: Doing, moment: usize) -> Stretch
    requires { moment < 2 ^ 63 }
    ensures lane { result.lane ≡ lane }
    ensures doing { result.doing ≡ doing }
    ensures from { result.from ≡ moment }
    ensures to { result.to ≡ moment + 1 }
{
    Stretch {
        lane,
        doing,
        from: moment as u64,
        to: moment as u64 + 1,
    }
}

/// A stretch that goes on for this moment.
fn longer(former: Stretch, moment: usize) -> Stretch
    requires { moment < 2 ^ 63 }
    ensures lane { result.lane ≡ former.lane }
    ensures doing { result.doing ≡ former.doing }
    ensures from { result.from ≡ former.from }
    ensures to { result.to ≡ moment + 1 }
{
    Stretch {
        to: moment as u64 + 1,
        ..former
    }
}

/// Whether a participant does the same, and waits for the same, at two moments.
fn is_same(former: Doing, now: Doing) -> bool
    ensures waits { IsTrue result → is_wait former ≡ is_wait now }
    ensures away { IsTrue result → is_away former ≡ is_away now }
{
    match (former, now) {
        (Doing::Wait(one), Doing::Wait(other)) => one == other,
        (Doing::Away, Doing::Away)
        | (Doing::Turn, Doing::Turn)
        | (Doing::Body, Doing::Body)
        | (Doing::Handler, Doing::Handler) => true,
        _ => false,
    }
}

/// Takes in the moment of a cursor for one participant: its stretch so far goes on, or is done and another begins.
fn take_in(
    states: &States,
    former: &Stretch,
    done: &mut Vec<Stretch>,
) -> Result<Stretch, OutOfMemory>
    requires known { former.now.lane < length (plan_in states.now).participants }
    requires small { taken_in states.now < 2 ^ 63 }
    requires lasts { former.now.from < former.now.to }
    requires met { former.now.to ≡ taken_in states.now }
    ensures goes { IfOk result (GoesTo former.now.lane (taken_in states.now + 1)) }
    ensures next { IfOk result (λ s. (first : ℕ) → LiesIn (plan_in states.now) (journal_in states.now) first (taken_in states.now) former.now → LiesIn (plan_in states.now) (journal_in states.now) first (taken_in states.now + 1) s) }
    ensures done { IfOk result (λ s. (first : ℕ) → LiesIn (plan_in states.now) (journal_in states.now) first (taken_in states.now) former.now → All (LiesIn (plan_in states.now) (journal_in states.now) first (taken_in states.now)) done.old.items → All (LiesIn (plan_in states.now) (journal_in states.now) first (taken_in states.now)) done.new.items) }
    ensures number { IfOk result (λ s. (t k : ℕ) → count_by (has_moment t k) done.new.items + one_if (has_moment t k s) ≡ count_by (has_moment t k) done.old.items + one_if (has_moment t k former.now) + one_if ((former.now.lane == t) && (taken_in states.now == k))) }
{
    let doing = doing_of(states, former.lane);
    let moment = states.taken();
    if is_same(former.doing, doing) {
        return Ok(longer(*former, moment));
    }
    done.push(*former)?;
    Ok(begun(former.lane, doing, moment))
}

/// Takes in the moment of a cursor for all participants.
fn take_in_all(
    alloc: Global,
    states: &States,
    former: &[Stretch],
    done: &mut Vec<Stretch>,
) -> Result<Vec<Stretch>, OutOfMemory>
    requires small { taken_in states.now < 2 ^ 63 }
    requires goes { AreOpen (length (plan_in states.now).participants) (taken_in states.now) former.now }
    ensures goes { IfOk result (λ next. AreOpen (length (plan_in states.now).participants) (taken_in states.now + 1) next.items) }
    ensures next { IfOk result (λ next. (first : ℕ) → All (LiesIn (plan_in states.now) (journal_in states.now) first (taken_in states.now)) former.now → All (LiesIn (plan_in states.now) (journal_in states.now) first (taken_in states.now + 1)) next.items) }
    ensures done { IfOk result (λ next. (first : ℕ) → All (LiesIn (plan_in states.now) (journal_in states.now) first (taken_in states.now)) former.now → All (LiesIn (plan_in states.now) (journal_in states.now) first (taken_in states.now)) done.old.items → All (LiesIn (plan_in states.now) (journal_in states.now) first (taken_in states.now)) done.new.items) }
    ensures number { IfOk result (λ next. (t k : ℕ) → t < length (plan_in states.now).participants → count_by (has_moment t k) done.new.items + count_by (has_moment t k) next.items ≡ count_by (has_moment t k) done.old.items + count_by (has_moment t k) former.now + one_if (taken_in states.now == k)) }
{
    let mut next = Vec::new(alloc);
    for stretch in former {
        let kept = take_in(states, stretch, done)?;
        next.push(kept)?;
    }
    Ok(next)
}

/// The stretches that begin at the moment of a cursor: one of each participant.
fn begun_all(alloc: Global, states: &States) -> Result<Vec<Stretch>, OutOfMemory>
    requires small { taken_in states.now < 2 ^ 63 }
    ensures goes { IfOk result (λ next. AreOpen (length (plan_in states.now).participants) (taken_in states.now + 1) next.items) }
    ensures next { IfOk result (λ next. All (LiesIn (plan_in states.now) (journal_in states.now) (taken_in states.now) (taken_in states.now + 1)) next.items) }
    ensures number { IfOk result (λ next. (t k : ℕ) → t < length (plan_in states.now).participants → count_by (has_moment t k) next.items ≡ one_if (taken_in states.now == k)) }
{
    let moment = states.taken();
    let mut next = Vec::new(alloc);
    for lane in 0..states.plan().participants() {
        next.push(begun(lane, doing_of(states, lane), moment))?;
    }
    Ok(next)
}

/// How many of those who are awaited are named.
const MOST_NAMED: u64 = 2;

/// Whom or what a participant waits for, in words; empty where it doesn't wait.
fn words_of(alloc: Global, states: &States, doing: Doing) -> Result<Vec<u8>, OutOfMemory> {
    let mut words = Vec::new(alloc);
    if let Doing::Wait(wait) = doing {
        words.extend_from_slice(b"waits for")?;
        push_some_awaited(&mut words, states, &wait, MOST_NAMED)?;
        push_word(&mut words, lack_words(wait.lack))?;
    }
    Ok(words)
}

/// Adds a note for each participant that begins to wait at the moment of a cursor.
fn note_waits(
    alloc: Global,
    states: &States,
    former: &[Stretch],
    notes: &mut Vec<Note>,
) -> Result<(), OutOfMemory> {
    let moment = states.taken() as u64;
    for stretch in former {
        if stretch.from == moment && matches!(stretch.doing, Doing::Wait(_)) {
            notes.push(Note {
                lane: stretch.lane,
                moment,
                words: words_of(alloc, states, stretch.doing)?,
            })?;
        }
    }
    Ok(())
}

/// What is told of the moments of a part of a journal.
#[derive(Drop)]
pub struct Told {
    /// What each participant does.
    pub stretches: Vec<Stretch>,
    /// Whom or what those wait for who wait.
    pub notes: Vec<Note>,
    /// The last moment that is told of: the rules let each entry before it come.
    pub last: u64,
}

/// Takes in so many entries, as far as there are some and the rules let them come; whether that many did.
fn goes_to(states: &mut States, first: u64) -> bool
    requires { taken_in states.old ≡ 0 }
    ensures plan { plan_in states.new ≡ plan_in states.old }
    ensures journal { journal_in states.new ≡ journal_in states.old }
    ensures reached { Reached first states.new result }
{
    for made in 0..first {
        if !states.step() {
            return false;
        }
    }
    true
}

/// All stretches, those that go on too.
fn all_told(
    done: Vec<Stretch>,
    going: Vec<Stretch>,
    notes: Vec<Note>,
    last: usize,
) -> Result<Told, OutOfMemory>
    ensures { IfOk result (λ told. told.stretches.items ≡ done.items ++ going.items) }
{
    let mut stretches = done;
    let mut rest = going;
    stretches.append(&mut rest)?;
    Ok(Told {
        stretches,
        notes,
        last: last as u64,
    })
}

/// What each participant does at the moments from one on, at most so many more, as far as the rules let the entries come.
pub fn stretches_of(
    alloc: Global,
    plan: &Plan,
    entries: &[Entry],
    first: u64,
    more: u64,
) -> Result<Told, OutOfMemory>
    ensures right { IfOk result (λ told. All (IsRight plan.now entries.now first more) told.stretches.items) }
    ensures number { IfOk result (λ told. AreOne plan.now entries.now first more told.stretches.items) }
{
    let mut states = States::open(alloc, plan, entries)?;
    let mut done = Vec::new(alloc);
    let mut notes = Vec::new(alloc);
    if !goes_to(&mut states, first) {
        let none = Vec::new(alloc);
        let nothing = all_told(done, none, notes, states.taken());
        return nothing;
    }
    let mut going = begun_all(alloc, &states)?;
    note_waits(alloc, &states, &going, &mut notes)?;
    for row in 0..more {
        if !states.step() {
            let front = all_told(done, going, notes, states.taken());
            return front;
        }
        let former: &[Stretch] = &going;
        let next = take_in_all(alloc, &states, former, &mut done)?;
        note_waits(alloc, &states, &next, &mut notes)?;
        going = next;
    }
    let whole = all_told(done, going, notes, states.taken());
    whole
}
