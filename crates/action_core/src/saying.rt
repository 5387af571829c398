ghost use Rattle.std.specs.Prelude.{◌≡◌, ◌<◌, ◌∷◌, length, reverse};
ghost use Rattle.caa_base.specs.declared.written.entry.Kind.TheVariants as kind;
ghost use Rattle.place_plan.specs.RulesOfJournals.Raising.{has_handled};
ghost use Rattle.place_plan.specs.RulesOfJournals.Rules.{MayFollow};
ghost use Rattle.place_plan.specs.RulesOfJournals.Journals.{LegalPast};
ghost use Rattle.action_endings.specs.inner.KeptEndings.{exception_named, StandsFor as EndingsStand};
ghost use Rattle.action_core.specs.inner.Raisings.{RaisesIn};

use action_endings::Endings;
use caa_base::written::entry::{Entry, Exception, Kind, Place, Verdict};
use place_plan::plans::plan::Plan;

/// Takes an entry by which something is raised in a place into the endings.
fn note_raising(endings: &mut Endings, plan: &Plan, journal: &[Entry], entry: &Entry, place: Place)
    requires there { place < length endings.old }
    requires stands { EndingsStand plan.now (reverse journal.now) endings.old }
    requires legal { LegalPast plan.now (reverse journal.now) }
    requires may { MayFollow plan.now (reverse journal.now) entry.now }
    requires raises { RaisesIn plan.now (reverse journal.now) entry.now place }
    ensures { EndingsStand plan.now (entry.now ∷ reverse journal.now) endings.new }
{
    plan.is_closed();
    if !endings.is_raised(place) {
        endings.doom(plan, place);
        endings.clear(place);
    }
}

/// The exception that an abort names, if it names one.
fn exception_named(entry: &Entry) -> Option<Exception>
    ensures { result ≡ exception_named entry.now }
{
    if entry.mark == 1 {
        Some(entry.arg)
    } else {
        None
    }
}

/// Takes an entry into the endings. Where it is a refused put, `handled` says whether its maker has begun its handler in its place.
pub fn note_endings(
    endings: &mut Endings,
    plan: &Plan,
    journal: &[Entry],
    entry: &Entry,
    handled: bool,
)
    requires stands { EndingsStand plan.now (reverse journal.now) endings.old }
    requires legal { LegalPast plan.now (reverse journal.now) }
    requires may { MayFollow plan.now (reverse journal.now) entry.now }
    requires handled { entry.now.kind ≡ kind.PutFault → handled ≡ has_handled (reverse journal.now) entry.now.place entry.now.by }
    ensures { EndingsStand plan.now (entry.now ∷ reverse journal.now) endings.new }
{
    plan.is_closed();
    match entry.kind {
        Kind::Raise => note_raising(endings, plan, journal, entry, entry.place),
        Kind::PutFault => {
            if !handled {
                note_raising(endings, plan, journal, entry, entry.place);
            }
        }
        Kind::Leave => {
            if entry.mark == 1 {
                if let Some(outer) = plan.parent(entry.place) {
                    note_raising(endings, plan, journal, entry, outer);
                }
            }
        }
        Kind::Verdict => {
            let verdict = Verdict::of_mark(entry.mark, entry.arg);
            endings.verdict(plan, entry.place, entry.by, verdict);
        }
        Kind::Abort => endings.abort(plan, entry.place, entry.by, exception_named(entry)),
        Kind::Undo => endings.start_undo(entry.place),
        Kind::Restore => endings.restored(entry.place, entry.mark == 0),
        Kind::Arrive
        | Kind::Withdraw
        | Kind::Start
        | Kind::Read
        | Kind::Work
        | Kind::Write
        | Kind::Check
        | Kind::Inform
        | Kind::Resolve
        | Kind::Handle
        | Kind::End => {}
    }
}
