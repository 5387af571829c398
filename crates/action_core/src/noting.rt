ghost use Rattle.std.specs.Prelude.{◌≡◌, ◌∷◌, reverse};
ghost use Rattle.caa_base.specs.declared.written.entry.Kind.TheVariants as kind;
ghost use Rattle.place_plan.specs.RulesOfJournals.Whereabouts.{is_left_in_silence};
ghost use Rattle.place_plan.specs.RulesOfJournals.Raising.{has_handled};
ghost use Rattle.place_plan.specs.RulesOfJournals.Rules.{MayFollow};
ghost use Rattle.place_plan.specs.RulesOfJournals.Journals.{LegalPast};
ghost use Rattle.role_states.specs.inner.Standing.{StandsFor as FramesStand};
ghost use Rattle.resolution_core.specs.inner.Standing.{StandsFor as RecoveriesStand};
ghost use Rattle.object_versions.specs.inner.KeptVersions.{StandsFor as VersionsStand};

use crate::kept::frame_kept;
use caa_base::written::entry::{Entry, Kind};
use object_versions::Versions;
use place_plan::plans::plan::Plan;
use resolution_core::Resolver;
use role_states::Frames;

/// Whether the maker of a refused put has begun its handler in the place of the put.
pub fn is_handling(frames: &Frames, plan: &Plan, journal: &[Entry], entry: &Entry) -> bool
    requires stands { FramesStand plan.now (reverse journal.now) frames.now }
    requires legal { LegalPast plan.now (reverse journal.now) }
    requires may { MayFollow plan.now (reverse journal.now) entry.now }
    ensures { entry.now.kind ≡ kind.PutFault → result ≡ has_handled (reverse journal.now) entry.now.place entry.now.by }
{
    plan.is_closed();
    frame_kept(frames, entry.by).handling
}

/// Takes an entry into the frames. Where it is a leave, `silent` says whether its place is left in silence.
#[inline(always)]
pub fn note_frames(frames: &mut Frames, plan: &Plan, journal: &[Entry], entry: &Entry, silent: bool)
    requires stands { FramesStand plan.now (reverse journal.now) frames.old }
    requires legal { LegalPast plan.now (reverse journal.now) }
    requires may { MayFollow plan.now (reverse journal.now) entry.now }
    requires silent { entry.now.kind ≡ kind.Leave → silent ≡ is_left_in_silence plan.now (reverse journal.now) entry.now.place }
    ensures { FramesStand plan.now (entry.now ∷ reverse journal.now) frames.new }
{
    plan.is_closed();
    match entry.kind {
        Kind::Arrive => frames.enter(entry.by, entry.place),
        Kind::Read | Kind::Work | Kind::Write => frames.advance(entry.by, Some(entry.value)),
        Kind::Check => frames.advance(entry.by, None),
        Kind::Handle => frames.begin_handler(entry.by),
        Kind::Withdraw => frames.leave(entry.by),
        Kind::Leave => {
            if silent {
                frames.leave(entry.by);
            } else {
                frames.come_back(entry.by);
            }
        }
        Kind::Start
        | Kind::PutFault
        | Kind::Raise
        | Kind::Inform
        | Kind::Resolve
        | Kind::Verdict
        | Kind::Abort
        | Kind::Undo
        | Kind::Restore
        | Kind::End => {}
    }
}

/// Takes an entry into the versions of the objects.
#[inline(always)]
pub fn note_versions(versions: &mut Versions, plan: &Plan, journal: &[Entry], entry: &Entry)
    requires stands { VersionsStand plan.now (reverse journal.now) versions.old }
    requires legal { LegalPast plan.now (reverse journal.now) }
    requires may { MayFollow plan.now (reverse journal.now) entry.now }
    ensures { VersionsStand plan.now (entry.now ∷ reverse journal.now) versions.new }
{
    plan.is_closed();
    match entry.kind {
        Kind::Start => versions.take(plan, entry.place),
        Kind::End => versions.give_back(plan, entry.place),
        Kind::Write => versions.write(entry.arg, entry.value),
        Kind::Restore => {
            if entry.mark == 0 {
                versions.write(entry.arg, entry.value);
            }
        }
        Kind::Arrive
        | Kind::Withdraw
        | Kind::Read
        | Kind::Work
        | Kind::Check
        | Kind::PutFault
        | Kind::Raise
        | Kind::Inform
        | Kind::Resolve
        | Kind::Handle
        | Kind::Verdict
        | Kind::Abort
        | Kind::Undo
        | Kind::Leave => {}
    }
}

/// Takes an entry into the recoveries. Where it is a refused put, `handled` says whether its maker has begun its handler in its place.
pub fn note_recoveries(
    resolver: &mut Resolver,
    plan: &Plan,
    journal: &[Entry],
    entry: &Entry,
    handled: bool,
)
    requires stands { RecoveriesStand plan.now (reverse journal.now) resolver.old }
    requires legal { LegalPast plan.now (reverse journal.now) }
    requires may { MayFollow plan.now (reverse journal.now) entry.now }
    requires handled { entry.now.kind ≡ kind.PutFault → handled ≡ has_handled (reverse journal.now) entry.now.place entry.now.by }
    ensures { RecoveriesStand plan.now (entry.now ∷ reverse journal.now) resolver.new }
{
    plan.is_closed();
    match entry.kind {
        Kind::Raise => resolver.raise(plan, entry.place, entry.by, entry.arg),
        Kind::PutFault => {
            if !handled {
                let fault = plan.fault(entry.place);
                resolver.raise(plan, entry.place, entry.by, fault);
            }
        }
        Kind::Leave => {
            if entry.mark == 1 {
                if let Some(outer) = plan.parent(entry.place) {
                    resolver.raise(plan, outer, entry.by, entry.arg);
                }
            }
        }
        Kind::Inform => resolver.inform(plan, entry.place, entry.by),
        Kind::Resolve => {
            resolver.resolve(entry.place);
        }
        Kind::Arrive
        | Kind::Withdraw
        | Kind::Start
        | Kind::Read
        | Kind::Work
        | Kind::Write
        | Kind::Check
        | Kind::Handle
        | Kind::Verdict
        | Kind::Abort
        | Kind::Undo
        | Kind::Restore
        | Kind::End => {}
    }
}
