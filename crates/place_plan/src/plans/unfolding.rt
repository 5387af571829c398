ghost use Rattle.std.specs.Prelude.{◌≡◌, ◌≤◌, ◌+◌, ◌++◌, ◌∷◌, [], true, length, slice_index_or, IfOk};
ghost use Rattle.std.specs.List.{list_all};
ghost use Rattle.caa_base.specs.Written.Limits.{most_actions, most_alternates, most_depth, most_places};
ghost use Rattle.place_plan.specs.Plans.Places.{no_action};
ghost use Rattle.place_plan.specs.Drafts.DraftRules.{action_fits, nest_fits};
ghost use Rattle.place_plan.specs.Plans.Unfolding.{unfold_at, use_from, numbers_from, cast_of, plays_from};
ghost use Rattle.place_plan.specs.inner.Unfolded.{IsMade};

use crate::drafts::draft_rows::{ActionRow, NestRow, PlayRow};
use crate::plans::alternates::Alternates;
use crate::plans::places::Places;
use caa_base::written::entry::{Participant, Place};
use caa_base::written::limits::MOST_DEPTH;
use std::alloc::{AllocError, Global};

/// The nested uses of an action; none where there is no such action.
fn nests_of(actions: &[ActionRow], action: u32) -> &[NestRow]
    requires { list_all action_fits actions.now ≡ true }
    ensures nests { result.now ≡ (slice_index_or actions.now action no_action).nests }
    ensures few { length result.now ≤ most_actions }
    ensures fit { list_all nest_fits result.now ≡ true }
{
    match actions.get(action as usize) {
        Some(row) => row.nests.as_slice(),
        None => &[],
    }
}

/// The participants that play the roles of a nested use, by those of the enclosing place.
fn cast_of(
    alloc: Global,
    who: &[Participant],
    nest: &NestRow,
) -> Result<Vec<Participant>, AllocError>
    ensures { IfOk result (λ cast. cast.items ≡ cast_of who.now nest.now) }
{
    let mut cast = Vec::new(alloc);
    for role in nest.roles.as_slice() {
        cast.push(player_at(who, *role))?;
    }
    Ok(cast)
}

/// Who plays the role of this number; participant 0 where there is none.
fn player_at(who: &[Participant], role: u32) -> Participant
    ensures { result ≡ slice_index_or who.now role 0 }
{
    match who.get(role as usize) {
        Some(player) => *player,
        None => 0,
    }
}

/// A place, and then those round it.
fn inner_to_outer(alloc: Global, place: Place, around: &[Place]) -> Result<Vec<Place>, AllocError>
    ensures { IfOk result (λ places. places.items ≡ place ∷ around.now) }
{
    let mut places = Vec::new(alloc);
    places.push(place)?;
    places.extend_from_slice(around)?;
    Ok(places)
}

/// Appends the places of an instance of an action: its own, and those of its nested uses, at most `depth` deep.
///
/// Where no memory is found, only some of them may have been appended.
#[cycle(unfolding)]
fn unfold(
    alloc: Global,
    actions: &[ActionRow],
    action: u32,
    who: &[Participant],
    around: &[Place],
    nest: u32,
    depth: u32,
    places: &mut Places,
) -> Result<(), AllocError>
    requires fit { list_all action_fits actions.now ≡ true }
    requires few { length places.old
        + length (unfold_at depth actions.now action who.now around.now nest (length places.old))
        ≤ most_places }
    ensures { IfOk result (λ _.
        places.new
        ≡ places.old ++ unfold_at depth actions.now action who.now around.now nest (length places.old)) }
{
    if depth == 0 {
        return Ok(());
    }
    let place = places.len();
    places.push(action, who, around, nest)?;
    let nests = nests_of(actions, action);
    if nests.is_empty() {
        return Ok(());
    }
    let outer = inner_to_outer(alloc, place as u32, around)?;
    let mut children = Vec::new(alloc);
    for (number, used) in nests.iter().enumerate() {
        let row = unfold_use(
            alloc,
            actions,
            used,
            who,
            outer.as_slice(),
            number as u32,
            depth - 1,
            places,
        )?;
        children.push(row)?;
    }
    places.set_uses(place, children)?;
    Ok(())
}

/// Appends the places of one nested use, those of each of its actions in turn; answers the numbers of the places of its actions.
#[cycle(unfolding)]
fn unfold_use(
    alloc: Global,
    actions: &[ActionRow],
    used: &NestRow,
    who: &[Participant],
    around: &[Place],
    nest: u32,
    depth: u32,
    places: &mut Places,
) -> Result<Alternates, AllocError>
    requires short { length used.now.actions ≤ most_alternates }
    requires fit { list_all action_fits actions.now ≡ true }
    requires few { length places.old
        + length (use_from (unfold_at depth actions.now) who.now around.now nest (length places.old) used.now)
        ≤ most_places }
    ensures places { IfOk result (λ _.
        places.new
        ≡ places.old ++ use_from (unfold_at depth actions.now) who.now around.now nest (length places.old) used.now) }
    ensures numbers { IfOk result (λ row.
        row
        ≡ numbers_from (unfold_at depth actions.now) (cast_of who.now used.now) around.now nest (length places.old)
        used.now.actions) }
{
    let cast = cast_of(alloc, who, used)?;
    let mut numbers = Alternates::new();
    for action in used.actions.as_slice() {
        numbers.push(places.len() as u32);
        unfold(
            alloc,
            actions,
            *action,
            cast.as_slice(),
            around,
            nest,
            depth,
            places,
        )?;
    }
    Ok(numbers)
}

/// The places into which plays of these actions unfold, and which of them are the plays.
pub(crate) fn unfold_plays(
    alloc: Global,
    actions: &[ActionRow],
    plays: &[PlayRow],
) -> Result<(Places, Vec<Place>), AllocError>
    requires fit { list_all action_fits actions.now ≡ true }
    requires few { length (plays_from (unfold_at most_depth actions.now) 0 plays.now) ≤ most_places }
    ensures { IfOk result (λ made. IsMade actions.now plays.now made.0 made.1.items) }
{
    let mut places = Places::new(alloc);
    let mut tops = Vec::new(alloc);
    for play in plays {
        tops.push(places.len() as u32)?;
        unfold(
            alloc,
            actions,
            play.action,
            play.who.as_slice(),
            &[],
            0,
            MOST_DEPTH,
            &mut places,
        )?;
    }
    Ok((places, tops))
}
