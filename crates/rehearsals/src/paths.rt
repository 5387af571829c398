//! Paths: an action that is played and the uses down from there. Places of one path are told together.

ghost use Rattle.std.specs.Prelude.{◌≡◌, length, IfOk};
ghost use Rattle.rehearsals.specs.Facts.{path_of};

use caa_base::written::entry::{OutOfMemory, Place};
use caa_base::written::limits::MOST_NESTS;
use place_plan::plans::plan::Plan;
use std::alloc::Global;

/// The first play of the action of a play.
fn first_play(plan: &Plan, play: Place) -> Place {
    if play >= plan.places() {
        return play;
    }
    for other in plan.play_places() {
        if *other < plan.places() && plan.action_of(*other) == plan.action_of(play) {
            return *other;
        }
    }
    play
}

/// An index as a number; one that is too great for it is its greatest.
pub fn number_of(index: usize) -> u32 {
    index.min(u32::MAX as usize) as u32
}

/// Where a place stands among these.
fn index_in(places: &[Place], place: Place) -> Option<u32> {
    for (index, other) in places.iter().enumerate() {
        if *other == place {
            return Some(number_of(index));
        }
    }
    None
}

/// Where a place stands in a use of the place round it: the use, and which of its actions it is.
pub fn use_of(plan: &Plan, outer: Place, place: Place) -> Option<(u32, u32)> {
    for nest in 0..MOST_NESTS as u32 {
        if let Some(alternate) = index_in(plan.alternates_of(outer, nest), place) {
            return Some((nest, alternate));
        }
    }
    None
}

/// The place that stands for the path of a place, where those of the places before it are known.
fn model_of(plan: &Plan, models: &[Place], place: Place) -> Place {
    let Some(outer) = plan.parent(place) else {
        return first_play(plan, place);
    };
    let Some((nest, alternate)) = use_of(plan, outer, place) else {
        return place;
    };
    let model = models.get(outer as usize).copied().unwrap_or(outer);
    let alternates = plan.alternates_of(model, nest);
    alternates.get(alternate as usize).copied().unwrap_or(place)
}

/// For each place the one that stands for its path: the first of this path.
pub fn paths_of(alloc: Global, plan: &Plan) -> Result<Vec<Place>, OutOfMemory>
    ensures { IfOk result (λ paths. length paths.items ≡ length plan.now.places) }
{
    let mut models = Vec::new(alloc);
    for place in 0..plan.places() {
        let model = model_of(plan, &models, place);
        models.push(model)?;
    }
    Ok(models)
}

/// The place that stands for the path of this one.
pub fn path_of(paths: &[Place], place: Place) -> Place
    ensures { result ≡ path_of paths.now place }
{
    match paths.get(place as usize) {
        Some(path) => *path,
        None => place,
    }
}
