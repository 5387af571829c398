//! The places of a plan. Their lists stand one behind another in a few lists that the plan has once, so a place takes no memory of its
//! own: a plan may have tens of thousands of places.

ghost use Rattle.std.specs.Prelude.{◌≡◌, ◌<◌, ◌++◌, ◌∷◌, [], length, slice_get, slice_index_or, slice_set, is_ok, if◌then◌else◌, IfOk, OnOk};
ghost use Rattle.std.specs.Option.{option_map};
ghost use Rattle.place_plan.specs.Plans.PlanValue.{PlaceRow};
ghost use Rattle.place_plan.specs.Plans.Places.{no_place};
ghost use Rattle.place_plan.specs.inner.PlaceLists.{part_of, IsPart, IsPartOf};
ghost use Rattle.place_plan.specs.inner.Unfolded.{bare_place, with_children};

use crate::plans::alternates::Alternates;
use caa_base::written::entry::{Participant, Place};
use std::alloc::{AllocError, Global};
use std::marker::Model;

/// A part of a list: from an index on, and up to another.
#[derive(Clone, Copy)]
struct Part {
    from: usize,
    to: usize,
}

/// An instance of an action, by the parts of the lists that are its own.
#[derive(Clone, Copy)]
struct PlaceParts {
    /// The places round it.
    around: Part,
    /// Which nested use of the enclosing action it is; 0 for a play.
    nest: u32,
    /// The number of the action.
    action: u32,
    /// The participants that play its roles.
    roles: Part,
    /// Its nested uses.
    uses: Part,
}

/// The places of a plan, seen as the list of their rows.
#[derive(Drop)]
pub(crate) struct Places {
    parts: Vec<PlaceParts>,
    around: Vec<Place>,
    players: Vec<Participant>,
    uses: Vec<Alternates>,
}

impl Model for Places {
    ghost use Rattle.std.specs.Prelude.{List};
    ghost use Rattle.place_plan.specs.Plans.PlanValue.{PlaceRow};

    ghost Value = { List PlaceRow };

    ghost use Rattle.place_plan.specs.inner.PlaceLists.{rows_of, AreWithin};

    ghost view = { λ p. rows_of p.around.items p.players.items p.uses.items p.parts.items };

    ghost invariant = { λ p. AreWithin p.around.items p.players.items p.uses.items p.parts.items };
}

/// This part of a list.
fn part_of<T>(list: &[T], part: Part) -> &[T]
    requires { IsPart part list.now }
    ensures { result.now ≡ part_of list.now part }
{
    &list[part.from..part.to]
}

/// Appends these numbers to a list, and answers which part of it they are.
fn append(list: &mut Vec<u32>, numbers: &[u32]) -> Result<Part, AllocError>
    ensures list { list.new.items ≡ (if is_ok result then list.old.items ++ numbers.now else list.old.items) }
    ensures part { IfOk result (IsPartOf list.old.items list.new.items) }
{
    let from = list.len();
    list.extend_from_slice(numbers)?;
    Ok(Part {
        from,
        to: list.len(),
    })
}

impl Places {
    /// No places.
    pub(crate) fn new(alloc: Global) -> Places
        ensures { result ≡ [] }
    {
        Places {
            parts: Vec::new(alloc),
            around: Vec::new(alloc),
            players: Vec::new(alloc),
            uses: Vec::new(alloc),
        }
    }

    /// How many places there are.
    pub(crate) fn len(&self) -> usize
        ensures { result ≡ length self.now }
    {
        self.parts.len()
    }

    /// One place more, without its nested uses.
    pub(crate) fn push(
        &mut self,
        action: u32,
        who: &[Participant],
        around: &[Place],
        nest: u32,
    ) -> Result<(), AllocError>
        ensures { OnOk result (self.new ≡ self.old ++ bare_place action who.now around.now nest ∷ []) }
    {
        let around = append(&mut self.around, around)?;
        let roles = append(&mut self.players, who)?;
        self.parts.push(PlaceParts {
            around,
            nest,
            action,
            roles,
            uses: Part { from: 0, to: 0 },
        })?;
        Ok(())
    }

    /// Gives a place its nested uses.
    pub(crate) fn set_uses(
        &mut self,
        place: usize,
        mut uses: Vec<Alternates>,
    ) -> Result<(), AllocError>
        requires { place < length self.old }
        ensures { OnOk result (self.new ≡ slice_set self.old place
            (with_children uses.items (slice_index_or self.old place no_place))) }
    {
        let from = self.uses.len();
        self.uses.append(&mut uses)?;
        self.parts[place].uses = Part {
            from,
            to: self.uses.len(),
        };
        Ok(())
    }

    /// The places round a place, the innermost first.
    pub(crate) fn around(&self, place: Place) -> &[Place]
        ensures { result.now ≡ (slice_index_or self.now place no_place).around }
    {
        match self.parts.get(place as usize) {
            Some(parts) => part_of(&self.around, parts.around),
            None => &[],
        }
    }

    /// The participants that play the roles of a place, in the order of the roles.
    pub(crate) fn roles(&self, place: Place) -> &[Participant]
        ensures { result.now ≡ (slice_index_or self.now place no_place).roles }
    {
        match self.parts.get(place as usize) {
            Some(parts) => part_of(&self.players, parts.roles),
            None => &[],
        }
    }

    /// The nested uses of a place, of each its places.
    pub(crate) fn uses(&self, place: Place) -> &[Alternates]
        ensures { result.now ≡ (slice_index_or self.now place no_place).children }
    {
        match self.parts.get(place as usize) {
            Some(parts) => part_of(&self.uses, parts.uses),
            None => &[],
        }
    }

    /// Which nested use of the enclosing action a place is; 0 where there is no such place.
    pub(crate) fn nest(&self, place: Place) -> u32
        ensures { result ≡ (slice_index_or self.now place no_place).nest }
    {
        match self.parts.get(place as usize) {
            Some(parts) => parts.nest,
            None => 0,
        }
    }

    /// The number of the action that a place is an instance of, if there is such a place.
    pub(crate) fn action(&self, place: Place) -> Option<u32>
        ensures { result ≡ option_map (λ (row : PlaceRow). row.action) (slice_get self.now place) }
    {
        let parts = self.parts.get(place as usize)?;
        Some(parts.action)
    }
}
