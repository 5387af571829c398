ghost use Rattle.std.specs.Prelude.{◌≡◌, ◌<◌, ◌≤◌, ◌+◌, ◌*◌, ◌^◌, ◌∷◌, [], ℕ, if◌then◌else◌, false, length};
ghost use Rattle.message_resolution.specs.Histories.Courses.{all_raised};
ghost use Rattle.message_plays.specs.Turns.{members, after_turns, before_settling, first_wish, wish, with_delivery, with_raise, with_turn, with_wish};
ghost use Rattle.message_plays.specs.inner.WorldOfPlan.{IsWorldOf, GoesOn};

use crate::wishes::{first_wish, wish};
use caa_base::written::work::next_state;
use message_resolution::{Event, World};
use place_plan::plans::plan::Plan;

/// Delivers a message to a member, by a number that is taken among those that were sent.
fn deliver(world: &mut World, plan: &Plan, member: u32, number: u32)
    requires world { IsWorldOf plan.now world.old }
    requires member { member < members plan.now }
    requires room { length world.old.past < world.old.room }
    ensures world { GoesOn plan.now world.old world.new }
    ensures past { world.new.past ≡ with_delivery plan.now world.old.past member number }
{
    let sent = world.sent();
    if sent > 0 {
        let message = number % sent;
        let _ = world.step(Event::Deliver {
            to: member,
            message,
        });
    }
}

/// Whether a member raises what it wishes to raise, if it wishes to and may; else nothing changes.
fn raises_wish(world: &mut World, plan: &Plan, member: u32) -> bool
    requires world { IsWorldOf plan.now world.old }
    requires member { member < members plan.now }
    requires room { length world.old.past < world.old.room }
    ensures world { GoesOn plan.now world.old world.new }
    ensures passes { result ≡ false → world.new ≡ world.old }
    ensures past { (number : ℕ) → (if result then world.new.past else with_delivery plan.now world.old.past member number)
        ≡ with_wish plan.now world.old.past member number (wish plan.now member) }
{
    let Some(exception) = wish(plan, member) else {
        return false;
    };
    let event = Event::Raise {
        by: member,
        exception,
    };
    world.step(event).is_ok()
}

/// Takes the turn of this number.
fn take_turn(world: &mut World, plan: &Plan, number: u32)
    requires world { IsWorldOf plan.now world.old }
    requires some { 0 < members plan.now }
    requires room { length world.old.past < world.old.room }
    ensures world { GoesOn plan.now world.old world.new }
    ensures past { world.new.past ≡ with_turn plan.now world.old.past number }
{
    let member = number % world.count();
    if raises_wish(world, plan, member) {
        return;
    }
    deliver(world, plan, member, number / 16);
}

/// Takes four turns for each member, by the state of the seed.
fn take_turns(world: &mut World, plan: &Plan, seed: u32)
    requires world { IsWorldOf plan.now world.old }
    requires some { 0 < members plan.now }
    requires seed { seed < 2 ^ 31 }
    requires room { 4 * members plan.now < world.old.room }
    requires past { world.old.past ≡ [] }
    ensures world { IsWorldOf plan.now world.new }
    ensures room { world.new.room ≡ world.old.room }
    ensures past { world.new.past ≡ after_turns plan.now seed (4 * members plan.now) }
    ensures long { length world.new.past ≤ 4 * members plan.now }
{
    let mut state = seed;
    plan.is_closed();
    for _turn in 0..4 * world.count() {
        state = next_state(state);
        take_turn(world, plan, state / 65_536);
    }
}

/// The first member that wishes to raise something raises it, where nothing was raised.
fn raise_first_wish(world: &mut World, plan: &Plan)
    requires world { IsWorldOf plan.now world.old }
    requires none { all_raised world.old.past ≡ [] }
    requires room { length world.old.past < world.old.room }
    ensures world { IsWorldOf plan.now world.new }
    ensures past { world.new.past ≡ with_raise world.old.past (first_wish plan.now 0 (members plan.now)) }
{
    plan.is_closed();
    world.is_legal();
    if let Some((by, exception)) = first_wish(plan) {
        let _ = world.step(Event::Raise { by, exception });
    }
}

/// Takes all turns of the members.
pub fn take_all_turns(world: &mut World, plan: &Plan, seed: u32)
    requires world { IsWorldOf plan.now world.old }
    requires some { 0 < members plan.now }
    requires seed { seed < 2 ^ 31 }
    requires room { 4 * members plan.now < world.old.room }
    requires past { world.old.past ≡ [] }
    ensures world { IsWorldOf plan.now world.new }
    ensures past { world.new.past ≡ before_settling plan.now seed }
{
    take_turns(world, plan, seed);
    plan.is_closed();
    world.is_legal();
    if world.sent() == 0 {
        raise_first_wish(world, plan);
    }
}
