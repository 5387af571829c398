ghost use Rattle.std.specs.Prelude.{◌≡◌, ◌<◌, ◌≤◌, ◌^◌, ◌++◌, OnOk, IfOk, length, reverse};
ghost use Rattle.std.specs.List.{flat_map};
ghost use Rattle.message_plays.specs.Texts.{IsPlayedByMessages, event_line, member_name, name_of_exception, decision_name, resolved_line};
ghost use Rattle.message_plays.specs.Turns.{members};
ghost use Rattle.message_plays.specs.inner.WorldOfPlan.{IsWorldOf, AddsDecisions, HasEvent};

use crate::turns::take_all_turns;
use caa_base::written::entry::{Exception, OutOfMemory};
use caa_base::written::line::{end_line, push_number, push_word};
use message_resolution::{Event, World};
use place_plan::plans::plan::Plan;
use std::alloc::Global;

/// The name of a member.
fn member_name(plan: &Plan, member: u32) -> &[u8]
    requires { member < members plan.now }
    ensures { result.now ≡ member_name plan.now member }
{
    plan.is_closed();
    plan.participant_name(plan.roles_of(0)[member as usize])
}

/// The name of an exception of the first place.
fn exception_name(plan: &Plan, exception: Exception) -> &[u8]
    ensures { result.now ≡ name_of_exception plan.now exception }
{
    plan.exception_name(plan.internal_number(0), exception)
}

/// The name of what was decided.
fn decision_name(plan: &Plan, decided: Option<Exception>) -> &[u8]
    ensures { result.now ≡ decision_name plan.now decided }
{
    match decided {
        Some(exception) => exception_name(plan, exception),
        None => b"none",
    }
}

/// Writes the line of a raise.
fn write_raise(
    text: &mut Vec<u8>,
    plan: &Plan,
    by: u32,
    exception: Exception,
) -> Result<(), OutOfMemory>
    requires { by < members plan.now }
    ensures { OnOk result (text.new.items ≡ text.old.items ++ event_line plan.now (Event.Raise by exception)) }
{
    text.extend_from_slice(b"raise")?;
    push_word(text, member_name(plan, by))?;
    push_word(text, exception_name(plan, exception))?;
    end_line(text)
}

/// Writes the line of a delivery.
fn write_delivery(text: &mut Vec<u8>, plan: &Plan, to: u32, message: u32) -> Result<(), OutOfMemory>
    requires { to < members plan.now }
    ensures { OnOk result (text.new.items ≡ text.old.items ++ event_line plan.now (Event.Deliver to message)) }
{
    text.extend_from_slice(b"deliver")?;
    push_number(text, u64::from(message))?;
    push_word(text, member_name(plan, to))?;
    end_line(text)
}

/// Writes the line of an event.
fn write_event(text: &mut Vec<u8>, plan: &Plan, event: Event) -> Result<(), OutOfMemory>
    requires { HasEvent plan.now event }
    ensures { OnOk result (text.new.items ≡ text.old.items ++ event_line plan.now event) }
{
    match event {
        Event::Raise { by, exception } => write_raise(text, plan, by, exception),
        Event::Deliver { to, message } => write_delivery(text, plan, to, message),
    }
}

/// Writes the lines of all events.
fn write_events(text: &mut Vec<u8>, plan: &Plan, world: &World) -> Result<(), OutOfMemory>
    requires { IsWorldOf plan.now world.now }
    ensures { OnOk result (text.new.items ≡ text.old.items ++ flat_map (event_line plan.now) (reverse world.now.past)) }
{
    world.is_legal();
    for index in 0..world.len() {
        write_event(text, plan, world.event(index))?;
    }
    Ok(())
}

/// Writes the line of what a member has decided.
fn write_decision(
    text: &mut Vec<u8>,
    plan: &Plan,
    member: u32,
    decided: Option<Exception>,
) -> Result<(), OutOfMemory>
    requires { member < members plan.now }
    ensures { OnOk result (text.new.items ≡ text.old.items ++ resolved_line plan.now member decided) }
{
    text.extend_from_slice(b"resolved")?;
    push_word(text, member_name(plan, member))?;
    push_word(text, decision_name(plan, decided))?;
    end_line(text)
}

/// Writes what each member has decided.
fn write_decisions(text: &mut Vec<u8>, plan: &Plan, world: &World) -> Result<(), OutOfMemory>
    requires { IsWorldOf plan.now world.now }
    ensures { OnOk result (AddsDecisions plan.now world.now.past text.old.items text.new.items (members plan.now)) }
{
    for member in 0..world.count() {
        write_decision(text, plan, member, world.decided(member))?;
    }
    Ok(())
}

/// The text of the play of a plan's first place by messages, by the turns of a seed.
pub fn messages_text(alloc: Global, plan: &Plan, seed: u32) -> Result<Vec<u8>, OutOfMemory>
    requires { seed < 2 ^ 31 }
    ensures { IfOk result (λ text. IsPlayedByMessages plan.now seed text.items) }
{
    plan.is_closed();
    let mut text = Vec::from_slice(alloc, b"messages\n")?;
    let count = plan.roles_of(0).len() as u32;
    if count == 0 {
        return Ok(text);
    }
    let graph = plan.internal(0).copy(alloc)?;
    let mut world = World::open(alloc, graph, count, 4 * count + 1)?;
    take_all_turns(&mut world, plan, seed);
    world.settle();
    world.is_legal();
    write_events(&mut text, plan, &world)?;
    write_decisions(&mut text, plan, &world)?;
    Ok(text)
}
