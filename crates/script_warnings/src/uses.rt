//! What is told of the nested uses of an action.

ghost use Rattle.std.specs.Prelude.{◌≡◌, ◌≤◌, length, true};
ghost use Rattle.std.specs.List.{list_all};
ghost use Rattle.script_outcomes.specs.Endings.{can_be_undone};
ghost use Rattle.script_warnings.specs.Never.{is_never_tried};

use crate::rule::Rule;
use crate::subject::{Part, meet};
use crate::tells::Tells;
use caa_base::written::entry::OutOfMemory;
use script_outcomes::outlooks::{Outlook, can_be_undone, handlers_of};
use script_outcomes::sources::{Ground, Use, carried, outlook_of, tried_in};
use script_outcomes::ways::{Way, add_way};
use script_views::looking::{first_line, nest_roles};
use script_views::page::{Page, Piece};
use std::alloc::Global;

/// Whether each of these actions can end undone.
fn can_all_be_undone(outlooks: &[Outlook], actions: &[u32]) -> bool
    ensures { result ≡ list_all (can_be_undone outlooks.now) actions.now }
{
    actions
        .iter()
        .all(|action| can_be_undone(outlooks, *action))
}

/// Whether the action of this index is never tried, since one before it can't end undone.
fn is_never_tried(outlooks: &[Outlook], actions: &[u32], index: usize) -> bool
    requires { index ≤ length actions.now }
    ensures { result ≡ is_never_tried outlooks.now actions.now index }
{
    !can_all_be_undone(outlooks, &actions[..index])
}

/// Tells that the action of this index is never tried.
fn say_never_tried(
    tells: &mut Tells,
    part: &Part,
    outlooks: &[Outlook],
    used: &Use,
    index: usize,
) -> Result<(), OutOfMemory>
    requires { is_never_tried outlooks.now used.now.actions.items index ≡ true }
{
    let action = used.actions.get(index).copied().unwrap_or(0);
    tells.say(
        Rule::NeverTried,
        used.line,
        &[
            Piece::Named(part.outlook.action),
            Piece::Text(": the use "),
            Piece::Named(used.nest),
            Piece::Text(" never comes to its alternate "),
            Piece::Named(action),
            Piece::Text(": one before it can't end undone"),
        ],
    )
}

/// Tells which alternates of a use are never tried.
fn tell_never_tried_in(
    tells: &mut Tells,
    part: &Part,
    outlooks: &[Outlook],
    used: &Use,
) -> Result<(), OutOfMemory> {
    for index in 0..used.actions.len() {
        if is_never_tried(outlooks, &used.actions, index) {
            say_never_tried(tells, part, outlooks, used, index)?;
        }
    }
    Ok(())
}

/// Tells which alternates are never tried.
pub fn tell_never_tried(
    tells: &mut Tells,
    part: &Part,
    outlooks: &[Outlook],
) -> Result<(), OutOfMemory> {
    for used in part.uses.iter() {
        tell_never_tried_in(tells, part, outlooks, used)?;
    }
    Ok(())
}

// ---- uses without an order

/// Whether an action of one use and an action of another have an object in common.
fn share_objects(outlooks: &[Outlook], used: &Use, other: &Use) -> bool {
    for action in used.actions.iter() {
        if let Some(outlook) = outlook_of(outlooks, *action) {
            let shared = other.actions.iter().any(|second| {
                outlook_of(outlooks, *second).is_some_and(|it| meet(
                    &it.set_back,
                    &outlook.set_back,
                ))
            });
            if shared {
                return true;
            }
        }
    }
    false
}

/// Uses that have no order with another: those that share an object with it, and those that share none.
#[derive(Drop)]
struct Beside {
    sharing: Vec<u32>,
    apart: Vec<u32>,
}

/// Which later uses have no order with this one: no role that is in it, or in one behind it, fills them.
fn uses_beside(
    alloc: Global,
    part: &Part,
    outlooks: &[Outlook],
    used: &Use,
    later: &[Use],
) -> Result<Beside, OutOfMemory> {
    let mut beside = Beside {
        sharing: Vec::new(alloc),
        apart: Vec::new(alloc),
    };
    let mut roles = Vec::from_slice(alloc, nest_roles(part.block, used.nest))?;
    for other in later {
        let others = nest_roles(part.block, other.nest);
        if meet(others, &roles) {
            roles.extend_from_slice(others)?;
        } else if share_objects(outlooks, used, other) {
            beside.sharing.push(other.nest)?;
        } else {
            beside.apart.push(other.nest)?;
        }
    }
    Ok(beside)
}

/// Tells which later uses have no order with this one.
fn say_beside(
    tells: &mut Tells,
    part: &Part,
    used: &Use,
    beside: &Beside,
) -> Result<(), OutOfMemory> {
    if !beside.sharing.is_empty() {
        tells.say(
            Rule::EitherFirst,
            used.line,
            &[
                Piece::Named(part.outlook.action),
                Piece::Text(": no role fills "),
                Piece::Named(used.nest),
                Piece::Text(" and "),
                Piece::List(&beside.sharing),
                Piece::Text(", and they share objects: either may come first"),
            ],
        )?;
    }
    if !beside.apart.is_empty() {
        tells.say(
            Rule::SideBySide,
            used.line,
            &[
                Piece::Named(part.outlook.action),
                Piece::Text(": no role fills "),
                Piece::Named(used.nest),
                Piece::Text(" and "),
                Piece::List(&beside.apart),
                Piece::Text(": they may go on side by side, or in any order"),
            ],
        )?;
    }
    Ok(())
}

/// Tells which uses have no order.
pub fn tell_no_order(
    tells: &mut Tells,
    part: &Part,
    outlooks: &[Outlook],
) -> Result<(), OutOfMemory> {
    for (index, used) in part.uses.iter().enumerate() {
        let later = part.uses.get(index.saturating_add(1)..).unwrap_or(&[]);
        let found = uses_beside(tells.alloc, part, outlooks, used, later)?;
        say_beside(tells, part, used, &found)?;
    }
    Ok(())
}

// ---- what raises `universal`

/// The ways to end of an action of a use that carry `universal` out of it.
fn add_unnamed(
    ways: &mut Vec<Way>,
    ground: &Ground,
    used: &Use,
    outlook: &Outlook,
    is_last: bool,
) -> Result<(), OutOfMemory> {
    for way in outlook.ways.iter() {
        if carried(ground, used.nest, *way, is_last) == Some(ground.universal) {
            add_way(ways, *way)?;
        }
    }
    Ok(())
}

/// The ways to end that carry `universal` out of a use.
fn unnamed_ways(alloc: Global, ground: &Ground, used: &Use) -> Result<Vec<Way>, OutOfMemory> {
    let mut ways = Vec::new(alloc);
    let count = tried_in(ground.known, &used.actions);
    for (index, action) in used.actions.iter().enumerate() {
        if let Some(outlook) = outlook_of(ground.known, *action) {
            let is_last = index.saturating_add(1) == used.actions.len();
            if index < count {
                add_unnamed(&mut ways, ground, used, outlook, is_last)?;
            }
        }
    }
    Ok(ways)
}

/// Adds a way to end.
fn write_way(page: &mut Page, way: Way) -> Result<(), OutOfMemory> {
    match way {
        Way::Commit => page.say(&[Piece::Text("commit")]),
        Way::Signal(exception) => page.say(&[Piece::Text("signal "), Piece::Named(exception)]),
        Way::Undone => page.say(&[Piece::Text("undone")]),
        Way::Failed => page.say(&[Piece::Text("failed")]),
    }
}

/// Adds a use that carries `universal` out where it ends in one of these ways.
fn write_unnamed(page: &mut Page, nest: u32, ways: &[Way]) -> Result<(), OutOfMemory> {
    page.say(&[
        Piece::Text("the use "),
        Piece::Named(nest),
        Piece::Text(" that ends "),
    ])?;
    for (index, way) in ways.iter().enumerate() {
        if index > 0 {
            page.say(&[Piece::Text(" or ")])?;
        }
        write_way(page, *way)?;
    }
    page.say(&[Piece::Text(" (no map line)")])
}

/// By what `universal` is raised, in words; nothing where nothing raises it.
fn unnamed_text(tells: &Tells, part: &Part, ground: &Ground) -> Result<Vec<u8>, OutOfMemory> {
    let mut page = Page::new(tells.alloc, tells.script.names());
    let things = part.puts(tells.alloc)?;
    let mut has_one = part.fault == ground.universal && !things.is_empty();
    if has_one {
        page.say(&[
            Piece::Text("a refused put of "),
            Piece::List(&things),
            Piece::Text(" (no fault line)"),
        ])?;
    }
    for used in part.uses.iter() {
        let ways = unnamed_ways(tells.alloc, ground, used)?;
        if !ways.is_empty() {
            if has_one {
                page.say(&[Piece::Text("; by ")])?;
            }
            write_unnamed(&mut page, used.nest, &ways)?;
            has_one = true;
        }
    }
    Ok(page.into_text())
}

/// Tells by what `universal` is raised in an action that has a graph of its own, and not in each role a handler for it.
pub fn tell_unnamed(
    tells: &mut Tells,
    part: &Part,
    outlooks: &[Outlook],
) -> Result<(), OutOfMemory> {
    let universal = tells.script.universal();
    let handlers = handlers_of(tells.alloc, part.block, universal)?;
    let ground = Ground {
        block: part.block,
        known: outlooks,
        universal,
    };
    let by = unnamed_text(tells, part, &ground)?;
    let is_handled = handlers.iter().all(|handler| handler.is_some());
    if part.outlook.rows.len() > 1 && !is_handled && !by.is_empty() {
        tells.say(
            Rule::Unnamed,
            first_line(part.block),
            &[
                Piece::Named(part.outlook.action),
                Piece::Text(": universal is raised by "),
                Piece::Word(&by),
                Piece::Text(": all is set back"),
            ],
        )?;
    }
    Ok(())
}
