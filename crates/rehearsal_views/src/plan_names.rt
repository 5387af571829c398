//! What a plan calls its parts, as views of plays say it.

use caa_base::written::entry::{Exception, Object, OutOfMemory, Outcome, Place};
use caa_base::written::name::{Name, name_at};
use place_plan::drafts::draft_rows::{ActionRow, RoleRow};
use place_plan::plans::plan::Plan;
use rehearsals::paths::{number_of, use_of};
use script_checker::lines::Lines;
use script_outcomes::ways::Way;
use script_views::page::{Page, Piece};

/// A plan, and where its script declares its parts. Actions, roles and exceptions go by their numbers in the plan.
#[derive(Clone, Copy)]
pub struct PlanNames<'a> {
    pub plan: &'a Plan,
    pub lines: &'a Lines,
}

impl<'a> PlanNames<'a> {
    /// The row of an action.
    fn row(&self, action: u32) -> Option<&'a ActionRow> {
        self.plan.action_rows().get(action as usize)
    }

    /// The row of a role.
    pub fn role(&self, action: u32, role: u32) -> Option<&'a RoleRow> {
        self.row(action)?.roles.as_slice().get(role as usize)
    }

    /// How many roles an action has.
    pub fn roles(&self, action: u32) -> u32 {
        match self.row(action) {
            Some(row) => number_of(row.roles.len()),
            None => 0,
        }
    }

    /// The line that begins an action.
    pub fn first_line(&self, action: u32) -> u32 {
        match self.lines.action(action) {
            Some(lines) => lines.first,
            None => 0,
        }
    }

    /// The name of an exception that is raised in an action.
    pub fn internal_name(&self, action: u32, exception: Exception) -> &'a [u8] {
        match self.row(action) {
            Some(row) => self.plan.exception_name(row.internal, exception),
            None => &[],
        }
    }

    /// The name of an exception that an action tells outside.
    pub fn interface_name(&self, action: u32, exception: Exception) -> &'a [u8] {
        match self.row(action) {
            Some(row) => self.plan.exception_name(row.interface, exception),
            None => &[],
        }
    }

    /// Whether a role of an action has a handler for an exception.
    pub fn handles(&self, action: u32, role: u32, exception: Exception) -> bool {
        match self.role(action, role) {
            Some(row) => row
                .handlers
                .iter()
                .any(|handler| handler.exception == exception),
            None => false,
        }
    }

    /// Whether some role of an action has a handler for an exception.
    pub fn is_handled(&self, action: u32, exception: Exception) -> bool {
        (0..self.roles(action)).any(|role| self.handles(action, role, exception))
    }

    /// Whether a place of an action that has this outcome has ended in this way, which names what is told outside by its number among
    /// these names.
    pub fn is_way(&self, names: &[Name], action: u32, outcome: Outcome, way: Way) -> bool {
        match (outcome, way) {
            (Outcome::Commit, Way::Commit)
            | (Outcome::Undone, Way::Undone)
            | (Outcome::Failed, Way::Failed) => true,
            (Outcome::Signal(told), Way::Signal(name)) => {
                self.interface_name(action, told) == told_name(names, name)
            }
            _ => false,
        }
    }

    /// Says the name of an action.
    pub fn say_action(&self, page: &mut Page, action: u32) -> Result<(), OutOfMemory> {
        match self.row(action) {
            Some(row) => page.show(row.name.bytes()),
            None => Ok(()),
        }
    }

    /// Says the name of a role.
    pub fn say_role(&self, page: &mut Page, action: u32, role: u32) -> Result<(), OutOfMemory> {
        match self.role(action, role) {
            Some(row) => page.show(row.name.bytes()),
            None => Ok(()),
        }
    }

    /// Says the name of an object.
    pub fn say_object(&self, page: &mut Page, object: Object) -> Result<(), OutOfMemory> {
        if object < self.plan.objects() {
            page.show(self.plan.object_name(object))
        } else {
            Ok(())
        }
    }

    /// Says how a place of an action ends.
    pub fn say_outcome(
        &self,
        page: &mut Page,
        action: u32,
        outcome: Outcome,
    ) -> Result<(), OutOfMemory> {
        match outcome {
            Outcome::Commit => page.say(&[Piece::Text("commit")]),
            Outcome::Undone => page.say(&[Piece::Text("undone")]),
            Outcome::Failed => page.say(&[Piece::Text("failed")]),
            Outcome::Aborted => page.say(&[Piece::Text("aborted")]),
            Outcome::Signal(told) => page.say(&[
                Piece::Text("signal "),
                Piece::Word(self.interface_name(action, told)),
            ]),
        }
    }

    /// The action of a place.
    pub fn action_of(&self, place: Place) -> u32 {
        if place < self.plan.places() {
            self.plan.action_of(place)
        } else {
            0
        }
    }

    /// The name of a nested use of an action.
    fn use_name(&self, action: u32, nest: u32) -> &'a [u8] {
        match self.row(action) {
            Some(row) => match row.nests.as_slice().get(nest as usize) {
                Some(nest) => nest.name.bytes(),
                None => &[],
            },
            None => &[],
        }
    }

    /// Says a part of a path: the use that a place is of, with the number of its alternate after the first.
    fn say_use(&self, page: &mut Page, outer: Place, place: Place) -> Result<(), OutOfMemory> {
        let Some((nest, alternate)) = use_of(self.plan, outer, place) else {
            return Ok(());
        };
        page.say(&[
            Piece::Text("/"),
            Piece::Word(self.use_name(self.action_of(outer), nest)),
        ])?;
        if alternate > 0 {
            page.say(&[
                Piece::Text("."),
                Piece::Number(u64::from(alternate).saturating_add(1)),
            ])?;
        }
        Ok(())
    }

    /// Says the path of a place.
    pub fn say_path(&self, page: &mut Page, place: Place) -> Result<(), OutOfMemory> {
        let around = self.plan.around(place);
        self.say_action(page, self.action_of(self.plan.top_of(place)))?;
        for index in (0..around.len()).rev() {
            let inner = match index.checked_sub(1) {
                Some(before) => around.get(before).copied().unwrap_or(place),
                None => place,
            };
            if let Some(outer) = around.get(index) {
                self.say_use(page, *outer, inner)?;
            }
        }
        Ok(())
    }
}

/// The name of this number; a number that is no name's stands for `universal`.
fn told_name(names: &[Name], number: u32) -> &[u8] {
    let name = name_at(names, number);
    if name.is_empty() { b"universal" } else { name }
}

/// Says how a place ends; what is told outside goes by its number among the names of the page.
pub fn say_way(page: &mut Page, way: Way) -> Result<(), OutOfMemory> {
    match way {
        Way::Commit => page.say(&[Piece::Text("commit")]),
        Way::Undone => page.say(&[Piece::Text("undone")]),
        Way::Failed => page.say(&[Piece::Text("failed")]),
        Way::Signal(told) => page.say(&[Piece::Text("signal "), Piece::Named(told)]),
    }
}

/// Says a number that may be below 0.
pub fn say_value(page: &mut Page, value: i64) -> Result<(), OutOfMemory> {
    if value < 0 {
        page.say(&[Piece::Text("-")])?;
    }
    page.number(value.unsigned_abs())
}
