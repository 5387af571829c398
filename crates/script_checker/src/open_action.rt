//! An action that is being declared, and its parts.

ghost use Rattle.std.specs.Prelude.{◌≡◌};
ghost use Rattle.script_checker.specs.DeclaredSoFar.{named, begun_nest};
ghost use Rattle.script_checker.specs.InAction.{begun_program};

use crate::number_list::NumberList;
use crate::role_list::RoleList;
use crate::table::Table;
use place_plan::drafts::draft_rows::{NestRow, Step};
use place_plan::drafts::object_list::ObjectList;
use std::alloc::Global;

/// What may come out of a nested use, to be carried out of it as an exception of the action around it.
#[derive(Clone, Copy)]
pub enum Carried {
    /// An exception, by its number in the graph of those that the use tells outside.
    Exception(u32),
    Undo,
    Failure,
}

/// A nested use of the action that is being declared, and what was said of it.
#[derive(Drop)]
pub struct OpenNest {
    pub row: NestRow,
    /// The exceptions that have a `map` line.
    pub mapped: NumberList,
    /// Whether it has a `mapundo` line.
    pub has_undo: bool,
    /// Whether it has a `mapfailure` line.
    pub has_failure: bool,
}

/// A body or a handler that is being declared.
#[derive(Drop)]
pub struct OpenProgram {
    /// The number of its role.
    pub role: u32,
    /// The exception that it handles; none for a body.
    pub exception: Option<u32>,
    pub steps: Table<Step>,
}

/// An action that is being declared.
pub struct OpenAction {
    /// Its name, by its number in the script.
    pub name: u32,
    /// Its graphs and its fault exception, where they were said.
    pub internal: Option<u32>,
    pub interface: Option<u32>,
    pub fault: Option<u32>,
    pub uses: ObjectList,
    /// Its roles by name, and what they do.
    pub roles: NumberList,
    pub role_rows: RoleList,
    /// Those of its roles that have a body.
    pub bodies: Table<u32>,
    /// Its nested uses by name, and what was said of them.
    pub nest_names: NumberList,
    pub nests: Table<OpenNest>,
    /// The body or handler that the next line stands in.
    pub program: Option<OpenProgram>,
}

/// A drop by a call of its own, as `Declared` has one: what is checked of code with ways out past such a value is shorter.
impl Drop for OpenAction {
    fn drop(self) {
        let OpenAction {
            name: _name,
            internal: _internal,
            interface: _interface,
            fault: _fault,
            uses: _uses,
            roles: _roles,
            role_rows: _role_rows,
            bodies: _bodies,
            nest_names: _nest_names,
            nests: _nests,
            program: _program,
        } = self;
    }
}

impl OpenNest {
    /// A nested use of which nothing is mapped yet.
    pub fn begun(alloc: Global, row: NestRow) -> OpenNest
        ensures { result ≡ begun_nest row }
    {
        OpenNest {
            row,
            mapped: NumberList::new(alloc),
            has_undo: false,
            has_failure: false,
        }
    }
}

impl OpenProgram {
    /// A body or a handler without steps.
    pub fn begun(alloc: Global, role: u32, exception: Option<u32>) -> OpenProgram
        ensures { result ≡ begun_program role exception }
    {
        OpenProgram {
            role,
            exception,
            steps: Table::new(alloc),
        }
    }
}

impl OpenAction {
    /// An action of which nothing is said yet but its name.
    pub fn begun(alloc: Global, name: u32) -> OpenAction
        ensures { result ≡ named name }
    {
        OpenAction {
            name,
            internal: None,
            interface: None,
            fault: None,
            uses: ObjectList::new(alloc),
            roles: NumberList::new(alloc),
            role_rows: RoleList::new(alloc),
            bodies: Table::new(alloc),
            nest_names: NumberList::new(alloc),
            nests: Table::new(alloc),
            program: None,
        }
    }

    /// Its objects, its roles and its nested uses, once no line follows.
    pub fn into_parts(self) -> (ObjectList, RoleList, Vec<OpenNest>)
        ensures objects { result.0 ≡ self.uses }
        ensures roles { result.1 ≡ self.role_rows }
        ensures nests { result.2.items ≡ self.nests }
    {
        let OpenAction {
            name: _name,
            internal: _internal,
            interface: _interface,
            fault: _fault,
            uses,
            roles: _roles,
            role_rows,
            bodies: _bodies,
            nest_names: _nest_names,
            nests,
            program: _program,
        } = self;
        (uses, role_rows, nests.into_vec())
    }
}
