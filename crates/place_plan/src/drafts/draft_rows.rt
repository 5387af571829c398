ghost use Rattle.std.specs.Prelude.{◌≡◌, ◌∷◌, [], IfOk, codes};
ghost use Rattle.cover_table.specs.Cover.{IsSound};
ghost use Rattle.exception_graph.specs.Chains.{IsOrderOf};

use crate::drafts::object_list::ObjectList;
use caa_base::written::entry::{Exception, Object, OutOfMemory, Participant, Test, Verdict};
use caa_base::written::name::Name;
use caa_base::written::rows::Rows;
use exception_graph::Graph;
use std::alloc::Global;

/// A step of a role.
#[derive(Clone, Copy)]
pub enum Step {
    /// The register becomes the value of the object.
    Read(Object),
    /// The object becomes this value.
    Put(Object, i64),
    /// The object becomes the register plus this value, kept within the range of values.
    Add(Object, i64),
    /// The register is mixed for this many rounds.
    Work(u32),
    /// The exception is raised if the register passes this test.
    Check {
        test: Test,
        value: i64,
        exception: Exception,
    },
    /// The exception is raised.
    Raise(Exception),
    /// The role enters the nested use of this number.
    Enter(u32),
}

/// The steps of a body or a handler, and the verdict at their end.
#[derive(Drop)]
pub struct Program {
    pub steps: Rows<Step>,
    pub verdict: Verdict,
}

/// What a role does once this exception is resolved.
#[derive(Drop)]
pub struct HandlerRow {
    pub exception: Exception,
    pub program: Program,
}

/// The exception that a role names when its place is aborted.
#[derive(Clone, Copy)]
pub enum AbortRow {
    /// None.
    Never,
    /// This one.
    Always(Exception),
    /// This one, if the register passes this test.
    Where {
        test: Test,
        value: i64,
        exception: Exception,
    },
}

/// A role of an action.
#[derive(Drop)]
pub struct RoleRow {
    pub name: Name,
    /// What it does as long as nothing is raised.
    pub body: Program,
    pub handlers: Rows<HandlerRow>,
    /// What it names when its place is aborted.
    pub abort: AbortRow,
}

/// A use of other actions inside an action.
///
/// Its actions are tried in order, as the alternates of a recovery block are (Randell 1975).
#[derive(Drop)]
pub struct NestRow {
    pub name: Name,
    /// The numbers of its actions, its alternates: the first is entered, and each further one where the one before it was undone.
    pub actions: Rows<u32>,
    /// Which roles of the enclosing action play the roles of its actions.
    pub roles: Rows<u32>,
    /// What each exception that its actions can tell is in the enclosing action.
    pub maps: Rows<Exception>,
    /// What the undo of its last action is in the enclosing action.
    pub undo: Exception,
    /// What its failure is in the enclosing action.
    pub failure: Exception,
}

/// An action.
#[derive(Drop)]
pub struct ActionRow {
    pub name: Name,
    /// The number of the graph of the exceptions that are raised inside it.
    pub internal: u32,
    /// The number of the graph of the exceptions that it tells outside.
    pub interface: u32,
    /// What a refused put raises.
    pub fault: Exception,
    /// The objects that it uses, in ascending order.
    pub objects: ObjectList,
    pub roles: Rows<RoleRow>,
    pub nests: Rows<NestRow>,
}

/// A graph of exceptions.
#[derive(Drop)]
pub struct GraphRow {
    /// Which exceptions cover which.
    pub graph: Graph,
    /// Their names, in the order of their numbers.
    pub names: Rows<Name>,
}

/// The names of the plain graph.
fn universal_alone(alloc: Global) -> Result<Rows<Name>, OutOfMemory>
    ensures { IfOk result (λ names. names ≡ codes "universal" ∷ []) }
{
    let universal = Name::from_bytes(alloc, b"universal")?;
    let names = vec![in alloc; universal]?;
    Ok(Rows::from_vec(names))
}

impl GraphRow {
    /// The plain graph, whose one exception is `universal`. It stands first in each plan.
    pub fn plain(alloc: Global) -> Result<GraphRow, OutOfMemory>
        ensures names { IfOk result (λ row. row.names ≡ codes "universal" ∷ []) }
        ensures order { IfOk result (λ row. IsOrderOf 1 [] row.graph) }
        ensures sound { IfOk result (λ row. IsSound row.graph) }
    {
        let names = universal_alone(alloc)?;
        match Graph::build(alloc, 1, &[]) {
            Ok(graph) => {
                graph.is_sound();
                Ok(GraphRow { graph, names })
            }
            Err(_) => Err(OutOfMemory),
        }
    }
}

/// An external object.
#[derive(Drop)]
pub struct ObjectRow {
    pub name: Name,
    /// Its value before the first entry.
    pub initial: i64,
}

/// An action that is played at the top, and by whom.
#[derive(Drop)]
pub struct PlayRow {
    /// The number of the action.
    pub action: u32,
    /// The participants that play its roles, in the order of the roles.
    pub who: Rows<Participant>,
}
