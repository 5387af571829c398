//! What the lines of a script up to some line have declared, by the numbers of names in the script.

ghost use Rattle.std.specs.Prelude.{◌≡◌, IfOk};
ghost use Rattle.script_checker.specs.inner.Rows.{parted};
ghost use Rattle.script_checker.specs.DeclaredSoFar.{plain_graph, nothing_declared, nothing_yet};

use crate::drill_list::DrillList;
use crate::number_list::NumberList;
use crate::open_action::OpenAction;
use crate::open_graph::{DeclaredGraph, OpenGraph};
use crate::table::Table;
use action_script::forms::script::Script;
use caa_base::written::name::Name;
use caa_base::written::rows::Rows;
use place_plan::drafts::draft::Draft;
use place_plan::drafts::draft_rows::{ActionRow, GraphRow, ObjectRow, PlayRow};
use std::alloc::{AllocError, Global};

/// What is declared outside the block that is open; lines at the top and the ends of blocks alone add to it.
pub struct Declared {
    /// The number of the name `universal`; where the script has no such name, it is no name's.
    pub universal: u32,
    /// The participants, objects, graphs and actions whose declaration has begun, by name.
    pub participants: NumberList,
    pub objects: NumberList,
    pub graph_names: NumberList,
    pub action_names: NumberList,
    /// What the plan has of participants and objects.
    pub participant_rows: Table<Name>,
    pub object_rows: Table<ObjectRow>,
    /// The plain graph, and the graphs that have ended.
    pub graphs: Table<DeclaredGraph>,
    /// The actions that have ended.
    pub actions: Table<ActionRow>,
    /// How deep each of them is, of how many places an instance of it is, and how many entries these may have, all that is nested
    /// in it counted.
    pub depths: Table<u64>,
    pub places: Table<u64>,
    pub bounds: Table<u64>,
    /// The plays, and how many places and entries they come to.
    pub plays: Table<PlayRow>,
    pub all_places: u64,
    pub whole_bound: u64,
    pub drills: DrillList,
    pub watches: Table<u32>,
}

/// A drop by a call of its own: what is checked of code with many ways out past such a value would have each part of it dropped on
/// each of them.
impl Drop for Declared {
    fn drop(self) {
        let Declared {
            universal: _universal,
            participants: _participants,
            objects: _objects,
            graph_names: _graph_names,
            action_names: _action_names,
            participant_rows: _participant_rows,
            object_rows: _object_rows,
            graphs: _graphs,
            actions: _actions,
            depths: _depths,
            places: _places,
            bounds: _bounds,
            plays: _plays,
            all_places: _all_places,
            whole_bound: _whole_bound,
            drills: _drills,
            watches: _watches,
        } = self;
    }
}

/// Where a line stands, with what the lines before it in the same block have said.
#[derive(Drop)]
pub enum Block {
    /// At the top, outside graphs and actions.
    Top,
    Graph(OpenGraph),
    /// In an action, in a body or a handler of it or not.
    Action(OpenAction),
}

/// What the lines so far have said.
#[derive(Drop)]
pub struct SoFar {
    pub declared: Declared,
    /// The block that the next line stands in.
    pub block: Block,
}

/// The graph of an action that names none: `universal`, and nothing below it.
fn plain_graph(alloc: Global, universal: u32) -> Result<DeclaredGraph, AllocError>
    ensures { IfOk result (λ graph. graph ≡ plain_graph universal) }
{
    let graph = OpenGraph::begun(alloc, universal)?;
    Ok(graph.end())
}

impl Declared {
    /// The draft of what is declared, with these rows of its graphs.
    pub fn into_draft(self, rows: Vec<GraphRow>) -> Draft
        ensures { result ≡ parted self rows.items }
    {
        let Declared {
            universal: _universal,
            participants: _participants,
            objects: _objects,
            graph_names: _graph_names,
            action_names: _action_names,
            participant_rows,
            object_rows,
            graphs: _graphs,
            actions,
            depths: _depths,
            places: _places,
            bounds: _bounds,
            plays,
            all_places: _all_places,
            whole_bound: _whole_bound,
            drills,
            watches,
        } = self;
        Draft {
            participants: Rows::from_vec(participant_rows.into_vec()),
            objects: Rows::from_vec(object_rows.into_vec()),
            graphs: Rows::from_vec(rows),
            actions: Rows::from_vec(actions.into_vec()),
            plays: Rows::from_vec(plays.into_vec()),
            drills: Rows::from_vec(drills.into_vec()),
            watches: Rows::from_vec(watches.into_vec()),
        }
    }
}

/// Nothing but the plain graph.
fn nothing_declared(alloc: Global, universal: u32) -> Result<Declared, AllocError>
    ensures { IfOk result (λ declared. declared ≡ nothing_declared universal) }
{
    let mut graphs = Table::new(alloc);
    graphs.push(plain_graph(alloc, universal)?)?;
    Ok(Declared {
        universal,
        participants: NumberList::new(alloc),
        objects: NumberList::new(alloc),
        graph_names: NumberList::new(alloc),
        action_names: NumberList::new(alloc),
        participant_rows: Table::new(alloc),
        object_rows: Table::new(alloc),
        graphs,
        actions: Table::new(alloc),
        depths: Table::new(alloc),
        places: Table::new(alloc),
        bounds: Table::new(alloc),
        plays: Table::new(alloc),
        all_places: 0,
        whole_bound: 0,
        drills: DrillList::new(alloc),
        watches: Table::new(alloc),
    })
}

impl SoFar {
    /// Before the first line of a script.
    pub fn new(alloc: Global, script: &Script) -> Result<SoFar, AllocError>
        ensures { IfOk result (λ so_far. so_far ≡ nothing_yet script.now.names) }
    {
        let declared = nothing_declared(alloc, script.universal())?;
        Ok(SoFar {
            declared,
            block: Block::Top,
        })
    }

    /// What is declared, once no line follows.
    pub fn end(self) -> Declared
        ensures { result ≡ self.declared }
    {
        self.declared
    }
}
