//! The names that the lines so far have declared, and what each means.

ghost use Rattle.std.specs.Prelude.{◌≡◌, ◌≤◌, ◌+◌, [], length, slice_index_or, IfOk, OnOk};
ghost use Rattle.caa_base.specs.Written.Lists.{index_of};
ghost use Rattle.script_checker.specs.DeclaredSoFar.{nothing_yet};
ghost use Rattle.name_uses.specs.inner.Scopes.{scope_of, no_names, said_at_top, said_in_graph, first_with, firsts_with, said_in_action, ended, said, roles_at, nests_at, own_at, internal_at, interface_at, face_at, exception_at, meaning_at};

use crate::thing::Thing;
use action_script::forms::form::Form;
use action_script::forms::script::Script;
use action_script::lines::sort::Sort;
use caa_base::written::rows::Rows;
use script_checker::table::Table;
use std::alloc::{AllocError, Global};
use std::mem::replace;

/// The names of an action that is open.
#[derive(Drop)]
pub struct OpenNames {
    /// Its graphs, that of an action which names none being 0.
    pub internal: usize,
    pub interface: usize,
    pub roles: Rows<u32>,
    pub nests: Table<u32>,
    /// The first action of each nested use.
    pub firsts: Table<Option<usize>>,
}

/// Where the next line stands.
#[derive(Drop)]
pub enum Inside {
    /// At the top, outside graphs and actions.
    Top,
    /// In a graph with these exceptions so far.
    Graph(Table<u32>),
    /// In an action.
    Action(OpenNames),
}

/// The names that the lines so far have declared, by their numbers in the script.
#[derive(Drop)]
pub struct Scope {
    pub universal: u32,
    pub participants: Table<u32>,
    pub objects: Table<u32>,
    pub graph_names: Table<u32>,
    pub action_names: Table<u32>,
    /// The exceptions of each graph that has ended, the plain one first.
    pub graphs: Table<Table<u32>>,
    /// The interface graph of each action that has ended.
    pub faces: Table<usize>,
    pub inside: Inside,
}

/// Where a name stands first in a list, or the list's length.
fn place_of(names: &[u32], name: u32) -> usize
    ensures place { result ≡ index_of name names.now }
    ensures within { result ≤ length names.now }
{
    for (place, other) in names.iter().enumerate() {
        if *other == name {
            return place;
        }
    }
    names.len()
}

impl OpenNames {
    /// Of an action that has just begun.
    fn new(alloc: Global) -> OpenNames
        ensures { result ≡ no_names }
    {
        OpenNames {
            internal: 0,
            interface: 0,
            roles: Rows::from_vec(Vec::new(alloc)),
            nests: Table::new(alloc),
            firsts: Table::new(alloc),
        }
    }
}

/// The first action of a nested use of which this was the first, with one more behind it.
fn first_with(first: Option<usize>, action: usize) -> Option<usize>
    ensures { result ≡ first_with first action }
{
    match first {
        Some(first) => Some(first),
        None => Some(action),
    }
}

/// Adds an action to those of the nested use of this number.
#[tactic(auto, using(std::proofs::lemmas::List::set_past))]
fn add_alternate(firsts: &mut Table<Option<usize>>, nest: usize, action: usize)
    ensures { firsts.new ≡ firsts_with firsts.old nest action }
{
    if let Some(first) = firsts.get_mut(nest) {
        *first = first_with(*first, action);
    }
}

/// The number of a graph by name, where these are declared.
fn graph_number(graph_names: &Table<u32>, name: u32) -> usize
    ensures { result ≡ index_of name graph_names.now + 1 }
{
    place_of(graph_names.as_slice(), name) + 1
}

/// Takes a line of an action, where these graphs and actions are declared.
fn say_in_action(
    alloc: Global,
    graph_names: &Table<u32>,
    action_names: &Table<u32>,
    open: &mut OpenNames,
    form: &Form,
) -> Result<(), AllocError>
    ensures { OnOk result (open.new ≡ said_in_action graph_names.now action_names.now open.old form.now) }
{
    match form {
        Form::Internal(graph) => open.internal = graph_number(graph_names, *graph),
        Form::Interface(graph) => open.interface = graph_number(graph_names, *graph),
        Form::Roles(roles) => {
            open.roles = Rows::from_vec(Vec::from_slice(alloc, roles.as_slice())?);
        }
        Form::Nest(nest, action, _) => {
            open.nests.push(*nest)?;
            open.firsts
                .push(Some(place_of(action_names.as_slice(), *action)))?;
        }
        Form::Alternate(nest, action) => {
            let nest = place_of(open.nests.as_slice(), *nest);
            let action = place_of(action_names.as_slice(), *action);
            add_alternate(&mut open.firsts, nest, action);
        }
        _ => {}
    }
    Ok(())
}

/// Takes a line of a graph.
fn say_in_graph(exceptions: &mut Table<u32>, form: &Form) -> Result<(), AllocError>
    ensures { OnOk result (exceptions.new ≡ said_in_graph exceptions.old form.now) }
{
    if let Form::Exception(name) = form {
        exceptions.push(*name)?;
    }
    Ok(())
}

impl Scope {
    /// Before the first line of a script.
    pub fn new(alloc: Global, script: &Script) -> Result<Scope, AllocError>
        ensures { IfOk result (λ scope. scope ≡ scope_of (nothing_yet script.now.names)) }
    {
        let mut plain = Table::new(alloc);
        plain.push(script.universal())?;
        let mut graphs = Table::new(alloc);
        graphs.push(plain)?;
        Ok(Scope {
            universal: script.universal(),
            participants: Table::new(alloc),
            objects: Table::new(alloc),
            graph_names: Table::new(alloc),
            action_names: Table::new(alloc),
            graphs,
            faces: Table::new(alloc),
            inside: Inside::Top,
        })
    }

    /// Takes a line at the top.
    fn say_at_top(&mut self, alloc: Global, form: &Form) -> Result<(), AllocError>
        ensures { OnOk result (self.new ≡ said_at_top self.old form.now) }
    {
        match form {
            Form::Participant(name) => self.participants.push(*name)?,
            Form::Object(name, _) => self.objects.push(*name)?,
            Form::Graph(name) => {
                let mut exceptions = Table::new(alloc);
                exceptions.push(self.universal)?;
                self.graph_names.push(*name)?;
                self.inside = Inside::Graph(exceptions);
            }
            Form::Action(name) => {
                self.action_names.push(*name)?;
                self.inside = Inside::Action(OpenNames::new(alloc));
            }
            _ => {}
        }
        Ok(())
    }

    /// Ends the block that is open.
    fn end(&mut self) -> Result<(), AllocError>
        ensures { OnOk result (self.new ≡ ended self.old self.old.inside) }
    {
        match replace(&mut self.inside, Inside::Top) {
            Inside::Top => Ok(()),
            Inside::Graph(exceptions) => self.graphs.push(exceptions),
            Inside::Action(open) => self.faces.push(open.interface),
        }
    }

    /// Takes a line. After an error the names are of no more use.
    pub fn say(&mut self, alloc: Global, form: &Form) -> Result<(), AllocError>
        ensures { OnOk result (self.new ≡ said self.old form.now) }
    {
        if let Form::End = form {
            return self.end();
        }
        match &mut self.inside {
            Inside::Top => self.say_at_top(alloc, form),
            Inside::Graph(exceptions) => say_in_graph(exceptions, form),
            Inside::Action(open) => {
                say_in_action(alloc, &self.graph_names, &self.action_names, open, form)
            }
        }
    }

    // ---- what a name means

    /// The roles of the action that is open.
    pub fn roles(&self) -> &[u32]
        ensures { result.now ≡ roles_at self.now.inside }
    {
        match &self.inside {
            Inside::Action(open) => open.roles.as_slice(),
            _ => &[],
        }
    }

    /// Its nested uses.
    pub fn nests(&self) -> &[u32]
        ensures { result.now ≡ nests_at self.now.inside }
    {
        match &self.inside {
            Inside::Action(open) => open.nests.as_slice(),
            _ => &[],
        }
    }

    /// The exceptions of the graph that is open.
    pub fn own(&self) -> &[u32]
        ensures { result.now ≡ own_at self.now.inside }
    {
        match &self.inside {
            Inside::Graph(exceptions) => exceptions.as_slice(),
            _ => &[],
        }
    }

    /// The internal graph of the action that is open.
    pub fn internal(&self) -> usize
        ensures { result ≡ internal_at self.now.inside }
    {
        match &self.inside {
            Inside::Action(open) => open.internal,
            _ => 0,
        }
    }

    /// Its interface graph.
    pub fn interface(&self) -> usize
        ensures { result ≡ interface_at self.now.inside }
    {
        match &self.inside {
            Inside::Action(open) => open.interface,
            _ => 0,
        }
    }

    /// The graph that the actions of a nested use tell outside.
    pub fn face(&self, nest: u32) -> usize
        ensures { result ≡ face_at self.now self.now.inside nest }
    {
        let Inside::Action(open) = &self.inside else {
            return 0;
        };
        let number = place_of(open.nests.as_slice(), nest);
        let first = open.firsts.as_slice().get(number).copied().unwrap_or(None);
        self.faces
            .as_slice()
            .get(first.unwrap_or(0))
            .copied()
            .unwrap_or(0)
    }

    /// The exceptions of a graph that has ended, the plain one being 0.
    pub fn exceptions(&self, graph: usize) -> &[u32]
        ensures { result.now ≡ slice_index_or self.now.graphs graph [] }
    {
        match self.graphs.as_slice().get(graph) {
            Some(exceptions) => exceptions.as_slice(),
            None => &[],
        }
    }

    /// The exception of this name of a graph that has ended.
    fn exception(&self, graph: usize, name: u32) -> Thing
        ensures { result ≡ exception_at self.now graph name }
    {
        Thing::Exception(graph, place_of(self.exceptions(graph), name))
    }

    /// What a name means that is declared as this.
    pub fn meaning(&self, sort: Sort, name: u32) -> Thing
        ensures { result ≡ meaning_at self.now sort name }
    {
        let action = self.faces.as_slice().len();
        match sort {
            Sort::Participant => {
                Thing::Participant(place_of(self.participants.as_slice(), name))
            }
            Sort::Object => Thing::Object(place_of(self.objects.as_slice(), name)),
            Sort::Graph => Thing::Graph(graph_number(&self.graph_names, name)),
            Sort::Action => Thing::Action(place_of(self.action_names.as_slice(), name)),
            Sort::Role => Thing::Role(action, place_of(self.roles(), name)),
            Sort::Nest => Thing::Nest(action, place_of(self.nests(), name)),
            Sort::Own => Thing::Exception(self.graphs.as_slice().len(), place_of(self.own(), name)),
            Sort::Inner => self.exception(self.internal(), name),
            Sort::Outer => self.exception(self.interface(), name),
            Sort::Told(nest) => self.exception(self.face(nest), name),
        }
    }
}
