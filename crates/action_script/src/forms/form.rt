ghost use Rattle.std.specs.Prelude.{◌≡◌, ◌≤◌, ◌++◌, length, map, IfOk, OnOk, IsTrue};
ghost use Rattle.action_script.specs.Lines.Kinds.{takes};
ghost use Rattle.action_script.specs.Forms.LineForms.{kind_of, fields_of, form_by, name_in, name_at, value_at, count_at, test_at, names_from};

use crate::lines::field::Field;
use crate::lines::kind::LineKind;
use caa_base::written::entry::Test;
use caa_base::written::rows::Rows;
use std::alloc::{AllocError, Global};

/// What one line of a script says. Each name is given by its number among the names of the script.
#[derive(Drop)]
pub enum Form {
    /// A participant of this name.
    Participant(u32),
    /// An object of this name, and its initial value.
    Object(u32, i64),
    /// The device refuses that put of this object which has this number, counted from 1.
    Drill(u32, u32),
    /// This object is watched.
    Watch(u32),
    /// A graph of this name begins.
    Graph(u32),
    /// An action of this name begins.
    Action(u32),
    /// The action is played by these participants.
    Play(u32, Rows<u32>),
    /// The graph has an exception of this name.
    Exception(u32),
    /// In the graph the first exception covers the second.
    Cover(u32, u32),
    /// The graph or the action ends.
    End,
    /// Exceptions that are raised in the action are those of this graph.
    Internal(u32),
    /// Exceptions that the action signals are those of this graph.
    Interface(u32),
    /// A refused put raises this exception.
    Fault(u32),
    /// The action uses these objects.
    Uses(Rows<u32>),
    /// The action has these roles.
    Roles(Rows<u32>),
    /// A nested use of this name, of this action, filled by these roles.
    Nest(u32, u32, Rows<u32>),
    /// The nested use carries the first exception out as the second.
    Map(u32, u32, u32),
    /// The nested use carries this exception out where it was undone.
    MapUndo(u32, u32),
    /// The nested use carries this exception out where it failed.
    MapFailure(u32, u32),
    /// The nested use has this further action, which is tried where those before it were undone.
    Alternate(u32, u32),
    /// The role names this exception where its action is aborted.
    Abort(u32, u32),
    /// The role names this exception where its action is aborted and its register meets the test.
    AbortTest(u32, Test, i64, u32),
    /// The body of this role begins.
    Body(u32),
    /// The handler of this role for this exception begins.
    Handler(u32, u32),
    /// The role reads this object.
    ReadStep(u32),
    /// The role puts this value into this object.
    PutStep(u32, i64),
    /// The role puts its register plus this value into this object.
    AddStep(u32, i64),
    /// The role mixes its register for so many rounds.
    WorkStep(u32),
    /// The role raises this exception where its register meets the test.
    CheckStep(Test, i64, u32),
    /// The role raises this exception.
    RaiseStep(u32),
    /// The role enters this nested use.
    EnterStep(u32),
    /// The body or handler ends well.
    DoneLine,
    /// The body or handler ends well, and signals this exception.
    SignalLine(u32),
    /// The body or handler asks for undo.
    UndoLine,
}

/// The name that a field says.
fn name_in(field: Option<Field>) -> u32
    ensures { result ≡ name_in field }
{
    match field {
        Some(Field::Name(number)) => number,
        _ => 0,
    }
}

pub(crate) fn name_at(fields: &[Field], index: usize) -> u32
    ensures { result ≡ name_at fields.now index }
{
    name_in(fields.get(index).copied())
}

fn value_at(fields: &[Field], index: usize) -> i64
    ensures { result ≡ value_at fields.now index }
{
    match fields.get(index) {
        Some(Field::Value(value)) => *value,
        _ => 0,
    }
}

fn count_at(fields: &[Field], index: usize) -> u32
    ensures { result ≡ count_at fields.now index }
{
    match fields.get(index) {
        Some(Field::Count(count)) => *count,
        _ => 0,
    }
}

fn test_at(fields: &[Field], index: usize) -> Test
    ensures { result ≡ test_at fields.now index }
{
    match fields.get(index) {
        Some(Field::Test(test)) => *test,
        _ => Test::Below,
    }
}

/// The names that the fields from an index on say.
fn names_from(alloc: Global, fields: &[Field], index: usize) -> Result<Rows<u32>, AllocError>
    requires { index ≤ length fields.now }
    ensures { IfOk result (λ names. names ≡ names_from fields.now index) }
{
    let names = fields[index..]
        .iter()
        .map(|field| name_in(Some(*field)))
        .collect(alloc)?;
    Ok(Rows::from_vec(names))
}

/// Adds the fields that these names say.
fn push_names(fields: &mut Vec<Field>, numbers: &[u32]) -> Result<(), AllocError>
    ensures { OnOk result (fields.new.items ≡ fields.old.items ++ map Field.Name numbers.now) }
{
    for number in numbers {
        fields.push(Field::Name(*number))?;
    }
    Ok(())
}

/// How the line of a form is worded: its kind, and what its words after the first say.
#[derive(Drop)]
pub struct Wording {
    pub kind: LineKind,
    pub fields: Vec<Field>,
}

/// A line of this kind with these fields.
fn line(alloc: Global, kind: LineKind, fields: &[Field]) -> Result<Wording, AllocError>
    ensures kind { IfOk result (λ line. line.kind ≡ kind) }
    ensures fields { IfOk result (λ line. line.fields.items ≡ fields.now) }
{
    let fields = fields.to_vec(alloc)?;
    Ok(Wording { kind, fields })
}

/// A line of this kind with these names, and then those.
fn name_line(
    alloc: Global,
    kind: LineKind,
    first: &[u32],
    list: &[u32],
) -> Result<Wording, AllocError>
    ensures kind { IfOk result (λ line. line.kind ≡ kind) }
    ensures fields { IfOk result (λ line. line.fields.items ≡ map Field.Name first.now ++ map Field.Name list.now) }
{
    let mut fields = Vec::new(alloc);
    push_names(&mut fields, first)?;
    push_names(&mut fields, list)?;
    Ok(Wording { kind, fields })
}

impl Form {
    /// How its line is worded.
    pub fn wording(&self, alloc: Global) -> Result<Wording, AllocError>
        ensures kind { IfOk result (λ line. line.kind ≡ kind_of self.now) }
        ensures fields { IfOk result (λ line. line.fields.items ≡ fields_of self.now) }
    {
        match self {
            Form::Participant(first) => name_line(alloc, LineKind::Participant, &[*first], &[]),
            Form::Object(object, value) => line(
                alloc,
                LineKind::Object,
                &[Field::Name(*object), Field::Value(*value)],
            ),
            Form::Drill(object, count) => line(
                alloc,
                LineKind::Drill,
                &[Field::Name(*object), Field::Count(*count)],
            ),
            Form::Watch(first) => name_line(alloc, LineKind::Watch, &[*first], &[]),
            Form::Graph(first) => name_line(alloc, LineKind::Graph, &[*first], &[]),
            Form::Action(first) => name_line(alloc, LineKind::Action, &[*first], &[]),
            Form::Play(first, list) => name_line(alloc, LineKind::Play, &[*first], list.as_slice()),
            Form::Exception(first) => name_line(alloc, LineKind::Exception, &[*first], &[]),
            Form::Cover(first, second) => name_line(
                alloc,
                LineKind::Cover,
                &[*first, *second],
                &[],
            ),
            Form::End => name_line(alloc, LineKind::End, &[], &[]),
            Form::Internal(first) => name_line(alloc, LineKind::Internal, &[*first], &[]),
            Form::Interface(first) => name_line(alloc, LineKind::Interface, &[*first], &[]),
            Form::Fault(first) => name_line(alloc, LineKind::Fault, &[*first], &[]),
            Form::Uses(list) => name_line(alloc, LineKind::Use, &[], list.as_slice()),
            Form::Roles(list) => name_line(alloc, LineKind::Roles, &[], list.as_slice()),
            Form::Nest(first, second, list) => name_line(
                alloc,
                LineKind::Nest,
                &[*first, *second],
                list.as_slice(),
            ),
            Form::Map(first, second, third) => name_line(
                alloc,
                LineKind::Map,
                &[*first, *second, *third],
                &[],
            ),
            Form::MapUndo(first, second) => name_line(
                alloc,
                LineKind::MapUndo,
                &[*first, *second],
                &[],
            ),
            Form::MapFailure(first, second) => name_line(
                alloc,
                LineKind::MapFailure,
                &[*first, *second],
                &[],
            ),
            Form::Alternate(first, second) => name_line(
                alloc,
                LineKind::Alternate,
                &[*first, *second],
                &[],
            ),
            Form::Abort(first, second) => name_line(
                alloc,
                LineKind::Abort,
                &[*first, *second],
                &[],
            ),
            Form::AbortTest(role, test, value, exception) => line(
                alloc,
                LineKind::AbortTest,
                &[
                    Field::Name(*role),
                    Field::Test(*test),
                    Field::Value(*value),
                    Field::Name(*exception),
                ],
            ),
            Form::Body(first) => name_line(alloc, LineKind::Body, &[*first], &[]),
            Form::Handler(first, second) => name_line(
                alloc,
                LineKind::Handler,
                &[*first, *second],
                &[],
            ),
            Form::ReadStep(first) => name_line(alloc, LineKind::Read, &[*first], &[]),
            Form::PutStep(object, value) => line(
                alloc,
                LineKind::Put,
                &[Field::Name(*object), Field::Value(*value)],
            ),
            Form::AddStep(object, value) => line(
                alloc,
                LineKind::Add,
                &[Field::Name(*object), Field::Value(*value)],
            ),
            Form::WorkStep(count) => line(alloc, LineKind::Work, &[Field::Count(*count)]),
            Form::CheckStep(test, value, exception) => line(
                alloc,
                LineKind::Check,
                &[
                    Field::Test(*test),
                    Field::Value(*value),
                    Field::Name(*exception),
                ],
            ),
            Form::RaiseStep(first) => name_line(alloc, LineKind::Raise, &[*first], &[]),
            Form::EnterStep(first) => name_line(alloc, LineKind::Enter, &[*first], &[]),
            Form::DoneLine => name_line(alloc, LineKind::Done, &[], &[]),
            Form::SignalLine(first) => name_line(alloc, LineKind::Signal, &[*first], &[]),
            Form::UndoLine => name_line(alloc, LineKind::Undo, &[], &[]),
        }
    }

    /// The form of a kind and its fields.
    pub(crate) fn by(alloc: Global, kind: LineKind, fields: &[Field]) -> Result<Form, AllocError>
        requires { IsTrue (takes kind (length fields.now)) }
        ensures { IfOk result (λ form. form ≡ form_by kind fields.now) }
    {
        Ok(match kind {
            LineKind::Participant => Form::Participant(name_at(fields, 0)),
            LineKind::Object => Form::Object(name_at(fields, 0), value_at(fields, 1)),
            LineKind::Drill => Form::Drill(name_at(fields, 0), count_at(fields, 1)),
            LineKind::Watch => Form::Watch(name_at(fields, 0)),
            LineKind::Graph => Form::Graph(name_at(fields, 0)),
            LineKind::Action => Form::Action(name_at(fields, 0)),
            LineKind::Play => Form::Play(name_at(fields, 0), names_from(alloc, fields, 1)?),
            LineKind::Exception => Form::Exception(name_at(fields, 0)),
            LineKind::Cover => Form::Cover(name_at(fields, 0), name_at(fields, 1)),
            LineKind::End => Form::End,
            LineKind::Internal => Form::Internal(name_at(fields, 0)),
            LineKind::Interface => Form::Interface(name_at(fields, 0)),
            LineKind::Fault => Form::Fault(name_at(fields, 0)),
            LineKind::Use => Form::Uses(names_from(alloc, fields, 0)?),
            LineKind::Roles => Form::Roles(names_from(alloc, fields, 0)?),
            LineKind::Nest => Form::Nest(
                name_at(fields, 0),
                name_at(fields, 1),
                names_from(alloc, fields, 2)?,
            ),
            LineKind::Map => Form::Map(name_at(fields, 0), name_at(fields, 1), name_at(fields, 2)),
            LineKind::MapUndo => Form::MapUndo(name_at(fields, 0), name_at(fields, 1)),
            LineKind::MapFailure => Form::MapFailure(name_at(fields, 0), name_at(fields, 1)),
            LineKind::Alternate => Form::Alternate(name_at(fields, 0), name_at(fields, 1)),
            LineKind::Abort => Form::Abort(name_at(fields, 0), name_at(fields, 1)),
            LineKind::AbortTest => Form::AbortTest(
                name_at(fields, 0),
                test_at(fields, 1),
                value_at(fields, 2),
                name_at(fields, 3),
            ),
            LineKind::Body => Form::Body(name_at(fields, 0)),
            LineKind::Handler => Form::Handler(name_at(fields, 0), name_at(fields, 1)),
            LineKind::Read => Form::ReadStep(name_at(fields, 0)),
            LineKind::Put => Form::PutStep(name_at(fields, 0), value_at(fields, 1)),
            LineKind::Add => Form::AddStep(name_at(fields, 0), value_at(fields, 1)),
            LineKind::Work => Form::WorkStep(count_at(fields, 0)),
            LineKind::Check => Form::CheckStep(
                test_at(fields, 0),
                value_at(fields, 1),
                name_at(fields, 2),
            ),
            LineKind::Raise => Form::RaiseStep(name_at(fields, 0)),
            LineKind::Enter => Form::EnterStep(name_at(fields, 0)),
            LineKind::Done => Form::DoneLine,
            LineKind::Signal => Form::SignalLine(name_at(fields, 0)),
            LineKind::Undo => Form::UndoLine,
        })
    }
}
