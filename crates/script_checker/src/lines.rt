//! On which line of a script each part of its plan is declared.

ghost use Rattle.std.specs.Prelude.{◌≡◌, ◌<◌, ◌^◌, length, map, slice_get, IfOk, option_copied};
ghost use Rattle.action_script.specs.Words.NumberedNames.{number_in};
ghost use Rattle.place_plan.specs.Plans.Places.{exception_name};
ghost use Rattle.script_checker.specs.LinesOfPlan.{declares, from_first, is_end, up_to_end, first_number, step_numbers, program_lines, handler_lines, role_lines, use_line, lines_in, action_lines, lines_of, last_line, line_after, handler_in, program_of, program_at};

use crate::action::program::goes_on;
use action_script::forms::form::Form;
use action_script::forms::script::{Line, Script, number_in};
use caa_base::written::entry::{Exception, OutOfMemory};
use caa_base::written::name::Name;
use caa_base::written::rows::Rows;
use place_plan::drafts::draft_rows::{ActionRow, HandlerRow, NestRow, RoleRow};
use place_plan::plans::plan::Plan;
use std::alloc::Global;

/// The lines of a body or a handler, by their numbers in the text.
#[derive(Drop)]
pub struct ProgramLines {
    /// The line that begins it.
    pub first: u32,
    /// Those of its steps, in their order, and behind them that of its verdict, where it has a line for it.
    pub steps: Rows<u32>,
}

/// The lines of the handler for an exception.
#[derive(Drop)]
pub struct HandlerLines {
    /// The exception, by its number in the internal graph of the action.
    pub exception: Exception,
    pub program: Option<ProgramLines>,
}

/// The lines of a role.
#[derive(Drop)]
pub struct RoleLines {
    /// Those of its body; none where the action has no line for it.
    pub body: Option<ProgramLines>,
    /// Those of its handlers, in the order that they have in the plan.
    pub handlers: Rows<HandlerLines>,
}

/// The lines of an action.
#[derive(Drop)]
pub struct ActionLines {
    /// The line that begins it.
    pub first: u32,
    /// The line that names its roles.
    pub roles_line: u32,
    /// The lines of its nested uses, in their order.
    pub uses: Rows<u32>,
    /// The lines of its roles, in their order.
    pub roles: Rows<RoleLines>,
}

/// The lines of a script that declare what its plan has, action by action in the order of the plan.
///
/// Each has its number in the text, counted from 1. A part of a plan that is no part of the script has the number 0, or no lines.
#[derive(Drop)]
pub struct Lines {
    pub actions: Rows<ActionLines>,
}

/// What a line declares or begins; names go by their numbers in the script.
#[derive(Clone, Copy)]
pub(crate) enum Heading {
    /// The action of this name.
    Action(u32),
    /// The roles of an action.
    Roles,
    /// The nested use of this name.
    Nest(u32),
    /// The body of the role of this name.
    Body(u32),
    /// The handler of a role for an exception.
    Handler(u32, u32),
}

// ---- finding lines

/// Whether a line declares or begins just this.
fn declares(heading: Heading, form: &Form) -> bool
    ensures { result ≡ declares heading form.now }
{
    match (heading, form) {
        (Heading::Action(name), Form::Action(action)) => *action == name,
        (Heading::Roles, Form::Roles(_)) => true,
        (Heading::Nest(name), Form::Nest(nest, _, _)) => *nest == name,
        (Heading::Body(name), Form::Body(role)) => *role == name,
        (Heading::Handler(name, handled), Form::Handler(role, exception)) => {
            *role == name && *exception == handled
        }
        _ => false,
    }
}

/// The lines from the first on that declares this; none where none does.
fn from_first(heading: Heading, lines: &[Line]) -> &[Line]
    ensures { result.now ≡ from_first heading lines.now }
{
    for index in 0..lines.len() {
        if declares(heading, &lines[index].form) {
            return &lines[index..];
        }
    }
    &[]
}

/// Whether a line ends a graph or an action.
fn is_end(form: &Form) -> bool
    ensures { result ≡ is_end form.now }
{
    matches!(form, Form::End)
}

/// The lines before the first that ends a graph or an action.
fn up_to_end(lines: &[Line]) -> &[Line]
    ensures { result.now ≡ up_to_end lines.now }
{
    for index in 0..lines.len() {
        if is_end(&lines[index].form) {
            return &lines[..index];
        }
    }
    lines
}

/// The number of the first of some lines.
fn first_number(lines: &[Line]) -> u32
    ensures { result ≡ first_number lines.now }
{
    match lines {
        [line, ..] => line.number,
        [] => 0,
    }
}

// ---- the lines of a plan

/// The numbers of the lines from the front on that are steps or verdicts.
fn step_numbers(alloc: Global, lines: &[Line]) -> Result<Rows<u32>, OutOfMemory>
    ensures { IfOk result (λ numbers. numbers ≡ step_numbers lines.now) }
{
    let mut numbers = Vec::new(alloc);
    for index in 0..lines.len() {
        let line = &lines[index];
        if !goes_on(&line.form) {
            return Ok(Rows::from_vec(numbers));
        }
        numbers.push(line.number)?;
    }
    Ok(Rows::from_vec(numbers))
}

/// The lines of a body or a handler, of those from the line on that begins it.
fn program_lines(alloc: Global, lines: &[Line]) -> Result<Option<ProgramLines>, OutOfMemory>
    ensures { IfOk result (λ program. program ≡ program_lines lines.now) }
{
    match lines {
        [line, rest @ ..] => Ok(Some(ProgramLines {
            first: line.number,
            steps: step_numbers(alloc, rest)?,
        })),
        [] => Ok(None),
    }
}

/// An action of a plan that is looked up in the lines of a script: its own lines there, and the names of the script.
#[derive(Clone, Copy)]
struct Subject<'a> {
    names: &'a [Name],
    plan: &'a Plan,
    /// The number of the graph of the exceptions that can be raised in the action.
    internal: u32,
    block: &'a [Line],
}

/// The lines of a handler of a role, by the name of the role.
fn handler_lines(
    alloc: Global,
    subject: &Subject,
    role: u32,
    handler: &HandlerRow,
) -> Result<HandlerLines, OutOfMemory>
    requires { length subject.now.names.now < 2 ^ 32 }
    ensures { IfOk result (λ lines. lines ≡ handler_lines subject.now.names.now (exception_name subject.now.plan.now subject.now.internal) subject.now.block.now role handler.now) }
{
    let name = subject
        .plan
        .exception_name(subject.internal, handler.exception);
    let heading = Heading::Handler(role, number_in(subject.names, name));
    Ok(HandlerLines {
        exception: handler.exception,
        program: program_lines(alloc, from_first(heading, subject.block))?,
    })
}

/// The lines of the handlers of a role.
fn all_handlers(
    alloc: Global,
    subject: &Subject,
    role: u32,
    handlers: &[HandlerRow],
) -> Result<Vec<HandlerLines>, OutOfMemory>
    requires { length subject.now.names.now < 2 ^ 32 }
    ensures { IfOk result (λ lines. lines.items ≡ map (handler_lines subject.now.names.now (exception_name subject.now.plan.now subject.now.internal) subject.now.block.now role) handlers.now) }
{
    let mut lines = Vec::new(alloc);
    for handler in handlers {
        lines.push(handler_lines(alloc, subject, role, handler)?)?;
    }
    Ok(lines)
}

/// The lines of a role.
fn role_lines(alloc: Global, subject: &Subject, role: &RoleRow) -> Result<RoleLines, OutOfMemory>
    requires { length subject.now.names.now < 2 ^ 32 }
    ensures { IfOk result (λ lines. lines ≡ role_lines subject.now.names.now (exception_name subject.now.plan.now subject.now.internal) subject.now.block.now role.now) }
{
    let name = number_in(subject.names, role.name.bytes());
    let body = program_lines(alloc, from_first(Heading::Body(name), subject.block))?;
    let handlers = all_handlers(alloc, subject, name, role.handlers.as_slice())?;
    Ok(RoleLines {
        body,
        handlers: Rows::from_vec(handlers),
    })
}

/// The lines of all roles of an action.
fn all_roles(
    alloc: Global,
    subject: &Subject,
    roles: &[RoleRow],
) -> Result<Vec<RoleLines>, OutOfMemory>
    requires { length subject.now.names.now < 2 ^ 32 }
    ensures { IfOk result (λ lines. lines.items ≡ map (role_lines subject.now.names.now (exception_name subject.now.plan.now subject.now.internal) subject.now.block.now) roles.now) }
{
    let mut lines = Vec::new(alloc);
    for role in roles {
        lines.push(role_lines(alloc, subject, role)?)?;
    }
    Ok(lines)
}

/// The line of a nested use.
fn use_line(subject: &Subject, nest: &NestRow) -> u32
    requires { length subject.now.names.now < 2 ^ 32 }
    ensures { result ≡ use_line subject.now.names.now subject.now.block.now nest.now }
{
    let name = number_in(subject.names, nest.name.bytes());
    first_number(from_first(Heading::Nest(name), subject.block))
}

/// The lines of all nested uses of an action.
fn all_uses(alloc: Global, subject: &Subject, nests: &[NestRow]) -> Result<Vec<u32>, OutOfMemory>
    requires { length subject.now.names.now < 2 ^ 32 }
    ensures { IfOk result (λ lines. lines.items ≡ map (use_line subject.now.names.now subject.now.block.now) nests.now) }
{
    let mut lines = Vec::new(alloc);
    for nest in nests {
        lines.push(use_line(subject, nest))?;
    }
    Ok(lines)
}

/// The lines of an action.
fn lines_in(
    alloc: Global,
    subject: &Subject,
    action: &ActionRow,
) -> Result<ActionLines, OutOfMemory>
    requires { length subject.now.names.now < 2 ^ 32 }
    ensures { IfOk result (λ lines. lines ≡ lines_in subject.now.names.now (exception_name subject.now.plan.now subject.now.internal) action.now subject.now.block.now) }
{
    let uses = all_uses(alloc, subject, action.nests.as_slice())?;
    let roles = all_roles(alloc, subject, action.roles.as_slice())?;
    Ok(ActionLines {
        first: first_number(subject.block),
        roles_line: first_number(from_first(Heading::Roles, subject.block)),
        uses: Rows::from_vec(uses),
        roles: Rows::from_vec(roles),
    })
}

/// The lines of an action of a plan.
fn action_lines(
    alloc: Global,
    script: &Script,
    plan: &Plan,
    action: &ActionRow,
) -> Result<ActionLines, OutOfMemory>
    ensures { IfOk result (λ lines. lines ≡ action_lines script.now plan.now action.now) }
{
    script.are_script();
    let name = number_in(script.names(), action.name.bytes());
    let subject = Subject {
        names: script.names(),
        plan,
        internal: action.internal,
        block: up_to_end(from_first(Heading::Action(name), script.lines())),
    };
    lines_in(alloc, &subject, action)
}

/// On which lines of a script the actions of its plan, their roles, nested uses, bodies, handlers and steps are declared.
///
/// `OutOfMemory` comes where no memory is found, and tells nothing of the script. Both stay as they were.
pub fn lines_of(alloc: Global, script: &Script, plan: &Plan) -> Result<Lines, OutOfMemory>
    ensures { IfOk result (λ lines. lines ≡ lines_of script.now plan.now) }
{
    let actions = plan.action_rows();
    let mut lines = Vec::new(alloc);
    for action in actions {
        lines.push(action_lines(alloc, script, plan, action)?)?;
    }
    Ok(Lines {
        actions: Rows::from_vec(lines),
    })
}

// ---- lines of programs

impl ProgramLines {
    /// The line where it ends: that of its verdict, else that of its last step, else the one that begins it.
    pub fn last(&self) -> u32
        ensures { result ≡ last_line self.now }
    {
        match self.steps.as_slice().last() {
            Some(line) => *line,
            None => self.first,
        }
    }

    /// Where somebody stands who has made so many of its steps: at the next one, or at the end where there is none.
    pub fn after(&self, made: usize) -> u32
        ensures { result ≡ line_after self.now made }
    {
        match self.steps.as_slice().get(made) {
            Some(line) => *line,
            None => self.last(),
        }
    }
}

/// The lines of the handler for an exception.
fn handler_in(handlers: &[HandlerLines], exception: Exception) -> Option<&ProgramLines>
    ensures { option_copied result ≡ handler_in handlers.now exception }
{
    for handler in handlers {
        if handler.exception == exception {
            return handler.program.as_ref();
        }
    }
    None
}

impl RoleLines {
    /// The lines of its body, or of its handler for this exception.
    pub fn program(&self, handled: Option<Exception>) -> Option<&ProgramLines>
        ensures { option_copied result ≡ program_of self.now handled }
    {
        match handled {
            None => self.body.as_ref(),
            Some(exception) => handler_in(self.handlers.as_slice(), exception),
        }
    }
}

impl Lines {
    /// The lines of the action of this number.
    pub fn action(&self, action: u32) -> Option<&ActionLines>
        ensures { option_copied result ≡ slice_get self.now.actions action }
    {
        self.actions.as_slice().get(action as usize)
    }

    /// The lines of the body of a role of an action, or of its handler for this exception, all by their numbers in the plan; none
    /// where there is no such body or handler, or no line for it.
    pub fn program(
        &self,
        action: u32,
        role: u32,
        handled: Option<Exception>,
    ) -> Option<&ProgramLines>
        ensures { option_copied result ≡ program_at self.now action role handled }
    {
        let lines = self.actions.as_slice().get(action as usize)?;
        let role = lines.roles.as_slice().get(role as usize)?;
        role.program(handled)
    }
}
