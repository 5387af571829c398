ghost use Rattle.std.specs.Prelude.{◌≡◌, ◌==◌, ◌<◌, ◌≤◌, length, take};
ghost use Rattle.std.specs.List.{list_any};
ghost use Rattle.graph_maker.specs.Refusals.{bad_line, cause_of, exception_in, exceptions_in, has_room, is_taken, refusal_of, refused_from};

use crate::made_error::{MadeCause, MadeError};
use crate::set_names::is_made_name;
use crate::shape::bad_line;
use action_script::forms::form::Form;
use action_script::forms::script::Script;
use caa_base::written::name::name_at;
use cover_table::MOST_EXCEPTIONS;
use set_graphs::count_exceptions;

/// The most primitives of a graph: universal is one of its exceptions.
pub const MOST_PRIMITIVES: usize = MOST_EXCEPTIONS as usize - 1;

/// Whether a graph has room for the sets of so many primitives.
fn has_room(primitives: usize, most: u32) -> bool
    requires some_member { 0 < most }
    requires most_fits { most < 8 }
    ensures { result ≡ has_room primitives most }
{
    primitives <= MOST_PRIMITIVES
        && count_exceptions(primitives as u32, most) <= MOST_EXCEPTIONS as u64
}

/// Whether a name is that of one of the first exceptions, so many of them.
fn is_among(exceptions: &[u32], passed: usize, name: u32) -> bool
    ensures { result ≡ list_any (λ exception. exception == name) (take passed exceptions.now) }
{
    exceptions
        .iter()
        .take(passed)
        .any(|exception| *exception == name)
}

/// Whether a name may not be that of an exception which is declared after so many of all these.
fn is_taken(script: &Script, exceptions: &[u32], most: u32, passed: usize, name: u32) -> bool
    requires { exceptions.now ≡ exceptions_in script.now.lines }
    ensures { result ≡ is_taken script.now most passed name }
{
    is_among(exceptions, passed, name)
        || name == script.universal()
        || is_made_name(name_at(script.names(), name), exceptions.len() as u64, most)
}

/// The cause for which a line is refused that comes after so many of all these exceptions.
fn cause_of(
    script: &Script,
    exceptions: &[u32],
    most: u32,
    passed: usize,
    form: &Form,
) -> Option<MadeCause>
    requires some_member { 0 < most }
    requires most_fits { most < 8 }
    requires declared { exceptions.now ≡ exceptions_in script.now.lines }
    ensures { result ≡ cause_of script.now most passed form.now }
{
    match form {
        Form::Exception(name) if is_taken(script, exceptions, most, passed, *name) => Some(
            MadeCause::Twice,
        ),
        Form::Exception(_) if passed >= MOST_PRIMITIVES => Some(MadeCause::Limit),
        Form::End if !has_room(exceptions.len(), most) => Some(MadeCause::Limit),
        _ => None,
    }
}

/// How many exceptions a line declares.
fn declared_by(form: &Form) -> usize
    ensures value { result ≡ length (exception_in form.now) }
    ensures few { result ≤ 1 }
{
    if let Form::Exception(_) = form { 1 } else { 0 }
}

/// The first line of a script that has a cause.
fn first_refused(script: &Script, exceptions: &[u32], most: u32) -> Option<MadeError>
    requires some_member { 0 < most }
    requires most_fits { most < 8 }
    requires declared { exceptions.now ≡ exceptions_in script.now.lines }
    ensures { result ≡ refused_from script.now most 0 script.now.lines }
{
    let mut passed = 0;
    for line in script.lines() {
        if let Some(cause) = cause_of(script, exceptions, most, passed, &line.form) {
            return Some(MadeError {
                line: line.number,
                cause,
            });
        }
        passed += declared_by(&line.form);
    }
    None
}

/// Why no graph is made of a script, where none is.
pub fn refusal_of(script: &Script, exceptions: &[u32], most: u32) -> Option<MadeError>
    requires some_member { 0 < most }
    requires most_fits { most < 8 }
    requires declared { exceptions.now ≡ exceptions_in script.now.lines }
    ensures { result ≡ refusal_of script.now most }
{
    match bad_line(script) {
        Some(line) => Some(MadeError {
            line,
            cause: MadeCause::BadLine,
        }),
        None => first_refused(script, exceptions, most),
    }
}
