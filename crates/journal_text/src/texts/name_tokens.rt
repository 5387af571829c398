//! Who and what has a name, and names as tokens of a text.

ghost use Rattle.std.specs.Prelude.{◌≡◌, ◌<◌, ◌∷◌, length, true};
ghost use Rattle.place_plan.specs.Plans.Places.{graph_at, exception_name};
ghost use Rattle.journal_text.specs.Texts.Naming.{is_well_named};
ghost use Rattle.journal_text.specs.Texts.Text.{participant_name, object_name};
ghost use Rattle.journal_text.specs.inner.Tokens.{participant_in, object_in, exception_in, TokenRead};

use crate::texts::tokens::word_after_space;
use caa_base::written::entry::{Exception, Object, Participant};
use place_plan::plans::plan::Plan;

/// The participant of this name, or a number past the last one.
pub fn participant_in(plan: &Plan, word: &[u8]) -> Participant
    ensures { result ≡ participant_in plan.now word.now }
{
    for by in 0..plan.participants() {
        if plan.participant_name(by) == word {
            return by;
        }
    }
    plan.participants()
}

/// The object of this name, or a number past the last one.
pub fn object_in(plan: &Plan, word: &[u8]) -> Object
    ensures { result ≡ object_in plan.now word.now }
{
    for object in 0..plan.objects() {
        if plan.object_name(object) == word {
            return object;
        }
    }
    plan.objects()
}

/// The exception of this name in a graph, or a number past the last one.
pub fn exception_in(plan: &Plan, graph: u32, word: &[u8]) -> Exception
    ensures { result ≡ exception_in plan.now graph word.now }
{
    for exception in 0..plan.exceptions_of(graph) {
        if plan.exception_name(graph, exception) == word {
            return exception;
        }
    }
    plan.exceptions_of(graph)
}

/// The participant whose name stands after a space.
pub fn participant_at<'a>(plan: &Plan, text: &'a [u8]) -> Option<(Participant, &'a [u8])>
    requires { is_well_named plan.now ≡ true }
    ensures { TokenRead (λ r. r.now) (λ t. t < length plan.now.participants) (λ t. 32 ∷ participant_name plan.now t) text.now result }
{
    let (word, rest) = word_after_space(text)?;
    let by = participant_in(plan, word);
    if by < plan.participants() {
        Some((by, rest))
    } else {
        None
    }
}

/// The object whose name stands after a space.
pub fn object_at<'a>(plan: &Plan, text: &'a [u8]) -> Option<(Object, &'a [u8])>
    requires { is_well_named plan.now ≡ true }
    ensures { TokenRead (λ r. r.now) (λ o. o < length plan.now.objects) (λ o. 32 ∷ object_name plan.now o) text.now result }
{
    let (word, rest) = word_after_space(text)?;
    let object = object_in(plan, word);
    if object < plan.objects() {
        Some((object, rest))
    } else {
        None
    }
}

/// The exception of a graph whose name stands after a space.
pub fn exception_at<'a>(plan: &Plan, graph: u32, text: &'a [u8]) -> Option<(Exception, &'a [u8])>
    requires { is_well_named plan.now ≡ true }
    ensures { TokenRead (λ r. r.now) (λ x. x < (graph_at plan.now graph).count) (λ x. 32 ∷ exception_name plan.now graph x)
        text.now result }
{
    let (word, rest) = word_after_space(text)?;
    let exception = exception_in(plan, graph, word);
    if exception < plan.exceptions_of(graph) {
        Some((exception, rest))
    } else {
        None
    }
}
