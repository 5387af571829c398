//! What is read of a message.

use script_documents::positions::{Position, Range};
use serde_json::Value;

/// What a client asks for, or tells.
#[derive(Clone, Copy)]
pub struct Call<'a> {
    /// By what the answer is known; none where none is wanted.
    pub id: Option<&'a Value>,
    pub method: &'a str,
    pub params: Option<&'a Value>,
}

/// The call that a message is; none where it is none, as an answer.
pub fn call_of(message: &Value) -> Option<Call<'_>> {
    let method = message.get("method").and_then(Value::as_str)?;
    Some(Call {
        id: message.get("id"),
        method,
        params: message.get("params"),
    })
}

/// Whether a message is an answer to something that was asked of the client.
pub fn is_answer(message: &Value) -> bool {
    message.get("result").is_some() || message.get("error").is_some()
}

/// A number of a member of this name; a number that is none counts as 0.
fn number_at(value: &Value, name: &str) -> Option<u64> {
    value.get(name).and_then(Value::as_u64)
}

/// A place in a document.
pub fn position_of(value: &Value) -> Option<Position> {
    Some(Position {
        line: number_at(value, "line")?,
        character: number_at(value, "character")?,
    })
}

/// A range of a document.
pub fn range_of(value: &Value) -> Option<Range> {
    Some(Range {
        start: position_of(value.get("start")?)?,
        end: position_of(value.get("end")?)?,
    })
}

/// The name of the document that parameters are about.
pub fn document_of(params: &Value) -> Option<&str> {
    params
        .get("textDocument")
        .and_then(|document| document.get("uri"))
        .and_then(Value::as_str)
}

/// A document and a place in it, where parameters have both.
pub fn place_of(params: &Value) -> Option<(&str, Position)> {
    let uri = document_of(params)?;
    let position = position_of(params.get("position")?)?;
    Some((uri, position))
}
