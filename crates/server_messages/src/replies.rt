//! Messages to a client.

use script_documents::positions::{Position, Range};
use serde_json::{Map, Value, put};
use std::alloc::{AllocError, Global};

/// Why a request isn't answered with what it asked for, as the protocol numbers it.
#[derive(Clone, Copy, Debug, PartialEq, Eq)]
pub enum Fault {
    /// The message is no JSON.
    Parse,
    /// The message is none of the protocol, or the server was told to shut down.
    InvalidRequest,
    /// No such method is known.
    UnknownMethod,
    /// The parameters aren't those of the method.
    InvalidParams,
    /// The server isn't initialized.
    NotInitialized,
    /// What was asked for can't be done.
    Failed,
    /// The client has cancelled the request.
    Cancelled,
}

impl Fault {
    /// Its number.
    fn code(self) -> i64 {
        match self {
            Fault::Parse => -32700,
            Fault::InvalidRequest => -32600,
            Fault::UnknownMethod => -32601,
            Fault::InvalidParams => -32602,
            Fault::NotInitialized => -32002,
            Fault::Failed => -32803,
            Fault::Cancelled => -32800,
        }
    }
}

/// An object that is put together member by member.
#[derive(Drop)]
pub struct Members {
    alloc: Global,
    map: Map<String, Value>,
}

impl Members {
    /// One without members.
    pub fn new(alloc: Global) -> Members {
        Members {
            alloc,
            map: Map::new(alloc),
        }
    }

    /// Gives it a member.
    pub fn put(&mut self, name: &'static str, value: Value) -> Result<(), AllocError> {
        put(&mut self.map, self.alloc, name, value)
    }

    /// Gives it a member that is a text; a byte that is no part of a character is shown as one that stands for it.
    pub fn put_text(&mut self, name: &'static str, bytes: &[u8]) -> Result<(), AllocError> {
        let text = text(self.alloc, bytes)?;
        self.put(name, text)
    }

    /// Gives it a member that is a number.
    pub fn put_number(&mut self, name: &'static str, number: u64) -> Result<(), AllocError> {
        self.put(name, Value::from(number))
    }

    /// Gives it a member that is so.
    pub fn put_true(&mut self, name: &'static str) -> Result<(), AllocError> {
        self.put(name, Value::Bool(true))
    }

    /// Gives it a member that is a range of a document.
    pub fn put_range(&mut self, name: &'static str, place: Range) -> Result<(), AllocError> {
        let place = range(self.alloc, place)?;
        self.put(name, place)
    }

    /// The object.
    pub fn into_value(self) -> Value {
        Value::Object(self.map)
    }
}

/// A message of the protocol that has no members of its own yet.
fn message(alloc: Global) -> Result<Members, AllocError> {
    let mut message = Members::new(alloc);
    message.put_text("jsonrpc", b"2.0")?;
    Ok(message)
}

/// The answer to the request of this id.
pub fn answer(alloc: Global, id: &Value, given: Value) -> Result<Value, AllocError> {
    let mut message = message(alloc)?;
    message.put("id", id.clone()?)?;
    message.put("result", given)?;
    Ok(message.into_value())
}

/// The answer to the request of this id that it isn't done.
pub fn refusal(alloc: Global, id: &Value, fault: Fault, why: &str) -> Result<Value, AllocError> {
    let mut error = Members::new(alloc);
    error.put("code", Value::from(fault.code()))?;
    error.put_text("message", why.as_bytes())?;
    let mut message = message(alloc)?;
    message.put("id", id.clone()?)?;
    message.put("error", error.into_value())?;
    Ok(message.into_value())
}

/// Something that the client is told.
pub fn notice(alloc: Global, method: &str, params: Value) -> Result<Value, AllocError> {
    let mut message = message(alloc)?;
    message.put_text("method", method.as_bytes())?;
    message.put("params", params)?;
    Ok(message.into_value())
}

/// A sentence that the client shows.
pub fn shown(alloc: Global, sentence: &str) -> Result<Value, AllocError> {
    let mut params = Members::new(alloc);
    params.put_number("type", 3)?;
    params.put_text("message", sentence.as_bytes())?;
    notice(alloc, "window/showMessage", params.into_value())
}

/// A text; a byte that is no part of a character is shown as one that stands for it.
pub fn text(alloc: Global, bytes: &[u8]) -> Result<Value, AllocError> {
    Ok(Value::String(String::from_utf8_lossy(alloc, bytes)?))
}

/// A place in a document.
pub fn position(alloc: Global, position: Position) -> Result<Value, AllocError> {
    let mut place = Members::new(alloc);
    place.put_number("line", position.line)?;
    place.put_number("character", position.character)?;
    Ok(place.into_value())
}

/// A range of a document.
pub fn range(alloc: Global, range: Range) -> Result<Value, AllocError> {
    let mut place = Members::new(alloc);
    place.put("start", position(alloc, range.start)?)?;
    place.put("end", position(alloc, range.end)?)?;
    Ok(place.into_value())
}

/// A range of the document of this name.
pub fn location(alloc: Global, uri: &str, place: Range) -> Result<Value, AllocError> {
    let mut location = Members::new(alloc);
    location.put_text("uri", uri.as_bytes())?;
    location.put_range("range", place)?;
    Ok(location.into_value())
}
