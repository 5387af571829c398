//! The text of a document, and what edits make of it.

ghost use Rattle.std.specs.Prelude.{◌≡◌, ◌≤◌, ◌<◌, length, IfOk, IfErr, OnOk, OnErr};
ghost use Rattle.script_documents.specs.Edits.{most_document_bytes, spliced, edited};
ghost use Rattle.script_documents.specs.declared.document.DocumentError.TheVariants as fault;

use crate::positions::{Range, offset_of};
use std::alloc::{AllocError, Global};
use std::marker::Model;
use thiserror::Error;

/// How many bytes the text of a document has at most: four times those of a script, so that one that is too long by an edit is still
/// followed.
pub const MOST_DOCUMENT_BYTES: usize = 4_194_304;

/// Why a document isn't followed.
#[derive(Clone, Copy, Debug, PartialEq, Eq, Error)]
pub enum DocumentError {
    /// It would have more bytes than a document may have.
    #[error("the document is too long")]
    TooLong,
    /// No memory was found.
    #[error("out of memory")]
    OutOfMemory,
}

impl From<AllocError> for DocumentError {
    ghost from_gives = { λ _ e. e ≡ fault.OutOfMemory };

    fn from(_error: AllocError) -> DocumentError {
        DocumentError::OutOfMemory
    }
}

/// The text of a document, seen as its bytes.
#[derive(Drop)]
pub struct Document {
    text: Vec<u8>,
}

impl Model for Document {
    ghost use Rattle.std.specs.Prelude.{List, ℕ, ◌≤◌, length};
    ghost use Rattle.script_documents.specs.Edits.{most_document_bytes};

    ghost Value = { List ℕ };

    ghost view = { λ d. d.text.items };

    ghost invariant = { λ d. length d.text.items ≤ most_document_bytes };
}

/// A text with this between two of its places, in place of what stood there.
pub fn spliced(
    alloc: Global,
    text: &[u8],
    start: usize,
    end: usize,
    new: &[u8],
) -> Result<Vec<u8>, AllocError>
    requires order { start ≤ end }
    requires within { end ≤ length text.now }
    ensures { IfOk result (λ made. made.items ≡ spliced text.now start end new.now) }
{
    let mut made = Vec::from_slice(alloc, &text[..start])?;
    made.extend_from_slice(new)?;
    made.extend_from_slice(&text[end..])?;
    Ok(made)
}

impl Document {
    /// A document with this text.
    pub fn of(alloc: Global, text: &[u8]) -> Result<Document, DocumentError>
        ensures text { IfOk result (λ document. document ≡ text.now) }
        ensures long { IfErr result (λ e. e ≡ fault.TooLong → most_document_bytes < length text.now) }
    {
        if text.len() > MOST_DOCUMENT_BYTES {
            return Err(DocumentError::TooLong);
        }
        let text = Vec::from_slice(alloc, text)?;
        Ok(Document { text })
    }

    /// Its text.
    pub fn text(&self) -> &[u8]
        ensures text { result.now ≡ self.now }
        ensures small { length result.now ≤ most_document_bytes }
    {
        self.text.as_slice()
    }

    /// Puts this into a range, in place of what stood there. After an error the text is as it was.
    pub fn edit(&mut self, alloc: Global, range: Range, new: &[u8]) -> Result<(), DocumentError>
        ensures edited { OnOk result (self.new ≡ edited self.old range new.now) }
        ensures kept { OnErr result (self.new ≡ self.old) }
        ensures long { IfErr result (λ e. e ≡ fault.TooLong → most_document_bytes < length (edited self.old range new.now)) }
    {
        let start = offset_of(&self.text, range.start);
        let end = offset_of(&self.text, range.end).max(start);
        let kept = start + (self.text.len() - end);
        if new.len() > MOST_DOCUMENT_BYTES - kept {
            return Err(DocumentError::TooLong);
        }
        self.text = spliced(alloc, &self.text, start, end, new)?;
        Ok(())
    }
}
