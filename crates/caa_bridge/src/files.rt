//! The files of a call.

use crate::call::Call;
use caa_base::outside::reading::{ReadError, read_all};
use caa_base::outside::standard::StdSource;
use caa_base::written::limits::MOST_SCRIPT_BYTES;
use std::fs::{File, OpenFile, OpenOptions};
use std::io::ErrorKind;
use std::os::unix::fs::MetadataExt;
use std::{fs, io};

/// Why the files of a call aren't as they have to be. Nothing is played then.
#[derive(Clone, Copy, PartialEq, Eq)]
pub enum FileError {
    /// The script can't be read.
    Unread,
    /// The script has more bytes than any script.
    TooLong,
    /// The journal can't be written.
    Unwritten,
    /// Script and journal are the same file.
    Same,
    /// No memory was found.
    OutOfMemory,
}

/// A file on the machine, by its device and its number there, however it was named.
#[derive(Clone, Copy, PartialEq, Eq)]
struct FileId {
    device: u64,
    number: u64,
}

/// Which file this is, and whether it is one that can be cut.
fn id_of(file: &File) -> io::Result<(FileId, bool)> {
    let known = file.metadata()?;
    let id = FileId {
        device: known.dev(),
        number: known.ino(),
    };
    Ok((id, known.is_file()))
}

/// Takes each of the three standard streams that was closed, so that no file of a call can come to stand in its place: it is then
/// at its end, and a write to it fails. It is kept as long as what is handed back.
pub fn keep_streams(rt: &HostRuntime) -> [io::Result<File>; 3] {
    [
        fs::open(rt, "/dev/null"),
        fs::open(rt, "/dev/null"),
        fs::open(rt, "/dev/null"),
    ]
}

/// The bytes of the script, which is read no further than any script reaches, and which file it is.
fn script_of(rt: &HostRuntime, path: &str) -> Result<(Vec<u8>, FileId), FileError> {
    let file = match fs::open(rt, path) {
        Ok(file) => file,
        Err(error) if error.kind() == ErrorKind::OutOfMemory => return Err(FileError::OutOfMemory),
        Err(_) => return Err(FileError::Unread),
    };
    let Ok((id, _)) = id_of(&file) else {
        return Err(FileError::Unread);
    };
    match read_all(rt.alloc(), &mut StdSource::new(file), MOST_SCRIPT_BYTES) {
        Ok(bytes) => Ok((bytes, id)),
        Err(ReadError::Fault) => Err(FileError::Unread),
        Err(ReadError::TooLong) => Err(FileError::TooLong),
        Err(ReadError::OutOfMemory) => Err(FileError::OutOfMemory),
    }
}

/// The file for the journal, which is made where there is none. What it had is lost, but not where it is the script.
fn journal_of(rt: &HostRuntime, path: &str, script: FileId) -> Result<File, FileError> {
    let mut options = OpenOptions::new();
    options.write(true);
    options.create(true);
    let file = match options.open(rt, path) {
        Ok(file) => file,
        Err(error) if error.kind() == ErrorKind::OutOfMemory => return Err(FileError::OutOfMemory),
        Err(_) => return Err(FileError::Unwritten),
    };
    match id_of(&file) {
        Ok((id, _)) if id == script => Err(FileError::Same),
        Ok((_, true)) if file.set_len(0).is_err() => Err(FileError::Unwritten),
        Ok(_) => Ok(file),
        Err(_) => Err(FileError::Unwritten),
    }
}

/// The bytes of the script, and the file for the journal. That file is made only once the script was read.
pub fn files_of(rt: &HostRuntime, call: &Call<'_>) -> Result<(Vec<u8>, File), FileError> {
    let (script, id) = script_of(rt, call.script)?;
    let journal = journal_of(rt, call.journal, id)?;
    Ok((script, journal))
}
