ghost use Rattle.std.specs.Prelude.{◌≡◌};
ghost use Rattle.caa_commands.specs.Findings.{code_of};

use caa_base::written::journal::Journal;

/// How a call of the program ended.
#[derive(Clone, Copy, Debug, PartialEq, Eq)]
pub enum Status {
    /// The command was served.
    Done,
    /// A play ended as failed: the device refused a restore.
    SomeFailed,
    /// The words are no command.
    Usage,
    /// A read of the source failed.
    SourceFault,
    /// The input is refused.
    Refused,
    /// The sink didn't take the whole text.
    SinkFault,
    /// The device couldn't be laid out.
    PlantFault,
    /// The journal that was to be audited is none, or isn't legal and complete.
    Illegal,
    /// No memory was found.
    OutOfMemory,
}

impl Status {
    /// Its number, which is the exit status of the program.
    pub fn code(self) -> u8
        ensures { result ≡ code_of self }
    {
        match self {
            Status::Done => 0,
            Status::SomeFailed => 1,
            Status::Usage => 2,
            Status::SourceFault => 3,
            Status::Refused => 4,
            Status::SinkFault => 5,
            Status::PlantFault => 6,
            Status::Illegal => 7,
            Status::OutOfMemory => 8,
        }
    }
}

/// What a call of the program hands back.
#[derive(Drop)]
pub struct Ended<P> {
    pub status: Status,
    /// The plant that was handed in.
    pub plant: P,
    /// The journal that was played, or the one that an audit judged legal and told of, or else an empty one.
    pub journal: Journal,
}
