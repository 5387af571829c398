ghost use Rattle.std.specs.Prelude.{◌≡◌};
ghost use Rattle.action_endings.specs.inner.KeptEndings.{verdict_said, SignalsBelow};

use caa_base::written::entry::Verdict;

/// A verdict in two bytes: the number of an exception takes no more than one, since a graph has few.
#[derive(Clone, Copy)]
pub enum Said {
    Done,
    Signal(u8),
    Undo,
}

impl Said {
    /// This verdict, in short.
    pub(crate) fn of(verdict: Verdict) -> Said
        requires { SignalsBelow 256 verdict }
        ensures { verdict_said result ≡ verdict }
    {
        match verdict {
            Verdict::Done => Said::Done,
            Verdict::Signal(exception) => Said::Signal(exception as u8),
            Verdict::Undo => Said::Undo,
        }
    }

    /// The verdict.
    pub fn verdict(self) -> Verdict
        ensures { result ≡ verdict_said self }
    {
        match self {
            Said::Done => Verdict::Done,
            Said::Signal(exception) => Verdict::Signal(exception as u32),
            Said::Undo => Verdict::Undo,
        }
    }
}
