//! A sink may tell how many bytes it can hold at all, and no write changes that number. A caller that knows a sink by its trait
//! alone knows only what the trait keeps; without this one no such caller could say that a sink in memory with enough room refuses
//! no write.

ghost use Rattle.std.specs.Prelude.{◌≡◌, ◌<◌, ◌≤◌, ℕ, List, Option, None, length, take, is_err, IfOk, OnErr};
ghost use Rattle.std.specs.Io.KnownBytes.{append_known};
ghost use Rattle.caa_base.specs.Outside.Counts.{CountsFault};

use crate::written::entry::Failed;

/// Where bytes go, such as a file or a terminal.
pub trait Sink {
    /// How many writes failed; the count stops at its last number.
    ghost faults: { Self → ℕ };

    /// The bytes that the sink holds, where it tells them.
    ghost held: { Self → Option (List ℕ) };

    /// How many bytes the sink can hold at most, where there is a bound that it tells.
    ghost room: { Self → Option ℕ } = { λ _. None };

    /// Writes some bytes of the front of the piece, and says how many: at least one.
    ///
    /// A write that fails is counted, and appends nothing.
    fn write(&mut self, piece: &[u8]) -> Result<usize, Failed>
        requires { 0 < length piece.now }
        ensures some { IfOk result (λ n. 0 < n) }
        ensures bound { IfOk result (λ n. n ≤ length piece.now) }
        ensures bytes { IfOk result (λ n. held self.new ≡ append_known (held self.old) (take n piece.now)) }
        ensures failed { OnErr result (held self.new ≡ held self.old) }
        ensures room { room self.new ≡ room self.old }
        ensures count { CountsFault (is_err result) (faults self.old) (faults self.new) };

    /// How many writes failed so far.
    fn faults(&self) -> u64
        ensures { result ≡ faults self.now };
}
