ghost use Rattle.std.specs.Prelude.{◌≡◌, ◌<◌, ◌≤◌, ℕ, List, Option, length, take, is_err, IfOk, OnErr};
ghost use Rattle.std.specs.Io.KnownBytes.{prepend_known, IsAtEnd};
ghost use Rattle.caa_base.specs.Outside.Counts.{CountsFault};

use crate::written::entry::Failed;

/// Where bytes come from, such as a file or a terminal.
pub trait Source {
    /// How many reads failed; the count stops at its last number.
    ghost faults: { Self → ℕ };

    /// The bytes that are left to be read, where the source tells them.
    ghost left: { Self → Option (List ℕ) };

    /// Takes the next bytes of the input into the front of the buffer, and says how many. It is 0 only at the end of the input.
    ///
    /// A read that fails takes nothing, and the count of failed reads goes up by one, unless it stands at its last number.
    fn read(&mut self, buf: &mut [u8]) -> Result<usize, Failed>
        requires { 0 < length buf.old }
        ensures bound { IfOk result (λ n. n ≤ length buf.new) }
        ensures bytes { IfOk result (λ n. left self.old ≡ prepend_known (take n buf.new) (left self.new)) }
        ensures end { IfOk result (λ n. n ≡ 0 → IsAtEnd (left self.new)) }
        ensures failed { OnErr result (left self.new ≡ left self.old) }
        ensures count { CountsFault (is_err result) (faults self.old) (faults self.new) };

    /// How many reads failed so far.
    fn faults(&self) -> u64
        ensures { result ≡ faults self.now };
}
