ghost use Rattle.std.specs.Prelude.{ℕ, List, Option, ◌≤◌, length, IfOk};
ghost use Rattle.std.specs.Io.KnownBytes.{ReadConsumes};
ghost use Rattle.ms_outside.specs.Counts.{HasCause};

use crate::Failed;

/// Where bytes come from, one after another, up to an end.
pub trait Source {
    /// The bytes that are left to read, where the source tells them.
    ghost left: { Self → Option (List ℕ) };

    /// How often a read failed. It never falls, and stands still at 2^64 - 1.
    ghost faults: { Self → ℕ };

    /// Moves some first bytes of what is left to the front of the buffer, and says how many. On a
    /// buffer that isn't empty it answers 0 exactly at the end. A read that fails leaves what is
    /// left as it was; the buffer may then hold anything.
    fn read(&mut self, buf: &mut [u8]) -> Result<usize, Failed>
        ensures within { IfOk result (λ n. n ≤ length buf.new) }
        ensures bytes { ReadConsumes (left self.old) (left self.new) result buf.new }
        ensures cause { HasCause (faults self.old) (faults self.new) result };
}
