ghost use Rattle.std.specs.Prelude.{ℕ, List, Option, ◌<◌, ◌≤◌, length, IfOk};
ghost use Rattle.ms_outside.specs.Counts.{HasCause};
ghost use Rattle.ms_outside.specs.Sinks.{WriteTakes};

use crate::Failed;

/// Where bytes go.
pub trait Sink {
    /// The bytes that the sink has taken, where it tells them.
    ghost taken: { Self → Option (List ℕ) };

    /// How often a write failed. It never falls, and stands still at 2^64 - 1.
    ghost faults: { Self → ℕ };

    /// Takes some first bytes of the piece, and says how many: of a piece that isn't empty at least
    /// one. A write that fails has taken none or some first bytes of the piece, and nothing else.
    fn write(&mut self, piece: &[u8]) -> Result<usize, Failed>
        ensures within { IfOk result (λ n. n ≤ length piece.now) }
        ensures progress { IfOk result (λ n. 0 < length piece.now → 0 < n) }
        ensures bytes { WriteTakes (taken self.old) (taken self.new) result piece.now }
        ensures cause { HasCause (faults self.old) (faults self.new) result };
}
