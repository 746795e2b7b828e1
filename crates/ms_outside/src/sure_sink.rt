ghost use Rattle.std.specs.Prelude.{◌≡◌, ℕ, List, [], ◌++◌, ◌<◌, ◌≤◌, Some, length, map, IfOk, IsOk};
ghost use Rattle.ms_outside.specs.Counts.{HasCause};
ghost use Rattle.ms_outside.specs.Sinks.{WriteTakes};

use crate::{Failed, Sink};
use http_server::Log;
use std::marker::Model;

/// A sink none of whose writes fails. It keeps nothing: a clause sees it as the bytes that it took.
#[derive(Drop)]
pub struct SureSink {
    log: Log<u8, ()>,
}

impl Model for SureSink {
    ghost Value = { List ℕ };

    ghost view = { λ sink. map (λ entry. entry.0) sink.log.items };
}

impl SureSink {
    /// A sink that has taken nothing.
    pub fn new() -> SureSink
        ensures { result ≡ [] }
    {
        SureSink { log: Log::new() }
    }
}

impl Sink for SureSink {
    ghost taken = { λ sink. Some sink };

    ghost faults = { λ _. 0 };

    /// Takes the whole piece, and never fails.
    fn write(&mut self, piece: &[u8]) -> Result<usize, Failed>
        ensures within { IfOk result (λ n. n ≤ length piece.now) }
        ensures progress { IfOk result (λ n. 0 < length piece.now → 0 < n) }
        ensures bytes { WriteTakes (Some self.old) (Some self.new) result piece.now }
        ensures cause { HasCause 0 0 result }
        ensures sure { IsOk result }
        ensures whole { IfOk result (λ n. n ≡ length piece.now) }
        ensures after { self.new ≡ self.old ++ piece.now }
    {
        for byte in piece {
            self.log = self.log.and(byte, &());
        }
        Ok(piece.len())
    }
}
