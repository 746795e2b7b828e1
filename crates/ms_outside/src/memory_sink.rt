ghost use Rattle.std.specs.Prelude.{◌≡◌, [], ◌<◌, ◌≤◌, Some, length, is_ok, IfOk, IsErr, IsFalse, IsOk, IsTrue};
ghost use Rattle.ms_outside.specs.Counts.{HasCause};
ghost use Rattle.ms_outside.specs.Sinks.{WriteTakes};
ghost use Rattle.ms_outside.specs.Memory.{SinkState, is_listed, raised, sink_after};

use crate::calls::Calls;
use crate::{Failed, Sink};
use std::alloc::Global;
use std::marker::Model;

/// A sink in memory whose writes fail where a list says so, and where memory runs out. The writes
/// are numbered from 1, and the number stands still at 2^64 - 1.
#[derive(Debug, Drop)]
pub struct MemorySink {
    bytes: Vec<u8>,
    calls: Calls,
    faults: u64,
}

impl Model for MemorySink {
    ghost Value = { SinkState };

    ghost view = { λ sink. record { taken = sink.bytes.items; fails = sink.calls.fails.items; calls = sink.calls.count; faults = sink.faults } };
}

impl MemorySink {
    /// A sink that has taken nothing. The writes whose numbers are in `fails` are to fail.
    pub fn new(alloc: Global, fails: Vec<u32>) -> MemorySink
        ensures { result ≡ record { taken = []; fails = fails.items; calls = 0; faults = 0 } }
    {
        MemorySink {
            bytes: Vec::new(alloc),
            calls: Calls::new(fails),
            faults: 0,
        }
    }

    /// The bytes that the sink has taken, in order.
    pub fn taken(&self) -> &[u8]
        ensures { result.now ≡ self.now.taken }
    {
        self.bytes.as_slice()
    }
}

impl Sink for MemorySink {
    ghost taken = { λ sink. Some sink.taken };

    ghost faults = { λ sink. sink.faults };

    /// Takes the whole piece. It fails where its number is listed, and else only for want of memory,
    /// and then takes nothing; an empty piece wants none.
    fn write(&mut self, piece: &[u8]) -> Result<usize, Failed>
        ensures within { IfOk result (λ n. n ≤ length piece.now) }
        ensures progress { IfOk result (λ n. 0 < length piece.now → 0 < n) }
        ensures bytes { WriteTakes (Some self.old.taken) (Some self.new.taken) result piece.now }
        ensures cause { HasCause self.old.faults self.new.faults result }
        ensures listed { IsTrue (is_listed self.old.fails (raised self.old.calls)) → IsErr result }
        ensures whole { IfOk result (λ n. n ≡ length piece.now) }
        ensures empty { length piece.now ≡ 0 → IsFalse (is_listed self.old.fails (raised self.old.calls)) → IsOk result }
        ensures after { self.new ≡ sink_after self.old piece.now (is_ok result) }
    {
        if self.calls.next() || self.bytes.extend_from_slice(piece).is_err() {
            self.faults = self.faults.saturating_add(1);
            return Err(Failed);
        }
        Ok(piece.len())
    }
}
