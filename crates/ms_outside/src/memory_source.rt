ghost use Rattle.std.specs.Prelude.{◌≡◌, ◌≤◌, ◌↔◌, Some, length, IfOk, OnErr, IsErr, IsTrue};
ghost use Rattle.std.specs.Io.KnownBytes.{ReadConsumes};
ghost use Rattle.ms_outside.specs.Counts.{HasCause};
ghost use Rattle.ms_outside.specs.Memory.{SourceState, is_listed, raised, read_count, source_after};

use crate::calls::Calls;
use crate::{Failed, Source, SureSource};
use std::marker::Model;

/// A source in memory whose reads fail where a list says so. The reads are numbered from 1, and the
/// number stands still at 2^64 - 1.
#[derive(Debug, Drop)]
pub struct MemorySource {
    bytes: SureSource,
    calls: Calls,
    faults: u64,
}

impl Model for MemorySource {
    ghost Value = { SourceState };

    ghost view = { λ source. record { left = source.bytes; fails = source.calls.fails.items; calls = source.calls.count; faults = source.faults } };
}

impl MemorySource {
    /// A source of these bytes. The reads whose numbers are in `fails` are to fail.
    pub fn new(bytes: Vec<u8>, fails: Vec<u32>) -> MemorySource
        ensures { result ≡ record { left = bytes.items; fails = fails.items; calls = 0; faults = 0 } }
    {
        MemorySource {
            bytes: SureSource::new(bytes),
            calls: Calls::new(fails),
            faults: 0,
        }
    }
}

impl Source for MemorySource {
    ghost left = { λ source. Some source.left };

    ghost faults = { λ source. source.faults };

    /// Moves as many bytes as the buffer has room for. It fails where its number is listed, and
    /// nowhere else, and then leaves the buffer as it was.
    fn read(&mut self, buf: &mut [u8]) -> Result<usize, Failed>
        ensures within { IfOk result (λ n. n ≤ length buf.new) }
        ensures bytes { ReadConsumes (Some self.old.left) (Some self.new.left) result buf.new }
        ensures cause { HasCause self.old.faults self.new.faults result }
        ensures listed { IsErr result ↔ IsTrue (is_listed self.old.fails (raised self.old.calls)) }
        ensures count { IfOk result (λ n. n ≡ read_count self.old.left (length buf.old)) }
        ensures after { self.new ≡ source_after self.old (length buf.old) }
        ensures untouched { OnErr result (buf.new ≡ buf.old) }
    {
        if self.calls.next() {
            self.faults = self.faults.saturating_add(1);
            return Err(Failed);
        }
        self.bytes.read(buf)
    }
}
