//! Devices in memory that move at most so many bytes in a call.

ghost use Rattle.std.specs.Prelude.{None};

use ms_outside::{Failed, MemorySink, MemorySource, Sink, Source};

/// A source that gives at most `most` bytes in a call.
#[derive(Drop)]
pub struct PacedSource {
    pub source: MemorySource,
    pub most: usize,
}

impl Source for PacedSource {
    ghost left = { λ _. None };

    ghost faults = { λ paced. paced.source.faults };

    fn read(&mut self, buf: &mut [u8]) -> Result<usize, Failed> {
        let room = buf.len().min(self.most);
        self.source.read(&mut buf[..room])
    }
}

/// A sink that takes at most `most` bytes in a call, and at least one.
#[derive(Drop)]
pub struct PacedSink {
    pub sink: MemorySink,
    pub most: usize,
}

impl Sink for PacedSink {
    ghost taken = { λ _. None };

    ghost faults = { λ paced. paced.sink.faults };

    fn write(&mut self, piece: &[u8]) -> Result<usize, Failed> {
        let size = piece.len().min(self.most.max(1));
        self.sink.write(&piece[..size])
    }
}
