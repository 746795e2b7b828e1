ghost use Rattle.std.specs.Prelude.{◌≡◌, ℕ, List, ◌≤◌, Some, length, drop, take, ◌++◌, IfOk, IsOk};
ghost use Rattle.std.specs.Io.KnownBytes.{ReadConsumes};
ghost use Rattle.ms_outside.specs.Counts.{HasCause};
ghost use Rattle.ms_outside.specs.Memory.{read_count};

use crate::copying::copy_front;
use crate::{Failed, Source};
use std::marker::Model;

/// A source in memory none of whose reads fails. A clause sees it as the bytes that are left.
#[derive(Debug, Drop)]
pub struct SureSource {
    bytes: Vec<u8>,
    at: usize,
}

impl Model for SureSource {
    ghost Value = { List ℕ };

    ghost view = { λ source. drop source.at source.bytes.items };

    ghost invariant = { λ source. source.at ≤ length source.bytes.items };
}

impl SureSource {
    /// A source of these bytes.
    pub fn new(bytes: Vec<u8>) -> SureSource
        ensures { result ≡ bytes.items }
    {
        SureSource { bytes, at: 0 }
    }
}

impl Source for SureSource {
    ghost left = { λ source. Some source };

    ghost faults = { λ _. 0 };

    /// Moves as many bytes as the buffer has room for, and never fails.
    fn read(&mut self, buf: &mut [u8]) -> Result<usize, Failed>
        ensures within { IfOk result (λ n. n ≤ length buf.new) }
        ensures bytes { ReadConsumes (Some self.old) (Some self.new) result buf.new }
        ensures cause { HasCause 0 0 result }
        ensures sure { IsOk result }
        ensures count { IfOk result (λ n. n ≡ read_count self.old (length buf.new)) }
        ensures front { buf.new ≡ take (read_count self.old (length buf.old)) self.old ++ drop (read_count self.old (length buf.old)) buf.old }
    {
        let count = copy_front(&self.bytes.as_slice()[self.at..], buf);
        self.at += count;
        Ok(count)
    }
}
