ghost use Rattle.std.specs.Prelude.{◌≡◌, ◌++◌, [], OnErr, OnOk};

use byteorder::{BigEndian, ByteOrder};
use std::alloc::{AllocError as NoMemory, Global};
use std::marker::Model;

/// Bytes that numbers and runs are written to, one after another, each number with its highest byte
/// first. A write fails for want of memory alone, and then changes nothing.
#[derive(Debug, Drop)]
pub struct Out {
    bytes: Vec<u8>,
}

impl Model for Out {
    ghost use Rattle.std.specs.Prelude.{ℕ, List};

    ghost Value = { List ℕ };

    ghost view = { λ out. out.bytes.items };
}

impl Out {
    ghost use Rattle.ms_pool.specs.Places.{number_bytes};

    /// No bytes yet. It takes no memory.
    pub fn new(alloc: Global) -> Out
        ensures { result ≡ [] }
    {
        Out {
            bytes: Vec::new(alloc),
        }
    }

    /// Writes the number as one byte.
    pub fn u1(&mut self, v: u8) -> Result<(), NoMemory>
        ensures ok { OnOk result (self.new ≡ self.old ++ number_bytes 1 v) }
        ensures err { OnErr result (self.new ≡ self.old) }
    {
        self.slice(&[v])
    }

    /// Writes the number as two bytes.
    pub fn u2(&mut self, v: u16) -> Result<(), NoMemory>
        ensures ok { OnOk result (self.new ≡ self.old ++ number_bytes 2 v) }
        ensures err { OnErr result (self.new ≡ self.old) }
    {
        let mut bytes = [0; 2];
        BigEndian::write_u16(&mut bytes, v);
        self.slice(&bytes)
    }

    /// Writes the number as four bytes.
    pub fn u4(&mut self, v: u32) -> Result<(), NoMemory>
        ensures ok { OnOk result (self.new ≡ self.old ++ number_bytes 4 v) }
        ensures err { OnErr result (self.new ≡ self.old) }
    {
        let mut bytes = [0; 4];
        BigEndian::write_u32(&mut bytes, v);
        self.slice(&bytes)
    }

    /// Writes these bytes.
    pub fn slice(&mut self, s: &[u8]) -> Result<(), NoMemory>
        ensures ok { OnOk result (self.new ≡ self.old ++ s.now) }
        ensures err { OnErr result (self.new ≡ self.old) }
    {
        self.bytes.extend_from_slice(s)?;
        Ok(())
    }

    /// All the bytes that were written, in order. It takes no memory.
    pub fn into_bytes(self) -> Vec<u8>
        ensures { result.items ≡ self }
    {
        self.bytes
    }
}
