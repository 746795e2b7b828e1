ghost use Rattle.std.specs.Prelude.{◌≡◌, ◌<◌, ◌↔◌, [], length, IfNone, IfSome, IsTrue};

use byteorder::{BigEndian, ByteOrder};
use std::marker::Model;
use thiserror::Error;

/// Fewer bytes are left than the number or the run has that was asked for.
#[derive(Clone, Copy, Debug, PartialEq, Eq, Drop, Error)]
#[error("the bytes end within what begins at {at}")]
pub struct Short {
    /// The place where the number or the run would begin: how many bytes come before it.
    pub at: u64,
}

/// A place in a list of bytes, from which numbers and runs are read. A read that doesn't fit leaves
/// the place as it was. No method takes memory.
#[derive(Debug, Drop)]
pub struct Cursor<'a> {
    bytes: &'a [u8],
    at: usize,
}

impl<'a> Model for Cursor<'a> {
    ghost use Rattle.ms_pool.specs.Places.{Place, place_in};
    ghost use Rattle.std.specs.Prelude.{◌≤◌, length};

    ghost Value = { Place };

    ghost view = { λ cursor. place_in cursor.bytes.now cursor.at };

    ghost invariant = { λ cursor. cursor.at ≤ length cursor.bytes.now };
}

impl<'a> Cursor<'a> {
    ghost use Rattle.ms_pool.specs.Places.{Reads, beginning, number_at, part_at, place_in, run_at};

    /// The cursor at the beginning of the bytes.
    pub fn new(bytes: &'a [u8]) -> Cursor<'a>
        ensures { result ≡ beginning bytes.now }
    {
        Cursor { bytes, at: 0 }
    }

    /// The place: how many bytes come before it.
    pub fn at(&self) -> u64
        ensures { result ≡ self.now.at }
    {
        self.at as u64
    }

    /// The cursor at this place of the bytes, where they have it.
    pub(crate) fn from_place(bytes: &'a [u8], at: usize) -> Option<Cursor<'a>>
        ensures found { IfSome result (λ cursor. cursor ≡ place_in bytes.now at) }
        ensures none { IfNone result (length bytes.now < at) }
    {
        if bytes.len() < at {
            return None;
        }
        Some(Cursor { bytes, at })
    }

    /// All the bytes, those before the place too.
    pub(crate) fn bytes(&self) -> &'a [u8]
        ensures { self.now ≡ place_in result.now self.now.at }
    {
        self.bytes
    }

    /// The place, as an index of the bytes.
    pub(crate) fn index(&self) -> usize
        ensures { result ≡ self.now.at }
    {
        self.at
    }

    /// Whether no byte is left.
    pub fn is_at_end(&self) -> bool
        ensures { IsTrue result ↔ (self.now.left ≡ []) }
    {
        self.bytes[self.at..].is_empty()
    }

    /// The number that the next byte is.
    pub fn u1(&mut self) -> Result<u8, Short>
        ensures { Reads (λ n. n) (number_at 1) self.old result self.new }
    {
        let bytes = self.run(1)?;
        Ok(bytes[0])
    }

    /// The number in the next two bytes.
    pub fn u2(&mut self) -> Result<u16, Short>
        ensures { Reads (λ n. n) (number_at 2) self.old result self.new }
    {
        let bytes = self.run(2)?;
        Ok(BigEndian::read_u16(bytes))
    }

    /// The number in the next four bytes.
    pub fn u4(&mut self) -> Result<u32, Short>
        ensures { Reads (λ n. n) (number_at 4) self.old result self.new }
    {
        let bytes = self.run(4)?;
        Ok(BigEndian::read_u32(bytes))
    }

    /// The next `n` bytes, lent.
    pub fn slice(&mut self, n: u32) -> Result<&'a [u8], Short>
        ensures { Reads (λ bytes. bytes.now) (run_at n) self.old result self.new }
    {
        self.run(n as usize)
    }

    /// The next `n` bytes, as a cursor that ends with them: it stands at the same place of the bytes.
    pub fn part(&mut self, n: u32) -> Result<Cursor<'a>, Short>
        ensures { Reads (λ part. part) (part_at n) self.old result self.new }
    {
        let at = self.at;
        if self.bytes.len() - at < n as usize {
            return Err(Short { at: at as u64 });
        }
        self.at = at + n as usize;
        Ok(Cursor {
            bytes: &self.bytes[..self.at],
            at,
        })
    }

    fn run(&mut self, n: usize) -> Result<&'a [u8], Short>
        ensures { Reads (λ bytes. bytes.now) (run_at n) self.old result self.new }
    {
        let rest = &self.bytes[self.at..];
        if rest.len() < n {
            return Err(Short { at: self.at as u64 });
        }
        self.at += n;
        Ok(&rest[..n])
    }
}
