//! What the adapters ask of a reader and a writer, which no clause says: that each reply is flushed, and
//! that what failed isn't tried again.

use ms_memoise::{Status, memoise};
use ms_outside::{Shelved, StdSink, StdSource, SureShelf};
use std::alloc::{AllocError, Global};
use std::io;
use std::io::{ErrorKind, Read, Write};
use std::test::Fail;
use tests_devices::ADDS;

/// Two commands, each with a reply.
static COMMANDS: &[u8] = b"once T.class f (II)I 1 2\ntwice\n";

/// A reader of those commands that fails in each call where it is told to, and counts the calls.
#[derive(Drop)]
struct CountedReader {
    fails: Option<ErrorKind>,
    read: usize,
    calls: u32,
}

impl Read for CountedReader {
    fn read(&mut self, buf: &mut [u8]) -> io::Result<usize> {
        self.calls = self.calls.saturating_add(1);
        if let Some(kind) = self.fails {
            return Err(io::Error::from(kind));
        }
        let Some(rest) = COMMANDS.get(self.read..) else {
            return Ok(0);
        };
        let count = rest.len().min(buf.len());
        buf[..count].copy_from_slice(&rest[..count]);
        self.read += count;
        Ok(count)
    }
}

/// A writer that takes all that it is given and counts the calls. Its flushes fail where it is told so.
#[derive(Drop)]
struct CountedWriter {
    fails: Option<ErrorKind>,
    writes: u32,
    flushes: u32,
}

impl Write for CountedWriter {
    fn write(&mut self, buf: &[u8]) -> io::Result<usize> {
        self.writes = self.writes.saturating_add(1);
        Ok(buf.len())
    }

    fn flush(&mut self) -> io::Result<()> {
        self.flushes = self.flushes.saturating_add(1);
        match self.fails {
            Some(kind) => Err(io::Error::from(kind)),
            None => Ok(()),
        }
    }
}

/// How the program ends over this reader and this writer.
fn run(
    alloc: Global,
    reader: &mut CountedReader,
    writer: &mut CountedWriter,
) -> Result<Status, AllocError> {
    let mut files = Vec::new(alloc);
    let name = Vec::from_slice(alloc, b"T.class")?;
    files.push(Shelved::new(name, Vec::from_slice(alloc, &ADDS)?))?;
    let mut shelf = SureShelf::new(files);
    let mut source = StdSource::new(reader);
    let mut sink = StdSink::new(writer);
    Ok(memoise(alloc, &[], &mut source, &mut shelf, &mut sink))
}

/// Each case: what the reads and the flushes fail with, the status, and how many reads, writes and
/// flushes come.
static CASES: [(Option<ErrorKind>, Option<ErrorKind>, Status, u32, u32, u32); 4] = [
    (None, None, Status::Done, 2, 2, 2),
    (
        Some(ErrorKind::Interrupted),
        None,
        Status::ReadFault,
        1,
        0,
        0,
    ),
    (
        None,
        Some(ErrorKind::Interrupted),
        Status::WriteFault,
        1,
        1,
        1,
    ),
    (None, Some(ErrorKind::Other), Status::WriteFault, 1, 1, 1),
];

#[test]
fn each_reply_is_flushed_and_nothing_is_tried_again(rt: HostRuntime) -> Result<(), Fail> {
    for (read, flush, end, reads, writes, flushes) in &CASES {
        let mut reader = CountedReader {
            fails: *read,
            read: 0,
            calls: 0,
        };
        let mut writer = CountedWriter {
            fails: *flush,
            writes: 0,
            flushes: 0,
        };
        let status = run(rt.alloc(), &mut reader, &mut writer)?;
        assert_eq!(rt; status, *end);
        assert_eq!(rt; reader.calls, *reads);
        assert_eq!(rt; writer.writes, *writes);
        assert_eq!(rt; writer.flushes, *flushes);
    }
    Ok(())
}
