//! Runs of the program over devices in memory.

use crate::paced::{PacedSink, PacedSource};
use crate::worked::changed;
use ms_memoise::{MOST_INPUT, Status, converse, memoise};
use ms_outside::{MemoryShelf, MemorySink, MemorySource, Shelved};
use std::alloc::{AllocError, Global};

/// How the devices of a run behave.
#[derive(Clone, Copy)]
pub struct Devices {
    /// The most bytes that a read or a write moves.
    pub most: usize,
    /// The number of the read that fails, and 0 if none does.
    pub read: u32,
    /// The same of fetches.
    pub fetch: u32,
    /// The same of writes.
    pub write: u32,
}

/// Devices that don't fail and move what there is.
pub const SOUND: Devices = Devices {
    most: usize::MAX,
    read: 0,
    fetch: 0,
    write: 0,
};

/// One number, as a list.
fn only(alloc: Global, number: u32) -> Result<Vec<u32>, AllocError> {
    Vec::from_slice(alloc, &[number])
}

/// A file under a name.
fn shelved(alloc: Global, name: &[u8], file: &[u8]) -> Result<Shelved, AllocError> {
    let name = Vec::from_slice(alloc, name)?;
    let bytes = Vec::from_slice(alloc, file)?;
    Ok(Shelved::new(name, bytes))
}

/// A shelf with this file under the name T.class, the worked class under the name V in V.class, and no
/// bytes in W.class. Its fetch of this number fails.
fn shelf(alloc: Global, file: &[u8], fetch: u32) -> Result<MemoryShelf, AllocError> {
    let other = changed(alloc, &[(13, 1, b"V")])?;
    let fails = only(alloc, fetch)?;
    let mut files = Vec::new(alloc);
    files.push(shelved(alloc, b"T.class", file)?)?;
    files.push(shelved(alloc, b"V.class", other.as_slice())?)?;
    files.push(shelved(alloc, b"W.class", b"")?)?;
    Ok(MemoryShelf::new(files, fails))
}

fn source(alloc: Global, devices: Devices, input: &[u8]) -> Result<PacedSource, AllocError> {
    let bytes = Vec::from_slice(alloc, input)?;
    let fails = only(alloc, devices.read)?;
    Ok(PacedSource {
        source: MemorySource::new(bytes, fails),
        most: devices.most,
    })
}

fn sink(alloc: Global, devices: Devices) -> Result<PacedSink, AllocError> {
    let fails = only(alloc, devices.write)?;
    Ok(PacedSink {
        sink: MemorySink::new(alloc, fails),
        most: devices.most,
    })
}

/// How the program ends that takes at most so many bytes of this input where T.class is this file, and
/// what it wrote.
pub fn run(
    alloc: Global,
    limit: u32,
    devices: Devices,
    file: &[u8],
    input: &[u8],
) -> Result<(Status, PacedSink), AllocError> {
    let mut source = source(alloc, devices, input)?;
    let mut shelf = shelf(alloc, file, devices.fetch)?;
    let mut sink = sink(alloc, devices)?;
    let status = if limit == MOST_INPUT {
        memoise(alloc, &[], &mut source, &mut shelf, &mut sink)
    } else {
        converse(alloc, limit, &mut source, &mut shelf, &mut sink)
    };
    Ok((status, sink))
}
