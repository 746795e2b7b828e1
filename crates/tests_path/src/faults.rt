//! Runs whose devices fail, or move one byte at a time, and runs past the limit of bytes.

use crate::running::check_run;
use ms_memoise::{MOST_INPUT, Status, memoise};
use ms_outside::{MemorySink, Source, SureShelf, SureSource};
use std::alloc::AllocError;
use std::process::Abort;
use std::test::Fail;
use tests_devices::{Devices, SOUND};

/// Three lines, the last of them without an end, and their replies. The lines have 25, 26 and 20
/// bytes, and the replies 13, 13 and 25.
const INPUT: &[u8] = b"once T.class f (II)I 1 2\nonce T.class f (II)I 3 4\r\nonce U.class f (II)I";

const FIRST: &str = "ok returns 3\n";

const TWO: &str = "ok returns 3\nok returns 7\n";

const ALL: &str = "ok returns 3\nok returns 7\nrefused 3 Absent U.class\n";

/// The most bytes that a call moves, the numbers of the read, the fetch and the write that fail, how
/// the run ends, and what is written.
static FAULTS: [(usize, u32, u32, u32, Status, &str); 24] = [
    (4096, 0, 0, 0, Status::Done, ALL),
    (1, 0, 0, 0, Status::Done, ALL),
    (7, 0, 0, 0, Status::Done, ALL),
    // Reads. The one behind the last byte tells that the source is at its end.
    (4096, 1, 0, 0, Status::ReadFault, ""),
    (4096, 2, 0, 0, Status::ReadFault, TWO),
    (4096, 3, 0, 0, Status::Done, ALL),
    (1, 1, 0, 0, Status::ReadFault, ""),
    (1, 25, 0, 0, Status::ReadFault, ""),
    (1, 26, 0, 0, Status::ReadFault, FIRST),
    (1, 51, 0, 0, Status::ReadFault, FIRST),
    (1, 52, 0, 0, Status::ReadFault, TWO),
    (1, 71, 0, 0, Status::ReadFault, TWO),
    (1, 72, 0, 0, Status::ReadFault, TWO),
    // Fetches: one for each line.
    (4096, 0, 1, 0, Status::ShelfFault, ""),
    (4096, 0, 2, 0, Status::ShelfFault, FIRST),
    (4096, 0, 3, 0, Status::ShelfFault, TWO),
    // Writes.
    (4096, 0, 0, 1, Status::WriteFault, ""),
    (4096, 0, 0, 2, Status::WriteFault, FIRST),
    (4096, 0, 0, 3, Status::WriteFault, TWO),
    (1, 0, 0, 4, Status::WriteFault, "ok "),
    (1, 0, 0, 13, Status::WriteFault, "ok returns 3"),
    (1, 0, 0, 14, Status::WriteFault, FIRST),
    (
        1,
        0,
        0,
        51,
        Status::WriteFault,
        "ok returns 3\nok returns 7\nrefused 3 Absent U.class",
    ),
    (1, 0, 0, 52, Status::Done, ALL),
];

#[test]
fn a_fault_ends_the_run(rt: HostRuntime) -> Result<(), Fail> {
    for (most, read, fetch, write, end, want) in &FAULTS {
        let devices = Devices {
            most: *most,
            read: *read,
            fetch: *fetch,
            write: *write,
        };
        check_run(&rt, want, MOST_INPUT, devices, INPUT, *end, want)?;
    }
    Ok(())
}

/// Limits, inputs, how the run ends, and what is written.
static LIMITS: [(u32, &[u8], Status, &str); 14] = [
    (0, b"", Status::Done, ""),
    (0, b"\n", Status::TooMuchInput, ""),
    (5, b"twice\ntwice\n", Status::TooMuchInput, ""),
    (
        6,
        b"twice\ntwice\n",
        Status::TooMuchInput,
        "refused 2 Command\n",
    ),
    (
        11,
        b"twice\ntwice\n",
        Status::TooMuchInput,
        "refused 2 Command\n",
    ),
    (
        12,
        b"twice\ntwice\n",
        Status::Done,
        "refused 2 Command\nrefused 2 Command\n",
    ),
    (
        13,
        b"twice\ntwice\n",
        Status::Done,
        "refused 2 Command\nrefused 2 Command\n",
    ),
    (
        10,
        b"twice\ntwice",
        Status::TooMuchInput,
        "refused 2 Command\n",
    ),
    (
        11,
        b"twice\ntwice",
        Status::Done,
        "refused 2 Command\nrefused 2 Command\n",
    ),
    (
        12,
        b"twice\ntwice",
        Status::Done,
        "refused 2 Command\nrefused 2 Command\n",
    ),
    (6, b"twice\r\n", Status::TooMuchInput, ""),
    (7, b"twice\r\n", Status::Done, "refused 2 Command\n"),
    (1, b"\n\n", Status::TooMuchInput, ""),
    (2, b"\n\n", Status::Done, ""),
];

#[test]
fn a_limit_is_kept(rt: HostRuntime) -> Result<(), Fail> {
    for (limit, input, end, want) in &LIMITS {
        check_run(&rt, "whole blocks", *limit, SOUND, input, *end, want)?;
        let slow = Devices {
            most: 1,
            read: 0,
            fetch: 0,
            write: 0,
        };
        check_run(&rt, "single bytes", *limit, slow, input, *end, want)?;
    }
    // The read that looks past the limit fails.
    let failing = Devices {
        most: 4096,
        read: 2,
        fetch: 0,
        write: 0,
    };
    let want = "refused 2 Command\n";
    check_run(
        &rt,
        "the look",
        11,
        failing,
        b"twice\ntwice",
        Status::ReadFault,
        want,
    )?;
    Ok(())
}

/// That words are refused, with nothing read or written.
fn check_words(rt: &(impl Abort + AllocGlobal), words: &[String]) -> Result<(), AllocError> {
    let mut source = SureSource::new(Vec::from_slice(rt.alloc(), INPUT)?);
    let mut shelf = SureShelf::new(Vec::new(rt.alloc()));
    let mut sink = MemorySink::new(rt.alloc(), Vec::new(rt.alloc()));
    let status = memoise(rt.alloc(), words, &mut source, &mut shelf, &mut sink);
    assert_eq!(rt; status, Status::Usage);
    assert!(rt; sink.taken().is_empty());
    let left = source.read(&mut [0; 100]);
    assert!(rt; matches!(left, Ok(71)));
    Ok(())
}

#[test]
fn words_are_refused(rt: HostRuntime) -> Result<(), Fail> {
    let mut words = Vec::new(rt.alloc());
    words.push(String::new(rt.alloc()))?;
    check_words(&rt, words.as_slice())?;
    words.push(String::from_str(rt.alloc(), "--help")?)?;
    check_words(&rt, words.as_slice())?;
    Ok(())
}
