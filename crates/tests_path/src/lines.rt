//! Lines: where they end, and how long they may be.

use crate::running::check;
use std::alloc::{AllocError, Global};
use std::test::Fail;
use tests_devices::ADDS;

/// The replies to the sum of 1 and 2, to a line that is too long or has a byte that isn't printable, and
/// to a line that is no command.
const SUM: &str = "ok returns 3\n";

const NO_LINE: &str = "refused 1 Line\n";

const NO_COMMAND: &str = "refused 2 Command\n";

/// Inputs and what is written for them.
static ENDS: [(&[u8], &str); 25] = [
    (b"", ""),
    (b"\n", ""),
    (b"\r\n", ""),
    (b"\n\n\r\n", ""),
    (b"   \n", ""),
    (b"   \r\n", ""),
    (b"   ", ""),
    (b"\r", NO_LINE),
    (b" \r", NO_LINE),
    (b"\r\r\n", NO_LINE),
    (b"twice", NO_COMMAND),
    (b"twice\n", NO_COMMAND),
    (b"twice\r\n", NO_COMMAND),
    (b"once T.class f (II)I 1 2", SUM),
    (b"once T.class f (II)I 1 2\n", SUM),
    (b"once T.class f (II)I 1 2\r\n", SUM),
    (b"once T.class f (II)I 1 2\r", NO_LINE),
    (b"once T.class f (II)I 1 2\r\r\n", NO_LINE),
    (b"once T.class f (II)I 1\r 2\n", NO_LINE),
    (b"once T.class f (II)I 1\t2\n", NO_LINE),
    (b"once T.class f (II)I 1 2 \x1f\n", NO_LINE),
    (b"once T.class f (II)I 1 2 \x7f\n", NO_LINE),
    (b"once T.class f (II)I 1 2 \x80\n", NO_LINE),
    (b"once T.class f (II)I 1 2 \0\n", NO_LINE),
    (
        b"\ntwice\n\r\n  \nonce T.class f (II)I 1 2\r\n\nonce U.class f (II)I\n \ntwice",
        "refused 2 Command\nok returns 3\nrefused 3 Absent U.class\nrefused 2 Command\n",
    ),
];

#[test]
fn lines_end_at_line_feeds(rt: HostRuntime) -> Result<(), Fail> {
    for (at, (input, want)) in ENDS.iter().enumerate() {
        let what = format!(in rt.alloc(); "{at}")?;
        check(&rt, what.as_str(), &ADDS, input, want)?;
    }
    Ok(())
}

/// The front, spaces up to so many bytes, and the end.
fn padded(alloc: Global, front: &[u8], size: usize, end: &[u8]) -> Result<Vec<u8>, AllocError> {
    let mut line = Vec::from_slice(alloc, front)?;
    for _ in front.len()..size {
        line.push(b' ')?;
    }
    line.extend_from_slice(end)?;
    Ok(line)
}

/// Fronts of lines, the sizes to which spaces fill them, what follows, and what is written.
static SIZES: [(&[u8], usize, &[u8], &str); 18] = [
    (b"once T.class f (II)I 1 2", 4096, b"", SUM),
    (b"once T.class f (II)I 1 2", 4096, b"\n", SUM),
    (b"once T.class f (II)I 1 2", 4096, b"\r\n", SUM),
    (b"once T.class f (II)I 1 2", 4097, b"", NO_LINE),
    (b"once T.class f (II)I 1 2", 4097, b"\n", NO_LINE),
    (b"once T.class f (II)I 1 2", 4097, b"\r\n", NO_LINE),
    (b"once T.class f (II)I 1 2", 4096, b"\r", NO_LINE),
    (b"once T.class f (II)I 1 2", 4096, b"\r\r\n", NO_LINE),
    (b"once T.class f (II)I 1 2", 4096, b"\r1\n", NO_LINE),
    (b"once T.class f (II)I 1 2", 4097, b"\r \n", NO_LINE),
    (b"once T.class f (II)I 1 2", 10_000, b"\n", NO_LINE),
    (b"", 4096, b"\r\n", ""),
    (b"", 4096, b"", ""),
    (b"", 4097, b"\n", NO_LINE),
    (b"", 4097, b"", NO_LINE),
    (b"", 4097, b"\r\n", NO_LINE),
    (
        b"",
        10_000,
        b"\n\ntwice",
        "refused 1 Line\nrefused 2 Command\n",
    ),
    (
        b"twice",
        10_000,
        b"\nonce T.class f (II)I 1 2\n",
        "refused 1 Line\nok returns 3\n",
    ),
];

#[test]
fn lines_have_at_most_4096_bytes(rt: HostRuntime) -> Result<(), Fail> {
    for (front, size, end, want) in &SIZES {
        let line = padded(rt.alloc(), front, *size, end)?;
        let what = format!(in rt.alloc(); "{size} and {end:?}")?;
        check(&rt, what.as_str(), &ADDS, line.as_slice(), want)?;
    }
    Ok(())
}
