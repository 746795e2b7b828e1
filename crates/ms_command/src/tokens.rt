ghost use Rattle.std.specs.Prelude.{◌≡◌, IfOk, map};
ghost use Rattle.std.specs.List.{list_all};
ghost use Rattle.ms_command.specs.Lines.{is_plain, is_plain_byte, tokens};

use ms_words::NoMemory;
use std::alloc::Global;

/// The most bytes of a line that can be a command.
const MOST_LINE_BYTES: usize = 4096;

/// Whether a line can be a command: it isn't too long, and each of its bytes is a printable ASCII
/// character or a space.
pub fn is_plain_line(line: &[u8]) -> bool
    ensures { result ≡ is_plain line.now }
{
    line.len() <= MOST_LINE_BYTES && are_plain_bytes(line)
}

fn are_plain_bytes(line: &[u8]) -> bool
    ensures { result ≡ list_all is_plain_byte line.now }
{
    for byte in line {
        if !(0x20..=0x7e).contains(byte) {
            return false;
        }
    }
    true
}

/// The tokens of a line: its parts between spaces that aren't empty.
pub fn cut(alloc: Global, line: &[u8]) -> Result<Vec<&[u8]>, NoMemory>
    ensures { IfOk result (λ parts. map (λ part. part.now) parts.items ≡ tokens line.now) }
{
    line.split(|b| *b == b' ')
        .filter(|part| !part.is_empty())
        .collect(alloc)
}
