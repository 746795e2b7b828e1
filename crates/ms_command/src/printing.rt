ghost use Rattle.std.specs.Prelude.{◌≡◌, ◌<◌, ◌++◌, IfOk, OnOk};
ghost use Rattle.ms_command.specs.Names.{hex_digit, is_printed, printed_byte, printed_name};

use ms_words::NoMemory;
use std::alloc::Global;

/// A name as it is printed: each byte outside 0x21 to 0x7E, and the backslash, is `\x` and two small
/// hexadecimal digits.
pub fn printed(alloc: Global, name: &[u8]) -> Result<Vec<u8>, NoMemory>
    ensures { IfOk result (λ text. text.items ≡ printed_name name.now) }
{
    let mut text = Vec::new(alloc);
    for byte in name {
        push_printed(&mut text, *byte)?;
    }
    Ok(text)
}

/// Adds a byte of a name as it is printed.
fn push_printed(text: &mut Vec<u8>, byte: u8) -> Result<(), NoMemory>
    ensures { OnOk result (text.new.items ≡ text.old.items ++ printed_byte byte) }
{
    if is_printed_byte(byte) {
        text.push(byte)?;
    } else {
        text.extend_from_slice(&[b'\\', b'x', hexadecimal(byte / 16), hexadecimal(byte % 16)])?;
    }
    Ok(())
}

fn is_printed_byte(byte: u8) -> bool
    ensures { result ≡ is_printed byte }
{
    (0x21..=0x7e).contains(&byte) && byte != b'\\'
}

/// The digit of a number below 16.
fn hexadecimal(digit: u8) -> u8
    requires { digit < 16 }
    ensures { result ≡ hex_digit digit }
{
    if digit < 10 {
        b'0' + digit
    } else {
        b'a' + (digit - 10)
    }
}
