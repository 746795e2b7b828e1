ghost use Rattle.std.specs.Prelude.{◌≡◌, ◌++◌, IfOk, OnOk};
ghost use Rattle.std.specs.Fmt.{decimal};
ghost use Rattle.ms_command.specs.Names.{printed_name};
ghost use Rattle.ms_command.specs.Texts.{line_end, reply_text};

use crate::printing::printed;
use ms_words::{Name, NoMemory};
use std::alloc::Global;

/// A reply to a command.
#[derive(Debug, Drop)]
pub enum Reply {
    /// `ok END`: the command ran a method, and this is how the run ended, as it is printed.
    Ran {
        end: Name,
    },
    /// `ok class CLASS verdicts v segments g`: the class of this name was added to the program. These are
    /// the numbers of the entry's strings whose verdict, and whose segment, is known then, each from 0 to
    /// 4,294,967,295.
    ClassAdded {
        class: Name,
        verdicts: u32,
        segments: u32,
    },
    /// `ok entry CLASS.NAMEDESC`: this method is the entry. `entry` is the name of its class, a full stop,
    /// its name and its descriptor, one behind the other, as they are.
    EntrySet {
        entry: Name,
    },
    /// `ok depth N`: paths are cut at this depth from now on, from 0 to 256.
    DepthSet {
        depth: u16,
    },
    /// `ok explored s asks a W`: the exploration settled so many strings with so many asks, each from 0 to
    /// 4,294,967,295, and W, which is printed as it is, says how it ended.
    Explored {
        settled: u32,
        asks: u32,
        how: Name,
    },
    /// `ok report paths p undecided u`: a report was made, of so many paths and so many undecided ones, each
    /// from 0 to 4,294,967,295.
    Reported {
        paths: u32,
        undecided: u32,
    },
    /// `ok unfinished`: a string needs settling, so no report was made.
    Unfinished,
    /// `ok quit`: the session ends.
    Quitting,
    /// `refused 1 Line`: the line has more than 4,096 bytes or one outside 0x20 to 0x7E.
    NoLine,
    /// `refused 2 Command`: no form of a command fits the line.
    NoCommand,
    /// `refused 3 Absent FILE`: there is no file of this name.
    Absent {
        file: Name,
    },
    /// `refused 4 TooLong FILE`: the file of this name has more than 1,048,576 bytes.
    TooLong {
        file: Name,
    },
    /// `refused 5 Class KIND AT`: the class file has a fault. This is the first one: its kind, which is
    /// printed as it is, and its place, which is how many bytes of the file come before it.
    ClassFault {
        kind: Name,
        at: u64,
    },
    /// `refused 6 Verify KIND NAMEDESC OFFSET`: the type rules fail. This is the first place where they do: the
    /// kind of the fault, which is printed as it is; the name of the method and its descriptor, one behind
    /// the other, as they are; and the offset of the instruction in its code.
    VerifyFault {
        kind: Name,
        method: Name,
        offset: u16,
    },
    /// `refused 7 Known CLASS`: the program has a class of this name.
    Known {
        class: Name,
    },
    /// `refused 8 Unknown CLASS`: the program has no class of this name.
    Unknown {
        class: Name,
    },
    /// `refused 10 NoEntry`: no entry is set.
    NoEntry,
    /// `refused 11 EntryMissing`: the class has no method of this name and descriptor that can be an entry.
    /// One named `<clinit>` can't, whatever its descriptor.
    EntryMissing,
    /// `refused 13 Range`: a form of a command fits the line, and a number is outside its range.
    Range,
    /// `refused 16 Words`: the words aren't as many as the method has parameters, or one isn't of its
    /// parameter's kind.
    Words,
    /// `refused 90 NotBuilt`: what the command asks for is beyond what is built so far. The file, which has no
    /// fault, isn't thin, a parameter of the entry isn't boolean, or a class of another name is present.
    NotBuilt,
}

/// The text of a reply: one line, ended by a line feed. In the name of a file, of a class, of a
/// method and of the entry each byte outside 0x21 to 0x7E, and the backslash, is written as `\x` and two small hexadecimal
/// digits. Numbers are decimal, without leading zeros.
pub fn write_reply(alloc: Global, reply: &Reply) -> Result<Vec<u8>, NoMemory>
    ensures { IfOk result (λ text. text.items ≡ reply_text reply.now) }
{
    match reply {
        Reply::Ran { end } => line(alloc, b"ok ", end.bytes()),
        Reply::ClassAdded {
            class,
            verdicts,
            segments,
        } => class_added(alloc, class.bytes(), *verdicts, *segments),
        Reply::EntrySet { entry } => named(alloc, b"ok entry ", entry.bytes()),
        Reply::DepthSet { depth } => depth_set(alloc, *depth),
        Reply::Explored { settled, asks, how } => explored(alloc, *settled, *asks, how.bytes()),
        Reply::Reported { paths, undecided } => reported(alloc, *paths, *undecided),
        Reply::Unfinished => line(alloc, b"ok unfinished", b""),
        Reply::Quitting => line(alloc, b"ok quit", b""),
        Reply::NoLine => line(alloc, b"refused 1 Line", b""),
        Reply::NoCommand => line(alloc, b"refused 2 Command", b""),
        Reply::Absent { file } => named(alloc, b"refused 3 Absent ", file.bytes()),
        Reply::TooLong { file } => named(alloc, b"refused 4 TooLong ", file.bytes()),
        Reply::ClassFault { kind, at } => class_fault(alloc, kind.bytes(), *at),
        Reply::VerifyFault {
            kind,
            method,
            offset,
        } => verify_fault(alloc, kind.bytes(), method.bytes(), *offset),
        Reply::Known { class } => named(alloc, b"refused 7 Known ", class.bytes()),
        Reply::Unknown { class } => named(alloc, b"refused 8 Unknown ", class.bytes()),
        Reply::NoEntry => line(alloc, b"refused 10 NoEntry", b""),
        Reply::EntryMissing => line(alloc, b"refused 11 EntryMissing", b""),
        Reply::Range => line(alloc, b"refused 13 Range", b""),
        Reply::Words => line(alloc, b"refused 16 Words", b""),
        Reply::NotBuilt => line(alloc, b"refused 90 NotBuilt", b""),
    }
}

fn class_added(
    alloc: Global,
    class: &[u8],
    verdicts: u32,
    segments: u32,
) -> Result<Vec<u8>, NoMemory>
    ensures { IfOk result (λ text. text.items ≡ reply_text (Reply.ClassAdded class.now verdicts segments)) }
{
    let mut text = Vec::from_slice(alloc, b"ok class ")?;
    let name = printed(alloc, class)?;
    text.extend_from_slice(name.as_slice())?;
    text.extend_from_slice(b" verdicts ")?;
    push_number(alloc, &mut text, u64::from(verdicts))?;
    text.extend_from_slice(b" segments ")?;
    push_number(alloc, &mut text, u64::from(segments))?;
    with_line_end(text)
}

fn class_fault(alloc: Global, kind: &[u8], at: u64) -> Result<Vec<u8>, NoMemory>
    ensures { IfOk result (λ text. text.items ≡ reply_text (Reply.ClassFault kind.now at)) }
{
    let mut text = Vec::from_slice(alloc, b"refused 5 Class ")?;
    text.extend_from_slice(kind)?;
    text.push(b' ')?;
    push_number(alloc, &mut text, at)?;
    with_line_end(text)
}

fn verify_fault(alloc: Global, kind: &[u8], method: &[u8], offset: u16) -> Result<Vec<u8>, NoMemory>
    ensures { IfOk result (λ text. text.items ≡ reply_text (Reply.VerifyFault kind.now method.now offset)) }
{
    let mut text = Vec::from_slice(alloc, b"refused 6 Verify ")?;
    text.extend_from_slice(kind)?;
    text.push(b' ')?;
    let method = printed(alloc, method)?;
    text.extend_from_slice(method.as_slice())?;
    text.push(b' ')?;
    push_number(alloc, &mut text, u64::from(offset))?;
    with_line_end(text)
}

fn depth_set(alloc: Global, depth: u16) -> Result<Vec<u8>, NoMemory>
    ensures { IfOk result (λ text. text.items ≡ reply_text (Reply.DepthSet depth)) }
{
    let mut text = Vec::from_slice(alloc, b"ok depth ")?;
    push_number(alloc, &mut text, u64::from(depth))?;
    with_line_end(text)
}

fn explored(alloc: Global, settled: u32, asks: u32, how: &[u8]) -> Result<Vec<u8>, NoMemory>
    ensures { IfOk result (λ text. text.items ≡ reply_text (Reply.Explored settled asks how.now)) }
{
    let mut text = Vec::from_slice(alloc, b"ok explored ")?;
    push_number(alloc, &mut text, u64::from(settled))?;
    text.extend_from_slice(b" asks ")?;
    push_number(alloc, &mut text, u64::from(asks))?;
    text.push(b' ')?;
    text.extend_from_slice(how)?;
    with_line_end(text)
}

fn reported(alloc: Global, paths: u32, undecided: u32) -> Result<Vec<u8>, NoMemory>
    ensures { IfOk result (λ text. text.items ≡ reply_text (Reply.Reported paths undecided)) }
{
    let mut text = Vec::from_slice(alloc, b"ok report paths ")?;
    push_number(alloc, &mut text, u64::from(paths))?;
    text.extend_from_slice(b" undecided ")?;
    push_number(alloc, &mut text, u64::from(undecided))?;
    with_line_end(text)
}

/// Adds a number in decimal.
fn push_number(alloc: Global, text: &mut Vec<u8>, number: u64) -> Result<(), NoMemory>
    ensures { OnOk result (text.new.items ≡ text.old.items ++ decimal number) }
{
    let digits = format!(in alloc; "{number}")?;
    text.extend_from_slice(digits.as_bytes())?;
    Ok(())
}

/// A text with a line feed behind it.
fn with_line_end(text: Vec<u8>) -> Result<Vec<u8>, NoMemory>
    ensures { IfOk result (λ line. line.items ≡ text.items ++ line_end) }
{
    let mut line = text;
    line.push(b'\n')?;
    Ok(line)
}

/// A line of a part and a name, as it is printed.
fn named(alloc: Global, first: &[u8], name: &[u8]) -> Result<Vec<u8>, NoMemory>
    ensures { IfOk result (λ text. text.items ≡ first.now ++ printed_name name.now ++ line_end) }
{
    let name = printed(alloc, name)?;
    line(alloc, first, name.as_slice())
}

/// A line of two parts, with its line feed.
fn line(alloc: Global, first: &[u8], rest: &[u8]) -> Result<Vec<u8>, NoMemory>
    ensures { IfOk result (λ text. text.items ≡ first.now ++ rest.now ++ line_end) }
{
    let mut text = Vec::from_slice(alloc, first)?;
    text.extend_from_slice(rest)?;
    with_line_end(text)
}
