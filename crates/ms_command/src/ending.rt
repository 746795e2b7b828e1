ghost use Rattle.std.specs.Prelude.{◌≡◌, ◌++◌, IfOk};
ghost use Rattle.ms_command.specs.Endings as endings;
ghost use Rattle.ms_command.specs.Endings.{ended_text};
ghost use Rattle.ms_command.specs.Names.{printed_name};

use crate::printing::printed;
use ms_words::{Ended, Name, NoMemory, PathEnd};
use std::alloc::Global;

/// How the end of a path is printed: `returns N`, `returns void`, `throws CLASS`, `initfailed CLASS`,
/// `missing NAME`, `runaway`, `deep`, `symlength`, `heapfull` or `cut`. `names` has the names of the
/// program's classes by their numbers; where none has the number of `initfailed`, CLASS is empty. N is
/// decimal. In CLASS and NAME each byte outside 0x21 to 0x7E, and the backslash, is written as `\x` and two
/// small hexadecimal digits.
pub fn end_text(alloc: Global, names: &[Name], end: &PathEnd) -> Result<Name, NoMemory>
    ensures { IfOk result (λ text. text ≡ endings.end_text names.now end.now) }
{
    match end {
        PathEnd::Ended(end) => ended(alloc, names, end),
        PathEnd::Cut => Name::of(alloc, b"cut"),
    }
}

fn ended(alloc: Global, names: &[Name], end: &Ended) -> Result<Name, NoMemory>
    ensures { IfOk result (λ text. text ≡ ended_text names.now end.now) }
{
    match end {
        Ended::Returned(word) => returned(alloc, *word),
        Ended::ReturnedVoid => Name::of(alloc, b"returns void"),
        Ended::Threw(class) => with_name(alloc, b"throws ", class.class_name()),
        Ended::InitFailed(class) => with_name(alloc, b"initfailed ", name_of(names, *class)),
        Ended::Missing(name) => with_name(alloc, b"missing ", name.bytes()),
        Ended::Runaway => Name::of(alloc, b"runaway"),
        Ended::Deep => Name::of(alloc, b"deep"),
        Ended::SymLength => Name::of(alloc, b"symlength"),
        Ended::HeapFull => Name::of(alloc, b"heapfull"),
    }
}

fn returned(alloc: Global, word: i32) -> Result<Name, NoMemory>
    ensures { IfOk result (λ text. text ≡ endings.returned_text word) }
{
    let text = format!(in alloc; "returns {word}")?;
    Name::of(alloc, text.as_bytes())
}

/// A text, and behind it a name as it is printed.
fn with_name(alloc: Global, first: &[u8], name: &[u8]) -> Result<Name, NoMemory>
    ensures { IfOk result (λ text. text ≡ first.now ++ printed_name name.now) }
{
    let mut text = Vec::from_slice(alloc, first)?;
    let name = printed(alloc, name)?;
    text.extend_from_slice(name.as_slice())?;
    Name::of(alloc, text.as_slice())
}

/// The name of the class of this number.
fn name_of(names: &[Name], class: u16) -> &[u8]
    ensures { result.now ≡ endings.name_of names.now class }
{
    match names.get(usize::from(class)) {
        Some(name) => name.bytes(),
        None => b"",
    }
}
