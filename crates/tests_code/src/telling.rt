//! What a code says, as a short text.

use ms_code::{CodeFault, Coded, Decoded, Handler, Instr, Operand, Switch, decode};
use ms_pool::{CodeRow, Handlers, Pool, RawHandler};
use std::alloc::{AllocError, Global};
use std::fmt::Write;

/// The place of the first byte of each code that is made here.
pub const CODE_AT: u64 = 91;

/// The place of the first entry of its exception table.
pub const TABLE_AT: u64 = 200;

/// An entry of an exception table: its start, end and handler, and what is caught.
pub type Entry = (u16, u16, u16, u16);

/// The row of a code with this table.
fn row<'a>(alloc: Global, code: &'a [u8], entries: &[Entry]) -> Result<CodeRow<'a>, AllocError> {
    let mut rows = Vec::new(alloc);
    for (start, end, handler, catch_type) in entries {
        rows.push(RawHandler {
            start: *start,
            end: *end,
            handler: *handler,
            catch_type: *catch_type,
        })?;
    }
    Ok(CodeRow {
        max_stack: 2,
        max_locals: 2,
        code,
        code_at: CODE_AT,
        table: Handlers::new(rows),
        table_at: TABLE_AT,
    })
}

/// What `decode` answers, and nothing where the row isn't one that a class file may have.
fn coded(alloc: Global, row: &CodeRow<'_>, pool: &Pool<'_>) -> Option<Result<Coded, CodeFault>> {
    let entries = row.table.rows().len();
    if row.code.len() > 65_535
        || entries > 65_535
        || row.code_at > 1_000_000
        || row.table_at > 1_000_000
    {
        return None;
    }
    Some(decode(alloc, row, pool))
}

/// Adds the cases of a switch.
fn tell_switch(text: &mut String, switch: &Switch) -> Result<(), AllocError> {
    for case in switch.cases() {
        let key = case.key;
        let target = case.target;
        write!(text, " {key}:{target}")?;
    }
    let otherwise = switch.otherwise();
    write!(text, " else {otherwise}")
}

/// Adds what stands behind an opcode.
fn tell_operand(text: &mut String, operand: &Operand) -> Result<(), AllocError> {
    match operand {
        Operand::Nothing => Ok(()),
        Operand::Word(word) => write!(text, " word {word}"),
        Operand::Local(index) => write!(text, " local {index}"),
        Operand::Increment { index, by } => write!(text, " local {index} by {by}"),
        Operand::Pool(number) => write!(text, " number {number}"),
        Operand::Target(target) => write!(text, " to {target}"),
        Operand::Cases(switch) => tell_switch(text, switch),
    }
}

/// Adds an instruction.
fn tell_instr(text: &mut String, instr: &Instr) -> Result<(), AllocError> {
    if instr.wide {
        text.push_str("wide ")?;
    }
    let op = instr.op;
    write!(text, "{op}")?;
    tell_operand(text, &instr.operand)
}

/// Adds what is said of an offset: the instruction that starts there, and the offset of the one behind it.
fn tell_offset(text: &mut String, decoded: &Decoded, offset: u16) -> Result<(), AllocError> {
    if let Some(instr) = decoded.at(offset) {
        write!(text, "{offset}: ")?;
        tell_instr(text, instr)?;
    }
    if let Some(next) = decoded.next(offset) {
        write!(text, " then {next}; ")?;
    }
    Ok(())
}

/// Adds a handler.
fn tell_handler(text: &mut String, handler: &Handler) -> Result<(), AllocError> {
    let start = handler.start;
    let end = handler.end;
    let target = handler.target;
    let catches = handler.catches;
    write!(text, "; {start} to {end} at {target} {catches:?}")
}

/// What is asked of a decoded code.
#[derive(Clone, Copy)]
pub enum Asked {
    /// What is said of each offset, and the handlers.
    All,
    /// What is said of this offset.
    At(u16),
    /// How many instructions it has, how many cases the first of them, and the handlers.
    Numbers,
}

/// Adds what is said of each offset of a code, up to the one behind its end, and of the last of all.
fn tell_all(text: &mut String, decoded: &Decoded, size: u16) -> Result<(), AllocError> {
    for offset in 0..size.saturating_add(1) {
        tell_offset(text, decoded, offset)?;
    }
    tell_offset(text, decoded, 65_535)
}

/// How many instructions a code has, one behind the other from offset 0 on.
fn instructions(decoded: &Decoded, size: u16) -> u16 {
    let mut offset = 0;
    let mut many: u16 = 0;
    for _ in 0..size {
        if decoded.at(offset).is_some() {
            many = many.saturating_add(1);
        }
        match decoded.next(offset) {
            Some(next) => offset = next,
            None => return many,
        }
    }
    many
}

/// How many cases an instruction has.
fn cases(instr: Option<&Instr>) -> usize {
    match instr {
        Some(instr) => match &instr.operand {
            Operand::Cases(switch) => switch.cases().len(),
            _ => 0,
        },
        None => 0,
    }
}

/// Adds how many instructions a code has, and how many cases the first of them.
fn tell_numbers(text: &mut String, decoded: &Decoded, size: u16) -> Result<(), AllocError> {
    let many = instructions(decoded, size);
    let cases = cases(decoded.at(0));
    write!(text, "{many} instructions")?;
    if cases > 0 {
        write!(text, ", {cases} cases")?;
    }
    Ok(())
}

/// Adds the handlers, or how many they are, where they are many.
fn tell_handlers(text: &mut String, decoded: &Decoded) -> Result<(), AllocError> {
    let handlers = decoded.handlers();
    let many = handlers.len();
    if many > 100 {
        return write!(text, "; {many} handlers");
    }
    for handler in handlers {
        tell_handler(text, handler)?;
    }
    Ok(())
}

/// Adds what is asked of a decoded code of so many bytes.
fn tell_decoded(
    text: &mut String,
    decoded: &Decoded,
    size: u16,
    asked: Asked,
) -> Result<(), AllocError> {
    if decoded.bytes() != usize::from(size) {
        text.push_str("of another size; ")?;
    }
    match asked {
        Asked::All => tell_all(text, decoded, size)?,
        Asked::At(offset) => return tell_offset(text, decoded, offset),
        Asked::Numbers => tell_numbers(text, decoded, size)?,
    }
    tell_handlers(text, decoded)
}

/// Adds what a code is.
pub fn tell(
    alloc: Global,
    text: &mut String,
    row: &CodeRow<'_>,
    pool: &Pool<'_>,
    asked: Asked,
) -> Result<(), AllocError> {
    let size = u16::try_from(row.code.len()).unwrap_or(0);
    match coded(alloc, row, pool) {
        Some(Ok(Coded::Decoded(decoded))) => tell_decoded(text, &decoded, size, asked),
        Some(Ok(Coded::Foreign)) => text.push_str("foreign"),
        Some(Err(fault)) => write!(text, "{fault}"),
        None => text.push_str("no row"),
    }
}

/// What a code with this table is.
pub fn told(
    alloc: Global,
    pool: &Pool<'_>,
    code: &[u8],
    entries: &[Entry],
    asked: Asked,
) -> Result<String, AllocError> {
    let mut text = String::new(alloc);
    let row = row(alloc, code, entries)?;
    tell(alloc, &mut text, &row, pool, asked)?;
    Ok(text)
}

/// Adds a text that isn't the wanted one, with its number in the table.
pub fn compare(differing: &mut String, row: u16, text: &str, want: &str) -> Result<(), AllocError> {
    if text != want {
        write!(differing, "\nrow {row}: {text}\nwanted: {want}\n")?;
    }
    Ok(())
}
