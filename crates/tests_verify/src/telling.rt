//! What the verifier says, as a short text.

use crate::writing::{STATIC, class_of};
use ms_program::Program;
use ms_verify::{Verified, VerifyKind, VerifyWhy};
use std::alloc::{AllocError, Global};
use std::fmt::Write;

/// The name of a kind.
pub fn kind_name(kind: VerifyKind) -> &'static str {
    match kind {
        VerifyKind::Depth => "Depth",
        VerifyKind::Kind => "Kind",
        VerifyKind::Local => "Local",
        VerifyKind::FallOff => "FallOff",
        VerifyKind::Merge => "Merge",
        VerifyKind::Return => "Return",
    }
}

/// The first letter of it.
fn kind_letter(kind: VerifyKind) -> &'static str {
    kind_name(kind).get(..1).unwrap_or("?")
}

/// Adds why a program isn't verified; the numbers of the first class and its first method are left out.
fn tell_why(text: &mut String, why: VerifyWhy) -> Result<(), AllocError> {
    match why {
        VerifyWhy::Fault {
            class,
            method,
            offset,
            kind,
        } => {
            text.push_str(kind_name(kind))?;
            if class > 0 || method > 0 {
                write!(text, " in c{class}m{method}")?;
            }
            write!(text, " at {offset}")
        }
        VerifyWhy::NoMemory => text.push_str("no memory"),
    }
}

/// Adds whether a program is verified, or why it isn't.
pub fn tell_program(alloc: Global, text: &mut String, program: Program) -> Result<(), AllocError> {
    match Verified::new(alloc, program) {
        Ok(_) => text.push_str("ok"),
        Err(unverified) => tell_why(text, unverified.why),
    }
}

/// Whether the program of one class is verified, or why it isn't, or what is wrong with the file.
pub fn outcome(alloc: Global, file: Vec<u8>) -> Result<String, AllocError> {
    let mut text = String::new(alloc);
    let mut program = Program::new(alloc);
    match program.add(alloc, file) {
        Ok(_) => tell_program(alloc, &mut text, program)?,
        Err(fault) => write!(text, "{fault}")?,
    }
    Ok(text)
}

/// A word for what is said of the program of one class: `.` where it is verified, `f` where the file has a fault, else
/// the offset of the fault and its first letter.
pub fn short_outcome(alloc: Global, file: Vec<u8>) -> Result<String, AllocError> {
    let mut text = String::new(alloc);
    let mut program = Program::new(alloc);
    if program.add(alloc, file).is_err() {
        text.push_str("f")?;
        return Ok(text);
    }
    match Verified::new(alloc, program) {
        Ok(_) => text.push_str(".")?,
        Err(unverified) => match unverified.why {
            VerifyWhy::Fault { offset, kind, .. } => {
                let letter = kind_letter(kind);
                write!(text, "{offset}{letter}")?;
            }
            VerifyWhy::NoMemory => text.push_str("?")?,
        },
    }
    Ok(text)
}

/// One sign for what is said of the program of one class: `.` where it is verified, the first letter of a fault at
/// this offset, and else `?`.
pub fn first_letter(alloc: Global, file: Vec<u8>, at: u16) -> Result<&'static str, AllocError> {
    let mut program = Program::new(alloc);
    if program.add(alloc, file).is_err() {
        return Ok("?");
    }
    match Verified::new(alloc, program) {
        Ok(_) => Ok("."),
        Err(unverified) => match unverified.why {
            VerifyWhy::Fault { offset, kind, .. } if offset == at => { Ok(kind_letter(kind)) }
            _ => Ok("?"),
        },
    }
}

/// Adds a text that isn't the wanted one, behind what it is of.
pub fn compare(
    differing: &mut String,
    what: &str,
    text: &str,
    want: &str,
) -> Result<(), AllocError> {
    if text != want {
        write!(differing, "\n{what}: {text}\nwanted: {want}\n")?;
    }
    Ok(())
}

/// Codes of methods of a descriptor, a `max_stack` and a `max_locals`: lines of a code, behind a semicolon its
/// handlers if it has any, and what is said of it.
pub type Cases = (&'static str, u16, u16, &'static str);

/// Adds what differs in a line.
fn compare_line(
    alloc: Global,
    differing: &mut String,
    (desc, max_stack, max_locals): (&str, u16, u16),
    line: &str,
) -> Result<(), AllocError> {
    let (method, want) = line.split_once(" = ").unwrap_or((line, ""));
    let (code, table) = method.split_once(" ; ").unwrap_or((method, ""));
    let file = class_of(alloc, STATIC, &(desc, max_stack, max_locals, code, table))?;
    let text = outcome(alloc, file)?;
    compare(differing, line, text.as_str(), want)
}

/// What differs.
pub fn cases_differ(alloc: Global, cases: &[Cases]) -> Result<String, AllocError> {
    let mut differing = String::new(alloc);
    for (desc, max_stack, max_locals, lines) in cases {
        for line in lines.lines() {
            let line = line.trim();
            if !line.is_empty() {
                compare_line(
                    alloc,
                    &mut differing,
                    (*desc, *max_stack, *max_locals),
                    line,
                )?;
            }
        }
    }
    Ok(differing)
}
