//! A class with many members.

use crate::telling::view_told;
use ms_pool::Out;
use ms_program::Program;
use ms_words::Item;
use std::alloc::{AllocError, Global};
use std::fmt::Write;
use std::test::Fail;

const FIELDS: u16 = 65_000;

const METHODS: u16 = 10_000;

/// The number of the pool that the first of the members' names has. Before it stand six others.
const NAMES: u16 = 7;

/// The name of the member of this number: three letters.
fn name(number: u16) -> [u8; 3] {
    [
        48 + (number / 1681 % 41) as u8,
        48 + (number / 41 % 41) as u8,
        48 + (number % 41) as u8,
    ]
}

/// Adds a text to the pool.
fn text(out: &mut Out, bytes: &[u8]) -> Result<(), AllocError> {
    out.u1(1)?;
    out.u2(bytes.len().min(100) as u16)?;
    out.slice(bytes)
}

/// Adds what stands before the fields.
fn head(out: &mut Out) -> Result<(), AllocError> {
    out.slice(&[202, 254, 186, 190, 0, 0, 0, 52])?;
    out.u2(NAMES + FIELDS)?;
    text(out, b"L")?;
    out.slice(&[7, 0, 1])?;
    text(out, b"java/lang/Object")?;
    out.slice(&[7, 0, 3])?;
    text(out, b"Code")?;
    text(out, b"()V")?;
    for number in 0..FIELDS {
        text(out, &name(number))?;
    }
    // flags, the class, the one above it, no interfaces
    out.slice(&[0, 32, 0, 2, 0, 4, 0, 0])
}

/// Adds a method that returns.
fn method(out: &mut Out, number: u16) -> Result<(), AllocError> {
    out.u2(8)?;
    out.u2(NAMES.saturating_add(number))?;
    out.u2(6)?;
    // one attribute, Code of 13 bytes: no stack, no locals, a return, no handlers, no attributes
    out.slice(&[
        0, 1, 0, 5, 0, 0, 0, 13, 0, 0, 0, 0, 0, 0, 0, 1, 177, 0, 0, 0, 0,
    ])
}

/// The file: a class `L` with static fields whose descriptors are `L`, and methods that return.
fn large(alloc: Global) -> Result<Vec<u8>, AllocError> {
    let mut out = Out::new(alloc);
    head(&mut out)?;
    out.u2(FIELDS)?;
    for number in 0..FIELDS {
        out.slice(&[0, 8])?;
        out.u2(NAMES + number)?;
        out.slice(&[0, 1, 0, 0])?;
    }
    out.u2(METHODS)?;
    for number in 0..METHODS {
        method(&mut out, number)?;
    }
    out.u2(0)?;
    Ok(out.into_bytes())
}

/// What is said of the class and its last method.
fn large_told(alloc: Global) -> Result<String, AllocError> {
    let file = large(alloc)?;
    let mut program = Program::new(alloc);
    let mut text = String::new(alloc);
    match program.add(alloc, file) {
        Ok(number) => write!(text, "added {number}; ")?,
        Err(fault) => write!(text, "{fault}; ")?,
    }
    if let Some(id) = program.method(0, &name(METHODS - 1), b"()V") {
        let number = id.method;
        let item = Item::At {
            class: id.class,
            method: number,
            offset: 0,
        };
        let view = view_told(alloc, &program, item)?;
        write!(text, "method {number}: {view}")?;
    }
    Ok(text)
}

#[test]
fn a_class_with_many_members_is_added(rt: HostRuntime) -> Result<(), Fail> {
    let text = large_told(rt.alloc())?;
    assert!(rt; text.as_str() == "added 0; method 9999: 0 177", "{text}");
    Ok(())
}
