//! Each public call once, where it has something to answer; and the laws.

use crate::files::{changed, file};
use crate::telling::tell_ids;
use crate::views::six;
use ms_classfile::{class_files_are_read, members_are_distinct, pools_lie_in_their_file};
use ms_code::codes_are_read;
use ms_program::{
    File, MethodBody, Program, bodies_have_whole_codes, files_are_read,
    files_are_whole_or_have_a_fault, first_fault, instructions_are_of_the_subset,
    members_have_first_items, read_file, views_lead_to_views,
};
use std::alloc::{AllocError, Global};
use std::fmt::Write;
use std::test::Fail;

/// Adds the number of the class of this name.
fn tell_class_named(text: &mut String, program: &Program, name: &[u8]) -> Result<(), AllocError> {
    match program.class_named(name) {
        Some(number) => write!(text, "class {number}; "),
        None => text.push_str("no class; "),
    }
}

/// Adds a method: its name, what it needs, and the opcode at 1 of its code.
fn tell_body(text: &mut String, body: &MethodBody<'_>) -> Result<(), AllocError> {
    let name = str::from_utf8(body.name).unwrap_or("?");
    let desc = str::from_utf8(body.desc).unwrap_or("?");
    let stack = body.max_stack;
    let locals = body.max_locals;
    write!(text, "{name}{desc} {stack} {locals}; ")?;
    if let Some(instr) = body.code.at(1) {
        let op = instr.op;
        write!(text, "{op} at 1; ")?;
    }
    Ok(())
}

/// Adds what is said of a class.
fn tell_class(text: &mut String, program: &Program, class: u16) -> Result<(), AllocError> {
    if class >= program.classes() {
        return text.push_str("no class; ");
    }
    let name = str::from_utf8(program.class_name(class)).unwrap_or("?");
    let bytes = program.file(class).len();
    let methods = program.methods(class);
    let whole = if program.file(class) == file(usize::from(class)) {
        "the file"
    } else {
        "another file"
    };
    write!(text, "{name} {bytes} bytes {methods} methods {whole}; ")
}

/// What a program of six classes answers.
fn calls_told(alloc: Global) -> Result<String, AllocError> {
    let program = six(alloc)?;
    let mut text = String::new(alloc);
    let count = program.classes();
    write!(text, "{count} classes; ")?;
    for class in 0..5 {
        tell_class(&mut text, &program, class)?;
    }
    tell_class_named(&mut text, &program, b"B")?;
    tell_class_named(&mut text, &program, b"X")?;
    tell_ids(&mut text, program.method(2, b"reads", b"()I"))?;
    text.push_str("; ")?;
    if 2 < program.classes() && 1 < program.methods(2) {
        if let Some(body) = program.method_body(2, 1) {
            tell_body(&mut text, &body)?;
        }
    }
    Ok(text)
}

#[test]
fn what_is_asked_of_a_program_is_answered(rt: HostRuntime) -> Result<(), Fail> {
    let text = calls_told(rt.alloc())?;
    let want = "6 classes; A 655 bytes 6 methods the file; T 663 bytes 3 methods the file; \
        B 718 bytes 5 methods the file; C 154 bytes 2 methods the file; \
        D 249 bytes 3 methods the file; class 2; no class; c2m3; own(I)I 1 1; 172 at 1; ";
    assert!(rt; text.as_str() == want, "{text}");
    Ok(())
}

/// Adds what the bytes are.
fn tell_file(alloc: Global, text: &mut String, bytes: &[u8]) -> Result<(), AllocError> {
    match read_file(alloc, bytes) {
        Ok(File { class, bodies }) => {
            let name = str::from_utf8(class.name).unwrap_or("?");
            write!(text, "{name}")?;
            for method in 0..class.methods.rows().len() {
                text.push_str(if bodies.get(method).is_some() {
                    " known"
                } else {
                    " foreign"
                })?;
            }
        }
        Err(fault) => write!(text, "{fault}")?,
    }
    match first_fault(alloc, bytes)? {
        Some(fault) => {
            let at = fault.at;
            write!(text, ", at {at}; ")
        }
        None => text.push_str(", none; "),
    }
}

/// What is said of a file, of the same where a `goto` leads into its operand, and of one with another first
/// byte.
fn files_told(alloc: Global) -> Result<String, AllocError> {
    let mut text = String::new(alloc);
    tell_file(alloc, &mut text, file(0))?;
    tell_file(
        alloc,
        &mut text,
        changed(alloc, 0, 415, &[0, 1])?.as_slice(),
    )?;
    tell_file(alloc, &mut text, changed(alloc, 0, 0, &[0])?.as_slice())?;
    Ok(text)
}

#[test]
fn files_are_read_or_have_a_fault(rt: HostRuntime) -> Result<(), Fail> {
    let text = files_told(rt.alloc())?;
    let want = "A foreign known known foreign foreign known, none; \
        no class file: Target at 414, at 414; no class file: Magic at 0, at 0; ";
    assert!(rt; text.as_str() == want, "{text}");
    Ok(())
}

#[test]
fn laws_do_nothing(_rt: HostRuntime) {
    files_are_read();
    files_are_whole_or_have_a_fault();
    class_files_are_read();
    members_are_distinct();
    pools_lie_in_their_file();
    codes_are_read();
    bodies_have_whole_codes();
    views_lead_to_views();
    members_have_first_items();
    instructions_are_of_the_subset();
}
