//! Programs of several methods and classes, and methods that are foreign.

use crate::telling::{compare, outcome, tell_program};
use crate::writing::{Method, STATIC, add_head, add_row, class_of};
use ms_pool::Out;
use ms_program::Program;
use std::alloc::{AllocError, Global};
use std::fmt::Write;
use std::test::Fail;

/// A method with its flags.
type Flagged = (u16, Method<'static>);

const SHALLOW: Method<'static> = ("(I)I", 1, 1, "pop", "");

/// The method of this letter. The last three are foreign.
fn method_of(letter: char) -> Flagged {
    match letter {
        'g' => (STATIC, ("(I)I", 1, 1, "iload_0 ireturn", "")),
        's' => (STATIC, SHALLOW),
        'm' => (STATIC, ("()V", 1, 1, "aconst_null ineg return", "")),
        'u' => (STATIC, ("()V", 1, 1, "nop nop nop iload_0", "")),
        'b' => (0, SHALLOW),
        'j' => (STATIC, ("(J)V", 1, 2, "pop", "")),
        _ => (STATIC, ("()V", 1, 2, "new String", "")),
    }
}

/// Programs with what is said of each: a word for each class, of the letters of its methods, and `-` for none.
const PROGRAMS: &str = "
    - = ok
    - - = ok
    gs = Depth in c0m1 at 0
    ms = Kind at 1
    gms = Kind in c0m1 at 1
    g gm = Kind in c1m1 at 1
    gs m = Depth in c0m1 at 0
    g m s = Kind in c1m0 at 1
    - - gggu = Local in c2m3 at 3
    jbng = ok
    bjs s = Depth in c0m2 at 0
    bb jj nu = Local in c2m1 at 3
";

/// Methods of these flags, each the only one of its class, with what is said of each.
static LONE: [(Flagged, &str); 24] = [
    // methods that are not static, synchronized, native, abstract
    ((0, SHALLOW), "ok"),
    ((0x0028, SHALLOW), "ok"),
    ((0x0108, SHALLOW), "ok"),
    ((0x0408, SHALLOW), "ok"),
    ((0x1408, SHALLOW), "ok"),
    ((0x1099, SHALLOW), "Depth at 0"),
    // methods that are foreign by their descriptors, their room or their codes
    ((STATIC, ("(J)V", 1, 2, "pop", "")), "ok"),
    ((STATIC, ("()V", 257, 2, "pop", "")), "ok"),
    ((STATIC, ("()V", 1, 257, "pop", "")), "ok"),
    ((STATIC, ("()V", 256, 256, "pop", "")), "Depth at 0"),
    ((STATIC, ("(I[IZ)V", 1, 2, "pop", "")), "ok"),
    ((STATIC, ("(I[IZ)V", 1, 3, "pop", "")), "Depth at 0"),
    ((STATIC, ("()V", 1, 2, "pop new String", "")), "ok"),
    ((STATIC, ("()V", 1, 2, "pop getstatic f:J", "")), "ok"),
    ((STATIC, ("()V", 1, 2, "pop invokestatic m(J)V", "")), "ok"),
    ((STATIC, ("()V", 1, 2, "pop ca", "")), "ok"),
    ((STATIC, ("()V", 1, 2, "pop wide nop", "")), "ok"),
    ((STATIC, ("()V", 1, 2, "pop newarray 0b", "")), "ok"),
    ((STATIC, ("()V", 1, 2, "pop ldc_w String", "")), "ok"),
    ((STATIC, ("()V", 1, 2, "pop invokespecial m()V", "")), "ok"),
    ((STATIC, ("()V", 1, 2, "pop getstatic m()V", "")), "ok"),
    (
        (
            STATIC,
            ("()V", 1, 2, "pop return", "00 00 00 01 00 01 String"),
        ),
        "ok",
    ),
    (
        (
            STATIC,
            ("()V", 1, 2, "pop return", "00 00 00 01 00 01 Index"),
        ),
        "Depth at 0",
    ),
    (
        (STATIC, ("()V", 1, 2, "pop invokestatic Error()", "")),
        "Depth at 0",
    ),
];

/// The file of a class of methods of these letters.
fn file_of(alloc: Global, name: &str, letters: &str) -> Result<Vec<u8>, AllocError> {
    let mut out = Out::new(alloc);
    let count = if letters == "-" {
        0
    } else {
        letters.len().min(4) as u16
    };
    add_head(&mut out, name, count)?;
    for (letter, number) in letters.chars().zip(0..count) {
        let (flags, method) = method_of(letter);
        add_row(alloc, &mut out, number, flags, &method)?;
    }
    // no attributes
    out.u2(0)?;
    Ok(out.into_bytes())
}

/// What is said of a program.
fn program_told(alloc: Global, classes: &str) -> Result<String, AllocError> {
    let mut text = String::new(alloc);
    let mut program = Program::new(alloc);
    for (letters, name) in classes.split(' ').zip(["A", "B", "C"]) {
        if let Err(fault) = program.add(alloc, file_of(alloc, name, letters)?) {
            write!(text, "{fault} ")?;
        }
    }
    tell_program(alloc, &mut text, program)?;
    Ok(text)
}

/// What differs.
fn programs_differ(alloc: Global) -> Result<String, AllocError> {
    let mut differing = String::new(alloc);
    for line in PROGRAMS.trim().lines() {
        let (classes, want) = line.trim().split_once(" = ").unwrap_or(("", ""));
        let text = program_told(alloc, classes)?;
        compare(&mut differing, line, text.as_str(), want)?;
    }
    let text = program_told(alloc, "")?;
    compare(&mut differing, "no classes", text.as_str(), "ok")?;
    for ((flags, method), want) in &LONE {
        let file = class_of(alloc, *flags, method)?;
        let text = outcome(alloc, file)?;
        compare(&mut differing, method.3, text.as_str(), want)?;
    }
    Ok(differing)
}

#[test]
fn the_first_method_with_a_fault_counts(rt: HostRuntime) -> Result<(), Fail> {
    let differing = programs_differ(rt.alloc())?;
    assert!(rt; differing.is_empty(), "{differing}");
    Ok(())
}
