//! Copies of programs.

use crate::files::changed;
use crate::telling::program_told;
use crate::views::six;
use ms_program::Program;
use std::alloc::{AllocError, Global};
use std::test::Fail;

/// Puts the other `A` in the place of `A`, and adds `P`.
fn change(alloc: Global, program: &mut Program) -> Result<(), AllocError> {
    let _ = program.replace(alloc, changed(alloc, 7, 0, &[])?);
    let _ = program.add(alloc, changed(alloc, 6, 0, &[])?);
    Ok(())
}

/// Whether the files of two programs are the same, number by number.
fn same_files(first: &Program, second: &Program) -> bool {
    if first.classes() != second.classes() {
        return false;
    }
    for class in 0..first.classes() {
        if class < second.classes() && first.file(class) != second.file(class) {
            return false;
        }
    }
    true
}

/// Adds whether two texts are the same.
fn tell_same(text: &mut String, first: &str, second: &str) -> Result<(), AllocError> {
    text.push_str(if first == second { "same " } else { "other " })
}

/// How a program and its copy are: at first, once the copy is changed, and once the program is too.
fn copies_told(alloc: Global) -> Result<String, AllocError> {
    let mut program = six(alloc)?;
    if let Some(id) = program.method(0, b"pick", b"(IZ)I") {
        let _ = program.set_entry(id);
    }
    let mut copy = program.copy(alloc)?;
    let before = program_told(alloc, &program)?;
    let mut text = String::new(alloc);
    tell_same(
        &mut text,
        program_told(alloc, &copy)?.as_str(),
        before.as_str(),
    )?;
    text.push_str(if same_files(&program, &copy) {
        "same; "
    } else {
        "other; "
    })?;
    change(alloc, &mut copy)?;
    let after = program_told(alloc, &copy)?;
    tell_same(
        &mut text,
        program_told(alloc, &program)?.as_str(),
        before.as_str(),
    )?;
    tell_same(&mut text, after.as_str(), before.as_str())?;
    text.push_str(if same_files(&program, &copy) {
        "same; "
    } else {
        "other; "
    })?;
    let third = program.copy(alloc)?;
    change(alloc, &mut program)?;
    tell_same(
        &mut text,
        program_told(alloc, &third)?.as_str(),
        before.as_str(),
    )?;
    tell_same(
        &mut text,
        program_told(alloc, &program)?.as_str(),
        after.as_str(),
    )?;
    text.push_str(if same_files(&program, &copy) {
        "same"
    } else {
        "other"
    })?;
    Ok(text)
}

#[test]
fn a_copy_is_the_same_and_stays_so(rt: HostRuntime) -> Result<(), Fail> {
    let text = copies_told(rt.alloc())?;
    assert!(rt;
        text.as_str() == "same same; same other other; same same same",
        "{text}"
    );
    Ok(())
}
