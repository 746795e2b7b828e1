//! What one step of a run may read at the entry.

use crate::files::changed;
use crate::telling::{compare, view_told};
use ms_program::Program;
use ms_words::Item;
use std::alloc::{AllocError, Global};
use std::test::Fail;

/// Classes by the numbers of their files, with other bytes at a place; a name and a descriptor; and what is
/// said of the entry, where such a method is set as the entry. Its class is the second of the program.
static ENTRIES: [(usize, usize, &[u8], &str, &str, &str); 9] = [
    // no entry is set, since there is no such method
    (6, 0, &[], "six", "()V", "none"),
    (
        6,
        0,
        &[],
        "five",
        "(ZBCSI)I",
        "entry takes Z B C S I gives I init present first c1m1@0 clinit c1m7@0",
    ),
    (
        6,
        0,
        &[],
        "none",
        "()V",
        "entry takes gives nothing init present first c1m2@0 clinit c1m7@0",
    ),
    (
        6,
        0,
        &[],
        "eight",
        "(IIIIIIII)Z",
        "entry takes I I I I I I I I gives Z init present first c1m3@0 clinit c1m7@0",
    ),
    // no initialiser; one that is foreign; one that isn't; the same where it isn't static
    (
        3,
        0,
        &[],
        "c",
        "()I",
        "entry takes gives I init absent first c1m1@0",
    ),
    (
        4,
        0,
        &[],
        "d",
        "()I",
        "entry takes gives I init foreign first c1m1@0",
    ),
    (
        5,
        0,
        &[],
        "e",
        "()I",
        "entry takes gives I init present first c1m1@0 clinit c1m2@0",
    ),
    (
        5,
        191,
        &[0, 0],
        "e",
        "()I",
        "entry takes gives I init foreign first c1m1@0",
    ),
    (
        7,
        0,
        &[],
        "pick",
        "(IZ)I",
        "entry takes I Z gives I init absent first c1m2@0",
    ),
];

/// The program of `T` and a class of this file, whose method of this name and descriptor is the entry.
fn entered(alloc: Global, file: Vec<u8>, name: &str, desc: &str) -> Result<Program, AllocError> {
    let mut program = Program::new(alloc);
    let _ = program.add(alloc, changed(alloc, 1, 0, &[])?);
    let _ = program.add(alloc, file);
    if let Some(id) = program.method(1, name.as_bytes(), desc.as_bytes()) {
        let _ = program.set_entry(id);
    }
    Ok(program)
}

/// What differs.
fn entries_differ(alloc: Global) -> Result<String, AllocError> {
    let mut differing = String::new(alloc);
    for ((number, place, bytes, name, desc, want), row) in ENTRIES.iter().zip(0_u16..) {
        let file = changed(alloc, *number, *place, bytes)?;
        let program = entered(alloc, file, name, desc)?;
        let text = view_told(alloc, &program, Item::Entry)?;
        compare(&mut differing, row, text.as_str(), want)?;
    }
    Ok(differing)
}

#[test]
fn the_entry_has_its_view(rt: HostRuntime) -> Result<(), Fail> {
    let differing = entries_differ(rt.alloc())?;
    assert!(rt; differing.is_empty(), "{differing}");
    Ok(())
}
