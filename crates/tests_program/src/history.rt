//! Programs that change, step by step.

use crate::files::changed;
use crate::telling::{compare, tell_state};
use ms_program::{AddFault, EntryRefusal, Program};
use std::alloc::{AllocError, Global};
use std::fmt::Write;
use std::test::Fail;

/// Bytes of a file: its number, and at a place of it other ones.
type Bytes = (usize, usize, &'static [u8]);

/// What is done with a program.
enum Act {
    /// The class of these bytes is added.
    Add(Bytes),
    /// The class of these bytes is put in the place of another.
    Replace(Bytes),
    /// A method is set as the entry: the number of its class, its name and descriptor.
    Enter(u16, &'static str, &'static str),
}

const A: Bytes = (0, 0, &[]);

const T: Bytes = (1, 0, &[]);

const B: Bytes = (2, 0, &[]);

const P: Bytes = (6, 0, &[]);

/// The other `A`.
const SHORT: Bytes = (7, 0, &[]);

const NOTHING: Bytes = (9, 0, &[]);

/// `A` with another first byte.
const NO_MAGIC: Bytes = (0, 0, &[0]);

/// `A`, where the `goto` at 36 of `pick` leads into its operand.
const ASTRAY: Bytes = (0, 415, &[0, 1]);

/// `A`, where `pick` is named `pock`.
const POCK: Bytes = (0, 171, b"o");

/// `A`, where `pick` isn't static.
const BOUND: Bytes = (0, 356, &[0, 0]);

/// What is done with a program, which has no class at first; what is answered each time, and behind the
/// semicolon the names of the classes and the entry.
static HISTORY: [(Act, &str); 38] = [
    (Act::Enter(0, "pick", "(IZ)I"), "no method; entry none"),
    (
        Act::Replace(A),
        "no class of this name is there; entry none",
    ),
    (Act::Add(A), "added 0; A entry none"),
    (Act::Add(A), "a class of this name is there; A entry none"),
    (
        Act::Add(SHORT),
        "a class of this name is there; A entry none",
    ),
    // faults of the file, and of a code, come before the name
    (
        Act::Add(NO_MAGIC),
        "no class file: Magic at 0; A entry none",
    ),
    (
        Act::Add(ASTRAY),
        "no class file: Target at 414; A entry none",
    ),
    (Act::Add(NOTHING), "no class file: Short at 0; A entry none"),
    (Act::Add(T), "added 1; A T entry none"),
    (Act::Add(P), "added 2; A T P entry none"),
    // native; with a long; of another descriptor; of no class; a constructor
    (Act::Enter(0, "far", "(I)I"), "no method; A T P entry none"),
    (Act::Enter(0, "big", "(J)J"), "no method; A T P entry none"),
    (Act::Enter(0, "pick", "(I)I"), "no method; A T P entry none"),
    (
        Act::Enter(3, "pick", "(IZ)I"),
        "no method; A T P entry none",
    ),
    (
        Act::Enter(2, "<init>", "()V"),
        "no method; A T P entry none",
    ),
    // nine parameters, an array, an array as result, the initialiser
    (
        Act::Enter(2, "nine", "(IIIIIIIII)I"),
        "no entry; A T P entry none",
    ),
    (
        Act::Enter(2, "array", "([I)I"),
        "no entry; A T P entry none",
    ),
    (Act::Enter(2, "gives", "()[I"), "no entry; A T P entry none"),
    (
        Act::Enter(2, "<clinit>", "()V"),
        "no entry; A T P entry none",
    ),
    (Act::Enter(2, "none", "()V"), "entered; A T P entry c2m2"),
    (
        Act::Enter(2, "eight", "(IIIIIIII)Z"),
        "entered; A T P entry c2m3",
    ),
    (
        Act::Enter(2, "five", "(ZBCSI)I"),
        "entered; A T P entry c2m1",
    ),
    // the entry stays where another isn't set
    (
        Act::Enter(2, "nine", "(IIIIIIIII)I"),
        "no entry; A T P entry c2m1",
    ),
    (Act::Enter(0, "pick", "(IZ)I"), "entered; A T P entry c0m1"),
    // another class than the entry's
    (Act::Replace(T), "replaced 1; A T P entry c0m1"),
    // the entry's class, where the method is there, under another number, and back
    (Act::Replace(SHORT), "replaced 0; A T P entry c0m2"),
    (Act::Replace(A), "replaced 0; A T P entry c0m1"),
    // files at fault, and a name that isn't there
    (
        Act::Replace(NO_MAGIC),
        "no class file: Magic at 0; A T P entry c0m1",
    ),
    (
        Act::Replace(ASTRAY),
        "no class file: Target at 414; A T P entry c0m1",
    ),
    (
        Act::Replace(NOTHING),
        "no class file: Short at 0; A T P entry c0m1",
    ),
    (
        Act::Replace(B),
        "no class of this name is there; A T P entry c0m1",
    ),
    // the entry's class, where no method has its name; the entry doesn't come back with the method
    (Act::Replace(POCK), "replaced 0; A T P entry none"),
    (Act::Replace(A), "replaced 0; A T P entry none"),
    (Act::Enter(0, "pick", "(IZ)I"), "entered; A T P entry c0m1"),
    // the entry's class, where the method is foreign
    (Act::Replace(BOUND), "replaced 0; A T P entry none"),
    (
        Act::Enter(0, "pick", "(IZ)I"),
        "no method; A T P entry none",
    ),
    (Act::Replace(SHORT), "replaced 0; A T P entry none"),
    (Act::Enter(0, "pick", "(IZ)I"), "entered; A T P entry c0m2"),
];

/// Adds what is answered where a class is added or replaced.
fn tell_added(
    text: &mut String,
    word: &str,
    answer: Result<u16, AddFault>,
) -> Result<(), AllocError> {
    match answer {
        Ok(number) => write!(text, "{word} {number}"),
        Err(fault) => write!(text, "{fault}"),
    }
}

/// Sets a method as the entry, and adds what is answered.
fn enter(
    text: &mut String,
    program: &mut Program,
    class: u16,
    name: &str,
    desc: &str,
) -> Result<(), AllocError> {
    let Some(id) = program.method(class, name.as_bytes(), desc.as_bytes()) else {
        return text.push_str("no method");
    };
    match program.set_entry(id) {
        Ok(()) => text.push_str("entered"),
        Err(EntryRefusal::Kinds) => text.push_str("no entry"),
    }
}

/// Does what is to be done, and adds what is answered.
fn perform(
    alloc: Global,
    text: &mut String,
    program: &mut Program,
    step: &Act,
) -> Result<(), AllocError> {
    match step {
        Act::Add((number, place, bytes)) => {
            let file = changed(alloc, *number, *place, bytes)?;
            tell_added(text, "added", program.add(alloc, file))
        }
        Act::Replace((number, place, bytes)) => {
            let file = changed(alloc, *number, *place, bytes)?;
            tell_added(text, "replaced", program.replace(alloc, file))
        }
        Act::Enter(class, name, desc) => enter(text, program, *class, name, desc),
    }
}

/// What differs.
fn history_differs(alloc: Global) -> Result<String, AllocError> {
    let mut differing = String::new(alloc);
    let mut program = Program::new(alloc);
    for ((step, want), row) in HISTORY.iter().zip(0_u16..) {
        let mut text = String::new(alloc);
        perform(alloc, &mut text, &mut program, step)?;
        text.push_str("; ")?;
        tell_state(&mut text, &program)?;
        compare(&mut differing, row, text.as_str(), want)?;
    }
    Ok(differing)
}

#[test]
fn programs_change_step_by_step(rt: HostRuntime) -> Result<(), Fail> {
    let differing = history_differs(rt.alloc())?;
    assert!(rt; differing.is_empty(), "{differing}");
    Ok(())
}

/// The place of the first of the two digits in the name of the class `Q00`.
const DIGITS: usize = 64;

/// The two digits of a number.
fn digits(number: u8) -> [u8; 2] {
    [48 + number / 10 % 10, 48 + number % 10]
}

/// Adds the class whose name has this number, and what is answered.
fn add_numbered(
    alloc: Global,
    text: &mut String,
    program: &mut Program,
    number: u8,
) -> Result<(), AllocError> {
    let file = changed(alloc, 8, DIGITS, &digits(number))?;
    tell_added(text, "added", program.add(alloc, file))?;
    text.push_str("; ")
}

/// What is answered where 64 classes are added, and then a new one, one that is there, one at fault, and
/// where one is replaced.
fn many_told(alloc: Global) -> Result<String, AllocError> {
    let mut program = Program::new(alloc);
    let mut text = String::new(alloc);
    for number in 0..64 {
        let mut answer = String::new(alloc);
        add_numbered(alloc, &mut answer, &mut program, number)?;
        if number == 0 || number == 63 {
            text.push_str(answer.as_str())?;
        }
    }
    add_numbered(alloc, &mut text, &mut program, 64)?;
    add_numbered(alloc, &mut text, &mut program, 63)?;
    let file = changed(alloc, 8, 0, &[0])?;
    tell_added(&mut text, "added", program.add(alloc, file))?;
    text.push_str("; ")?;
    let file = changed(alloc, 8, DIGITS, &digits(40))?;
    tell_added(&mut text, "replaced", program.replace(alloc, file))?;
    let count = program.classes();
    write!(text, "; {count} classes")?;
    Ok(text)
}

#[test]
fn a_program_has_at_most_64_classes(rt: HostRuntime) -> Result<(), Fail> {
    let text = many_told(rt.alloc())?;
    let want = "added 0; added 63; 64 classes are there; a class of this name is there; \
        no class file: Magic at 0; replaced 40; 64 classes";
    assert!(rt; text.as_str() == want, "{text}");
    Ok(())
}
