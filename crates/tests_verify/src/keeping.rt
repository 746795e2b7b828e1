//! What is kept of a program that is verified, and of one that isn't; and the laws.

use crate::telling::compare;
use crate::writing::{Method, STATIC, class_of};
use ms_linking::{linked_programs_are_in_order, opcodes_have_groups, programs_are_linked};
use ms_machine as machine;
use ms_program::{MethodId, Program};
use ms_typing::{methods_have_one_outcome, verified_programs_are_never_stuck};
use ms_verify::{
    Verified, VerifyWhy, accepted_programs_are_never_stuck, accepted_programs_are_verified,
    accepted_programs_have_no_fault, first_faults_are_found, methods_are_seen,
};
use std::alloc::{AllocError, Global};
use std::fmt::Write;
use std::test::Fail;
use tests_files::javac;

const GOOD: Method<'static> = ("(I)I", 1, 1, "iload_0 ireturn", "");

const MIXED: Method<'static> = ("(I)I", 2, 1, "nop aconst_null iload_0 iadd ireturn", "");

/// Adds the classes, the bytes of their files, and the entry.
fn tell_state(text: &mut String, program: &Program) -> Result<(), AllocError> {
    for class in 0..program.classes() {
        let name = str::from_utf8(program.class_name(class)).unwrap_or("?");
        let bytes = program.file(class).len();
        let methods = program.methods(class);
        write!(text, "{name} {bytes} {methods} ")?;
    }
    match program.entry() {
        Some(MethodId { class, method }) => write!(text, "entry c{class}m{method}; "),
        None => text.push_str("no entry; "),
    }
}

/// Adds what is said of the program, and gives it back.
fn verify(alloc: Global, text: &mut String, program: Program) -> Result<Program, AllocError> {
    match Verified::new(alloc, program) {
        Ok(verified) => {
            text.push_str("verified: ")?;
            tell_state(text, verified.program())?;
            let program = verified.into_program();
            tell_state(text, &program)?;
            Ok(program)
        }
        Err(unverified) => {
            let why = unverified.why;
            write!(text, "{why}: ")?;
            tell_state(text, &unverified.program)?;
            Ok(unverified.program)
        }
    }
}

/// Makes the first method of the first class the entry.
fn enter(program: &mut Program) {
    if let Some(id) = program.method(0, b"a", b"(I)I") {
        let _ = program.set_entry(id);
    }
}

/// What comes of a program that isn't verified until a class of it is replaced.
fn kept_told(alloc: Global) -> Result<String, AllocError> {
    let mut text = String::new(alloc);
    let mut program = Program::new(alloc);
    let _ = program.add(alloc, class_of(alloc, STATIC, &MIXED)?);
    enter(&mut program);
    tell_state(&mut text, &program)?;
    let mut program = verify(alloc, &mut text, program)?;
    let _ = program.replace(alloc, class_of(alloc, STATIC, &GOOD)?);
    let mut program = verify(alloc, &mut text, program)?;
    let _ = program.add(alloc, Vec::from_slice(alloc, &javac::LOOPS)?);
    let mut program = verify(alloc, &mut text, program)?;
    let _ = program.replace(alloc, class_of(alloc, STATIC, &MIXED)?);
    let _ = verify(alloc, &mut text, program)?;
    let why = VerifyWhy::NoMemory;
    write!(text, "{why}")?;
    Ok(text)
}

/// What is to come of it.
const KEPT: &str = "A 632 1 entry c0m0; \
    Kind in class 0, method 0, at 3: A 632 1 entry c0m0; \
    verified: A 629 1 entry c0m0; A 629 1 entry c0m0; \
    verified: A 629 1 Loops 275 3 entry c0m0; A 629 1 Loops 275 3 entry c0m0; \
    Kind in class 0, method 0, at 3: A 632 1 Loops 275 3 entry c0m0; \
    memory ran out";

#[test]
fn programs_are_handed_back(rt: HostRuntime) -> Result<(), Fail> {
    let text = kept_told(rt.alloc())?;
    let mut differing = String::new(rt.alloc());
    compare(&mut differing, "kept", text.as_str(), KEPT)?;
    assert!(rt; differing.is_empty(), "{differing}");
    Ok(())
}

#[test]
fn laws_have_no_effect(_rt: HostRuntime) {
    methods_are_seen();
    accepted_programs_have_no_fault();
    first_faults_are_found();
    accepted_programs_are_verified();
    accepted_programs_are_never_stuck();
    methods_have_one_outcome();
    verified_programs_are_never_stuck();
    opcodes_have_groups();
    programs_are_linked();
    linked_programs_are_in_order();
    machine::choices_are_small();
    machine::footprints_have_views();
    machine::inputs_share_shadows();
    machine::least_exists();
    machine::least_is_first();
    machine::least_is_unique();
    machine::marks_are_right();
    machine::shadows_need_no_input();
    machine::takes_where_literals_hold();
    machine::words_are_values();
    machine::words_take_an_arm();
}
