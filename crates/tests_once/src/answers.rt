//! The classes, each with its lines and the replies.

use crate::{
    bits, broken, callers, every_array, every_branch, every_catch, every_end, every_fails,
    every_fails_itself, every_foreign, every_foreign_start, every_int, every_load, every_mark,
    every_member, every_own, every_stack, every_started, every_switch, every_throw, faults, helper,
    kinds, limits, numbers, recursion, sieve, sorting, statics, switches,
};
use ms_memoise::{Status, memoise};
use ms_outside::{MemoryShelf, MemorySink, MemorySource, Shelved};
use std::alloc::{AllocError, Global};
use std::process::Abort;
use std::test::Fail;

/// A shelf with this file alone.
fn shelf(alloc: Global, name: &str, file: &[u8]) -> Result<MemoryShelf, AllocError> {
    let name = Vec::from_slice(alloc, name.as_bytes())?;
    let bytes = Vec::from_slice(alloc, file)?;
    let mut files = Vec::new(alloc);
    files.push(Shelved::new(name, bytes))?;
    Ok(MemoryShelf::new(files, Vec::new(alloc)))
}

/// How the program ends on these lines where the shelf has this file alone, and what it wrote.
fn run(
    alloc: Global,
    name: &str,
    file: &[u8],
    lines: &str,
) -> Result<(Status, MemorySink), AllocError> {
    let bytes = Vec::from_slice(alloc, lines.as_bytes())?;
    let mut source = MemorySource::new(bytes, Vec::new(alloc));
    let mut shelf = shelf(alloc, name, file)?;
    let mut sink = MemorySink::new(alloc, Vec::new(alloc));
    let status = memoise(alloc, &[], &mut source, &mut shelf, &mut sink);
    Ok((status, sink))
}

/// That the program writes these replies to these lines.
fn check(
    rt: &(impl Abort + AllocGlobal),
    name: &str,
    file: &[u8],
    lines: &str,
    replies: &str,
) -> Result<(), AllocError> {
    let (status, sink) = run(rt.alloc(), name, file, lines)?;
    assert!(rt; status == Status::Done, "at {name}");
    assert!(rt; sink.taken() == replies.as_bytes(), "at {name}");
    Ok(())
}

#[test]
fn bits_are_shifted_and_masked(rt: HostRuntime) -> Result<(), Fail> {
    check(&rt, "Bits.class", &bits::FILE, bits::LINES, bits::REPLIES)?;
    Ok(())
}

#[test]
fn an_initialiser_fails(rt: HostRuntime) -> Result<(), Fail> {
    check(
        &rt,
        "Broken.class",
        &broken::FILE,
        broken::LINES,
        broken::REPLIES,
    )?;
    Ok(())
}

#[test]
fn other_classes_are_missing(rt: HostRuntime) -> Result<(), Fail> {
    check(
        &rt,
        "Callers.class",
        &callers::FILE,
        callers::LINES,
        callers::REPLIES,
    )?;
    Ok(())
}

#[test]
fn throwables_are_thrown_and_caught(rt: HostRuntime) -> Result<(), Fail> {
    check(
        &rt,
        "Faults.class",
        &faults::FILE,
        faults::LINES,
        faults::REPLIES,
    )?;
    Ok(())
}

#[test]
fn a_small_class_runs(rt: HostRuntime) -> Result<(), Fail> {
    check(
        &rt,
        "Helper.class",
        &helper::FILE,
        helper::LINES,
        helper::REPLIES,
    )?;
    Ok(())
}

#[test]
fn parameters_have_kinds(rt: HostRuntime) -> Result<(), Fail> {
    check(
        &rt,
        "Kinds.class",
        &kinds::FILE,
        kinds::LINES,
        kinds::REPLIES,
    )?;
    Ok(())
}

#[test]
fn limits_end_runs(rt: HostRuntime) -> Result<(), Fail> {
    check(
        &rt,
        "Limits.class",
        &limits::FILE,
        limits::LINES,
        limits::REPLIES,
    )?;
    Ok(())
}

#[test]
fn loops_compute(rt: HostRuntime) -> Result<(), Fail> {
    check(
        &rt,
        "Numbers.class",
        &numbers::FILE,
        numbers::LINES,
        numbers::REPLIES,
    )?;
    Ok(())
}

#[test]
fn methods_call_themselves(rt: HostRuntime) -> Result<(), Fail> {
    check(
        &rt,
        "Recursion.class",
        &recursion::FILE,
        recursion::LINES,
        recursion::REPLIES,
    )?;
    Ok(())
}

#[test]
fn an_initialiser_fills_an_array(rt: HostRuntime) -> Result<(), Fail> {
    check(
        &rt,
        "Sieve.class",
        &sieve::FILE,
        sieve::LINES,
        sieve::REPLIES,
    )?;
    Ok(())
}

#[test]
fn arrays_are_sorted(rt: HostRuntime) -> Result<(), Fail> {
    check(
        &rt,
        "Sorting.class",
        &sorting::FILE,
        sorting::LINES,
        sorting::REPLIES,
    )?;
    Ok(())
}

#[test]
fn fields_have_first_values(rt: HostRuntime) -> Result<(), Fail> {
    check(
        &rt,
        "Statics.class",
        &statics::FILE,
        statics::LINES,
        statics::REPLIES,
    )?;
    Ok(())
}

#[test]
fn switches_select(rt: HostRuntime) -> Result<(), Fail> {
    check(
        &rt,
        "Switches.class",
        &switches::FILE,
        switches::LINES,
        switches::REPLIES,
    )?;
    Ok(())
}

#[test]
fn arrays_are_made_read_and_stored(rt: HostRuntime) -> Result<(), Fail> {
    check(
        &rt,
        "EveryArray.class",
        &every_array::FILE,
        every_array::LINES,
        every_array::REPLIES,
    )?;
    Ok(())
}

#[test]
fn every_branch_leads(rt: HostRuntime) -> Result<(), Fail> {
    check(
        &rt,
        "EveryBranch.class",
        &every_branch::FILE,
        every_branch::LINES,
        every_branch::REPLIES,
    )?;
    Ok(())
}

#[test]
fn every_throwable_meets_every_handler(rt: HostRuntime) -> Result<(), Fail> {
    check(
        &rt,
        "EveryCatch.class",
        &every_catch::FILE,
        every_catch::LINES,
        every_catch::REPLIES,
    )?;
    Ok(())
}

#[test]
fn every_bound_ends_runs(rt: HostRuntime) -> Result<(), Fail> {
    check(
        &rt,
        "EveryEnd.class",
        &every_end::FILE,
        every_end::LINES,
        every_end::REPLIES,
    )?;
    Ok(())
}

#[test]
fn an_initialiser_fails_below(rt: HostRuntime) -> Result<(), Fail> {
    check(
        &rt,
        "EveryFails.class",
        &every_fails::FILE,
        every_fails::LINES,
        every_fails::REPLIES,
    )?;
    Ok(())
}

#[test]
fn an_initialiser_throws(rt: HostRuntime) -> Result<(), Fail> {
    check(
        &rt,
        "EveryFailsItself.class",
        &every_fails_itself::FILE,
        every_fails_itself::LINES,
        every_fails_itself::REPLIES,
    )?;
    Ok(())
}

#[test]
fn foreign_methods_are_missing(rt: HostRuntime) -> Result<(), Fail> {
    check(
        &rt,
        "EveryForeign.class",
        &every_foreign::FILE,
        every_foreign::LINES,
        every_foreign::REPLIES,
    )?;
    Ok(())
}

#[test]
fn a_foreign_initialiser_is_missing(rt: HostRuntime) -> Result<(), Fail> {
    check(
        &rt,
        "EveryForeignStart.class",
        &every_foreign_start::FILE,
        every_foreign_start::LINES,
        every_foreign_start::REPLIES,
    )?;
    Ok(())
}

#[test]
fn every_operator_computes(rt: HostRuntime) -> Result<(), Fail> {
    check(
        &rt,
        "EveryInt.class",
        &every_int::FILE,
        every_int::LINES,
        every_int::REPLIES,
    )?;
    Ok(())
}

#[test]
fn every_constant_load_and_store(rt: HostRuntime) -> Result<(), Fail> {
    check(
        &rt,
        "EveryLoad.class",
        &every_load::FILE,
        every_load::LINES,
        every_load::REPLIES,
    )?;
    Ok(())
}

#[test]
fn lengths_depend_on_parameters(rt: HostRuntime) -> Result<(), Fail> {
    check(
        &rt,
        "EveryMark.class",
        &every_mark::FILE,
        every_mark::LINES,
        every_mark::REPLIES,
    )?;
    Ok(())
}

#[test]
fn fields_and_methods_are_found_or_missing(rt: HostRuntime) -> Result<(), Fail> {
    check(
        &rt,
        "EveryMember.class",
        &every_member::FILE,
        every_member::LINES,
        every_member::REPLIES,
    )?;
    Ok(())
}

#[test]
fn names_words_and_gaps_are_as_they_are(rt: HostRuntime) -> Result<(), Fail> {
    check(
        &rt,
        "EveryOwn.class",
        &every_own::FILE,
        every_own::LINES,
        every_own::REPLIES,
    )?;
    Ok(())
}

#[test]
fn every_stack_instruction_shuffles(rt: HostRuntime) -> Result<(), Fail> {
    check(
        &rt,
        "EveryStack.class",
        &every_stack::FILE,
        every_stack::LINES,
        every_stack::REPLIES,
    )?;
    Ok(())
}

#[test]
fn an_initialiser_counts(rt: HostRuntime) -> Result<(), Fail> {
    check(
        &rt,
        "EveryStarted.class",
        &every_started::FILE,
        every_started::LINES,
        every_started::REPLIES,
    )?;
    Ok(())
}

#[test]
fn every_switch_selects(rt: HostRuntime) -> Result<(), Fail> {
    check(
        &rt,
        "EverySwitch.class",
        &every_switch::FILE,
        every_switch::LINES,
        every_switch::REPLIES,
    )?;
    Ok(())
}

#[test]
fn every_throw_finds_its_handler(rt: HostRuntime) -> Result<(), Fail> {
    check(
        &rt,
        "EveryThrow.class",
        &every_throw::FILE,
        every_throw::LINES,
        every_throw::REPLIES,
    )?;
    Ok(())
}
