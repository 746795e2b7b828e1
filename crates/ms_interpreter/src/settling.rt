ghost use Rattle.std.specs.Prelude.{◌≡◌, ◌+◌, ◌≤◌, IfOk, OnOk};
ghost use Rattle.ms_interpreter.specs.declared.did.Did.TheVariants as did;
ghost use Rattle.ms_interpreter.specs.Leads.{Keeps, MakesArray, Settles, natural_of, thrown_lead};
ghost use Rattle.ms_interpreter.specs.Plans.{computed, planned};
ghost use Rattle.ms_interpreter.specs.Seen.{Texts};
ghost use Rattle.ms_interpreter.specs.Staying.{Stay};

use crate::arithmetic::Arithmetic;
use crate::did::{Did, Stop};
use crate::frame::Frame;
use crate::lead::Lead;
use crate::memory::Memory;
use crate::plan::Plan;
use crate::slot::Slot;
use ms_words::{Bin, NoMemory, Thrown};
use std::alloc::Global;

/// The int that was planned. There is room for two ints more.
fn compute<A: Arithmetic>(plan: Plan<A::Int>, arithmetic: &mut A) -> Result<A::Int, NoMemory>
    requires room { A.kept arithmetic.old + 2 ≤ 4294967295 }
    ensures is { IfOk result (λ a. A.means arithmetic.new a ≡ computed A.ints (A.means arithmetic.new) (planned plan)) }
    ensures stay { Stay A.Has (A.means arithmetic.old) (A.means arithmetic.new) }
    ensures few { A.kept arithmetic.new ≤ A.kept arithmetic.old + 2 }
{
    match plan {
        Plan::Constant(word) => arithmetic.constant(word),
        Plan::Unary(op, a) => arithmetic.unary(op, a),
        Plan::Binary(op, a, b) => arithmetic.binary(op, a, b),
        Plan::Plus(a, word) => {
            let b = arithmetic.constant(word)?;
            arithmetic.binary(Bin::Add, a, b)
        }
    }
}

/// Puts the int that was planned on the stack.
fn push<A: Arithmetic>(
    plan: Plan<A::Int>,
    frame: &mut Frame<A::Int>,
    memory: &Memory<A::Int>,
    arithmetic: &mut A,
) -> Result<Lead<A::Int>, NoMemory>
    requires room { A.kept arithmetic.old + 2 ≤ 4294967295 }
    ensures lead { IfOk result (λ lead. (texts : Texts) → Settles A.ints (A.means arithmetic.new) texts (did.Pushes plan) frame.old memory.now lead frame.new memory.now) }
    ensures keeps { IfOk result (λ lead. Keeps lead frame.old frame.new) }
    ensures stay { Stay A.Has (A.means arithmetic.old) (A.means arithmetic.new) }
    ensures few { A.kept arithmetic.new ≤ A.kept arithmetic.old + 2 }
{
    let a = compute(plan, arithmetic)?;
    frame.push(Slot::Int(a))?;
    Ok(Lead::Next)
}

/// Puts the int that was planned in a local.
fn put<A: Arithmetic>(
    local: u16,
    plan: Plan<A::Int>,
    frame: &mut Frame<A::Int>,
    memory: &Memory<A::Int>,
    arithmetic: &mut A,
) -> Result<Lead<A::Int>, NoMemory>
    requires room { A.kept arithmetic.old + 2 ≤ 4294967295 }
    ensures lead { IfOk result (λ lead. (texts : Texts) → Settles A.ints (A.means arithmetic.new) texts (did.Puts local plan) frame.old memory.now lead frame.new memory.now) }
    ensures keeps { IfOk result (λ lead. Keeps lead frame.old frame.new) }
    ensures stay { Stay A.Has (A.means arithmetic.old) (A.means arithmetic.new) }
    ensures few { A.kept arithmetic.new ≤ A.kept arithmetic.old + 2 }
{
    let a = compute(plan, arithmetic)?;
    frame.set_local(local, Slot::Int(a))?;
    Ok(Lead::Next)
}

/// Throws a throwable of a class, where one was made.
fn thrown<I>(class: Thrown, number: Option<u16>) -> Lead<I>
    ensures { result ≡ thrown_lead class number }
{
    match number {
        Some(number) => Lead::Raises(number, class),
        None => Lead::Stops(Stop::HeapFull),
    }
}

/// The number that a word is, unless it is negative.
fn natural(word: i32) -> Option<usize>
    ensures { result ≡ natural_of word }
{
    if word < 0 {
        return None;
    }
    Some(word as usize)
}

/// Makes an array of a length that is known, and puts it on the stack.
fn make_known<A: Arithmetic>(
    alloc: Global,
    length: usize,
    frame: &mut Frame<A::Int>,
    memory: &mut Memory<A::Int>,
    arithmetic: &mut A,
) -> Result<Lead<A::Int>, NoMemory>
    requires room { A.kept arithmetic.old + 2 ≤ 4294967295 }
    ensures lead { IfOk result (λ lead. (texts : Texts) → MakesArray A.ints (A.means arithmetic.new) texts length frame.old memory.old lead frame.new memory.new) }
    ensures keeps { IfOk result (λ lead. Keeps lead frame.old frame.new) }
    ensures stay { Stay A.Has (A.means arithmetic.old) (A.means arithmetic.new) }
    ensures few { A.kept arithmetic.new ≤ A.kept arithmetic.old + 2 }
{
    if !memory.has_room(length) {
        return Ok(Lead::Stops(Stop::HeapFull));
    }
    let zero = arithmetic.constant(0)?;
    let number = memory.make_array(alloc, zero, length)?;
    frame.push(Slot::Array(number))?;
    Ok(Lead::Next)
}

/// Makes an array of this length, and puts it on the stack.
fn make<A: Arithmetic>(
    alloc: Global,
    size: A::Int,
    frame: &mut Frame<A::Int>,
    memory: &mut Memory<A::Int>,
    arithmetic: &mut A,
) -> Result<Lead<A::Int>, NoMemory>
    requires room { A.kept arithmetic.old + 2 ≤ 4294967295 }
    ensures lead { IfOk result (λ lead. (texts : Texts) → Settles A.ints (A.means arithmetic.new) texts (did.Makes size) frame.old memory.old lead frame.new memory.new) }
    ensures keeps { IfOk result (λ lead. Keeps lead frame.old frame.new) }
    ensures stay { Stay A.Has (A.means arithmetic.old) (A.means arithmetic.new) }
    ensures few { A.kept arithmetic.new ≤ A.kept arithmetic.old + 2 }
{
    let Some(word) = arithmetic.known(size) else {
        return Ok(Lead::Stops(Stop::SymLength));
    };
    let Some(length) = natural(word) else {
        return Ok(thrown(Thrown::NegativeArraySize, memory.make_throwable()));
    };
    make_known(alloc, length, frame, memory, arithmetic)
}

/// Does the arithmetic that an instruction planned.
pub(crate) fn settle<A: Arithmetic>(
    alloc: Global,
    did: Did<A::Int>,
    frame: &mut Frame<A::Int>,
    memory: &mut Memory<A::Int>,
    arithmetic: &mut A,
) -> Result<Lead<A::Int>, NoMemory>
    requires room { A.kept arithmetic.old + 2 ≤ 4294967295 }
    ensures lead { IfOk result (λ lead. (texts : Texts) → Settles A.ints (A.means arithmetic.new) texts did frame.old memory.old lead frame.new memory.new) }
    ensures keeps { IfOk result (λ lead. Keeps lead frame.old frame.new) }
    ensures stay { Stay A.Has (A.means arithmetic.old) (A.means arithmetic.new) }
    ensures few { A.kept arithmetic.new ≤ A.kept arithmetic.old + 2 }
{
    match did {
        Did::Next => Ok(Lead::Next),
        Did::Jumps(target) => Ok(Lead::Jumps(target)),
        Did::Pushes(plan) => push(plan, frame, memory, arithmetic),
        Did::Puts(local, plan) => put(local, plan, frame, memory, arithmetic),
        Did::Makes(size) => make(alloc, size, frame, memory, arithmetic),
        Did::Calls(parameters) => Ok(Lead::Calls(parameters)),
        Did::Initialises(class) => Ok(Lead::Initialises(class)),
        Did::Returns(slot) => Ok(Lead::Returns(slot)),
        Did::Raises(number, class) => Ok(Lead::Raises(number, class)),
        Did::Stops(stop) => Ok(Lead::Stops(stop)),
    }
}
