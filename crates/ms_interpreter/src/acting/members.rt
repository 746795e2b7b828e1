ghost use Rattle.std.specs.Prelude.{◌≡◌, IfOk};
ghost use Rattle.ms_machine.specs.Instructions as machine;
ghost use Rattle.ms_linking.specs.Told.{member_told};
ghost use Rattle.ms_interpreter.specs.Accessing.{Invokes, Reads, Writes};
ghost use Rattle.ms_interpreter.specs.declared.did.Did.TheVariants as did;
ghost use Rattle.ms_interpreter.specs.declared.plan.Plan.TheVariants as plan;
ghost use Rattle.ms_interpreter.specs.Doing.{ActsAnyhow, Stays};

use crate::acting::accessing::{Accessed, Sought, access};
use crate::did::{Did, Stop};
use crate::frame::Frame;
use crate::memory::Memory;
use crate::plan::Plan;
use crate::slot::Slot;
use ms_linking::Member;
use ms_words::{FieldType, NoMemory, Signature};
use std::alloc::Global;

/// Puts the value of a static field on the stack. Before a store that is this int, or null for arrays.
pub(crate) fn get_static<I: Copy + Drop>(
    alloc: Global,
    member: &Member<'_>,
    field_type: FieldType,
    initial: &i32,
    frame: &mut Frame<I>,
    memory: &mut Memory<I>,
) -> Result<Did<I>, NoMemory>
    ensures acts { IfOk result (λ did. ActsAnyhow (machine.GetStatic (member_told member.now) field_type initial.now) frame.old memory.old did frame.new memory.new) }
    ensures stays { IfOk result (λ did. Stays did frame.old frame.new) }
{
    match access(alloc, member, Sought::Field, memory)? {
        Accessed::Did(did) => Ok(did),
        Accessed::Class(class) => {
            let did = read_field(member, class, field_type, initial, frame, memory)?;
            Ok(did)
        }
    }
}

/// Puts the value of a static field of a started class on the stack.
fn read_field<I: Copy + Drop>(
    member: &Member<'_>,
    class: u16,
    field_type: FieldType,
    initial: &i32,
    frame: &mut Frame<I>,
    memory: &Memory<I>,
) -> Result<Did<I>, NoMemory>
    ensures reads { IfOk result (λ did. Reads (member_told member.now) class field_type initial.now frame.old memory.now did frame.new) }
    ensures stays { IfOk result (λ did. Stays did frame.old frame.new) }
{
    if let Some(slot) = memory.field(class, member.name, member.descriptor) {
        frame.push(slot)?;
        return Ok(Did::Next);
    }
    match field_type {
        FieldType::Int(_) => Ok(first_int(initial)),
        FieldType::IntArray => {
            frame.push(Slot::Null)?;
            Ok(Did::Next)
        }
    }
}

/// The int that a field is at first is put on the stack.
fn first_int<I: Copy + Drop>(initial: &i32) -> Did<I>
    ensures { result ≡ did.Pushes (plan.Constant initial.now) }
{
    Did::Pushes(Plan::Constant(*initial))
}

/// Takes a value into a static field.
pub(crate) fn put_static<I: Copy + Drop>(
    alloc: Global,
    member: &Member<'_>,
    field_type: FieldType,
    frame: &mut Frame<I>,
    memory: &mut Memory<I>,
) -> Result<Did<I>, NoMemory>
    ensures acts { IfOk result (λ did. ActsAnyhow (machine.PutStatic (member_told member.now) field_type) frame.old memory.old did frame.new memory.new) }
    ensures stays { IfOk result (λ did. Stays did frame.old frame.new) }
{
    match access(alloc, member, Sought::Field, memory)? {
        Accessed::Did(did) => Ok(did),
        Accessed::Class(class) => {
            let did = write_field(alloc, member, class, frame, memory)?;
            Ok(did)
        }
    }
}

/// Takes a value into a static field of a started class.
fn write_field<I: Copy + Drop>(
    alloc: Global,
    member: &Member<'_>,
    class: u16,
    frame: &mut Frame<I>,
    memory: &mut Memory<I>,
) -> Result<Did<I>, NoMemory>
    ensures writes { IfOk result (λ did. Writes (member_told member.now) class frame.old memory.old did frame.new memory.new) }
    ensures stays { IfOk result (λ did. Stays did frame.old frame.new) }
{
    let Some(slot) = frame.pop() else {
        return Ok(Did::Stops(Stop::Stuck));
    };
    memory.set_field(alloc, class, member.name, member.descriptor, slot)?;
    Ok(Did::Next)
}

/// Calls a static method: its arguments stay on the stack for now.
pub(crate) fn invoke<I: Copy + Drop>(
    alloc: Global,
    member: &Member<'_>,
    signature: &Signature,
    frame: &Frame<I>,
    memory: &mut Memory<I>,
) -> Result<Did<I>, NoMemory>
    ensures { IfOk result (λ did. ActsAnyhow (machine.Invoke (member_told member.now) signature.now) frame.now memory.old did frame.now memory.new) }
{
    match access(alloc, member, Sought::Method, memory)? {
        Accessed::Did(did) => Ok(did),
        Accessed::Class(class) => Ok(call(class, signature.parameters().len(), frame, memory)),
    }
}

/// Calls a method of a started class with so many arguments, where these are on the stack.
fn call<I: Copy + Drop>(
    class: u16,
    parameters: usize,
    frame: &Frame<I>,
    memory: &Memory<I>,
) -> Did<I>
    ensures { Invokes parameters class frame.now memory.now result }
{
    if frame.depth() < parameters {
        return Did::Stops(Stop::Stuck);
    }
    Did::Calls(parameters)
}
