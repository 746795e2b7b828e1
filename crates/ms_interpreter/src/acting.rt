ghost use Rattle.std.specs.Prelude.{IfOk};
ghost use Rattle.ms_machine.specs.Instructions as machine;
ghost use Rattle.ms_linking.specs.Linked.{views_of};
ghost use Rattle.ms_linking.specs.Told.{told};
ghost use Rattle.ms_interpreter.specs.Doing.{Acts, ActsAnyhow, HasText, Stays};
ghost use Rattle.ms_interpreter.specs.Seen.{texts_of};

mod accessing;
mod arrays;
mod ints;
mod members;
mod references;
mod shuffling;
mod texts;

use crate::did::Did;
use crate::frame::Frame;
use crate::memory::Memory;
use crate::plan::Plan;
pub(crate) use accessing::initialiser_name;
use arrays::{load_cell, store_cell};
use ints::{
    change, combine, compare, compare_zero, divide, increment, load, push_null, store, switch,
};
use members::{get_static, invoke, put_static};
use ms_linking::Instruction;
use ms_program::Program;
use ms_words::NoMemory;
use references::{array_length, compare_null, construct, new, new_array, return_value, throw};
use shuffling::shuffle;
use std::alloc::Global;
use texts::{compare_references, push_text};

/// Puts a word on the stack.
fn push_word<I: Copy + Drop>(word: &i32, frame: &Frame<I>, memory: &Memory<I>) -> Did<I>
    ensures { ActsAnyhow (machine.Push word.now) frame.now memory.now result frame.now memory.now }
{
    Did::Pushes(Plan::Constant(*word))
}

/// Executes an instruction in a frame, with an arm of its test where it asks one.
pub(crate) fn act<I: Copy + Drop>(
    alloc: Global,
    program: &Program,
    instruction: &Instruction<'_>,
    arm: usize,
    frame: &mut Frame<I>,
    memory: &mut Memory<I>,
) -> Result<Did<I>, NoMemory>
    requires { HasText (texts_of (views_of program.now)) frame.old.at (told instruction.now) }
    ensures acts { IfOk result (λ did. Acts (texts_of (views_of program.now)) (told instruction.now) arm frame.old memory.old did frame.new memory.new) }
    ensures stays { IfOk result (λ did. Stays did frame.old frame.new) }
{
    match instruction {
        Instruction::Skip => Ok(Did::Next),
        Instruction::Push(word) => Ok(push_word(word, frame, memory)),
        Instruction::PushNull => push_null(frame, memory),
        Instruction::PushText(_) => push_text(frame, memory),
        Instruction::Load(sort, local) => load(*sort, *local, frame, memory),
        Instruction::Store(sort, local) => store(*sort, *local, frame, memory),
        Instruction::Shuffle { count, places } => shuffle(alloc, *count, places, frame, memory),
        Instruction::Change(op) => Ok(change(*op, frame, memory)),
        Instruction::Combine(op) => Ok(combine(*op, frame, memory)),
        Instruction::Divide(op) => Ok(divide(*op, arm, frame, memory)),
        Instruction::Increment(local, by) => Ok(increment(*local, by, frame, memory)),
        Instruction::Compare(comparison) => Ok(compare(*comparison, arm, frame, memory)),
        Instruction::CompareZero(comparison) => Ok(compare_zero(*comparison, arm, frame, memory)),
        Instruction::CompareReferences { same } => {
            compare_references(alloc, program, *same, frame, memory)
        }
        Instruction::CompareNull { null } => Ok(compare_null(*null, frame, memory)),
        Instruction::Goto => Ok(Did::Jumps(0)),
        Instruction::Switch(cases) => Ok(switch(cases, arm, frame, memory)),
        Instruction::ReturnValue(sort) => Ok(return_value(*sort, frame, memory)),
        Instruction::ReturnVoid => Ok(Did::Returns(None)),
        Instruction::GetStatic(member, field_type, initial) => {
            get_static(alloc, member, *field_type, initial, frame, memory)
        }
        Instruction::PutStatic(member, field_type) => {
            put_static(alloc, member, *field_type, frame, memory)
        }
        Instruction::Invoke(member, signature) => invoke(alloc, member, signature, frame, memory),
        Instruction::New(class) => new(*class, frame, memory),
        Instruction::Construct {
            with_message,
            class,
        } => Ok(construct(*with_message, *class, frame, memory)),
        Instruction::Throw => Ok(throw(frame, memory)),
        Instruction::NewArray => Ok(new_array(frame, memory)),
        Instruction::ArrayLength => Ok(array_length(frame, memory)),
        Instruction::ArrayLoad => load_cell(arm, frame, memory),
        Instruction::ArrayStore => Ok(store_cell(arm, frame, memory)),
    }
}
