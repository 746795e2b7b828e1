ghost use Rattle.std.specs.Prelude.{map};
ghost use Rattle.ms_code.specs.declared.instruction.Case.{Case};
ghost use Rattle.ms_machine.specs.Instructions as machine;
ghost use Rattle.ms_linking.specs.Told.{comparison_of, told};
ghost use Rattle.ms_interpreter.specs.Asking.{Asks};

use crate::asked::Asked;
use crate::frame::Frame;
use crate::memory::Memory;
use crate::slot::Slot;
use ms_code::Switch;
use ms_linking::{Comparison, Instruction};
use ms_words::Bin;

/// The test of a comparison of two ints.
fn compared<'a, I: Copy + Drop>(
    comparison: Comparison,
    frame: &Frame<I>,
    memory: &Memory<I>,
) -> Option<Asked<'a, I>>
    ensures { Asks (machine.Compare (comparison_of comparison)) frame.now memory.now result }
{
    let mut operands = frame.operands();
    let Some(Slot::Int(b)) = operands.next() else {
        return None;
    };
    let Some(Slot::Int(a)) = operands.next() else {
        return None;
    };
    Some(Asked::Compares(comparison, a, b))
}

/// The test of a comparison of an int with 0.
fn compared_with_zero<'a, I: Copy + Drop>(
    comparison: Comparison,
    frame: &Frame<I>,
    memory: &Memory<I>,
) -> Option<Asked<'a, I>>
    ensures { Asks (machine.CompareZero (comparison_of comparison)) frame.now memory.now result }
{
    let Some(Slot::Int(a)) = frame.operands().next() else {
        return None;
    };
    Some(Asked::ComparesZero(comparison, a))
}

/// The test of a divisor.
fn divided<'a, I: Copy + Drop>(
    op: Bin,
    frame: &Frame<I>,
    memory: &Memory<I>,
) -> Option<Asked<'a, I>>
    ensures { Asks (machine.Divide op) frame.now memory.now result }
{
    let mut operands = frame.operands();
    let Some(Slot::Int(b)) = operands.next() else {
        return None;
    };
    let Some(Slot::Int(_)) = operands.next() else {
        return None;
    };
    Some(Asked::Divides(b))
}

/// The test of a switch.
fn selected<'a, I: Copy + Drop>(
    switch: &'a Switch,
    frame: &Frame<I>,
    memory: &Memory<I>,
) -> Option<Asked<'a, I>>
    ensures { Asks (machine.Switch (map (λ (case : Case). case.key) switch.now.cases)) frame.now memory.now result }
{
    let Some(Slot::Int(a)) = frame.operands().next() else {
        return None;
    };
    Some(Asked::Selects(a, switch))
}

/// The test of an index, where a cell is loaded.
fn loaded<'a, I: Copy + Drop>(frame: &Frame<I>, memory: &Memory<I>) -> Option<Asked<'a, I>>
    ensures { Asks machine.ArrayLoad frame.now memory.now result }
{
    let mut operands = frame.operands();
    let Some(Slot::Int(index)) = operands.next() else {
        return None;
    };
    let Some(Slot::Array(number)) = operands.next() else {
        return None;
    };
    let Some(cells) = memory.cells(number) else {
        return None;
    };
    Some(Asked::Indexes(index, cells.len()))
}

/// The test of an index, where an int is stored in a cell.
fn stored<'a, I: Copy + Drop>(frame: &Frame<I>, memory: &Memory<I>) -> Option<Asked<'a, I>>
    ensures { Asks machine.ArrayStore frame.now memory.now result }
{
    let mut operands = frame.operands();
    let Some(Slot::Int(_)) = operands.next() else {
        return None;
    };
    let Some(Slot::Int(index)) = operands.next() else {
        return None;
    };
    let Some(Slot::Array(number)) = operands.next() else {
        return None;
    };
    let Some(cells) = memory.cells(number) else {
        return None;
    };
    Some(Asked::Indexes(index, cells.len()))
}

/// The test that an instruction asks of what it finds, if it asks one.
pub(crate) fn ask<'a, I: Copy + Drop>(
    instruction: &Instruction<'a>,
    frame: &Frame<I>,
    memory: &Memory<I>,
) -> Option<Asked<'a, I>>
    ensures { Asks (told instruction.now) frame.now memory.now result }
{
    match instruction {
        Instruction::Divide(op) => divided(*op, frame, memory),
        Instruction::Compare(comparison) => compared(*comparison, frame, memory),
        Instruction::CompareZero(comparison) => compared_with_zero(*comparison, frame, memory),
        Instruction::Switch(switch) => selected(switch, frame, memory),
        Instruction::ArrayLoad => loaded(frame, memory),
        Instruction::ArrayStore => stored(frame, memory),
        _ => None,
    }
}
