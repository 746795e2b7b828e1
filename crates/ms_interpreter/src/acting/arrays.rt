ghost use Rattle.std.specs.Prelude.{IfOk};
ghost use Rattle.ms_machine.specs.Instructions as machine;
ghost use Rattle.ms_interpreter.specs.Doing.{ActsFor, Stays};

use crate::acting::ints::throw_new;
use crate::did::{Did, Stop};
use crate::frame::Frame;
use crate::memory::Memory;
use crate::slot::Slot;
use ms_words::{NoMemory, Thrown};

/// Takes an index and an array, and puts the cell of the arm on the stack; the arm that is out of range throws.
pub(crate) fn load_cell<I: Copy + Drop>(
    arm: usize,
    frame: &mut Frame<I>,
    memory: &mut Memory<I>,
) -> Result<Did<I>, NoMemory>
    ensures acts { IfOk result (λ did. ActsFor machine.ArrayLoad arm frame.old memory.old did frame.new memory.new) }
    ensures stays { IfOk result (λ did. Stays did frame.old frame.new) }
{
    let Some(Slot::Int(_)) = frame.pop() else {
        return Ok(Did::Stops(Stop::Stuck));
    };
    let number = match frame.pop() {
        Some(Slot::Array(number)) => number,
        Some(Slot::Null) => return Ok(throw_new(Thrown::NullPointer, memory)),
        _ => return Ok(Did::Stops(Stop::Stuck)),
    };
    let Some(cells) = memory.cells(number) else {
        return Ok(Did::Stops(Stop::Stuck));
    };
    let Some(cell) = cells.get(arm) else {
        return Ok(throw_new(Thrown::ArrayIndexOutOfBounds, memory));
    };
    frame.push(Slot::Int(*cell))?;
    Ok(Did::Next)
}

/// Takes an int, an index and an array, and stores the int in the cell of the arm; the arm that is out of range
/// throws.
pub(crate) fn store_cell<I: Copy + Drop>(
    arm: usize,
    frame: &mut Frame<I>,
    memory: &mut Memory<I>,
) -> Did<I>
    ensures acts { ActsFor machine.ArrayStore arm frame.old memory.old result frame.new memory.new }
    ensures stays { Stays result frame.old frame.new }
{
    let Some(Slot::Int(a)) = frame.pop() else {
        return Did::Stops(Stop::Stuck);
    };
    let Some(Slot::Int(_)) = frame.pop() else {
        return Did::Stops(Stop::Stuck);
    };
    let number = match frame.pop() {
        Some(Slot::Array(number)) => number,
        Some(Slot::Null) => return throw_new(Thrown::NullPointer, memory),
        _ => return Did::Stops(Stop::Stuck),
    };
    let Some(cells) = memory.cells(number) else {
        return Did::Stops(Stop::Stuck);
    };
    if arm >= cells.len() {
        return throw_new(Thrown::ArrayIndexOutOfBounds, memory);
    }
    memory.set_cell(number, arm, a);
    Did::Next
}
