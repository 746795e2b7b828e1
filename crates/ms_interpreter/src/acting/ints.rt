ghost use Rattle.std.specs.Prelude.{IfOk, map};
ghost use Rattle.ms_code.specs.declared.instruction.Case.{Case};
ghost use Rattle.ms_machine.specs.Instructions as machine;
ghost use Rattle.ms_linking.specs.Told.{comparison_of, sort_of};
ghost use Rattle.ms_interpreter.specs.Doing.{ActsAnyhow, ActsFor, Stays, Throws};

use crate::did::{Did, Stop};
use crate::frame::Frame;
use crate::memory::Memory;
use crate::plan::Plan;
use crate::slot::Slot;
use ms_code::Switch;
use ms_linking::{Comparison, Sort};
use ms_words::{Bin, NoMemory, Thrown, Un};

/// Puts null on the stack.
pub(crate) fn push_null<I: Copy + Drop>(
    frame: &mut Frame<I>,
    memory: &Memory<I>,
) -> Result<Did<I>, NoMemory>
    ensures acts { IfOk result (λ did. ActsAnyhow machine.PushNull frame.old memory.now did frame.new memory.now) }
    ensures stays { IfOk result (λ did. Stays did frame.old frame.new) }
{
    frame.push(Slot::Null)?;
    Ok(Did::Next)
}

/// Puts what a local holds on the stack.
pub(crate) fn load<I: Copy + Drop>(
    sort: Sort,
    local: u16,
    frame: &mut Frame<I>,
    memory: &Memory<I>,
) -> Result<Did<I>, NoMemory>
    ensures acts { IfOk result (λ did. ActsAnyhow (machine.Load (sort_of sort) local) frame.old memory.now did frame.new memory.now) }
    ensures stays { IfOk result (λ did. Stays did frame.old frame.new) }
{
    let Some(slot) = frame.local(local) else {
        return Ok(Did::Stops(Stop::Stuck));
    };
    frame.push(slot)?;
    Ok(Did::Next)
}

/// Takes a slot into a local.
pub(crate) fn store<I: Copy + Drop>(
    sort: Sort,
    local: u16,
    frame: &mut Frame<I>,
    memory: &Memory<I>,
) -> Result<Did<I>, NoMemory>
    ensures acts { IfOk result (λ did. ActsAnyhow (machine.Store (sort_of sort) local) frame.old memory.now did frame.new memory.now) }
    ensures stays { IfOk result (λ did. Stays did frame.old frame.new) }
{
    let Some(slot) = frame.pop() else {
        return Ok(Did::Stops(Stop::Stuck));
    };
    frame.set_local(local, slot)?;
    Ok(Did::Next)
}

/// Replaces an int by what the operator gives.
pub(crate) fn change<I: Copy + Drop>(op: Un, frame: &mut Frame<I>, memory: &Memory<I>) -> Did<I>
    ensures acts { ActsAnyhow (machine.Change op) frame.old memory.now result frame.new memory.now }
    ensures stays { Stays result frame.old frame.new }
{
    let Some(Slot::Int(a)) = frame.pop() else {
        return Did::Stops(Stop::Stuck);
    };
    Did::Pushes(Plan::Unary(op, a))
}

/// Replaces two ints by what the operator gives; the upper one is the right operand.
pub(crate) fn combine<I: Copy + Drop>(op: Bin, frame: &mut Frame<I>, memory: &Memory<I>) -> Did<I>
    ensures acts { ActsAnyhow (machine.Combine op) frame.old memory.now result frame.new memory.now }
    ensures stays { Stays result frame.old frame.new }
{
    let Some(Slot::Int(b)) = frame.pop() else {
        return Did::Stops(Stop::Stuck);
    };
    let Some(Slot::Int(a)) = frame.pop() else {
        return Did::Stops(Stop::Stuck);
    };
    Did::Pushes(Plan::Binary(op, a, b))
}

/// Adds a word to a local.
pub(crate) fn increment<I: Copy + Drop>(
    local: u16,
    by: &i32,
    frame: &Frame<I>,
    memory: &Memory<I>,
) -> Did<I>
    ensures { ActsAnyhow (machine.Increment local by.now) frame.now memory.now result frame.now memory.now }
{
    let Some(Slot::Int(a)) = frame.local(local) else {
        return Did::Stops(Stop::Stuck);
    };
    Did::Puts(local, Plan::Plus(a, *by))
}

/// Takes two ints, and branches by the arm of their comparison.
pub(crate) fn compare<I: Copy + Drop>(
    comparison: Comparison,
    arm: usize,
    frame: &mut Frame<I>,
    memory: &Memory<I>,
) -> Did<I>
    ensures acts { ActsFor (machine.Compare (comparison_of comparison)) arm frame.old memory.now result frame.new memory.now }
    ensures stays { Stays result frame.old frame.new }
{
    let Some(Slot::Int(_)) = frame.pop() else {
        return Did::Stops(Stop::Stuck);
    };
    let Some(Slot::Int(_)) = frame.pop() else {
        return Did::Stops(Stop::Stuck);
    };
    if arm == 0 {
        return Did::Next;
    }
    Did::Jumps(0)
}

/// Takes an int, and branches by the arm of its comparison with 0.
pub(crate) fn compare_zero<I: Copy + Drop>(
    comparison: Comparison,
    arm: usize,
    frame: &mut Frame<I>,
    memory: &Memory<I>,
) -> Did<I>
    ensures acts { ActsFor (machine.CompareZero (comparison_of comparison)) arm frame.old memory.now result frame.new memory.now }
    ensures stays { Stays result frame.old frame.new }
{
    let Some(Slot::Int(_)) = frame.pop() else {
        return Did::Stops(Stop::Stuck);
    };
    if arm == 0 {
        return Did::Next;
    }
    Did::Jumps(0)
}

/// Takes an int, and branches by the arm of its case.
pub(crate) fn switch<I: Copy + Drop>(
    cases: &Switch,
    arm: usize,
    frame: &mut Frame<I>,
    memory: &Memory<I>,
) -> Did<I>
    ensures acts { ActsFor (machine.Switch (map (λ (case : Case). case.key) cases.now.cases)) arm frame.old memory.now result frame.new memory.now }
    ensures stays { Stays result frame.old frame.new }
{
    let Some(Slot::Int(_)) = frame.pop() else {
        return Did::Stops(Stop::Stuck);
    };
    Did::Jumps(arm)
}

/// Throws: a new throwable of the machine's, where there is room for one.
pub(crate) fn throw_new<I: Copy + Drop>(class: Thrown, memory: &mut Memory<I>) -> Did<I>
    ensures { Throws class result memory.old memory.new }
{
    match memory.make_throwable() {
        Some(number) => Did::Raises(number, class),
        None => Did::Stops(Stop::HeapFull),
    }
}

/// Replaces two ints by what an operator gives that has no result by 0: arm 0 is that of a divisor that isn't 0.
pub(crate) fn divide<I: Copy + Drop>(
    op: Bin,
    arm: usize,
    frame: &mut Frame<I>,
    memory: &mut Memory<I>,
) -> Did<I>
    ensures acts { ActsFor (machine.Divide op) arm frame.old memory.old result frame.new memory.new }
    ensures stays { Stays result frame.old frame.new }
{
    let Some(Slot::Int(b)) = frame.pop() else {
        return Did::Stops(Stop::Stuck);
    };
    let Some(Slot::Int(a)) = frame.pop() else {
        return Did::Stops(Stop::Stuck);
    };
    if arm == 0 {
        return Did::Pushes(Plan::Binary(op, a, b));
    }
    throw_new(Thrown::Arithmetic, memory)
}
