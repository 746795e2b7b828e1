ghost use Rattle.std.specs.Prelude.{◌≡◌, IfOk, cond};
ghost use Rattle.ms_machine.specs.Instructions as machine;
ghost use Rattle.ms_linking.specs.Told.{sort_of};
ghost use Rattle.ms_interpreter.specs.declared.did.Did.TheVariants as did;
ghost use Rattle.ms_interpreter.specs.Doing.{ActsAnyhow, ActsFor, Stays};

use crate::acting::ints::throw_new;
use crate::did::{Did, Stop};
use crate::frame::Frame;
use crate::memory::Memory;
use crate::plan::Plan;
use crate::slot::Slot;
use ms_linking::Sort;
use ms_words::{NoMemory, Thrown};

/// Takes a reference, and branches where it is null, or where it isn't.
pub(crate) fn compare_null<I: Copy + Drop>(
    null: bool,
    frame: &mut Frame<I>,
    memory: &Memory<I>,
) -> Did<I>
    ensures acts { ActsAnyhow (machine.CompareNull null) frame.old memory.now result frame.new memory.now }
    ensures stays { Stays result frame.old frame.new }
{
    let Some(slot) = frame.pop() else {
        return Did::Stops(Stop::Stuck);
    };
    match slot {
        Slot::Null => jump_if(null),
        _ => jump_if(!null),
    }
}

/// Goes to the first target where this is so, and else to the next instruction.
fn jump_if<I: Copy + Drop>(is: bool) -> Did<I>
    ensures { result ≡ cond is (did.Jumps 0) did.Next }
{
    if is {
        return Did::Jumps(0);
    }
    Did::Next
}

/// Takes a value and returns it.
pub(crate) fn return_value<I: Copy + Drop>(
    sort: Sort,
    frame: &mut Frame<I>,
    memory: &Memory<I>,
) -> Did<I>
    ensures acts { ActsAnyhow (machine.ReturnValue (sort_of sort)) frame.old memory.now result frame.new memory.now }
    ensures stays { Stays result frame.old frame.new }
{
    let Some(slot) = frame.pop() else {
        return Did::Stops(Stop::Stuck);
    };
    Did::Returns(Some(slot))
}

/// Makes a throwable, where there is room.
pub(crate) fn new<I: Copy + Drop>(
    class: Thrown,
    frame: &mut Frame<I>,
    memory: &mut Memory<I>,
) -> Result<Did<I>, NoMemory>
    ensures acts { IfOk result (λ did. ActsAnyhow (machine.New class) frame.old memory.old did frame.new memory.new) }
    ensures stays { IfOk result (λ did. Stays did frame.old frame.new) }
{
    let Some(number) = memory.make_throwable() else {
        return Ok(Did::Stops(Stop::HeapFull));
    };
    frame.push(Slot::Throwable(number, class))?;
    Ok(Did::Next)
}

/// Initialises a throwable: takes it, and the message above it, where it has one.
pub(crate) fn construct<I: Copy + Drop>(
    with_message: bool,
    class: Thrown,
    frame: &mut Frame<I>,
    memory: &Memory<I>,
) -> Did<I>
    ensures acts { ActsAnyhow (machine.Construct with_message class) frame.old memory.now result frame.new memory.now }
    ensures stays { Stays result frame.old frame.new }
{
    if with_message {
        let Some(_) = frame.pop() else {
            return Did::Stops(Stop::Stuck);
        };
        let Some(_) = frame.pop() else {
            return Did::Stops(Stop::Stuck);
        };
        return Did::Next;
    }
    let Some(_) = frame.pop() else {
        return Did::Stops(Stop::Stuck);
    };
    Did::Next
}

/// Takes a throwable and throws it; null throws a `NullPointerException`.
pub(crate) fn throw<I: Copy + Drop>(frame: &mut Frame<I>, memory: &mut Memory<I>) -> Did<I>
    ensures acts { ActsAnyhow machine.Throw frame.old memory.old result frame.new memory.new }
    ensures stays { Stays result frame.old frame.new }
{
    match frame.pop() {
        Some(Slot::Throwable(number, class)) => Did::Raises(number, class),
        Some(Slot::Null) => throw_new(Thrown::NullPointer, memory),
        _ => Did::Stops(Stop::Stuck),
    }
}

/// Takes a length: an array of it is to be made.
pub(crate) fn new_array<I: Copy + Drop>(frame: &mut Frame<I>, memory: &Memory<I>) -> Did<I>
    ensures acts { ActsAnyhow machine.NewArray frame.old memory.now result frame.new memory.now }
    ensures stays { Stays result frame.old frame.new }
{
    let Some(Slot::Int(size)) = frame.pop() else {
        return Did::Stops(Stop::Stuck);
    };
    Did::Makes(size)
}

/// Replaces an array by its length.
pub(crate) fn array_length<I: Copy + Drop>(frame: &mut Frame<I>, memory: &mut Memory<I>) -> Did<I>
    ensures acts { ActsAnyhow machine.ArrayLength frame.old memory.old result frame.new memory.new }
    ensures stays { Stays result frame.old frame.new }
{
    match frame.pop() {
        Some(Slot::Array(number)) => match memory.cells(number) {
            Some(cells) => Did::Pushes(Plan::Constant(cells.len() as i32)),
            None => Did::Stops(Stop::Stuck),
        },
        Some(Slot::Null) => throw_new(Thrown::NullPointer, memory),
        _ => Did::Stops(Stop::Stuck),
    }
}
