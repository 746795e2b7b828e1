ghost use Rattle.std.specs.Prelude.{◌≡◌, ℕ, IfOk};
ghost use Rattle.std.specs.Str.{bytes_eq};
ghost use Rattle.ms_machine.specs.Instructions as machine;
ghost use Rattle.ms_machine.specs.Values.{are_same};
ghost use Rattle.ms_linking.specs.Linked.{views_of};
ghost use Rattle.ms_interpreter.specs.Doing.{Acts, Stays};
ghost use Rattle.ms_interpreter.specs.Plans.{Given};
ghost use Rattle.ms_interpreter.specs.Seen.{Texts, texts_of, value_of};

use crate::did::{Did, Stop};
use crate::frame::Frame;
use crate::memory::Memory;
use crate::slot::Slot;
use ms_linking::{Instruction, instruction_of};
use ms_program::Program;
use ms_words::{Item, NoMemory};
use std::alloc::Global;

/// Puts the text on the stack that the instruction has at which the frame is.
pub(crate) fn push_text<I: Copy + Drop>(
    frame: &mut Frame<I>,
    memory: &Memory<I>,
) -> Result<Did<I>, NoMemory>
    ensures acts { IfOk result (λ did. (texts : Texts) (arm : ℕ) → Acts texts (machine.PushText (texts frame.old.at)) arm frame.old memory.now did frame.new memory.now) }
    ensures stays { IfOk result (λ did. Stays did frame.old frame.new) }
{
    let text = Slot::Text(frame.at());
    frame.push(text)?;
    Ok(Did::Next)
}

/// The text that the instruction of an item puts on the stack.
pub(crate) fn text_at<'a>(
    alloc: Global,
    program: &'a Program,
    item: Item,
) -> Result<&'a [u8], NoMemory>
    ensures { IfOk result (λ bytes. bytes.now ≡ texts_of (views_of program.now) item) }
{
    let Some(view) = program.view(item) else {
        return Ok(b"");
    };
    match instruction_of(alloc, program, &view)? {
        Some(Instruction::PushText(bytes)) => Ok(bytes),
        _ => Ok(b""),
    }
}

/// Whether two texts have the same bytes.
fn same_text(alloc: Global, program: &Program, a: Item, b: Item) -> Result<bool, NoMemory>
    ensures { IfOk result (λ same. same ≡ bytes_eq (texts_of (views_of program.now) a) (texts_of (views_of program.now) b)) }
{
    let a = text_at(alloc, program, a)?;
    let b = text_at(alloc, program, b)?;
    Ok(a == b)
}

/// Whether two slots hold the same reference.
fn same<I: Copy + Drop>(
    alloc: Global,
    program: &Program,
    a: Slot<I>,
    b: Slot<I>,
) -> Result<bool, NoMemory>
    ensures { IfOk result (λ same. same ≡ are_same (value_of Given (texts_of (views_of program.now)) a) (value_of Given (texts_of (views_of program.now)) b)) }
{
    match (a, b) {
        (Slot::Null, Slot::Null) => Ok(true),
        (Slot::Array(a), Slot::Array(b)) => Ok(a == b),
        (Slot::Throwable(a, _), Slot::Throwable(b, _)) => Ok(a == b),
        (Slot::Text(a), Slot::Text(b)) => same_text(alloc, program, a, b),
        _ => Ok(false),
    }
}

/// Takes two references, and branches where they are the same, or where they aren't.
pub(crate) fn compare_references<I: Copy + Drop>(
    alloc: Global,
    program: &Program,
    wanted: bool,
    frame: &mut Frame<I>,
    memory: &Memory<I>,
) -> Result<Did<I>, NoMemory>
    ensures acts { IfOk result (λ did. (arm : ℕ) → Acts (texts_of (views_of program.now)) (machine.CompareReferences wanted) arm frame.old memory.now did frame.new memory.now) }
    ensures stays { IfOk result (λ did. Stays did frame.old frame.new) }
{
    let Some(b) = frame.pop() else {
        return Ok(Did::Stops(Stop::Stuck));
    };
    let Some(a) = frame.pop() else {
        return Ok(Did::Stops(Stop::Stuck));
    };
    let is = same(alloc, program, a, b)?;
    if is == wanted {
        return Ok(Did::Jumps(0));
    }
    Ok(Did::Next)
}
