ghost use Rattle.std.specs.Prelude.{◌≡◌, ◌++◌, IfOk, OnOk, option_map};
ghost use Rattle.ms_machine.specs.Effects.{values_at};
ghost use Rattle.ms_machine.specs.Instructions as machine;
ghost use Rattle.ms_interpreter.specs.Doing.{ActsAnyhow, Stays};
ghost use Rattle.ms_interpreter.specs.Taken.{Takes};

use crate::did::{Did, Stop};
use crate::frame::Frame;
use crate::memory::Memory;
use crate::slot::Slot;
use ms_words::NoMemory;
use std::alloc::Global;

/// Takes so many slots, and puts back those of these places, the top first; places count from the top.
pub(crate) fn shuffle<I: Copy + Drop>(
    alloc: Global,
    count: usize,
    places: &[usize],
    frame: &mut Frame<I>,
    memory: &Memory<I>,
) -> Result<Did<I>, NoMemory>
    ensures acts { IfOk result (λ did. ActsAnyhow (machine.Shuffle count places.now) frame.old memory.now did frame.new memory.now) }
    ensures stays { IfOk result (λ did. Stays did frame.old frame.new) }
{
    let Some(slots) = take(alloc, count, frame)? else {
        return Ok(Did::Stops(Stop::Stuck));
    };
    let Some(back) = picked(alloc, slots.as_slice(), places)? else {
        return Ok(Did::Stops(Stop::Stuck));
    };
    put_back(back, frame)?;
    Ok(Did::Next)
}

/// So many slots from the top of the stack, the top first, or none where there are fewer.
fn take<I: Copy + Drop>(
    alloc: Global,
    count: usize,
    frame: &mut Frame<I>,
) -> Result<Option<Vec<Slot<I>>>, NoMemory>
    ensures { IfOk result (λ taken. Takes count frame.old (option_map (λ slots. slots.items) taken) frame.new) }
{
    let mut slots = Vec::with_capacity(alloc, count)?;
    for _ in 0..count {
        let Some(slot) = frame.pop() else {
            return Ok(None);
        };
        slots.push(slot)?;
    }
    Ok(Some(slots))
}

/// The slots of these places, or none where one isn't there.
#[tactic(auto, using(crate::proofs::Picked::none_picked, crate::proofs::Picked::one_picked, crate::proofs::Picked::one_missing, crate::proofs::Picked::all_picked))]
fn picked<I: Copy + Drop>(
    alloc: Global,
    slots: &[Slot<I>],
    places: &[usize],
) -> Result<Option<Vec<Slot<I>>>, NoMemory>
    ensures { IfOk result (λ picked. option_map (λ back. back.items) picked ≡ values_at slots.now places.now) }
{
    let mut back = Vec::new(alloc);
    for place in places {
        let Some(slot) = slots.get(*place) else {
            return Ok(None);
        };
        back.push(*slot)?;
    }
    Ok(Some(back))
}

/// Puts slots on the stack, so that the first is on top.
fn put_back<I: Copy + Drop>(slots: Vec<Slot<I>>, frame: &mut Frame<I>) -> Result<(), NoMemory>
    ensures { OnOk result (frame.new ≡ record frame.old { stack = slots.items ++ frame.old.stack }) }
{
    let mut left = slots;
    for _ in 0..left.len() {
        let Some(slot) = left.pop() else {
            return Ok(());
        };
        frame.push(slot)?;
    }
    Ok(())
}
