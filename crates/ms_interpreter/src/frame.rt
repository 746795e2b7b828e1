ghost use Rattle.std.specs.Prelude.{◌≡◌, ◌∷◌, [], Some, None, OnOk, OnErr, MatchOption, IfOk, drop, length, map, reverse, slice_get, take, option_and_then};
ghost use Rattle.ms_interpreter.specs.Frames as frames;
ghost use Rattle.ms_interpreter.specs.Locals.{with_slot};

use crate::operands::Operands;
use crate::slot::Slot;
use ms_words::{Item, NoMemory};
use std::alloc::Global;
use std::marker::Model;

/// A frame (JVMS SE 8, section 2.6): where it is, its locals, its operand stack, and the class whose
/// initialiser it runs, if it was pushed for one.
#[derive(Drop)]
pub struct Frame<I: Copy + Drop> {
    at: Item,
    locals: Vec<Option<Slot<I>>>,
    slots: Vec<Slot<I>>,
    initialises: Option<u16>,
}

impl<I: Copy + Drop> Model for Frame<I> {
    ghost use Rattle.std.specs.Prelude.{reverse};
    ghost use Rattle.ms_interpreter.specs.Frames.{Frame as Seen};

    ghost Value = { Seen I };

    ghost view = { λ frame. record { at = frame.at; locals = frame.locals.items; stack = reverse frame.slots.items; initialises = frame.initialises } };
}

impl<I: Copy + Drop> Frame<I> {
    /// A frame with an empty stack.
    pub fn new(
        alloc: Global,
        at: Item,
        locals: Vec<Option<Slot<I>>>,
        initialises: Option<u16>,
    ) -> Frame<I>
        ensures { result ≡ record { at = at; locals = locals.items; stack = []; initialises = initialises } }
    {
        Frame {
            at,
            locals,
            slots: Vec::new(alloc),
            initialises,
        }
    }

    /// Where it is.
    pub fn at(&self) -> Item
        ensures { result ≡ self.now.at }
    {
        self.at
    }

    /// Goes on at an item.
    pub fn go_to(&mut self, item: Item)
        ensures { self.new ≡ record self.old { at = item } }
    {
        self.at = item;
    }

    /// The class whose initialiser it runs, if it was pushed for one.
    pub fn initialises(&self) -> Option<u16>
        ensures { result ≡ self.now.initialises }
    {
        self.initialises
    }

    /// Puts a slot on the stack.
    pub fn push(&mut self, slot: Slot<I>) -> Result<(), NoMemory>
        ensures ok { OnOk result (self.new ≡ record self.old { stack = slot ∷ self.old.stack }) }
        ensures err { OnErr result (self.new ≡ self.old) }
    {
        self.slots.push(slot)?;
        Ok(())
    }

    /// Takes the slot on top of the stack.
    pub fn pop(&mut self) -> Option<Slot<I>>
        ensures { MatchOption result ((self.old.stack ≡ []) × (self.new ≡ self.old)) (λ slot. (self.old.stack ≡ slot ∷ self.new.stack) × (self.new ≡ record self.old { stack = self.new.stack })) }
    {
        self.slots.pop()
    }

    /// What a local holds, where it was stored.
    pub fn local(&self, local: u16) -> Option<Slot<I>>
        ensures { option_and_then (λ held. held) (slice_get self.now.locals local) ≡ result }
    {
        *self.locals.get(usize::from(local))?
    }

    /// The stack, lent to be looked at.
    pub(crate) fn operands(&self) -> Operands<'_, I>
        ensures { result ≡ self.now.stack }
    {
        Operands::new(self.slots.as_slice())
    }

    /// How many slots are on the stack.
    pub fn depth(&self) -> usize
        ensures { result ≡ length self.now.stack }
    {
        self.slots.len()
    }

    /// Takes so many slots from the top of the stack, or all of fewer, as locals; the one on top is the last.
    pub fn take_arguments(
        &mut self,
        alloc: Global,
        count: usize,
    ) -> Result<Vec<Option<Slot<I>>>, NoMemory>
        ensures locals { IfOk result (λ locals. locals.items ≡ map (λ slot. Some slot) (reverse (take count self.old.stack))) }
        ensures left { OnOk result (self.new ≡ record self.old { stack = drop count self.old.stack }) }
    {
        let depth = self.slots.len();
        let count = count.min(depth);
        let first = depth - count;
        let locals = stored(alloc, &self.slots[first..])?;
        self.slots.truncate(first);
        Ok(locals)
    }

    /// Goes on at a handler, with this alone on the stack.
    pub fn handle(&mut self, handler: Item, slot: Slot<I>) -> Result<(), NoMemory>
        ensures { OnOk result (self.new ≡ record self.old { at = handler; stack = slot ∷ [] }) }
    {
        self.slots.clear();
        self.slots.push(slot)?;
        self.at = handler;
        Ok(())
    }

    /// Stores something in a local. Locals below it that were never stored hold nothing.
    pub fn set_local(&mut self, local: u16, slot: Slot<I>) -> Result<(), NoMemory>
        ensures { OnOk result (self.new ≡ record self.old { locals = with_slot self.old.locals local slot }) }
    {
        set_in(&mut self.locals, usize::from(local), slot)
    }
}

/// Locals that hold these.
fn stored<I: Copy + Drop>(
    alloc: Global,
    slots: &[Slot<I>],
) -> Result<Vec<Option<Slot<I>>>, NoMemory>
    ensures { IfOk result (λ locals. locals.items ≡ map (λ slot. Some slot) slots.now) }
{
    slots.iter().map(|slot| Some(*slot)).collect(alloc)
}

/// Stores something in a local.
fn set_in<I: Copy + Drop>(
    locals: &mut Vec<Option<Slot<I>>>,
    local: usize,
    slot: Slot<I>,
) -> Result<(), NoMemory>
    ensures { OnOk result (locals.new.items ≡ with_slot locals.old.items local slot) }
{
    if local < locals.len() {
        locals[local] = Some(slot);
        return Ok(());
    }
    for _ in locals.len()..local {
        locals.push(None)?;
    }
    locals.push(Some(slot))?;
    Ok(())
}
