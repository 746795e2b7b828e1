ghost use Rattle.std.specs.Prelude.{◌≡◌, ◌∷◌, [], MatchOption};

use crate::slot::Slot;
use std::marker::Model;

/// The operand stack of a frame, lent to be looked at from the top down.
#[derive(Drop)]
pub(crate) struct Operands<'a, I: Copy + Drop> {
    slots: &'a [Slot<I>],
}

impl<'a, I: Copy + Drop> Model for Operands<'a, I> {
    ghost use Rattle.std.specs.Prelude.{List, reverse};
    ghost use Rattle.ms_interpreter.specs.declared.slot.Slot.{Slot};

    ghost Value = { List (Slot I) };

    ghost view = { λ operands. reverse operands.slots.now };
}

impl<'a, I: Copy + Drop> Operands<'a, I> {
    ghost use Rattle.std.specs.Prelude.{reverse};

    /// Slots, the top last.
    pub(crate) fn new(slots: &'a [Slot<I>]) -> Operands<'a, I>
        ensures { result ≡ reverse slots.now }
    {
        Operands { slots }
    }

    /// The slot on top of those that weren't looked at yet.
    pub(crate) fn next(&mut self) -> Option<Slot<I>>
        ensures { MatchOption result ((self.old ≡ []) × (self.new ≡ [])) (λ slot. self.old ≡ slot ∷ self.new) }
    {
        let (top, below) = self.slots.split_last()?;
        self.slots = below;
        Some(*top)
    }
}
