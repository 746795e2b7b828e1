ghost use Rattle.std.specs.Prelude.{◌≡◌, ◌∷◌, ◌<◌, length, IfOk, OnOk, OnErr};

use crate::marked::MarkedInt;
use ms_words::NoMemory;
use std::alloc::Global;
use std::marker::Model;

/// An operand stack of ints (JVMS SE 8, section 2.6.2). Contracts see the list of its ints, the top first.
#[derive(Debug, Drop)]
pub struct OperandStack {
    ints: Vec<MarkedInt>,
}

impl Model for OperandStack {
    ghost use Rattle.std.specs.Prelude.{List, reverse};
    ghost use Rattle.ms_machine.specs.Ints.{Marked};

    ghost Value = { List Marked };

    ghost view = { λ stack. reverse stack.ints.items };
}

impl OperandStack {
    ghost use Rattle.std.specs.Prelude.{[]};

    /// An empty stack, with room for so many ints.
    pub fn with_capacity(alloc: Global, ints: usize) -> Result<OperandStack, NoMemory>
        ensures { IfOk result (λ stack. stack ≡ []) }
    {
        Ok(OperandStack {
            ints: Vec::with_capacity(alloc, ints)?,
        })
    }

    /// Puts an int on top.
    pub fn push(&mut self, int: MarkedInt) -> Result<(), NoMemory>
        ensures ok { OnOk result (self.new ≡ int ∷ self.old) }
        ensures err { OnErr result (self.new ≡ self.old) }
    {
        self.ints.push(int)?;
        Ok(())
    }

    /// Takes the int that is on top.
    pub fn pop(&mut self) -> MarkedInt
        requires { 0 < length self.old }
        ensures { self.old ≡ result ∷ self.new }
    {
        self.ints.pop().unwrap()
    }
}
