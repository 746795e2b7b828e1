ghost use Rattle.std.specs.Prelude.{◌≡◌, length};

use crate::instruction::Instr;
use ms_words::Thrown;
use std::marker::Model;

/// A handler of exceptions (JVMS SE 8, section 2.10): it covers the instructions from `start` on, up to
/// `end`, which isn't covered. All three are offsets in the code.
#[derive(Clone, Copy)]
pub struct Handler {
    /// Where the covered code begins.
    pub start: u16,
    /// The first offset that isn't covered, at most the length of the code.
    pub end: u32,
    /// Where the handler begins.
    pub target: u16,
    /// The class that it catches, with those below it; `Throwable` where the table has 0.
    pub catches: Thrown,
}

/// An instruction and the offset of the first byte behind it.
#[derive(Drop)]
pub struct Step {
    pub instr: Instr,
    pub next: u16,
}

/// A code, decoded: its instructions by their offsets, and its handlers in the order of the table.
#[derive(Drop)]
pub struct Decoded {
    steps: Vec<Option<Step>>,
    handlers: Vec<Handler>,
}

impl Model for Decoded {
    ghost use Rattle.ms_code.specs.Codes.{DecodedCode};

    ghost Value = { DecodedCode };

    ghost view = { λ decoded. record { steps = decoded.steps.items; handlers = decoded.handlers.items } };
}

impl Decoded {
    ghost use Rattle.std.specs.Prelude.{option_map};
    ghost use Rattle.std.specs.Option.{option_copied};
    ghost use Rattle.ms_code.specs.Codes.{instr_at, next_of, step_at};

    /// The code with these instructions and handlers.
    pub(crate) fn new(steps: Vec<Option<Step>>, handlers: Vec<Handler>) -> Decoded
        ensures { result ≡ record { steps = steps.items; handlers = handlers.items } }
    {
        Decoded { steps, handlers }
    }

    /// How many bytes the code has.
    pub fn bytes(&self) -> usize
        ensures { result ≡ length self.now.steps }
    {
        self.steps.len()
    }

    /// What starts at this offset.
    fn step(&self, offset: u16) -> Option<&Step>
        ensures { option_copied result ≡ step_at self.now.steps offset }
    {
        match self.steps.get(usize::from(offset)) {
            Some(Some(step)) => Some(step),
            _ => None,
        }
    }

    /// The instruction that starts at this offset, lent; none exactly where none starts there. It takes
    /// no memory, and no time that grows with the code.
    pub fn at(&self, offset: u16) -> Option<&Instr>
        ensures { option_copied result ≡ instr_at self.now offset }
    {
        let step = self.step(offset)?;
        Some(&step.instr)
    }

    /// The offset of the instruction behind the one that starts at this offset; none exactly where none
    /// starts there or it is the last of the code. It takes no memory, and no time that grows with the
    /// code.
    pub fn next(&self, offset: u16) -> Option<u16>
        ensures { result ≡ next_of self.now offset }
    {
        let step = self.step(offset)?;
        if usize::from(step.next) < self.steps.len() {
            return Some(step.next);
        }
        None
    }

    /// The handlers, in the order of the exception table, lent.
    pub fn handlers(&self) -> &[Handler]
        ensures { result.now ≡ self.now.handlers }
    {
        self.handlers.as_slice()
    }
}
