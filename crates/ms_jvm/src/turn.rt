use crate::marked::MarkedInt;
use ms_classfile::Condition;

/// What an instruction leads to, besides what it does to the operand stack.
#[derive(Clone, Copy, Debug)]
pub enum Turn {
    /// The next instruction is executed.
    Next,
    /// The instruction so many bytes behind the first byte of this one is executed where the condition
    /// holds of the two ints, and else the next one.
    Branch {
        condition: Condition,
        left: MarkedInt,
        right: MarkedInt,
        far: u16,
    },
    /// The int is returned.
    Return(MarkedInt),
}
