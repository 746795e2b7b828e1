use ms_words::{Item, Thrown};

/// What a local, a place of an operand stack or a static field holds (JVMS SE 8, sections 2.6.1 and
/// 2.6.2): an int, or one of the references.
#[derive(Clone, Copy, Drop)]
pub enum Slot<I> {
    /// An int.
    Int(I),
    /// Null.
    Null,
    /// An array of ints, by its number.
    Array(u16),
    /// A string, by the item of the instruction that put it on the stack.
    Text(Item),
    /// A throwable, by its number, and its class.
    Throwable(u16, Thrown),
}
