use ms_words::Thrown;

/// What a place of a frame, a local or a place of the operand stack, may hold (JVMS SE 8, section 4.10.2.2).
#[derive(Clone, Copy, Debug, PartialEq, Eq)]
pub enum PlaceKind {
    /// An int.
    Int,
    /// Null.
    Null,
    /// An array of ints, or null.
    Array,
    /// A string, or null.
    Text,
    /// A throwable of this class or one below it, or null.
    Thrown(Thrown),
    /// Any reference to an object that is initialised, or null.
    Ref,
    /// A throwable of this class that was made at this offset and isn't initialised (section 4.10.2.4).
    New { offset: u16, class: Thrown },
    /// Nothing known. A local of this kind isn't read; on the stack only `pop`, `dup`, `swap` and their kin
    /// take it.
    Unset,
}

/// What is wrong with a method (JVMS SE 8, sections 4.9.1, 4.9.2 and 4.10.2.2).
#[derive(Clone, Copy, Debug, PartialEq, Eq)]
pub enum VerifyKind {
    /// Too few operands, or too many places on the operand stack before or after the instruction.
    Depth,
    /// A value that is read isn't of a kind that the instruction takes; or `new` stands where one that it made
    /// before is on the stack.
    Kind,
    /// A local beyond those of the method, or one that is read and holds nothing known.
    Local,
    /// The last instruction goes on to a next one.
    FallOff,
    /// Two stacks of different depths meet.
    Merge,
    /// Another return than that of the descriptor's result.
    Return,
}
