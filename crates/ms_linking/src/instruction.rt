use ms_code::Switch;
use ms_program::Initialiser;
use ms_words::{Bin, FieldType, Signature, Thrown, Un};

/// Whether an instruction is one of ints or of references (JVMS SE 8, section 2.11.1).
#[derive(Clone, Copy, PartialEq, Eq)]
pub enum Sort {
    /// Of ints.
    Int,
    /// Of references.
    Reference,
}

/// What a branch compares by.
#[derive(Clone, Copy, PartialEq, Eq)]
pub enum Comparison {
    Equal,
    NotEqual,
    Less,
    AtLeast,
    Greater,
    AtMost,
}

/// A static field or method that an instruction names (JVMS SE 8, section 5.4.3), lent by the program.
#[derive(Clone, Copy)]
pub struct Member<'a> {
    /// The name of its class, with slashes.
    pub class_name: &'a [u8],
    /// Its own name.
    pub name: &'a [u8],
    /// Its descriptor.
    pub descriptor: &'a [u8],
    /// The number of its class, where that is in the program.
    pub class: Option<u16>,
    /// Whether the member is there, static and not foreign.
    pub is_there: bool,
    /// Whether the class has an initialiser; that of an absent class is `Absent`.
    pub initialiser: Initialiser,
}

/// An instruction by what it does (JVMS SE 8, section 6.5), lent by the program. Where it leads is told by
/// its view.
#[derive(Drop)]
pub enum Instruction<'a> {
    /// Does nothing: `nop`.
    Skip,
    /// Puts a word on the stack.
    Push(i32),
    /// Puts null on the stack.
    PushNull,
    /// Puts a text on the stack.
    PushText(&'a [u8]),
    /// Puts the value of a local on the stack.
    Load(Sort, u16),
    /// Takes a value into a local.
    Store(Sort, u16),
    /// Takes so many values, and puts back those of these places, the top first; places count from the
    /// top, which has place 0: `pop`, `dup`, `swap` and their kin.
    Shuffle { count: usize, places: &'a [usize] },
    /// Replaces an int by what the operator gives.
    Change(Un),
    /// Replaces two ints by what the operator gives.
    Combine(Bin),
    /// The same of an operator that has no result by 0.
    Divide(Bin),
    /// Adds a word to a local.
    Increment(u16, i32),
    /// Takes two ints, and branches where the comparison holds.
    Compare(Comparison),
    /// Takes an int, and branches where the comparison with 0 holds.
    CompareZero(Comparison),
    /// Takes two references, and branches where they are the same, or where they aren't.
    CompareReferences { same: bool },
    /// Takes a reference, and branches where it is null, or where it isn't.
    CompareNull { null: bool },
    /// Branches.
    Goto,
    /// Takes an int, and branches by its key.
    Switch(&'a Switch),
    /// Takes a value and returns it.
    ReturnValue(Sort),
    /// Returns nothing.
    ReturnVoid,
    /// Puts the value of a static field of this type on the stack. Before a store that is this int, or null
    /// for arrays.
    GetStatic(Member<'a>, FieldType, i32),
    /// Takes a value into a static field of this type.
    PutStatic(Member<'a>, FieldType),
    /// Takes arguments and calls a static method.
    Invoke(Member<'a>, Signature),
    /// Makes a throwable.
    New(Thrown),
    /// Initialises a throwable, with a message or without one.
    Construct { with_message: bool, class: Thrown },
    /// Takes a throwable and throws it.
    Throw,
    /// Takes a length and makes an array of ints.
    NewArray,
    /// Replaces an array by its length.
    ArrayLength,
    /// Takes an index and an array, and puts the cell there on the stack.
    ArrayLoad,
    /// Takes an int, an index and an array, and stores the int there.
    ArrayStore,
}
