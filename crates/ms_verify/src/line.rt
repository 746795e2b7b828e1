use ms_code::Handler;
use ms_linking::Instruction;
use ms_typing::VerifyKind;
use ms_words::{FieldType, Thrown};

/// What an instruction takes: an int, an array, a throwable, a string (each but the int may be null), any
/// initialised reference, one that may be new too, a new throwable of a class, or anything.
#[derive(Clone, Copy)]
pub enum Want {
    AnInt,
    AnArray,
    AThrowable,
    AText,
    AReference,
    AReferenceOrNew,
    ANew(Thrown),
    Anything,
}

/// An instruction of a method, with what it takes and where it may go on.
#[derive(Drop)]
pub struct Line<'a> {
    /// What it does.
    pub instruction: Instruction<'a>,
    /// What it takes from the stack, the top first.
    pub takes: Vec<Want>,
    /// The offset of the next instruction.
    pub next: Option<u16>,
    /// The offsets of its targets, in the order of the table.
    pub targets: Vec<u16>,
    /// All offsets to which it may go on, in their order.
    pub successors: Vec<u16>,
}

/// The code of a method, by offset.
#[derive(Drop)]
pub struct Code<'a> {
    pub max_stack: u16,
    pub max_locals: u16,
    pub parameters: Vec<FieldType>,
    pub result: Option<FieldType>,
    pub lines: Vec<Option<Line<'a>>>,
    pub handlers: &'a [Handler],
}

/// Where a rule fails.
#[derive(Clone, Copy)]
pub struct Fault {
    pub offset: u16,
    pub kind: VerifyKind,
}
