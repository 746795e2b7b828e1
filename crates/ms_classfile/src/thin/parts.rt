use crate::Instruction;
use ms_words::{Kind, Kinds};

/// An entry of the constant pool: a text, lent, or a class with the number of its name
/// (JVMS SE 8, sections 4.4.7 and 4.4.1).
#[derive(Clone, Copy, Debug)]
pub enum PoolEntry<'a> {
    /// A text, in the bytes of the file.
    Utf8(&'a [u8]),
    /// A class, with the number of its name in the pool.
    Class(u16),
}

/// An attribute: the number of its name in the pool, and what it holds, lent (JVMS SE 8, section 4.7).
#[derive(Clone, Copy, Debug)]
pub struct RawAttribute<'a> {
    pub name: u16,
    pub content: &'a [u8],
}

/// The most words on the stack, and the number of locals, that a Code attribute states
/// (JVMS SE 8, section 4.7.3).
#[derive(Clone, Copy, Debug)]
pub struct Limits {
    pub max_stack: u16,
    pub max_locals: u16,
}

/// A thin method, as its file has it. The name of its class, its name and its descriptor are lent from
/// the file's bytes (JVMS SE 8, section 4.6).
#[derive(Debug, Drop)]
pub struct ThinMethod<'a> {
    /// The name of its class, in the bytes of its Utf8 entry.
    pub class: &'a [u8],
    /// The method's name, in the bytes of its Utf8 entry.
    pub name: &'a [u8],
    /// The descriptor, with `Z` for boolean and `I` for int (JVMS SE 8, section 4.3.3).
    pub descriptor: &'a [u8],
    /// The kinds of the parameters that the descriptor states, at most 8, each `Z` or `I`.
    pub kinds: Kinds,
    /// The kind of the result that the descriptor states, `Z` or `I`.
    pub result: Kind,
    /// The most words that the operand stack may have by the file's declaration, 1 to 256
    /// (JVMS SE 8, section 4.7.3).
    pub max_stack: usize,
    /// The code, 2 to 19,998 instructions, of at most 19,999 bytes. The last is `Ireturn`.
    pub instructions: Vec<Instruction>,
}
