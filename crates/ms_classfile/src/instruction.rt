ghost use Rattle.std.specs.Prelude.{◌≡◌};
ghost use Rattle.ms_classfile.specs.Instructions.{size_of};

/// What a branch tests: how a word stands to another, or to 0 (JVMS SE 8, section 6.5, `if<cond>` and
/// `if_icmp<cond>`).
#[derive(Clone, Copy, Debug, PartialEq, Eq)]
pub enum Condition {
    /// Equal.
    Eq,
    /// Not equal.
    Ne,
    /// Less.
    Lt,
    /// Greater or equal.
    Ge,
    /// Greater.
    Gt,
    /// Less or equal.
    Le,
}

/// An instruction of thin code, as it is written (JVMS SE 8, section 6.5).
#[derive(Clone, Copy, Debug, PartialEq, Eq)]
pub enum Instruction {
    /// `iload_<n>`: loads the word of a local, 0 to 3.
    IloadN(u8),
    /// `iload`: loads the word of a local, as written 0 to 255, and 0 to 7 in thin code.
    Iload(u8),
    /// `iconst_<i>`: puts a word of -1 to 5 on the stack.
    Iconst(i32),
    /// `bipush`: puts a word of -128 to 127 on the stack.
    Bipush(i32),
    /// `iadd`: takes two words and puts their sum, reduced to a word.
    Iadd,
    /// `isub`: takes value2 from the top and value1 below it, and puts value1 - value2, reduced to a word.
    Isub,
    /// `if<cond>`: takes a word, and branches where the condition holds of it and 0. The target is so
    /// many bytes on from the first byte of the branch: as written 0 to 32,767, and 3 to 19,996 in thin
    /// code.
    If(Condition, u16),
    /// `if_icmp<cond>`: takes value2 from the top and value1 below it, and branches where the condition
    /// holds of value1 and value2. The target is so many bytes on from the first byte of the branch: as
    /// written 0 to 32,767, and 3 to 19,995 in thin code.
    IfIcmp(Condition, u16),
    /// `ireturn`: returns the word on the stack.
    Ireturn,
}

impl Instruction {
    /// How many bytes the instruction has in code, 1 to 3.
    pub fn size(self) -> usize
        ensures { result ≡ size_of self }
    {
        match self {
            Instruction::IloadN(_) | Instruction::Iconst(_) => 1,
            Instruction::Iadd | Instruction::Isub | Instruction::Ireturn => 1,
            Instruction::Iload(_) | Instruction::Bipush(_) => 2,
            Instruction::If(_, _) | Instruction::IfIcmp(_, _) => 3,
        }
    }
}
