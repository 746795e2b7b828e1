ghost use Rattle.std.specs.Prelude.{◌≡◌, IsTrue};
ghost use Rattle.ms_code.specs.Keys.{keys_ascend};

use std::marker::Model;

/// A case of a switch (JVMS SE 8, section 6.5, `tableswitch` and `lookupswitch`).
#[derive(Clone, Copy)]
pub struct Case {
    /// The key that an int is compared with.
    pub key: i32,
    /// The offset in the code where execution goes on for this key.
    pub target: u16,
}

/// The cases of a switch and its default. The keys ascend strictly, so each stands once.
#[derive(Drop)]
pub struct Switch {
    cases: Vec<Case>,
    otherwise: u16,
}

impl Model for Switch {
    ghost use Rattle.std.specs.Prelude.{IsTrue};
    ghost use Rattle.ms_code.specs.Keys.{SwitchCases, keys_ascend};

    ghost Value = { SwitchCases };

    ghost view = { λ switch. record { cases = switch.cases.items; otherwise = switch.otherwise } };

    ghost invariant = { λ switch. IsTrue (keys_ascend switch.cases.items) };
}

impl Switch {
    /// The switch with these cases and this default.
    pub(crate) fn new(cases: Vec<Case>, otherwise: u16) -> Switch
        requires { IsTrue (keys_ascend cases.items) }
        ensures { result ≡ record { cases = cases.items; otherwise = otherwise } }
    {
        Switch { cases, otherwise }
    }

    /// The cases, in the order of the table, lent.
    pub fn cases(&self) -> &[Case]
        ensures cases { result.now ≡ self.now.cases }
        ensures ascending { IsTrue (keys_ascend self.now.cases) }
    {
        self.cases.as_slice()
    }

    /// The target of the default: the offset where execution goes on for every other int.
    pub fn otherwise(&self) -> u16
        ensures { result ≡ self.now.otherwise }
    {
        self.otherwise
    }
}

/// What stands behind an opcode. A number of the pool is as it stands in the code; the target of a branch
/// is an offset in the code.
#[derive(Drop)]
pub enum Operand {
    /// Nothing that says more than the opcode: also `newarray`, whose elements are ints, and the opcodes
    /// with a number in their names.
    Nothing,
    /// The word of `bipush`, -128 to 127, or of `sipush`, -32,768 to 32,767.
    Word(i32),
    /// The index of a local.
    Local(u16),
    /// The index of a local, and what `iinc` adds to it: -128 to 127, and -32,768 to 32,767 behind `wide`.
    Increment { index: u16, by: i32 },
    /// A number of the pool: a constant, a field, a method or a class.
    Pool(u16),
    /// The target of a branch.
    Target(u16),
    /// The cases of a switch.
    Cases(Switch),
}

/// An instruction (JVMS SE 8, section 6.5). It borrows nothing.
#[derive(Drop)]
pub struct Instr {
    /// The opcode; where `wide` is set, the one behind the 196.
    pub op: u8,
    /// Whether `wide`, 196, stands in front.
    pub wide: bool,
    /// What stands behind the opcode.
    pub operand: Operand,
}
