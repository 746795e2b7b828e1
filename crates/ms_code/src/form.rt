ghost use Rattle.std.specs.Prelude.{◌≡◌, find};
ghost use Rattle.ms_code.specs.Opcodes.{form_of, has, subset};

/// What stands behind an opcode (JVMS SE 8, section 6.5).
#[derive(Clone, Copy)]
pub enum Form {
    /// Nothing.
    Plain,
    /// A signed byte.
    SignedByte,
    /// Two bytes, signed.
    SignedShort,
    /// The index of a local, a byte.
    LocalIndex,
    /// The index of a local and what is added to it, a byte each.
    LocalAndByte,
    /// The pool's number of a constant, a byte.
    ConstantByte,
    /// The pool's number of a constant, two bytes.
    ConstantShort,
    /// The pool's number of a field.
    FieldIndex,
    /// The pool's number of a method that is called.
    MethodIndex,
    /// The pool's number of a constructor that is called.
    ConstructorIndex,
    /// The pool's number of a class.
    ClassIndex,
    /// The type of an array's elements, a byte.
    ArrayType,
    /// How far the target is, two bytes, signed.
    BranchShort,
    /// How far the target is, four bytes, signed.
    BranchInt,
    /// The targets of keys from a low to a high one.
    TableCases,
    /// Keys with their targets.
    LookupCases,
    /// Another opcode with wider operands.
    Widened,
}

/// The opcodes that are decoded, from a first to a last one of one form.
const SUBSET: [(u8, u8, Form); 43] = [
    (0, 8, Form::Plain),
    (16, 16, Form::SignedByte),
    (17, 17, Form::SignedShort),
    (18, 18, Form::ConstantByte),
    (19, 19, Form::ConstantShort),
    (21, 21, Form::LocalIndex),
    (25, 25, Form::LocalIndex),
    (26, 29, Form::Plain),
    (42, 46, Form::Plain),
    (54, 54, Form::LocalIndex),
    (58, 58, Form::LocalIndex),
    (59, 62, Form::Plain),
    (75, 79, Form::Plain),
    (87, 96, Form::Plain),
    (100, 100, Form::Plain),
    (104, 104, Form::Plain),
    (108, 108, Form::Plain),
    (112, 112, Form::Plain),
    (116, 116, Form::Plain),
    (120, 120, Form::Plain),
    (122, 122, Form::Plain),
    (124, 124, Form::Plain),
    (126, 126, Form::Plain),
    (128, 128, Form::Plain),
    (130, 130, Form::Plain),
    (132, 132, Form::LocalAndByte),
    (145, 147, Form::Plain),
    (153, 158, Form::BranchShort),
    (159, 164, Form::BranchShort),
    (165, 167, Form::BranchShort),
    (170, 170, Form::TableCases),
    (171, 171, Form::LookupCases),
    (172, 172, Form::Plain),
    (176, 177, Form::Plain),
    (178, 179, Form::FieldIndex),
    (183, 183, Form::ConstructorIndex),
    (184, 184, Form::MethodIndex),
    (187, 187, Form::ClassIndex),
    (188, 188, Form::ArrayType),
    (190, 191, Form::Plain),
    (196, 196, Form::Widened),
    (198, 199, Form::BranchShort),
    (200, 200, Form::BranchInt),
];

/// The row of the opcode.
fn row_of(op: u8) -> Option<(u8, u8, Form)>
    ensures { result ≡ find (has op) subset }
{
    SUBSET
        .iter()
        .copied()
        .find(|row| row.0 <= op && op <= row.1)
}

/// The form of what stands behind the opcode, where it is one of those that are decoded.
#[tactic(auto, unfolding(crate::specs::Opcodes::form_of))]
pub fn form_of(op: u8) -> Option<Form>
    ensures { result ≡ form_of op }
{
    row_of(op).map(|row| row.2)
}
