use ms_pool::{CodeRow, Pool};
use std::marker::Model;

/// A field of a class (JVMS SE 8, section 4.5), its name and descriptor lent from the bytes of the file.
#[derive(Clone, Copy, Debug)]
pub struct FieldRow<'a> {
    /// The flags (table 4.5-A).
    pub access: u16,
    /// The name.
    pub name: &'a [u8],
    /// The pool's number of the name.
    pub name_index: u16,
    /// The descriptor.
    pub desc: &'a [u8],
    /// The pool's number of the descriptor.
    pub desc_index: u16,
    /// The int that the field has at first: that of its first ConstantValue, where the field is static
    /// and of the kind Z, B, C, S or I and has one, and else 0. It is not narrowed to the kind.
    pub initial: i32,
}

/// A method of a class (section 4.6), its name, descriptor and code lent from the bytes of the file.
#[derive(Debug, Drop)]
pub struct MethodRow<'a> {
    /// The flags (table 4.6-A).
    pub access: u16,
    /// The name.
    pub name: &'a [u8],
    /// The pool's number of the name.
    pub name_index: u16,
    /// The descriptor.
    pub desc: &'a [u8],
    /// The pool's number of the descriptor.
    pub desc_index: u16,
    /// The Code attribute, where the method has one.
    pub code: Option<CodeRow<'a>>,
    /// The place of the method: how many bytes of the file come before it.
    pub at: u64,
}

/// The fields of a class, in file order.
#[derive(Debug, Drop)]
pub struct Fields<'a> {
    rows: Vec<FieldRow<'a>>,
}

impl<'a> Model for Fields<'a> {
    ghost use Rattle.std.specs.Prelude.{List};
    ghost use Rattle.ms_classfile.specs.declared.class.FieldRow.{FieldRow};

    ghost Value = { List FieldRow };

    ghost view = { λ fields. fields.rows.items };
}

impl<'a> Fields<'a> {
    ghost use Rattle.std.specs.Prelude.{◌≡◌};

    /// The list of these fields. It takes no memory.
    pub fn new(rows: Vec<FieldRow<'a>>) -> Fields<'a>
        ensures { result ≡ rows.entry.items }
    {
        Fields { rows }
    }

    /// The fields, lent.
    pub fn rows(&self) -> &[FieldRow<'a>]
        ensures { result.now ≡ self.now }
    {
        self.rows.as_slice()
    }
}

/// The methods of a class, in file order.
#[derive(Debug, Drop)]
pub struct Methods<'a> {
    rows: Vec<MethodRow<'a>>,
}

impl<'a> Model for Methods<'a> {
    ghost use Rattle.std.specs.Prelude.{List};
    ghost use Rattle.ms_classfile.specs.declared.class.MethodRow.{MethodRow};

    ghost Value = { List MethodRow };

    ghost view = { λ methods. methods.rows.items };
}

impl<'a> Methods<'a> {
    ghost use Rattle.std.specs.Prelude.{◌≡◌};

    /// The list of these methods. It takes no memory.
    pub fn new(rows: Vec<MethodRow<'a>>) -> Methods<'a>
        ensures { result ≡ rows.entry.items }
    {
        Methods { rows }
    }

    /// The methods, lent.
    pub fn rows(&self) -> &[MethodRow<'a>]
        ensures { result.now ≡ self.now }
    {
        self.rows.as_slice()
    }
}

/// A class, as its file has it (JVMS SE 8, section 4.1), lent from the bytes of the file.
#[derive(Debug, Drop)]
pub struct Class<'a> {
    /// The major version, from 45 to 52.
    pub major: u16,
    /// The constant pool.
    pub pool: Pool<'a>,
    /// The name, with slashes.
    pub name: &'a [u8],
    /// The pool's number of the class itself.
    pub this_index: u16,
    /// The fields.
    pub fields: Fields<'a>,
    /// The methods.
    pub methods: Methods<'a>,
}
