ghost use Rattle.std.specs.Prelude.{◌≡◌};

use std::marker::Model;

/// Why bytes aren't read as a class file (JVMS SE 8, chapter 4), by kind. `read_class` says which place
/// each has.
#[derive(Clone, Copy, Debug, PartialEq, Eq)]
pub enum ClassKind {
    /// A number, or a run of bytes, doesn't fit in what is left.
    Short,
    /// The file doesn't begin with 0xCAFEBABE.
    Magic,
    /// The major version is outside 45 to 52.
    Version,
    /// The pool's count is 0, a tag is unknown, or a Long or Double would take a number too many.
    Pool,
    /// A number of the pool doesn't have the tag that is wanted.
    Index,
    /// A Code or a ConstantValue that counts hasn't the form that it should have, or a method has two Codes.
    Shape,
    /// The direct superclass isn't java/lang/Object, or the class has the name of a known throwable.
    Super,
    /// A second field or method has the name and descriptor of an earlier one.
    Duplicate,
    /// Bytes stand behind the class file.
    Trailing,
    /// An instruction passes the end of the code.
    Cut,
    /// A branch, a switch, or an entry of an exception table leads to no instruction's start, or an entry's
    /// range doesn't end behind its begin. It may end at the end of the code.
    Target,
    /// The bounds or the keys of a switch aren't in order, or the number of its keys is negative.
    Switch,
}

/// An entry of an exception table, as it stands (section 4.7.3): offsets in the code, and a number of the
/// pool, or 0 for any class.
#[derive(Clone, Copy, Debug, PartialEq, Eq)]
pub struct RawHandler {
    /// Where the covered code begins.
    pub start: u16,
    /// Where it ends: the first offset behind it.
    pub end: u16,
    /// Where the handler begins.
    pub handler: u16,
    /// The pool's number of the class that is caught.
    pub catch_type: u16,
}

/// An exception table: its entries, in order.
#[derive(Debug, Drop)]
pub struct Handlers {
    rows: Vec<RawHandler>,
}

impl Model for Handlers {
    ghost use Rattle.std.specs.Prelude.{List};
    ghost use Rattle.ms_pool.specs.declared.code.RawHandler.{RawHandler};

    ghost Value = { List RawHandler };

    ghost view = { λ handlers. handlers.rows.items };
}

impl Handlers {
    /// The table of these entries. It takes no memory.
    pub fn new(rows: Vec<RawHandler>) -> Handlers
        ensures { result ≡ rows.items }
    {
        Handlers { rows }
    }

    /// The entries, lent.
    pub fn rows(&self) -> &[RawHandler]
        ensures { result.now ≡ self.now }
    {
        self.rows.as_slice()
    }
}

/// The Code attribute of a method (section 4.7.3), its code lent from the bytes of the file. A place is
/// how many bytes of the file come before it.
#[derive(Debug, Drop)]
pub struct CodeRow<'a> {
    /// The most values on the operand stack.
    pub max_stack: u16,
    /// How many local variables there are.
    pub max_locals: u16,
    /// The code.
    pub code: &'a [u8],
    /// The place of its first byte.
    pub code_at: u64,
    /// The exception table.
    pub table: Handlers,
    /// The place of its first entry, or where that would be.
    pub table_at: u64,
}
