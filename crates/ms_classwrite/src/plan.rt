ghost use Rattle.std.specs.Prelude.{◌≡◌, ◌∷◌, ◌++◌, [], OnErr, OnOk};
ghost use Rattle.ms_classwrite.specs.ReadBack.{HasTypes};

use crate::{NoMemory, Octets};
use std::alloc::Global;
use std::marker::Model;

/// An entry of a constant pool (JVMS SE 8, section 4.4). A number in it is that of another line.
#[derive(Drop)]
pub enum PoolLine {
    /// A text.
    Utf8(Octets),
    /// An int.
    Integer(i32),
    /// A class: the number of its name.
    Class { name: u16 },
    /// A string: the number of its text.
    Text { utf8: u16 },
    /// A name with a descriptor: their numbers.
    NameAndType { name: u16, desc: u16 },
    /// A field: the numbers of its class, and of its name with its descriptor.
    Field { class: u16, member: u16 },
    /// A method of a class: the numbers of the class, and of the method's name with its descriptor.
    Method { class: u16, member: u16 },
}

/// A field of a class (section 4.5).
#[derive(Drop)]
pub struct PlanField {
    /// The flags (table 4.5-A).
    pub access: u16,
    /// The name.
    pub name: Octets,
    /// The descriptor.
    pub desc: Octets,
    /// The int of its ConstantValue (section 4.7.2), where it has one.
    pub constant: Option<i32>,
}

/// A method of a class (section 4.6), with its Code attribute (section 4.7.3).
#[derive(Drop)]
pub struct PlanMethod {
    /// The flags (table 4.6-A).
    pub access: u16,
    /// The name.
    pub name: Octets,
    /// The descriptor.
    pub desc: Octets,
    /// The most values on the operand stack.
    pub max_stack: u16,
    /// How many local variables there are.
    pub max_locals: u16,
    /// The code. Numbers of the constant pool in it are those of pool lines.
    pub code: Octets,
}

/// What a class file is to say: the name of the class, pool lines, fields and methods, in order. A pool
/// line is numbered by its place, from 1.
#[derive(Drop)]
pub struct ClassPlan {
    name: Octets,
    lines: Vec<PoolLine>,
    fields: Vec<PlanField>,
    methods: Vec<PlanMethod>,
}

impl Model for ClassPlan {
    ghost use Rattle.ms_classwrite.specs.Plans.{Plan};
    ghost use Rattle.ms_classwrite.specs.ReadBack.{HasTypes};

    ghost Value = { Plan };

    ghost view = { λ plan. record { name = plan.name; lines = plan.lines.items; fields = plan.fields.items; methods = plan.methods.items } };

    ghost invariant = { λ plan. HasTypes (record { name = plan.name; lines = plan.lines.items; fields = plan.fields.items; methods = plan.methods.items }) };
}

impl ClassPlan {
    /// The plan of a class of this name, with nothing in it. It takes no memory.
    pub fn new(alloc: Global, name: Octets) -> ClassPlan
        ensures { result ≡ record { name = name; lines = []; fields = []; methods = [] } }
    {
        ClassPlan {
            name,
            lines: Vec::new(alloc),
            fields: Vec::new(alloc),
            methods: Vec::new(alloc),
        }
    }

    /// Adds a pool line at the end. It fails for want of memory alone.
    pub fn line(&mut self, line: PoolLine) -> Result<(), NoMemory>
        ensures ok { OnOk result (self.new ≡ record self.old { lines = self.old.lines ++ line ∷ [] }) }
        ensures err { OnErr result (self.new ≡ self.old) }
    {
        self.lines.push(line)?;
        Ok(())
    }

    /// Adds a field at the end. It fails for want of memory alone.
    pub fn field(&mut self, field: PlanField) -> Result<(), NoMemory>
        ensures ok { OnOk result (self.new ≡ record self.old { fields = self.old.fields ++ field ∷ [] }) }
        ensures err { OnErr result (self.new ≡ self.old) }
    {
        self.fields.push(field)?;
        Ok(())
    }

    /// Adds a method at the end. It fails for want of memory alone.
    pub fn method(&mut self, method: PlanMethod) -> Result<(), NoMemory>
        ensures ok { OnOk result (self.new ≡ record self.old { methods = self.old.methods ++ method ∷ [] }) }
        ensures err { OnErr result (self.new ≡ self.old) }
    {
        self.methods.push(method)?;
        Ok(())
    }

    /// The law of the numbers in a plan: each fits, by its type. It does nothing.
    pub fn numbers_fit(&self)
        ensures { HasTypes self.now }
    {
        // A look into the plan is what tells its invariant.
        let _ = &self.lines;
    }

    /// The name of the class, lent.
    pub(crate) fn name(&self) -> &[u8]
        ensures { result.now ≡ self.now.name }
    {
        self.name.get()
    }

    /// The pool lines, lent.
    pub(crate) fn lines(&self) -> &[PoolLine]
        ensures { result.now ≡ self.now.lines }
    {
        self.lines.as_slice()
    }

    /// The fields, lent.
    pub(crate) fn fields(&self) -> &[PlanField]
        ensures { result.now ≡ self.now.fields }
    {
        self.fields.as_slice()
    }

    /// The methods, lent.
    pub(crate) fn methods(&self) -> &[PlanMethod]
        ensures { result.now ≡ self.now.methods }
    {
        self.methods.as_slice()
    }
}
