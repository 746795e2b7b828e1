ghost use Rattle.std.specs.Prelude.{◌≡◌, ◌<◌, ◌^◌, IfErr, IfOk, IfSome, Some, length, map, option_and_then, option_map, slice_get};
ghost use Rattle.std.specs.Option.{option_copied};
ghost use Rattle.ms_classfile.specs.ClassFile.{field_key, method_key};
ghost use Rattle.ms_classfile.specs.ClassLaws.{AreDistinct};
ghost use Rattle.ms_classfile.specs.ClassViews.{class_view, field_view, method_view};
ghost use Rattle.ms_words.specs.Throwables.{thrown_named};
ghost use Rattle.ms_pool.specs.ByNumber.{class_name, integer, member};
ghost use Rattle.ms_pool.specs.Found.{member_view};
ghost use Rattle.ms_program.specs.Views.{constant_named, name_of, named_by};
ghost use Rattle.ms_program.specs.Files.{IsFaultOf, IsFile};
ghost use Rattle.ms_program.specs.Parts.{AreParts, HasClass, IsOnlyClassOf};
ghost use Rattle.ms_program.specs.Programs.{HasMembers, IsClass, IsClassOf, body_in, static_in, static_of, initialiser_in, initialiser_method, method_in};

use crate::body::{Bodies, Body};
use crate::file::{File, read_file};
use crate::laws::files_are_read;
use crate::names::{Names, names_of};
use crate::view::{Initialiser, Named};
use ms_classfile::{Class, ClassFault, FieldRow, members_are_distinct, pools_lie_in_their_file};
use ms_pool::{Member, PoolIndex};
use ms_words::{NoMemory, Thrown, thrown_named};
use std::alloc::{AllocError, Global};
use std::marker::Model;

/// A class of a program, with the bytes of its file.
#[derive(Drop)]
pub(crate) struct Loaded {
    file: Vec<u8>,
    pool: PoolIndex,
    name: Vec<u8>,
    fields: Names,
    statics: Vec<Option<i32>>,
    methods: Names,
    bodies: Bodies,
}

impl Model for Loaded {
    ghost use Rattle.ms_pool.specs.ByNumber.{entries_in};
    ghost use Rattle.ms_program.specs.Parts.{AreParts, HasClass, IsOnlyClassOf};
    ghost use Rattle.ms_program.specs.Programs.{Class, IsClass, class_with};

    ghost Value = { Class };

    ghost view = { λ class. class_with class.file.items (entries_in class.file.items class.pool) class.name.items class.fields class.statics.items class.methods class.bodies };

    ghost invariant = { λ class. IsClass (class_with class.file.items (entries_in class.file.items class.pool) class.name.items class.fields class.statics.items class.methods class.bodies) };
}

/// The int that a field has at first, or 0 where it is of another type, where it is static.
fn static_of(row: &FieldRow<'_>) -> Option<i32>
    ensures { result ≡ static_of (field_view row.now) }
{
    if row.access & 0x0008 == 0x0008 {
        Some(row.initial)
    } else {
        None
    }
}

/// The same of fields.
fn statics(alloc: Global, rows: &[FieldRow<'_>]) -> Result<Vec<Option<i32>>, AllocError>
    ensures { IfOk result (λ statics. statics.items ≡ map (λ row. static_of (field_view row)) rows.now) }
{
    let mut statics = Vec::new(alloc);
    for row in rows {
        statics.push(static_of(row))?;
    }
    Ok(statics)
}

/// A class without its file.
#[derive(Drop)]
struct Parts {
    pool: PoolIndex,
    members: Members,
    bodies: Bodies,
}

/// The members of a class, and its name.
#[derive(Drop)]
struct Members {
    name: Vec<u8>,
    fields: Names,
    statics: Vec<Option<i32>>,
    methods: Names,
}

/// The name of a class and its members.
fn members_of(alloc: Global, class: &Class<'_>) -> Result<Members, AllocError>
    requires fields { AreDistinct (map (λ row. field_key (field_view row)) class.now.fields) }
    requires methods { AreDistinct (map (λ row. method_key (method_view row)) class.now.methods) }
    ensures { IfOk result (λ members. HasMembers (class_view class.now) members.name.items members.fields members.statics.items members.methods) }
{
    let name = Vec::from_slice(alloc, class.name)?;
    let fields = names_of(alloc, class.fields.rows())?;
    let statics = statics(alloc, class.fields.rows())?;
    let methods = names_of(alloc, class.methods.rows())?;
    Ok(Members {
        name,
        fields,
        statics,
        methods,
    })
}

/// The parts of the class of a file of these bytes, or why they are none.
fn parts_of(alloc: Global, bytes: &[u8]) -> Result<Parts, ClassFault>
    ensures parts { IfOk result (λ parts. AreParts bytes.now parts) }
    ensures fault { IfErr result (IsFaultOf bytes.now) }
{
    members_are_distinct();
    pools_lie_in_their_file();
    let File { class, bodies } = read_file(alloc, bytes)?;
    let members = members_of(alloc, &class)?;
    Ok(Parts {
        pool: class.pool.into_index(),
        members,
        bodies,
    })
}

impl Loaded {
    /// The class of a file of these bytes, or why they are none.
    pub(crate) fn load(alloc: Global, bytes: Vec<u8>) -> Result<Loaded, ClassFault>
        ensures class { IfOk result (IsClassOf bytes.items) }
        ensures fault { IfErr result (IsFaultOf bytes.items) }
    {
        let Parts {
            pool,
            members,
            bodies,
        } = parts_of(alloc, bytes.as_slice())?;
        let Members {
            name,
            fields,
            statics,
            methods,
        } = members;
        Ok(Loaded {
            file: bytes,
            pool,
            name,
            fields,
            statics,
            methods,
            bodies,
        })
    }
}

/// The class of a file of these bytes, which are one.
fn again(alloc: Global, bytes: &[u8]) -> Result<Loaded, NoMemory>
    requires { HasClass bytes.now }
    ensures { IfOk result (IsOnlyClassOf bytes.now) }
{
    files_are_read();
    let bytes = Vec::from_slice(alloc, bytes)?;
    match Loaded::load(alloc, bytes) {
        Ok(class) => Ok(class),
        Err(ClassFault::At { .. }) => unreachable!(),
        Err(ClassFault::NoMemory) => Err(AllocError),
    }
}

impl Loaded {
    /// The same class once more, read from its file.
    pub(crate) fn copy(&self, alloc: Global) -> Result<Loaded, NoMemory>
        ensures { IfOk result (λ copy. copy ≡ self.now) }
    {
        again(alloc, self.file.as_slice())
    }

    /// The name.
    pub(crate) fn name(&self) -> &[u8]
        ensures { result.now ≡ self.now.name }
    {
        self.name.as_slice()
    }

    /// The bytes of the file.
    pub(crate) fn file(&self) -> &[u8]
        ensures { result.now ≡ self.now.file }
    {
        self.file.as_slice()
    }

    /// How many methods there are.
    pub(crate) fn methods(&self) -> u16
        ensures { result ≡ length self.now.methods }
    {
        self.methods.len() as u16
    }

    /// The name and the descriptor of the method of this number.
    pub(crate) fn key(&self, method: u16) -> Option<(&[u8], &[u8])>
        ensures { option_map (λ key. (key.0.now, key.1.now)) result ≡ slice_get self.now.methods method }
    {
        self.methods.get(usize::from(method))
    }

    /// What the method of this number does, where it isn't foreign.
    pub(crate) fn body(&self, method: u16) -> Option<&Body>
        ensures { option_copied result ≡ body_in self.now method }
    {
        self.bodies.get(usize::from(method))
    }

    /// The number of the method of this name and descriptor, where there is one that isn't foreign.
    #[tactic(auto, using(crate::proofs::Members::named_there))]
    pub(crate) fn method(&self, name: &[u8], desc: &[u8]) -> Option<usize>
        ensures method { result ≡ method_in self.now name.now desc.now }
        ensures key { IfSome result (λ method. slice_get self.now.methods method ≡ Some (name.now, desc.now)) }
        ensures few { IfSome result (λ method. method < 2 ^ 16) }
    {
        let method = self.methods.find(name, desc)?;
        let _body = self.bodies.get(method)?;
        Some(method)
    }

    /// What the static field of this name and descriptor has at first, or 0 where it is of another type.
    pub(crate) fn initial(&self, name: &[u8], desc: &[u8]) -> Option<i32>
        ensures { result ≡ static_in self.now name.now desc.now }
    {
        let field = self.fields.find(name, desc)?;
        *self.statics.get(field)?
    }

    /// Whether there is an initialiser, and whether that is foreign.
    pub(crate) fn initialiser(&self) -> Initialiser
        ensures { result ≡ initialiser_in self.now }
    {
        match self.methods.find(b"<clinit>", b"()V") {
            Some(method) => match self.bodies.get(method) {
                Some(_body) => Initialiser::Present,
                None => Initialiser::Foreign,
            },
            None => Initialiser::Absent,
        }
    }

    /// The number of the initialiser, where there is one that isn't foreign.
    pub(crate) fn initialiser_method(&self) -> Option<u16>
        ensures { result ≡ initialiser_method self.now }
    {
        let method = self.method(b"<clinit>", b"()V")?;
        Some(method as u16)
    }

    /// The member of a number of the pool, where it refers to one.
    pub(crate) fn member(&self, i: u16) -> Option<Member<'_>>
        ensures { option_map member_view result ≡ member self.now.pool i }
    {
        self.pool.member(self.file.as_slice(), i)
    }

    /// The int or the text of a number of the pool.
    fn constant(&self, i: u16) -> Option<Named<'_>>
        ensures { option_map name_of result ≡ constant_named self.now.pool i (integer self.now.pool i) }
    {
        match self.pool.integer(self.file.as_slice(), i) {
            Some(word) => Some(Named::Word(word)),
            None => Some(Named::Text(self.pool.text(self.file.as_slice(), i)?)),
        }
    }

    /// The throwable of a number of the pool.
    fn throwable(&self, i: u16) -> Option<Thrown>
        ensures { result ≡ option_and_then thrown_named (class_name self.now.pool i) }
    {
        thrown_named(self.pool.class_name(self.file.as_slice(), i)?)
    }

    /// What a number of the pool names behind this opcode.
    pub(crate) fn named(&self, op: u8, i: u16) -> Option<Named<'_>>
        ensures { option_map name_of result ≡ named_by self.now.pool op i }
    {
        if op == 18 || op == 19 {
            return self.constant(i);
        }
        if op == 187 {
            return Some(Named::Throwable(self.throwable(i)?));
        }
        let member = self.member(i)?;
        Some(Named::Member {
            class: member.class,
            name: member.name,
            desc: member.desc,
        })
    }
}
