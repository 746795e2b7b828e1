ghost use Rattle.std.specs.Prelude.{◌≡◌, ◌<◌, ◌≤◌, IfErr, IfOk, IfSome, IsSome, MatchResult, None, Some, is_some, length, option_and_then, option_map, slice_get, false, true};
ghost use Rattle.std.specs.Option.{option_copied};
ghost use Rattle.ms_program.specs.declared.program.AddFault.TheVariants.{NoMemory};
ghost use Rattle.ms_program.specs.Faults.{AddFails, IsLoadFault, RefusesName, ReplaceFails};
ghost use Rattle.ms_program.specs.Programs.{Adds, IsClass, IsClassOf, IsProgram, Replaces, body_of, body_seen, class_named, known_body, can_be_entry, empty_program, kept_entry, key_of, method_id, method_of, with_class, with_other};
ghost use Rattle.ms_program.specs.Views.{class_at, entry_part_at, initialiser_first, initialiser_there, instr_of, is_static_member_op, numbered, numbered_by_name, reference_of, seen, view, whose};
ghost use Rattle.ms_pool.specs.Found.{member_view};
ghost use Rattle.ms_words.specs.declared.item.Item as Item;

use crate::body::Body;
use crate::loaded::Loaded;
use crate::method::{MethodBody, MethodId};
use crate::view::{Initialiser, View, initialiser_item_of, initialiser_of, pool_index};
use ms_classfile::ClassFault;
use ms_code::Instr;
use ms_pool::{ClassKind, Member};
use ms_words::{EntryPart, Item, NoMemory, entry_part};
use std::alloc::{AllocFailed, Global};
use std::marker::Model;
use thiserror::Error;

/// The most classes of a program.
const MOST_CLASSES: usize = 64;

/// A program: its classes, in the order in which they came, and an entry.
#[derive(Drop)]
pub struct Program {
    classes: Vec<Loaded>,
    entry: Option<MethodId>,
}

impl Model for Program {
    ghost use Rattle.ms_program.specs.Programs.{IsProgram, Program as program};

    ghost Value = { program };

    ghost view = { λ P. record { classes = P.classes.items; entry = P.entry } };

    ghost invariant = { λ P. IsProgram (record { classes = P.classes.items; entry = P.entry }) };
}

/// Why a class wasn't added or replaced. What comes first counts: the fault of the file, then the name, then
/// the number of classes.
#[derive(Clone, Copy, Debug, PartialEq, Eq, Drop, Error)]
pub enum AddFault {
    /// The file has a fault: the first, as `read_file` says which that is.
    #[error("no class file: {kind:?} at {at}")]
    Class { kind: ClassKind, at: u64 },
    /// A class of this name is there.
    #[error("a class of this name is there")]
    Known,
    /// No class of this name is there.
    #[error("no class of this name is there")]
    Unknown,
    /// 64 classes are there.
    #[error("64 classes are there")]
    Classes,
    /// Memory ran out.
    #[error("memory ran out")]
    NoMemory,
}

impl From<AllocFailed<Loaded>> for AddFault {
    ghost from_gives = { λ _ fault. fault ≡ NoMemory };

    fn from(_error: AllocFailed<Loaded>) -> AddFault {
        AddFault::NoMemory
    }
}

/// Why a method isn't an entry.
#[derive(Clone, Copy, Debug, PartialEq, Eq, Drop, Error)]
pub enum EntryRefusal {
    /// It has more than eight parameters, one of another type than an int, or a result that is neither an int
    /// nor void; or its name is `<clinit>`.
    #[error("no entry")]
    Kinds,
}

/// The class of a file of these bytes.
fn load(alloc: Global, bytes: Vec<u8>) -> Result<Loaded, AddFault>
    ensures class { IfOk result (IsClassOf bytes.items) }
    ensures fault { IfErr result (IsLoadFault bytes.items) }
{
    match Loaded::load(alloc, bytes) {
        Ok(class) => Ok(class),
        Err(ClassFault::At { kind, at }) => Err(AddFault::Class { kind, at }),
        Err(ClassFault::NoMemory) => Err(AddFault::NoMemory),
    }
}

/// These classes once more.
fn copies(alloc: Global, classes: &[Loaded]) -> Result<Vec<Loaded>, NoMemory>
    ensures { IfOk result (λ copies. copies.items ≡ classes.now) }
{
    let mut copies = Vec::new(alloc);
    for class in classes {
        let copy = class.copy(alloc)?;
        copies.push(copy)?;
    }
    Ok(copies)
}

impl Program {
    /// The program without classes. It takes no memory.
    pub fn new(alloc: Global) -> Program
        ensures { result ≡ empty_program }
    {
        Program {
            classes: Vec::new(alloc),
            entry: None,
        }
    }

    /// Adds the class of a file of these bytes, under the number behind those that are there. The program is
    /// unchanged where it isn't added. `Unknown` never comes.
    pub fn add(&mut self, alloc: Global, bytes: Vec<u8>) -> Result<u16, AddFault>
        ensures { MatchResult result (λ number. Adds self.old bytes.items number self.new) (λ fault. AddFails self.old bytes.items fault × (self.new ≡ self.old)) }
    {
        let class = load(alloc, bytes)?;
        self.accept(class.name())?;
        self.append(class)
    }

    /// That a class of this name can be added.
    fn accept(&self, name: &[u8]) -> Result<(), AddFault>
        ensures { MatchResult result
            (λ _. (class_named self.now name.now ≡ None) × (length self.now.classes < 64))
            (λ fault. RefusesName self.now name.now fault) }
    {
        if self.place(name).is_some() {
            return Err(AddFault::Known);
        }
        if self.classes.len() == MOST_CLASSES {
            return Err(AddFault::Classes);
        }
        Ok(())
    }

    /// Adds a class, under the number behind those that are there.
    fn append(&mut self, class: Loaded) -> Result<u16, AddFault>
        requires few { length self.old.classes < 64 }
        requires new { class_named self.old class.name ≡ None }
        requires class { IsClass class }
        ensures { MatchResult result
            (λ number. (number ≡ length self.old.classes) × (self.new ≡ with_class self.old class))
            (λ fault. (fault ≡ AddFault.NoMemory) × (self.new ≡ self.old)) }
    {
        let number = self.classes.len() as u16;
        self.classes.push(class)?;
        Ok(number)
    }

    /// The same program once more. Each class is read from its file again.
    pub fn copy(&self, alloc: Global) -> Result<Program, NoMemory>
        ensures { IfOk result (λ copy. copy ≡ self.now) }
    {
        let classes = copies(alloc, self.classes.as_slice())?;
        Ok(Program {
            classes,
            entry: self.entry,
        })
    }

    /// Puts the class of a file of these bytes in the place of the class of its name, under its number. An
    /// entry of that class is from then on the method of its name and descriptor in the new one, and none
    /// where that is absent or foreign. The program is unchanged where it isn't replaced. `Known` and
    /// `Classes` never come.
    pub fn replace(&mut self, alloc: Global, bytes: Vec<u8>) -> Result<u16, AddFault>
        ensures { MatchResult result (λ number. Replaces self.old bytes.items number self.new) (λ fault. ReplaceFails self.old bytes.items fault × (self.new ≡ self.old)) }
    {
        let class = load(alloc, bytes)?;
        let Some(place) = self.place(class.name()) else {
            return Err(AddFault::Unknown);
        };
        let number = place as u16;
        self.put(number, class);
        Ok(number)
    }

    /// Puts a class in the place of another.
    fn put(&mut self, number: u16, class: Loaded)
        requires within { number < length self.old.classes }
        requires named { class_named self.old class.name ≡ Some number }
        requires class { IsClass class }
        ensures { self.new ≡ with_other self.old number class }
    {
        let entry = self.kept_entry(number, &class);
        self.classes[usize::from(number)] = class;
        self.entry = entry;
    }

    /// The entry, once the class of this number is another.
    fn kept_entry(&self, number: u16, class: &Loaded) -> Option<MethodId>
        ensures { result ≡ option_and_then (kept_entry self.now number class.now) self.now.entry }
    {
        let id = self.entry?;
        if id.class != number {
            return Some(id);
        }
        let (name, desc) = self.key(id)?;
        let method = class.method(name, desc)?;
        Some(MethodId {
            class: number,
            method: method as u16,
        })
    }

    /// How many classes there are, at most 64.
    pub fn classes(&self) -> u16
        ensures count { result ≡ length self.now.classes }
        // At most 64, each what its file says and of a name of its own; and the entry can be one.
        ensures program { IsProgram self.now }
    {
        self.classes.len() as u16
    }

    /// The entry, where one is set.
    pub fn entry(&self) -> Option<MethodId>
        ensures entry { result ≡ self.now.entry }
        // It is a method that isn't foreign and can be an entry.
        ensures known { IfSome result (λ id. IsSome (body_of self.now id)) }
        ensures within { IfSome result (λ id. id.class < length self.now.classes) }
        ensures enters { IfSome result (λ id. option_map can_be_entry (key_of self.now id) ≡ Some true) }
    {
        self.entry
    }

    /// The class of a number.
    fn class(&self, number: u16) -> Option<&Loaded>
        ensures { option_copied result ≡ slice_get self.now.classes number }
    {
        self.classes.get(usize::from(number))
    }

    /// The place of the class of this name.
    fn place(&self, name: &[u8]) -> Option<usize>
        ensures place { result ≡ class_named self.now name.now }
        ensures within { IfSome result (λ place. place < length self.now.classes) }
        ensures few { length self.now.classes ≤ 64 }
    {
        self.classes.iter().position(|class| class.name() == name)
    }

    /// The number of the class of this name. It takes no memory.
    pub fn class_named(&self, name: &[u8]) -> Option<u16>
        ensures number { result ≡ class_named self.now name.now }
        ensures within { IfSome result (λ number. number < length self.now.classes) }
        ensures name { IfSome result (λ number. IfSome (slice_get self.now.classes number) (λ class. class.name ≡ name.now)) }
    {
        let place = self.place(name)?;
        Some(place as u16)
    }

    /// The method of this name and descriptor in the class of this number, where there is one that isn't
    /// foreign. It takes no memory.
    pub fn method(&self, class: u16, name: &[u8], desc: &[u8]) -> Option<MethodId>
        ensures method { result ≡ method_of self.now class name.now desc.now }
        // It is known, and has this name and descriptor.
        ensures known { IfSome result (λ id. IsSome (body_of self.now id)) }
        ensures within { IfSome result (λ id. id.class < length self.now.classes) }
        ensures key { IfSome result (λ id. key_of self.now id ≡ Some (name.now, desc.now)) }
    {
        let method = self.class(class)?.method(name, desc)?;
        Some(MethodId {
            class,
            method: method as u16,
        })
    }

    /// The name of the class of this number, with slashes.
    pub fn class_name(&self, class: u16) -> &[u8]
        requires { class < length self.now.classes }
        ensures { option_map (λ class. class.name) (slice_get self.now.classes class) ≡ Some result.now }
    {
        self.classes[usize::from(class)].name()
    }

    /// The bytes of the file of the class of this number.
    pub fn file(&self, class: u16) -> &[u8]
        requires { class < length self.now.classes }
        ensures { option_map (λ class. class.file) (slice_get self.now.classes class) ≡ Some result.now }
    {
        self.classes[usize::from(class)].file()
    }

    /// A method of a class, by their numbers: none exactly where it is foreign.
    pub fn method_body(&self, class: u16, method: u16) -> Option<MethodBody<'_>>
        requires class { class < length self.now.classes }
        requires method { IfSome (slice_get self.now.classes class) (λ class. method < length class.methods) }
        ensures body { option_map body_seen result ≡ known_body self.now (method_id class method) }
        ensures foreign { is_some result ≡ is_some (body_of self.now (method_id class method)) }
    {
        let body = self.body(class, method)?;
        let Some((name, desc)) = self.key(MethodId { class, method }) else {
            unreachable!()
        };
        Some(MethodBody {
            name,
            desc,
            max_stack: body.max_stack,
            max_locals: body.max_locals,
            code: &body.code,
        })
    }

    /// How many methods the class of this number has, foreign ones too.
    pub fn methods(&self, class: u16) -> u16
        requires { class < length self.now.classes }
        ensures { option_map (λ class. length class.methods) (slice_get self.now.classes class) ≡ Some result }
    {
        self.classes[usize::from(class)].methods()
    }

    /// Whether the class of this number has an initialiser, and whether that is foreign. That of an absent
    /// class is `Absent`.
    pub fn initialiser(&self, class: u16) -> Initialiser
        ensures { result ≡ initialiser_there (numbered self.now class) }
    {
        initialiser_of(self.numbered(class))
    }

    /// The first instruction of the initialiser of the class of this number, where it has one that isn't
    /// foreign.
    pub fn initialiser_item(&self, class: u16) -> Option<Item>
        ensures { result ≡ initialiser_first (numbered self.now class) }
    {
        initialiser_item_of(self.numbered(class))
    }

    /// Sets the entry.
    pub fn set_entry(&mut self, id: MethodId) -> Result<(), EntryRefusal>
        requires { IsSome (body_of self.old id) }
        ensures { MatchResult result
            (λ _. (option_map can_be_entry (key_of self.old id) ≡ Some true) × (self.new ≡ record self.old { entry = Some id }))
            (λ _. (option_map can_be_entry (key_of self.old id) ≡ Some false) × (self.new ≡ self.old)) }
    {
        if !self.can_be_entry(id) {
            return Err(EntryRefusal::Kinds);
        }
        self.entry = Some(id);
        Ok(())
    }

    /// What a method does, where it isn't foreign.
    pub(crate) fn body(&self, class: u16, method: u16) -> Option<&Body>
        ensures { option_copied result ≡ body_of self.now (method_id class method) }
    {
        self.class(class)?.body(method)
    }

    /// The instruction of an item.
    pub(crate) fn instr(&self, item: Item) -> Option<&Instr>
        ensures { option_copied result ≡ instr_of self.now item }
    {
        match item {
            Item::Entry => None,
            Item::At {
                class,
                method,
                offset,
            } => self.body(class, method)?.code.at(offset),
        }
    }

    /// The class of an item that is an instruction.
    pub(crate) fn class_of(&self, item: Item) -> Option<&Loaded>
        ensures { option_copied result ≡ class_at self.now item }
    {
        match item {
            Item::Entry => None,
            Item::At { class, .. } => self.class(class),
        }
    }

    /// The static member that an item names.
    pub(crate) fn reference(&self, item: Item) -> Option<Member<'_>>
        ensures { option_map member_view result ≡ reference_of self.now item }
    {
        let class = self.class_of(item)?;
        let instr = self.instr(item)?;
        if !is_static_member_op(instr.op) {
            return None;
        }
        class.member(pool_index(&instr.operand)?)
    }

    /// The class of this name, with its number.
    pub(crate) fn class_by_name(&self, name: &[u8]) -> Option<(u16, &Loaded)>
        ensures { option_map seen result ≡ numbered_by_name self.now name.now }
    {
        let number = self.class_named(name)?;
        Some((number, self.class(number)?))
    }

    /// The class of the entry, with its number.
    pub(crate) fn class_of_entry(&self) -> Option<Option<(u16, &Loaded)>>
        ensures { option_map (λ class. option_map seen class) result ≡ whose self.now Item.Entry }
    {
        let id = self.entry?;
        Some(self.numbered(id.class))
    }

    /// The class of this number, with it.
    fn numbered(&self, number: u16) -> Option<(u16, &Loaded)>
        ensures { option_map seen result ≡ numbered self.now number }
    {
        Some((number, self.class(number)?))
    }

    /// What the entry takes and returns.
    pub(crate) fn entry_part(&self) -> Option<EntryPart>
        ensures { result ≡ entry_part_at self.now Item.Entry }
    {
        let (_, desc) = self.key(self.entry?)?;
        entry_part(desc)
    }

    /// The view of an item, lent: none exactly where the item is no instruction of a method that isn't
    /// foreign, or is the entry and none is set. It takes no memory.
    pub fn view(&self, item: Item) -> Option<View<'_>>
        ensures { result ≡ view self.now item }
    {
        let there = match item {
            Item::Entry => self.entry.is_some(),
            Item::At { .. } => self.instr(item).is_some(),
        };
        if !there {
            return None;
        }
        Some(View::new(self, item))
    }

    /// The name and the descriptor of a method.
    fn key(&self, id: MethodId) -> Option<(&[u8], &[u8])>
        ensures key { option_map (λ key. (key.0.now, key.1.now)) result ≡ key_of self.now id }
        ensures there { IsSome (body_of self.now id) → IsSome (key_of self.now id) }
    {
        self.classes.get(usize::from(id.class))?.key(id.method)
    }

    /// Whether a method can be an entry, by its name and descriptor.
    fn can_be_entry(&self, id: MethodId) -> bool
        requires { IsSome (body_of self.now id) }
        ensures { option_map can_be_entry (key_of self.now id) ≡ Some result }
    {
        let Some((name, desc)) = self.key(id) else {
            unreachable!()
        };
        can_enter(name, desc)
    }
}

/// Whether an instruction names a static member.
fn is_static_member_op(op: u8) -> bool
    ensures { result ≡ is_static_member_op op }
{
    op == 178 || op == 179 || op == 184
}

/// Whether a method of this name and descriptor can be an entry.
fn can_enter(name: &[u8], desc: &[u8]) -> bool
    ensures { result ≡ can_be_entry (name.now, desc.now) }
{
    entry_part(desc).is_some() && name != b"<clinit>".as_slice()
}
