ghost use Rattle.std.specs.Prelude.{◌≡◌, filter, option_map, slice_get};
ghost use Rattle.ms_code.specs.declared.instruction.Operand.TheVariants as operands;
ghost use Rattle.ms_code.specs.Codes.{targets_of};
ghost use Rattle.ms_pool.specs.Found.{member_view};
ghost use Rattle.ms_program.specs.Views as views;
ghost use Rattle.ms_program.specs.Views.{bare, view_at};

use crate::loaded::Loaded;
use crate::program::Program;
use ms_code::{Handler, Instr, Operand, Switch};
use ms_pool::Member;
use ms_words::{EntryPart, Item, Thrown};
use std::marker::Model;

/// The opcode of `invokestatic`.
const INVOKESTATIC: u8 = 184;

/// Whether a class has an initialiser (JVMS SE 8, section 2.9).
#[derive(Clone, Copy, PartialEq, Eq)]
pub enum Initialiser {
    /// It has none.
    Absent,
    /// It has one that isn't foreign.
    Present,
    /// It has one that is foreign.
    Foreign,
}

/// What a number of the constant pool names.
#[derive(Drop)]
pub enum Named<'a> {
    /// An int.
    Word(i32),
    /// The bytes of a text.
    Text(&'a [u8]),
    /// A throwable.
    Throwable(Thrown),
    /// A field or a method: the name of its class, its name and its descriptor.
    Member {
        class: &'a [u8],
        name: &'a [u8],
        desc: &'a [u8],
    },
}

/// What is known of a member that an instruction names.
#[derive(Clone, Copy, PartialEq, Eq)]
pub struct MemberPart {
    /// Whether its class is in the program.
    pub class_present: bool,
    /// Whether the class has it, static and not foreign.
    pub member_present: bool,
    /// The int that a field has at first; none for a field of type `[I`, for a method, and for an absent one.
    pub initial: Option<i32>,
}

/// A handler that covers an instruction.
#[derive(Clone, Copy)]
pub struct CatchPart {
    /// Its first instruction.
    pub handler: Item,
    /// The class that it catches, with those below it.
    pub catches: Thrown,
}

/// What one step of a run at an item may read of a program, lent.
#[derive(Drop)]
pub struct View<'a> {
    program: &'a Program,
    item: Item,
}

impl<'a> Model for View<'a> {
    ghost use Rattle.ms_program.specs.Views.{View as Seen, view_at};

    ghost Value = { Seen };

    ghost view = { λ v. view_at v.program.now v.item };
}

impl<'a> View<'a> {
    /// The view of an item that has one.
    pub(crate) fn new(program: &'a Program, item: Item) -> View<'a>
        ensures { result ≡ view_at program.now item }
    {
        View { program, item }
    }

    /// What the entry takes and returns, in the view of the entry.
    pub fn entry_part(&self) -> Option<EntryPart>
        ensures { result ≡ self.now.entry_part }
    {
        match self.item {
            Item::Entry => self.program.entry_part(),
            Item::At { .. } => None,
        }
    }

    /// The instruction, in the view of one. Its number of the pool and its targets aren't part of the view:
    /// what they say is in `named` and `target`.
    pub fn instr(&self) -> Option<&'a Instr>
        ensures { option_map (λ instr. bare instr.now) result ≡ self.now.instr }
    {
        self.program.instr(self.item)
    }

    /// The instruction behind this one in the code, whatever its opcode; none at the end of the code.
    pub fn successor(&self) -> Option<Item>
        ensures { result ≡ self.now.successor }
    {
        let Item::At {
            class,
            method,
            offset,
        } = self.item
        else {
            return None;
        };
        let offset = self.program.body(class, method)?.code.next(offset)?;
        Some(Item::At {
            class,
            method,
            offset,
        })
    }

    /// The target at this place, counted from 0, in the order of the table; the default of a switch is its
    /// last.
    pub fn target(&self, i: u32) -> Option<Item>
        ensures { result ≡ slice_get self.now.targets i }
    {
        let Item::At { class, method, .. } = self.item else {
            return None;
        };
        let offset = target_of(&self.program.instr(self.item)?.operand, i as usize)?;
        Some(Item::At {
            class,
            method,
            offset,
        })
    }

    /// The handler at this place, counted from 0, among those that cover the instruction, in the order of
    /// the table.
    pub fn handler(&self, i: u32) -> Option<CatchPart>
        ensures { result ≡ slice_get self.now.handlers i }
    {
        let Item::At {
            class,
            method,
            offset,
        } = self.item
        else {
            return None;
        };
        let handlers = self.program.body(class, method)?.code.handlers();
        let handler = covering(handlers, offset, i as usize)?;
        Some(CatchPart {
            handler: Item::At {
                class,
                method,
                offset: handler.target,
            },
            catches: handler.catches,
        })
    }

    /// What the number of the pool behind the opcode names: the int or the text of `ldc` and `ldc_w`, the
    /// throwable of `new`, and the member of `getstatic`, `putstatic`, `invokestatic` and `invokespecial`.
    pub fn named(&self) -> Option<Named<'a>>
        ensures { option_map views.name_of result ≡ self.now.named }
    {
        let instr = self.program.instr(self.item)?;
        let i = pool_index(&instr.operand)?;
        self.program.class_of(self.item)?.named(instr.op, i)
    }

    /// What is known of the static member that `getstatic`, `putstatic` or `invokestatic` names. The number of
    /// its class isn't part of the view: `Program::class_named` gives it for the name in `named`.
    pub fn member(&self) -> Option<MemberPart>
        ensures { result ≡ self.now.member }
    {
        let op = self.program.instr(self.item)?.op;
        let reference = self.program.reference(self.item)?;
        Some(member_part(op, reference, self.program.class_by_name(reference.class)))
    }

    /// Whether the class of that member, or of the entry, has an initialiser. That of an absent class is
    /// `Absent`.
    pub fn initialiser(&self) -> Option<Initialiser>
        ensures { result ≡ self.now.initialiser }
    {
        let class = match self.item {
            Item::Entry => self.program.class_of_entry()?,
            Item::At { .. } => self
                .program
                .class_by_name(self.program.reference(self.item)?.class),
        };
        Some(initialiser_of(class))
    }

    /// The first instruction of the entry, or of the method that `invokestatic` names, where it is there and
    /// not foreign.
    pub fn first_item(&self) -> Option<Item>
        ensures { result ≡ self.now.first_item }
    {
        match self.item {
            Item::Entry => {
                let id = self.program.entry()?;
                Some(first_of(id.class, id.method))
            }
            Item::At { .. } => {
                let op = self.program.instr(self.item)?.op;
                let reference = self.program.reference(self.item)?;
                method_first(op, reference, self.program.class_by_name(reference.class))
            }
        }
    }

    /// The first instruction of the initialiser of the class of that member, or of the entry, where it has
    /// one that isn't foreign.
    pub fn initialiser_item(&self) -> Option<Item>
        ensures { result ≡ self.now.initialiser_item }
    {
        let class = match self.item {
            Item::Entry => self.program.class_of_entry()?,
            Item::At { .. } => self
                .program
                .class_by_name(self.program.reference(self.item)?.class),
        };
        initialiser_item_of(class)
    }
}

/// The number of the pool that an operand has.
pub(crate) fn pool_index(operand: &Operand) -> Option<u16>
    ensures { result ≡ views.pool_index operand.now }
{
    match operand {
        Operand::Pool(i) => Some(*i),
        _ => None,
    }
}

/// The first instruction of a method.
fn first_of(class: u16, method: u16) -> Item
    ensures { result ≡ views.first_of class method }
{
    Item::At {
        class,
        method,
        offset: 0,
    }
}

/// What is known of a member, by its class, where that is there.
fn member_part(op: u8, reference: Member<'_>, class: Option<(u16, &Loaded)>) -> MemberPart
    ensures { result ≡ views.member_part op (member_view reference.entry) (option_map views.seen class.entry) }
{
    let Some((_, class)) = class else {
        return MemberPart {
            class_present: false,
            member_present: false,
            initial: None,
        };
    };
    if op == INVOKESTATIC {
        return MemberPart {
            class_present: true,
            member_present: class.method(reference.name, reference.desc).is_some(),
            initial: None,
        };
    }
    let initial = class.initial(reference.name, reference.desc);
    MemberPart {
        class_present: true,
        member_present: initial.is_some(),
        initial: int_initial(reference.desc, initial),
    }
}

/// What a field of this descriptor has at first: an array of ints has null.
fn int_initial(desc: &[u8], initial: Option<i32>) -> Option<i32>
    ensures { result ≡ views.int_initial desc.now initial }
{
    if desc == b"[I".as_slice() {
        return None;
    }
    initial
}

/// The state of the initialiser of a class, where that is there.
pub(crate) fn initialiser_of(class: Option<(u16, &Loaded)>) -> Initialiser
    ensures { result ≡ views.initialiser_there (option_map views.seen class.entry) }
{
    match class {
        Some((_, class)) => class.initialiser(),
        None => Initialiser::Absent,
    }
}

/// The first instruction of the initialiser of a class, where that is there and has one that isn't foreign.
pub(crate) fn initialiser_item_of(class: Option<(u16, &Loaded)>) -> Option<Item>
    ensures { result ≡ views.initialiser_first (option_map views.seen class.entry) }
{
    let (number, class) = class?;
    let method = class.initialiser_method()?;
    Some(first_of(number, method))
}

/// The first instruction of a method that is named, by its class, where that is there.
fn method_first(op: u8, reference: Member<'_>, class: Option<(u16, &Loaded)>) -> Option<Item>
    ensures { result ≡ views.method_first op (member_view reference.entry) (option_map views.seen class.entry) }
{
    if op != INVOKESTATIC {
        return None;
    }
    let (number, class) = class?;
    let method = class.method(reference.name, reference.desc)?;
    Some(first_of(number, method as u16))
}

/// The offset of the target at this place.
fn target_of(operand: &Operand, i: usize) -> Option<u16>
    ensures { result ≡ slice_get (targets_of operand.now) i }
{
    match operand {
        Operand::Target(target) => { if i == 0 { Some(*target) } else { None } }
        Operand::Cases(switch) => switch_target(switch, i),
        _ => None,
    }
}

/// The target of the case at this place, or of the default behind the cases.
fn switch_target(switch: &Switch, i: usize) -> Option<u16>
    ensures { result ≡ slice_get (targets_of (operands.Cases switch.now)) i }
{
    let cases = switch.cases();
    if i < cases.len() {
        return Some(cases[i].target);
    }
    if i == cases.len() {
        return Some(switch.otherwise());
    }
    None
}

/// The handler at this place among those that cover an offset.
#[tactic(auto, using(crate::proofs::Covering::found, crate::proofs::Covering::passed, crate::proofs::Covering::skipped, crate::proofs::Covering::none_left))]
fn covering(handlers: &[Handler], offset: u16, i: usize) -> Option<Handler>
    ensures { result ≡ slice_get (filter (views.covers offset) handlers.now) i }
{
    let mut left = i;
    for handler in handlers {
        if covers(handler, offset) {
            if left == 0 {
                return Some(*handler);
            }
            left -= 1;
        }
    }
    None
}

/// Whether a handler covers an offset.
fn covers(handler: &Handler, offset: u16) -> bool
    ensures { result ≡ views.covers offset handler.now }
{
    handler.start <= offset && u32::from(offset) < handler.end
}
