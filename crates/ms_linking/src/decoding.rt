ghost use Rattle.std.specs.Prelude.{◌≡◌, ◌<◌, ◌≤◌, IfOk, option_and_then, option_map};
ghost use Rattle.ms_program.specs.Programs.{class_named};
ghost use Rattle.ms_program.specs.Views as views;
ghost use Rattle.ms_linking.specs.Groups.{group_of};
ghost use Rattle.ms_linking.specs.Linked.{linked_instr};
ghost use Rattle.ms_linking.specs.Linked as linked;
ghost use Rattle.ms_machine.specs.Instructions.{Shuffle};
ghost use Rattle.ms_linking.specs.Told.{fixed_in, sort_of, told};

use crate::instruction::{Comparison, Instruction, Member, Sort};
use ms_code::Operand;
use ms_program::{Named, Program, View};
use ms_words::{Bin, NoMemory, Un, field_type, known_signature, thrown_named};
use std::alloc::Global;

/// What an opcode does that says all.
fn fixed<'a>(op: u8) -> Option<Instruction<'a>>
    ensures { option_map told result ≡ option_and_then fixed_in (group_of op) }
{
    if op < 96 { moving(op) } else { working(op) }
}

/// What an opcode below 96 does that says all: constants, loads, stores and the operand stack (JVMS SE 8, sections
/// 2.11.2 and 2.11.6).
#[tactic(auto, unfolding(crate::specs::Groups::group_of))]
fn moving<'a>(op: u8) -> Option<Instruction<'a>>
    requires { op < 96 }
    ensures { option_map told result ≡ option_and_then fixed_in (group_of op) }
{
    let instruction = match op {
        0 => Instruction::Skip,
        1 => Instruction::PushNull,
        2 => Instruction::Push(-1),
        3 => Instruction::Push(0),
        4 => Instruction::Push(1),
        5 => Instruction::Push(2),
        6 => Instruction::Push(3),
        7 => Instruction::Push(4),
        8 => Instruction::Push(5),
        26 => Instruction::Load(Sort::Int, 0),
        27 => Instruction::Load(Sort::Int, 1),
        28 => Instruction::Load(Sort::Int, 2),
        29 => Instruction::Load(Sort::Int, 3),
        42 => Instruction::Load(Sort::Reference, 0),
        43 => Instruction::Load(Sort::Reference, 1),
        44 => Instruction::Load(Sort::Reference, 2),
        45 => Instruction::Load(Sort::Reference, 3),
        46 => Instruction::ArrayLoad,
        59 => Instruction::Store(Sort::Int, 0),
        60 => Instruction::Store(Sort::Int, 1),
        61 => Instruction::Store(Sort::Int, 2),
        62 => Instruction::Store(Sort::Int, 3),
        75 => Instruction::Store(Sort::Reference, 0),
        76 => Instruction::Store(Sort::Reference, 1),
        77 => Instruction::Store(Sort::Reference, 2),
        78 => Instruction::Store(Sort::Reference, 3),
        79 => Instruction::ArrayStore,
        87 => shuffle(1, &[]),
        88 => shuffle(2, &[]),
        89 => shuffle(1, &[0, 0]),
        90 => shuffle(2, &[0, 1, 0]),
        91 => shuffle(3, &[0, 1, 2, 0]),
        92 => shuffle(2, &[0, 1, 0, 1]),
        93 => shuffle(3, &[0, 1, 2, 0, 1]),
        94 => shuffle(4, &[0, 1, 2, 3, 0, 1]),
        95 => shuffle(2, &[1, 0]),
        _ => return None,
    };
    Some(instruction)
}

/// What an opcode from 96 on does that says all: operators, comparisons, jumps, returns, arrays and throws (JVMS
/// SE 8, sections 2.11.3 to 2.11.9).
#[tactic(auto, unfolding(crate::specs::Groups::group_of))]
fn working<'a>(op: u8) -> Option<Instruction<'a>>
    requires { 96 ≤ op }
    ensures { option_map told result ≡ option_and_then fixed_in (group_of op) }
{
    let instruction = match op {
        96 => Instruction::Combine(Bin::Add),
        100 => Instruction::Combine(Bin::Sub),
        104 => Instruction::Combine(Bin::Mul),
        108 => Instruction::Divide(Bin::Div),
        112 => Instruction::Divide(Bin::Rem),
        116 => Instruction::Change(Un::Neg),
        120 => Instruction::Combine(Bin::Shl),
        122 => Instruction::Combine(Bin::Shr),
        124 => Instruction::Combine(Bin::Ushr),
        126 => Instruction::Combine(Bin::And),
        128 => Instruction::Combine(Bin::Or),
        130 => Instruction::Combine(Bin::Xor),
        145 => Instruction::Change(Un::I2b),
        146 => Instruction::Change(Un::I2c),
        147 => Instruction::Change(Un::I2s),
        153 => Instruction::CompareZero(Comparison::Equal),
        154 => Instruction::CompareZero(Comparison::NotEqual),
        155 => Instruction::CompareZero(Comparison::Less),
        156 => Instruction::CompareZero(Comparison::AtLeast),
        157 => Instruction::CompareZero(Comparison::Greater),
        158 => Instruction::CompareZero(Comparison::AtMost),
        159 => Instruction::Compare(Comparison::Equal),
        160 => Instruction::Compare(Comparison::NotEqual),
        161 => Instruction::Compare(Comparison::Less),
        162 => Instruction::Compare(Comparison::AtLeast),
        163 => Instruction::Compare(Comparison::Greater),
        164 => Instruction::Compare(Comparison::AtMost),
        165 => Instruction::CompareReferences { same: true },
        166 => Instruction::CompareReferences { same: false },
        167 => Instruction::Goto,
        172 => Instruction::ReturnValue(Sort::Int),
        176 => Instruction::ReturnValue(Sort::Reference),
        177 => Instruction::ReturnVoid,
        188 => Instruction::NewArray,
        190 => Instruction::ArrayLength,
        191 => Instruction::Throw,
        198 => Instruction::CompareNull { null: true },
        199 => Instruction::CompareNull { null: false },
        200 => Instruction::Goto,
        _ => return None,
    };
    Some(instruction)
}

/// Takes so many values, and puts back those of these places.
fn shuffle<'a>(count: usize, places: &'a [usize]) -> Instruction<'a>
    ensures { told result ≡ Shuffle count places.now }
{
    Instruction::Shuffle { count, places }
}

/// Puts the word of an operand on the stack.
fn push_word<'a>(operand: &Operand) -> Option<Instruction<'a>>
    ensures { option_map told result ≡ linked.push_word (views.bare_operand operand.now) }
{
    match operand {
        Operand::Word(word) => Some(Instruction::Push(*word)),
        _ => None,
    }
}

/// Puts what a view names, an int or a text, on the stack.
fn push_constant<'a>(view: &View<'a>) -> Option<Instruction<'a>>
    ensures { option_map told result ≡ linked.push_constant view.now.named }
{
    match view.named()? {
        Named::Word(word) => Some(Instruction::Push(word)),
        Named::Text(bytes) => Some(Instruction::PushText(bytes)),
        _ => None,
    }
}

/// Puts the value of an operand's local on the stack.
fn load<'a>(sort: Sort, operand: &Operand) -> Option<Instruction<'a>>
    ensures { option_map told result ≡ linked.load (sort_of sort) (views.bare_operand operand.now) }
{
    match operand {
        Operand::Local(index) => Some(Instruction::Load(sort, *index)),
        _ => None,
    }
}

/// Takes a value into an operand's local.
fn store<'a>(sort: Sort, operand: &Operand) -> Option<Instruction<'a>>
    ensures { option_map told result ≡ linked.store (sort_of sort) (views.bare_operand operand.now) }
{
    match operand {
        Operand::Local(index) => Some(Instruction::Store(sort, *index)),
        _ => None,
    }
}

/// Adds a word to an operand's local.
fn increment<'a>(operand: &Operand) -> Option<Instruction<'a>>
    ensures { option_map told result ≡ linked.increment (views.bare_operand operand.now) }
{
    match operand {
        Operand::Increment { index, by } => Some(Instruction::Increment(*index, *by)),
        _ => None,
    }
}

/// A switch, by its keys.
#[tactic(auto, using(crate::proofs::Told::keys_stay))]
fn switch<'a>(operand: &'a Operand) -> Option<Instruction<'a>>
    ensures { option_map told result ≡ linked.switch (views.bare_operand operand.now) }
{
    match operand {
        Operand::Cases(switch) => Some(Instruction::Switch(switch)),
        _ => None,
    }
}

/// Reads the static field that a view names.
fn get_static<'a>(program: &Program, view: &View<'a>) -> Option<Instruction<'a>>
    ensures { option_map told result ≡ linked.get_static (class_named program.now) view.now.named view.now.member view.now.initialiser }
{
    let Some(Named::Member { class, name, desc }) = view.named() else {
        return None;
    };
    let part = view.member()?;
    let initialiser = view.initialiser()?;
    let member = Member {
        class_name: class,
        name,
        descriptor: desc,
        class: program.class_named(class),
        is_there: part.member_present,
        initialiser,
    };
    Some(Instruction::GetStatic(member, field_type(desc)?, part.initial.unwrap_or(0)))
}

/// Stores into the static field that a view names.
fn put_static<'a>(program: &Program, view: &View<'a>) -> Option<Instruction<'a>>
    ensures { option_map told result ≡ linked.put_static (class_named program.now) view.now.named view.now.member view.now.initialiser }
{
    let Some(Named::Member { class, name, desc }) = view.named() else {
        return None;
    };
    let part = view.member()?;
    let initialiser = view.initialiser()?;
    let member = Member {
        class_name: class,
        name,
        descriptor: desc,
        class: program.class_named(class),
        is_there: part.member_present,
        initialiser,
    };
    Some(Instruction::PutStatic(member, field_type(desc)?))
}

/// Calls the static method that a view names.
fn invoke<'a>(
    alloc: Global,
    program: &Program,
    view: &View<'a>,
) -> Result<Option<Instruction<'a>>, NoMemory>
    ensures { IfOk result (λ found. option_map told found ≡ linked.invoke (class_named program.now) view.now.named view.now.member view.now.initialiser) }
{
    let Some(Named::Member { class, name, desc }) = view.named() else {
        return Ok(None);
    };
    let Some(part) = view.member() else {
        return Ok(None);
    };
    let Some(initialiser) = view.initialiser() else {
        return Ok(None);
    };
    let Some(signature) = known_signature(alloc, desc)? else {
        return Ok(None);
    };
    let member = Member {
        class_name: class,
        name,
        descriptor: desc,
        class: program.class_named(class),
        is_there: part.member_present,
        initialiser,
    };
    Ok(Some(Instruction::Invoke(member, signature)))
}

/// Initialises a throwable by the constructor that a view names.
fn construct<'a>(view: &View<'a>) -> Option<Instruction<'a>>
    ensures { option_map told result ≡ linked.construct view.now.named }
{
    let Some(Named::Member { class, desc, .. }) = view.named() else {
        return None;
    };
    Some(Instruction::Construct {
        with_message: desc != b"()V".as_slice(),
        class: thrown_named(class)?,
    })
}

/// Makes the throwable that a view names.
fn make<'a>(view: &View<'a>) -> Option<Instruction<'a>>
    ensures { option_map told result ≡ linked.new view.now.named }
{
    match view.named()? {
        Named::Throwable(class) => Some(Instruction::New(class)),
        _ => None,
    }
}

/// What the instruction of a view does, by the program that the view is of; none where the view isn't that
/// of an instruction.
#[tactic(auto, unfolding(crate::specs::Groups::group_of))]
pub fn instruction_of<'a>(
    alloc: Global,
    program: &Program,
    view: &View<'a>,
) -> Result<Option<Instruction<'a>>, NoMemory>
    ensures { IfOk result (λ found. option_map told found ≡ option_and_then (linked_instr (class_named program.now) view.now) view.now.instr) }
{
    let Some(instr) = view.instr() else {
        return Ok(None);
    };
    match instr.op {
        16 => Ok(push_word(&instr.operand)),
        17 => Ok(push_word(&instr.operand)),
        18 => Ok(push_constant(view)),
        19 => Ok(push_constant(view)),
        21 => Ok(load(Sort::Int, &instr.operand)),
        25 => Ok(load(Sort::Reference, &instr.operand)),
        54 => Ok(store(Sort::Int, &instr.operand)),
        58 => Ok(store(Sort::Reference, &instr.operand)),
        132 => Ok(increment(&instr.operand)),
        170 => Ok(switch(&instr.operand)),
        171 => Ok(switch(&instr.operand)),
        178 => Ok(get_static(program, view)),
        179 => Ok(put_static(program, view)),
        183 => Ok(construct(view)),
        184 => invoke(alloc, program, view),
        187 => Ok(make(view)),
        op => Ok(fixed(op)),
    }
}
