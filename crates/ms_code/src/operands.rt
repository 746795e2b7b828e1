ghost use Rattle.std.specs.Prelude.{◌≡◌, if◌then◌else◌};
ghost use Rattle.ms_code.specs.declared.instruction.Operand.TheVariants as operands;
ghost use Rattle.ms_code.specs.declared.form.Form.TheVariants as form;
ghost use Rattle.ms_code.specs.declared.trouble.Trouble.TheVariants.{Foreign};
ghost use Rattle.ms_code.specs.Finds.{Finds, Leads};
ghost use Rattle.ms_code.specs.Instructions.{behind, instruction, operand, wide_operand, widened};

use crate::form::{Form, form_of};
use crate::instruction::{Instr, Operand};
use crate::names::{is_constant, is_constructor, is_field, is_method, is_throwable};
use crate::numbers::{s1, s2, s4, target_from, u1, u2};
use crate::switches::{lookup_switch, table_switch};
use crate::trouble::Trouble;
use ms_pool::{Cursor, Pool};
use std::alloc::Global;

/// Where an instruction is: its place in the file and its offset in the code.
#[derive(Clone, Copy)]
pub struct Spot {
    pub place: u64,
    pub offset: u16,
}

/// The number of the pool as an operand, where what it names is known.
fn number(known: bool, i: u16) -> Result<Operand, Trouble>
    ensures { result ≡ (if known then Ok (operands.Pool i) else Err Foreign) }
{
    if !known {
        return Err(Trouble::Foreign);
    }
    Ok(Operand::Pool(i))
}

/// The next byte, which says that the elements of a new array are ints.
#[tactic(auto, unfolding(crate::specs::Instructions::operand))]
fn array_type(pool: &Pool<'_>, spot: Spot, cursor: &mut Cursor<'_>) -> Result<Operand, Trouble>
    ensures { Finds (λ operand. operand) result cursor.new ((operand pool.now spot.place spot.offset form.ArrayType).read cursor.old) }
{
    let element = u1(spot.place, cursor)?;
    if element != 10 {
        return Err(Trouble::Foreign);
    }
    Ok(Operand::Nothing)
}

/// The operands behind an opcode of this form that isn't `wide`.
#[tactic(auto, unfolding(crate::specs::Instructions::operand))]
fn operand(
    alloc: Global,
    pool: &Pool<'_>,
    spot: Spot,
    form: Form,
    cursor: &mut Cursor<'_>,
) -> Result<Operand, Trouble>
    ensures { Leads (λ operand. operand) result cursor.new ((operand pool.now spot.place spot.offset form).read cursor.old) }
{
    let place = spot.place;
    match form {
        Form::Plain => Ok(Operand::Nothing),
        Form::SignedByte => Ok(Operand::Word(s1(place, cursor)?)),
        Form::SignedShort => Ok(Operand::Word(s2(place, cursor)?)),
        Form::LocalIndex => Ok(Operand::Local(u16::from(u1(place, cursor)?))),
        Form::LocalAndByte => {
            let index = u1(place, cursor)?;
            let by = s1(place, cursor)?;
            Ok(Operand::Increment {
                index: u16::from(index),
                by,
            })
        }
        Form::ConstantByte => {
            let i = u16::from(u1(place, cursor)?);
            number(is_constant(pool, i), i)
        }
        Form::ConstantShort => {
            let i = u2(place, cursor)?;
            number(is_constant(pool, i), i)
        }
        Form::FieldIndex => {
            let i = u2(place, cursor)?;
            number(is_field(pool, i), i)
        }
        Form::MethodIndex => {
            let i = u2(place, cursor)?;
            number(is_method(pool, i), i)
        }
        Form::ConstructorIndex => {
            let i = u2(place, cursor)?;
            number(is_constructor(pool, i), i)
        }
        Form::ClassIndex => {
            let i = u2(place, cursor)?;
            number(is_throwable(pool, i), i)
        }
        Form::ArrayType => array_type(pool, spot, cursor),
        Form::BranchShort => {
            let by = s2(place, cursor)?;
            Ok(Operand::Target(target_from(spot.offset, by)))
        }
        Form::BranchInt => {
            let by = s4(place, cursor)?;
            Ok(Operand::Target(target_from(spot.offset, by)))
        }
        Form::TableCases => table_switch(alloc, spot, cursor),
        Form::LookupCases => lookup_switch(alloc, spot, cursor),
        Form::Widened => Err(Trouble::Foreign),
    }
}

/// The operands behind `wide` and an opcode of this form.
#[tactic(auto, unfolding(crate::specs::Instructions::wide_operand))]
fn wide_operand(place: u64, form: Option<Form>, cursor: &mut Cursor<'_>) -> Result<Operand, Trouble>
    ensures { Finds (λ operand. operand) result cursor.new ((wide_operand place form).read cursor.old) }
{
    match form {
        Some(Form::LocalIndex) => Ok(Operand::Local(u2(place, cursor)?)),
        Some(Form::LocalAndByte) => {
            let index = u2(place, cursor)?;
            let by = s2(place, cursor)?;
            Ok(Operand::Increment { index, by })
        }
        _ => Err(Trouble::Foreign),
    }
}

/// The instruction behind `wide`.
#[tactic(auto, unfolding(crate::specs::Instructions::widened))]
fn widened(place: u64, cursor: &mut Cursor<'_>) -> Result<Instr, Trouble>
    ensures { Finds (λ instr. instr) result cursor.new ((widened place).read cursor.old) }
{
    let op = u1(place, cursor)?;
    let operand = wide_operand(place, form_of(op), cursor)?;
    Ok(Instr {
        op,
        wide: true,
        operand,
    })
}

/// The instruction whose opcode, of this form, was just read.
#[tactic(auto, unfolding(crate::specs::Instructions::behind))]
fn behind(
    alloc: Global,
    pool: &Pool<'_>,
    spot: Spot,
    op: u8,
    form: Form,
    cursor: &mut Cursor<'_>,
) -> Result<Instr, Trouble>
    ensures { Leads (λ instr. instr) result cursor.new ((behind pool.now spot.place spot.offset op form).read cursor.old) }
{
    if let Form::Widened = form {
        return widened(spot.place, cursor);
    }
    let operand = operand(alloc, pool, spot, form, cursor)?;
    Ok(Instr {
        op,
        wide: false,
        operand,
    })
}

/// The instruction at the cursor.
#[tactic(auto, unfolding(crate::specs::Instructions::instruction))]
pub fn instruction(
    alloc: Global,
    pool: &Pool<'_>,
    spot: Spot,
    cursor: &mut Cursor<'_>,
) -> Result<Instr, Trouble>
    ensures { Leads (λ instr. instr) result cursor.new ((instruction pool.now spot.place spot.offset).read cursor.old) }
{
    let op = u1(spot.place, cursor)?;
    let form = form_of(op).ok_or(Trouble::Foreign)?;
    behind(alloc, pool, spot, op, form, cursor)
}
