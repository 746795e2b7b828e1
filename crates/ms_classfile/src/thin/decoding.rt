ghost use Rattle.std.specs.Prelude.{◌≡◌};
ghost use Rattle.ms_classfile.specs.Reading as reading;
ghost use Rattle.ms_classfile.specs.Found.{Finds};

use super::failure::Refused;
use crate::{Condition, Instruction};
use ms_pool::Cursor;

/// The instruction that has this opcode and no operand.
fn short_instruction(opcode: u8) -> Option<Instruction>
    ensures { result ≡ reading.short_instruction opcode }
{
    match opcode {
        26..=29 => Some(Instruction::IloadN(opcode - 26)),
        2..=8 => Some(Instruction::Iconst(i32::from(opcode) - 3)),
        96 => Some(Instruction::Iadd),
        100 => Some(Instruction::Isub),
        172 => Some(Instruction::Ireturn),
        _ => None,
    }
}

/// The condition of this place in its group of opcodes.
fn condition_of(number: u8) -> Option<Condition>
    ensures { result ≡ reading.condition_of number }
{
    match number {
        0 => Some(Condition::Eq),
        1 => Some(Condition::Ne),
        2 => Some(Condition::Lt),
        3 => Some(Condition::Ge),
        4 => Some(Condition::Gt),
        5 => Some(Condition::Le),
        _ => None,
    }
}

#[tactic(auto, unfolding(crate::specs::Reading::load_at))]
fn load(cursor: &mut Cursor<'_>) -> Result<Instruction, Refused>
    ensures { Finds (λ found. found) result cursor.new (reading.load_at cursor.old) }
{
    let local = cursor.u1()?;
    Ok(Instruction::Iload(local))
}

#[tactic(auto, unfolding(crate::specs::Reading::push_at))]
fn push(cursor: &mut Cursor<'_>) -> Result<Instruction, Refused>
    ensures { Finds (λ found. found) result cursor.new (reading.push_at cursor.old) }
{
    let byte = cursor.u1()?;
    Ok(Instruction::Bipush(i32::from(byte.cast_signed())))
}

/// How far a branch leads: two signed bytes, which do not lead back.
#[tactic(auto, unfolding(crate::specs::Reading::offset_at))]
fn offset(cursor: &mut Cursor<'_>) -> Result<u16, Refused>
    ensures { Finds (λ far. far) result cursor.new (reading.offset_at cursor.old) }
{
    let far = cursor.u2()?;
    if far >= 0x8000 {
        return Err(Refused);
    }
    Ok(far)
}

/// A branch on one word.
#[tactic(auto, unfolding(crate::specs::Reading::branch_at))]
fn branch_on_one(number: u8, cursor: &mut Cursor<'_>) -> Result<Instruction, Refused>
    ensures { Finds (λ found. found) result cursor.new (reading.branch_at Instruction.If number cursor.old) }
{
    let condition = condition_of(number).ok_or(Refused)?;
    let far = offset(cursor)?;
    Ok(Instruction::If(condition, far))
}

/// A branch on two words.
#[tactic(auto, unfolding(crate::specs::Reading::branch_at))]
fn branch_on_two(number: u8, cursor: &mut Cursor<'_>) -> Result<Instruction, Refused>
    ensures { Finds (λ found. found) result cursor.new (reading.branch_at Instruction.IfIcmp number cursor.old) }
{
    let condition = condition_of(number).ok_or(Refused)?;
    let far = offset(cursor)?;
    Ok(Instruction::IfIcmp(condition, far))
}

#[tactic(auto, unfolding(crate::specs::Reading::operand_at))]
fn operand(opcode: u8, cursor: &mut Cursor<'_>) -> Result<Instruction, Refused>
    ensures { Finds (λ found. found) result cursor.new (reading.operand_at opcode cursor.old) }
{
    match opcode {
        16 => push(cursor),
        21 => load(cursor),
        153..=158 => branch_on_one(opcode - 153, cursor),
        159..=164 => branch_on_two(opcode - 159, cursor),
        _ => short_instruction(opcode).ok_or(Refused),
    }
}

/// Reads an instruction (JVMS SE 8, section 6.5).
#[tactic(auto, unfolding(crate::specs::Reading::instruction_at))]
pub fn instruction(cursor: &mut Cursor<'_>) -> Result<Instruction, Refused>
    ensures { Finds (λ found. found) result cursor.new (reading.instruction_at cursor.old) }
{
    let opcode = cursor.u1()?;
    operand(opcode, cursor)
}
