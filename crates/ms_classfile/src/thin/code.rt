ghost use Rattle.std.specs.Prelude.{◌≡◌, map, nat_le, ◌&&◌};
ghost use Rattle.ms_classfile.specs.Reading.{instructions_of, limits_at, code_of};
ghost use Rattle.ms_classfile.specs.Reading as reading;
ghost use Rattle.ms_classfile.specs.Found.{Finds, Gives, entry_view};

use super::attributes::attributes;
use super::decoding::instruction;
use super::failure::{Failure, Refused};
use super::parts::{Limits, PoolEntry};
use super::walking::{ends_with_return, is_walked};
use crate::Instruction;
use ms_pool::Cursor;
use std::alloc::Global;

/// The most bytes that code has here.
const LONGEST: u32 = 19_999;

/// The most words on the stack, and the most locals, that code has here.
const MOST: u16 = 256;

/// The instructions that code is, one after another.
fn instructions(alloc: Global, code: &[u8]) -> Result<Vec<Instruction>, Failure>
    ensures { Gives (λ found. found.items) result (instructions_of code.now) }
{
    let mut cursor = Cursor::new(code);
    let mut instructions = Vec::new(alloc);
    while !cursor.is_at_end() {
        let found = instruction(&mut cursor)?;
        instructions.push(found)?;
    }
    Ok(instructions)
}

#[tactic(auto, unfolding(crate::specs::Reading::limits_at))]
fn limits(cursor: &mut Cursor<'_>) -> Result<Limits, Refused>
    ensures { Finds (λ limits. limits) result cursor.new (limits_at cursor.old) }
{
    let max_stack = cursor.u2()?;
    let max_locals = cursor.u2()?;
    Ok(Limits {
        max_stack,
        max_locals,
    })
}

fn is_small(limits: Limits, parameters: usize) -> bool
    ensures { result ≡ (nat_le limits.max_stack 256 && nat_le limits.max_locals 256 && nat_le parameters limits.max_locals) }
{
    limits.max_stack <= MOST
        && limits.max_locals <= MOST
        && parameters <= usize::from(limits.max_locals)
}

#[tactic(auto, unfolding(crate::specs::Reading::rest_is_plain))]
fn rest_is_plain<'a>(
    alloc: Global,
    pool: &[PoolEntry<'a>],
    cursor: &mut Cursor<'a>,
) -> Result<(), Failure>
    ensures { Gives (λ done. cursor.new) result (reading.rest_is_plain (map entry_view pool.now) cursor.old) }
{
    let handlers = cursor.u2()?;
    if handlers != 0 {
        return Err(Failure::NotThin);
    }
    let _attributes = attributes(alloc, pool, cursor)?;
    if !cursor.is_at_end() {
        return Err(Failure::NotThin);
    }
    Ok(())
}

/// The most words on the stack and the instructions that the content of a Code attribute states, for a
/// method with so many parameters (JVMS SE 8, section 4.7.3).
#[tactic(auto, unfolding(crate::specs::Reading::code_of))]
pub fn code<'a>(
    alloc: Global,
    pool: &[PoolEntry<'a>],
    parameters: usize,
    content: &'a [u8],
) -> Result<(usize, Vec<Instruction>), Failure>
    ensures { Gives (λ found. (found.0, found.1.items)) result (code_of (map entry_view pool.now) parameters content.now) }
{
    let mut cursor = Cursor::new(content);
    let limits = limits(&mut cursor)?;
    let size = cursor.u4()?;
    if size > LONGEST {
        return Err(Failure::NotThin);
    }
    let bytes = cursor.slice(size)?;
    rest_is_plain(alloc, pool, &mut cursor)?;
    let instructions = instructions(alloc, bytes)?;
    let max_stack = usize::from(limits.max_stack);
    if !is_small(limits, parameters)
        || !is_walked(parameters, max_stack, &instructions)
        || !ends_with_return(&instructions)
    {
        return Err(Failure::NotThin);
    }
    Ok((max_stack, instructions))
}
