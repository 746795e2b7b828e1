ghost use Rattle.std.specs.Prelude.{◌≡◌, ◌+◌, ◌<◌, ◌^◌, ◌++◌, length, IfOk, IfErr, OnOk};
ghost use Rattle.ms_code.specs.declared.trouble.Trouble.TheVariants.{NoMemory};
ghost use Rattle.ms_code.specs.Codes.{step, steps, steps_of};
ghost use Rattle.ms_code.specs.Finds.{Leads};

use crate::decoded::Step;
use crate::operands::{Spot, instruction};
use crate::trouble::Trouble;
use ms_pool::{Cursor, Pool};
use std::alloc::Global;

/// Adds an instruction that has this offset, and None for each further byte of it.
fn add(steps: &mut Vec<Option<Step>>, offset: u16, step: Step) -> Result<(), Trouble>
    ensures added { OnOk result (steps.new.items ≡ steps.old.items ++ steps_of offset step) }
    ensures err { IfErr result (λ trouble. trouble ≡ NoMemory) }
{
    let further = step.next.saturating_sub(offset).saturating_sub(1);
    steps.push(Some(step))?;
    for _ in 0..further {
        steps.push(None)?;
    }
    Ok(())
}

/// Adds the instruction at the cursor; the code has this place.
#[tactic(auto, unfolding(crate::specs::Codes::step))]
fn step(
    alloc: Global,
    pool: &Pool<'_>,
    code_at: u64,
    steps: &mut Vec<Option<Step>>,
    cursor: &mut Cursor<'_>,
) -> Result<(), Trouble>
    requires short { cursor.old.at + length cursor.old.left < 2 ^ 16 }
    requires fits { code_at + cursor.old.at + length cursor.old.left < 2 ^ 64 }
    ensures { Leads (λ nothing. steps.new.items) result cursor.new ((step pool.now code_at steps.old.items).read cursor.old) }
{
    let at = cursor.at();
    let spot = Spot {
        place: code_at + at,
        offset: at as u16,
    };
    let instr = instruction(alloc, pool, spot, cursor)?;
    let next = cursor.at() as u16;
    add(steps, spot.offset, Step { instr, next })
}

/// All instructions up to the end of the code, which has this place.
pub fn steps(
    alloc: Global,
    pool: &Pool<'_>,
    code_at: u64,
    cursor: &mut Cursor<'_>,
) -> Result<Vec<Option<Step>>, Trouble>
    requires short { cursor.old.at + length cursor.old.left < 2 ^ 16 }
    requires fits { code_at + cursor.old.at + length cursor.old.left < 2 ^ 64 }
    ensures { Leads (λ steps. steps.items) result cursor.new ((steps pool.now (length cursor.old.left) code_at).read cursor.old) }
{
    let mut steps = Vec::new(alloc);
    while !cursor.is_at_end() {
        step(alloc, pool, code_at, &mut steps, cursor)?;
    }
    Ok(steps)
}
