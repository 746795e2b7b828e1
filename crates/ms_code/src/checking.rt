ghost use Rattle.std.specs.Prelude.{◌≡◌, ◌+◌, ◌*◌, ◌<◌, ◌^◌, IfOk, length, not, option_map};
ghost use Rattle.std.specs.List.{list_all};
ghost use Rattle.ms_code.specs.Codes.{caught, first_astray, first_misplaced, handler_of, handlers_of, is_astray, is_entry, is_start, targets_of};

use crate::decoded::{Handler, Step};
use crate::instruction::{Case, Operand};
use ms_pool::{Pool, RawHandler};
use ms_words::{Thrown, thrown_named};
use std::alloc::{AllocError, Global};

/// Whether an instruction starts at this offset.
fn is_start(steps: &[Option<Step>], offset: u16) -> bool
    ensures { result ≡ is_start steps.now offset }
{
    match steps.get(usize::from(offset)) {
        Some(Some(_)) => true,
        _ => false,
    }
}

/// Whether the target of each case is an instruction.
fn are_starts(steps: &[Option<Step>], cases: &[Case]) -> bool
    ensures { result ≡ list_all (λ case. is_start steps.now case.target) cases.now }
{
    cases.iter().all(|case| is_start(steps, case.target))
}

/// Whether a target is no instruction.
#[tactic(auto, using(crate::proofs::Targets::switch_targets))]
fn has_target_astray(steps: &[Option<Step>], operand: &Operand) -> bool
    ensures { result ≡ not (list_all (is_start steps.now) (targets_of operand.now)) }
{
    match operand {
        Operand::Target(target) => !is_start(steps, *target),
        Operand::Cases(switch) => {
            !(are_starts(steps, switch.cases()) && is_start(steps, switch.otherwise()))
        }
        _ => false,
    }
}

/// Whether an instruction that starts here has a target that is none.
fn is_astray(steps: &[Option<Step>], step: &Option<Step>) -> bool
    ensures { result ≡ is_astray steps.now step.now }
{
    match step {
        Some(step) => has_target_astray(steps, &step.instr.operand),
        None => false,
    }
}

/// The place of the first instruction with a target that is none; the code has this place.
pub fn first_astray(steps: &[Option<Step>], code_at: u64) -> Option<u64>
    requires { code_at + length steps.now < 2 ^ 64 }
    ensures { result ≡ first_astray steps.now code_at steps.now }
{
    for (offset, step) in steps.iter().enumerate() {
        if is_astray(steps, step) {
            return Some(code_at + offset as u64);
        }
    }
    None
}

/// Whether an entry of the exception table has its range and its handler where the code has instructions.
fn is_entry(steps: &[Option<Step>], size: usize, row: RawHandler) -> bool
    ensures { result ≡ is_entry steps.now size row }
{
    is_start(steps, row.start)
        && is_start(steps, row.handler)
        && (is_start(steps, row.end) || usize::from(row.end) == size)
        && row.start < row.end
}

/// The place of the first entry that hasn't; the table has this place, the code has so many bytes.
pub fn first_misplaced(
    steps: &[Option<Step>],
    size: usize,
    table_at: u64,
    rows: &[RawHandler],
) -> Option<u64>
    requires { table_at + 8 * length rows.now < 2 ^ 64 }
    ensures { result ≡ first_misplaced steps.now size table_at rows.now }
{
    for (i, row) in rows.iter().enumerate() {
        if !is_entry(steps, size, *row) {
            return Some(table_at + 8 * i as u64);
        }
    }
    None
}

/// The throwable that an entry catches, where it is a known one.
fn caught(pool: &Pool<'_>, catch_type: u16) -> Option<Thrown>
    ensures { result ≡ caught pool.now catch_type }
{
    if catch_type == 0 {
        return Some(Thrown::Throwable);
    }
    let name = pool.class_name(catch_type)?;
    thrown_named(name)
}

/// The handler of an entry, where it catches a known throwable.
fn handler_of(pool: &Pool<'_>, row: RawHandler) -> Option<Handler>
    ensures { result ≡ handler_of pool.now row }
{
    let catches = caught(pool, row.catch_type)?;
    Some(Handler {
        start: row.start,
        end: u32::from(row.end),
        target: row.handler,
        catches,
    })
}

/// The handlers of all entries, where each catches a known throwable.
pub fn handlers_of(
    alloc: Global,
    pool: &Pool<'_>,
    rows: &[RawHandler],
) -> Result<Option<Vec<Handler>>, AllocError>
    ensures { IfOk result (λ found. option_map (λ handlers. handlers.items) found ≡ handlers_of pool.now rows.now) }
{
    let mut handlers = Vec::new(alloc);
    for row in rows {
        let Some(handler) = handler_of(pool, *row) else {
            return Ok(None);
        };
        handlers.push(handler)?;
    }
    Ok(Some(handlers))
}
