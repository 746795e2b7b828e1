ghost use Rattle.std.specs.Prelude.{◌≡◌, ◌+◌, ◌*◌, ◌<◌, ◌^◌, IfErr, IfOk, length};
ghost use Rattle.ms_pool.specs.declared.code.ClassKind.TheVariants as kinds;
ghost use Rattle.ms_pool.specs.Places.{beginning};
ghost use Rattle.ms_code.specs.declared.trouble.Trouble.TheVariants.{At};
ghost use Rattle.ms_code.specs.Codes.{IsDecoded, decoded};
ghost use Rattle.ms_code.specs.Finds.{Gives};
ghost use Rattle.ms_code.specs.Rows.{HasTrouble, IsCoded, IsFaulty, code_of, code_with};

use crate::checking::{first_astray, first_misplaced, handlers_of};
use crate::coded::{CodeFault, Coded};
use crate::decoded::{Decoded, Step};
use crate::trouble::Trouble;
use crate::walking::steps;
use ms_pool::{ClassKind, CodeRow, Cursor, Pool, RawHandler};
use std::alloc::Global;

/// Something that has this place has a target that is no instruction.
fn astray(place: u64) -> Trouble
    ensures { result ≡ At kinds.Target place }
{
    Trouble::At {
        kind: ClassKind::Target,
        at: place,
    }
}

/// What the code says, with its exception table, and the places of both.
#[tactic(auto, unfolding(crate::specs::Codes::decoded))]
fn read(
    alloc: Global,
    pool: &Pool<'_>,
    code: &[u8],
    code_at: u64,
    table: &[RawHandler],
    table_at: u64,
) -> Result<Decoded, Trouble>
    requires short { length code.now < 2 ^ 16 }
    requires code { code_at + length code.now < 2 ^ 64 }
    requires table { table_at + 8 * length table.now < 2 ^ 64 }
    ensures { Gives (λ decoded. decoded) result ((decoded pool.now (code_with code.now code_at table.now table_at)).read (beginning code.now)) }
{
    let mut cursor = Cursor::new(code);
    let steps = steps(alloc, pool, code_at, &mut cursor)?;
    if let Some(place) = first_astray(&steps, code_at) {
        return Err(astray(place));
    }
    if let Some(place) = first_misplaced(&steps, code.len(), table_at, table) {
        return Err(astray(place));
    }
    let handlers = handlers_of(alloc, pool, table)?.ok_or(Trouble::Foreign)?;
    Ok(Decoded::new(steps, handlers))
}

/// The same, and what trouble a code has that says nothing.
fn decoded(
    alloc: Global,
    pool: &Pool<'_>,
    code: &[u8],
    code_at: u64,
    table: &[RawHandler],
    table_at: u64,
) -> Result<Decoded, Trouble>
    requires short { length code.now < 2 ^ 16 }
    requires code { code_at + length code.now < 2 ^ 64 }
    requires table { table_at + 8 * length table.now < 2 ^ 64 }
    ensures decoded { IfOk result (IsDecoded pool.now (code_with code.now code_at table.now table_at)) }
    ensures trouble { IfErr result (HasTrouble pool.now (code_with code.now code_at table.now table_at)) }
{
    read(alloc, pool, code, code_at, table, table_at)
}

/// Decodes the code of a method (JVMS SE 8, sections 4.7.3, 4.9.1 and 6.5), in a class file with this
/// constant pool. It takes memory for the instructions and the handlers: some 64 bytes for a byte of
/// code and 12 for an entry of the exception table, and as much again where a list was just lengthened.
///
/// What is known first counts: the instructions, one after another from offset 0 to the end of the code;
/// then their targets, in order of offset; then the entries of the exception table; then the classes
/// that they catch.
///
/// - `Foreign`: an opcode or an operand outside the subset, or a class that is caught and is no known
///   throwable.
/// - `Cut`: an instruction passes the end of the code. `Switch`: the low key of a tableswitch is above
///   its high one, the count of a lookupswitch is negative, or its keys don't ascend strictly. In one
///   instruction Cut comes first, but a switch whose bounds or count aren't in order is at fault as soon
///   as these fit. Each has the place of the instruction.
/// - `Target`: a target is no instruction, at the place of the branch or switch; or an entry of the
///   exception table begins or is handled where no instruction starts, ends neither where one does nor
///   at the end of the code, or has an empty range, at the place of the entry.
///
/// Not looked at are the number of locals, which an index may pass, and how many places the arguments of
/// a call take. A code of no bytes is decoded as no instructions.
///
/// The code has at most 65,535 bytes, and code and table end at places that are numbers of 64 bits: each
/// row that `read_class` gives is such, by its clause `codes`. That memory ran out has no cause in a
/// clause.
pub fn decode(alloc: Global, row: &CodeRow<'_>, pool: &Pool<'_>) -> Result<Coded, CodeFault>
    requires short { length row.now.code.now < 2 ^ 16 }
    requires code { row.now.code_at + length row.now.code.now < 2 ^ 64 }
    requires table { row.now.table_at + 8 * length row.now.table < 2 ^ 64 }
    // The code says what is found, or is foreign.
    ensures coded { IfOk result (IsCoded pool.now (code_of row.now)) }
    // A fault is the first of a code that has one, unless memory ran out.
    ensures fault { IfErr result (IsFaulty pool.now (code_of row.now)) }
{
    let table = row.table.rows();
    match decoded(alloc, pool, row.code, row.code_at, table, row.table_at) {
        Ok(decoded) => Ok(Coded::Decoded(decoded)),
        Err(Trouble::Foreign) => Ok(Coded::Foreign),
        Err(Trouble::At { kind, at }) => Err(CodeFault::At { kind, at }),
        Err(Trouble::NoMemory) => Err(CodeFault::NoMemory),
    }
}
