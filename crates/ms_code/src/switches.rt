ghost use Rattle.std.specs.Prelude.{◌≡◌, ◌+◌, ◌+ℤ◌, ◌-ℤ◌, ◌≤ℤ◌, [], FitsSigned, length, pos, unsigned_abs};
ghost use Rattle.std.specs.Int.{w32};
ghost use Rattle.ms_pool.specs.declared.code.ClassKind.TheVariants as kinds;
ghost use Rattle.ms_pool.specs.Formats.{added, repeated};
ghost use Rattle.ms_code.specs.declared.trouble.Trouble.TheVariants.{At};
ghost use Rattle.ms_code.specs.Finds.{Finds, Leads};
ghost use Rattle.ms_code.specs.Instructions.{case_of, lookup_case, lookup_switch, table_case, table_switch};
ghost use Rattle.ms_code.specs.Keys.{ascend_above, keys_ascend};

use crate::instruction::{Case, Operand, Switch};
use crate::numbers::{gap, s4, target_from};
use crate::operands::Spot;
use crate::trouble::Trouble;
use ms_pool::{ClassKind, Cursor};
use std::alloc::Global;

/// The bounds or the keys of a switch aren't in order.
fn disorder(place: u64) -> Trouble
    ensures { result ≡ At kinds.Switch place }
{
    Trouble::At {
        kind: ClassKind::Switch,
        at: place,
    }
}

/// The case of this key, whose target comes next.
#[tactic(auto, unfolding(crate::specs::Instructions::case_of))]
fn case_of(spot: Spot, key: i32, cursor: &mut Cursor<'_>) -> Result<Case, Trouble>
    ensures { Finds (λ case. case) result cursor.new ((case_of spot.place spot.offset key).read cursor.old) }
{
    let by = s4(spot.place, cursor)?;
    Ok(Case {
        key,
        target: target_from(spot.offset, by),
    })
}

/// The key so many behind the low one.
fn key_at(low: i32, i: u64) -> i32
    requires { FitsSigned w32 (low +ℤ pos i) }
    ensures { result ≡ low +ℤ pos i }
{
    (i64::from(low) + i as i64) as i32
}

/// The cases of a table, from its low to its high key.
#[tactic(auto, using(ms_pool::specs::Loops::ends, ms_pool::specs::Loops::goes_on, ms_pool::specs::Loops::is_done))]
fn table_cases(
    alloc: Global,
    spot: Spot,
    low: i32,
    high: i32,
    cursor: &mut Cursor<'_>,
) -> Result<Vec<Case>, Trouble>
    requires { low ≤ℤ high }
    ensures { Leads (λ cases. cases.items) result cursor.new ((repeated (unsigned_abs (high -ℤ low) + 1) (added (table_case spot.place spot.offset low)) []).read cursor.old) }
{
    let mut cases = Vec::new(alloc);
    let count = u64::from(high.abs_diff(low)) + 1;
    for i in 0..count {
        let case = case_of(spot, key_at(low, i), cursor)?;
        cases.push(case)?;
    }
    Ok(cases)
}

/// A tableswitch, behind its opcode.
#[tactic(auto, unfolding(crate::specs::Instructions::table_switch))]
pub fn table_switch(alloc: Global, spot: Spot, cursor: &mut Cursor<'_>) -> Result<Operand, Trouble>
    ensures { Leads (λ operand. operand) result cursor.new ((table_switch spot.place spot.offset).read cursor.old) }
{
    let _gap = gap(spot.place, spot.offset, cursor)?;
    let otherwise = s4(spot.place, cursor)?;
    let low = s4(spot.place, cursor)?;
    let high = s4(spot.place, cursor)?;
    if high < low {
        return Err(disorder(spot.place));
    }
    let cases = table_cases(alloc, spot, low, high, cursor)?;
    Ok(Operand::Cases(Switch::new(cases, target_from(spot.offset, otherwise))))
}

/// The next case of a lookup.
#[tactic(auto, unfolding(crate::specs::Instructions::lookup_case))]
fn lookup_case(spot: Spot, cursor: &mut Cursor<'_>) -> Result<Case, Trouble>
    ensures { Finds (λ case. case) result cursor.new ((lookup_case spot.place spot.offset).read cursor.old) }
{
    let key = s4(spot.place, cursor)?;
    case_of(spot, key, cursor)
}

/// The cases of a lookup, as many as the count says.
#[tactic(auto, using(ms_pool::specs::Loops::ends, ms_pool::specs::Loops::goes_on, ms_pool::specs::Loops::is_done))]
fn lookup_cases(
    alloc: Global,
    spot: Spot,
    count: u32,
    cursor: &mut Cursor<'_>,
) -> Result<Vec<Case>, Trouble>
    ensures { Leads (λ cases. cases.items) result cursor.new ((repeated count (added (λ before. lookup_case spot.place spot.offset)) []).read cursor.old) }
{
    let mut cases = Vec::new(alloc);
    for _ in 0..count {
        let case = lookup_case(spot, cursor)?;
        cases.push(case)?;
    }
    Ok(cases)
}

/// Whether the keys are above this one and ascend strictly.
fn ascend_above(first: i32, cases: &[Case]) -> bool
    ensures { result ≡ ascend_above first cases.now }
{
    let mut key = first;
    for case in cases {
        if case.key <= key {
            return false;
        }
        key = case.key;
    }
    true
}

/// Whether the keys ascend strictly.
fn keys_ascend(cases: &[Case]) -> bool
    ensures { result ≡ keys_ascend cases.now }
{
    match cases {
        [first, rest @ ..] => ascend_above(first.key, rest),
        [] => true,
    }
}

/// A lookupswitch, behind its opcode.
#[tactic(auto, unfolding(crate::specs::Instructions::lookup_switch))]
pub fn lookup_switch(alloc: Global, spot: Spot, cursor: &mut Cursor<'_>) -> Result<Operand, Trouble>
    ensures { Leads (λ operand. operand) result cursor.new ((lookup_switch spot.place spot.offset).read cursor.old) }
{
    let _gap = gap(spot.place, spot.offset, cursor)?;
    let otherwise = s4(spot.place, cursor)?;
    let count = s4(spot.place, cursor)?;
    if count < 0 {
        return Err(disorder(spot.place));
    }
    let cases = lookup_cases(alloc, spot, count.unsigned_abs(), cursor)?;
    if !keys_ascend(&cases) {
        return Err(disorder(spot.place));
    }
    Ok(Operand::Cases(Switch::new(cases, target_from(spot.offset, otherwise))))
}
