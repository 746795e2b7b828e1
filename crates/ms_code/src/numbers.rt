ghost use Rattle.std.specs.Prelude.{◌≡◌};
ghost use Rattle.ms_code.specs.Finds.{Finds};
ghost use Rattle.ms_code.specs.Instructions.{gap, s1, s2, s4, target_from, u1, u2};

use crate::trouble::{Trouble, cut};
use ms_pool::Cursor;

/// The next byte of an instruction that has this place in the file.
pub fn u1(place: u64, cursor: &mut Cursor<'_>) -> Result<u8, Trouble>
    ensures { Finds (λ n. n) result cursor.new ((u1 place).read cursor.old) }
{
    match cursor.u1() {
        Ok(n) => Ok(n),
        Err(_) => Err(cut(place)),
    }
}

/// The number in its next two bytes.
pub fn u2(place: u64, cursor: &mut Cursor<'_>) -> Result<u16, Trouble>
    ensures { Finds (λ n. n) result cursor.new ((u2 place).read cursor.old) }
{
    match cursor.u2() {
        Ok(n) => Ok(n),
        Err(_) => Err(cut(place)),
    }
}

/// Its next byte, signed.
#[tactic(auto, unfolding(crate::specs::Instructions::s1))]
pub fn s1(place: u64, cursor: &mut Cursor<'_>) -> Result<i32, Trouble>
    ensures { Finds (λ n. n) result cursor.new ((s1 place).read cursor.old) }
{
    let byte = u1(place, cursor)?;
    Ok(i32::from(byte.cast_signed()))
}

/// The number in its next two bytes, signed.
#[tactic(auto, unfolding(crate::specs::Instructions::s2))]
pub fn s2(place: u64, cursor: &mut Cursor<'_>) -> Result<i32, Trouble>
    ensures { Finds (λ n. n) result cursor.new ((s2 place).read cursor.old) }
{
    let short = u2(place, cursor)?;
    Ok(i32::from(short.cast_signed()))
}

/// The number in its next four bytes, signed.
#[tactic(auto, unfolding(crate::specs::Instructions::s4))]
pub fn s4(place: u64, cursor: &mut Cursor<'_>) -> Result<i32, Trouble>
    ensures { Finds (λ n. n) result cursor.new ((s4 place).read cursor.old) }
{
    match cursor.u4() {
        Ok(n) => Ok(n.cast_signed()),
        Err(_) => Err(cut(place)),
    }
}

/// The bytes up to the next multiple of four, behind an opcode that has this offset.
pub fn gap<'a>(place: u64, offset: u16, cursor: &mut Cursor<'a>) -> Result<&'a [u8], Trouble>
    ensures { Finds (λ bytes. bytes.now) result cursor.new ((gap place offset).read cursor.old) }
{
    match cursor.slice(u32::from(3 - offset % 4)) {
        Ok(bytes) => Ok(bytes),
        Err(_) => Err(cut(place)),
    }
}

/// The offset so far from this one; 65,535, where no instruction starts, for one that no code has.
pub fn target_from(offset: u16, by: i32) -> u16
    ensures { result ≡ target_from offset by }
{
    let target = i64::from(offset) + i64::from(by);
    match u64::try_from(target) {
        Ok(target) => target.min(65_535) as u16,
        Err(_) => 65_535,
    }
}
