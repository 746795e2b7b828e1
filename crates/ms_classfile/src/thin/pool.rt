ghost use Rattle.std.specs.Prelude.{◌≡◌, map};
ghost use Rattle.std.specs.List.{list_all};
ghost use Rattle.std.specs.Option.{option_map};
ghost use Rattle.ms_classfile.specs.ThinFile as thin;
ghost use Rattle.ms_classfile.specs.Reading.{text_at, class_at, entry_at, pool_at, repeated};
ghost use Rattle.ms_classfile.specs.Found.{Finds, Leads, entry_view};

use super::failure::{Failure, Refused};
use super::parts::PoolEntry;
use ms_pool::Cursor;
use std::alloc::Global;

#[tactic(auto, unfolding(crate::specs::Reading::text_at))]
fn text<'a>(cursor: &mut Cursor<'a>) -> Result<PoolEntry<'a>, Refused>
    ensures { Finds entry_view result cursor.new (text_at cursor.old) }
{
    let size = cursor.u2()?;
    let text = cursor.slice(u32::from(size))?;
    Ok(PoolEntry::Utf8(text))
}

#[tactic(auto, unfolding(crate::specs::Reading::class_at))]
fn class<'a>(cursor: &mut Cursor<'a>) -> Result<PoolEntry<'a>, Refused>
    ensures { Finds entry_view result cursor.new (class_at cursor.old) }
{
    let name = cursor.u2()?;
    Ok(PoolEntry::Class(name))
}

#[tactic(auto, unfolding(crate::specs::Reading::entry_at))]
fn entry<'a>(cursor: &mut Cursor<'a>) -> Result<PoolEntry<'a>, Refused>
    ensures { Finds entry_view result cursor.new (entry_at cursor.old) }
{
    let tag = cursor.u1()?;
    if tag == 1 {
        text(cursor)
    } else if tag == 7 {
        class(cursor)
    } else {
        Err(Refused)
    }
}

fn entries<'a>(
    alloc: Global,
    count: u16,
    cursor: &mut Cursor<'a>,
) -> Result<Vec<PoolEntry<'a>>, Failure>
    ensures { Leads (λ entries. map entry_view entries.items) result cursor.new (repeated entry_at count cursor.old) }
{
    let mut entries = Vec::new(alloc);
    for _ in 0..count {
        let found = entry(cursor)?;
        entries.push(found)?;
    }
    Ok(entries)
}

/// The constant pool: texts, and classes whose names are texts of it (JVMS SE 8, section 4.4).
#[tactic(auto, unfolding(crate::specs::Reading::pool_at))]
pub fn pool<'a>(alloc: Global, cursor: &mut Cursor<'a>) -> Result<Vec<PoolEntry<'a>>, Failure>
    ensures { Leads (λ entries. map entry_view entries.items) result cursor.new (pool_at cursor.old) }
{
    let count = cursor.u2()?;
    if count == 0 {
        return Err(Failure::NotThin);
    }
    let entries = entries(alloc, count - 1, cursor)?;
    if !are_linked(&entries) {
        return Err(Failure::NotThin);
    }
    Ok(entries)
}

fn are_linked(pool: &[PoolEntry<'_>]) -> bool
    ensures { result ≡ list_all (thin.is_linked (map entry_view pool.now)) (map entry_view pool.now) }
{
    for entry in pool {
        if !is_linked(pool, *entry) {
            return false;
        }
    }
    true
}

fn is_linked(pool: &[PoolEntry<'_>], entry: PoolEntry<'_>) -> bool
    ensures { result ≡ thin.is_linked (map entry_view pool.now) (entry_view entry.entry) }
{
    match entry {
        PoolEntry::Utf8(_) => true,
        PoolEntry::Class(name) => utf8(pool, name).is_some(),
    }
}

fn entry_of<'a>(pool: &[PoolEntry<'a>], number: u16) -> Option<PoolEntry<'a>>
    ensures { option_map entry_view result ≡ thin.entry_of (map entry_view pool.now) number }
{
    if number == 0 {
        return None;
    }
    pool.get(usize::from(number) - 1).copied()
}

/// The text of this number, lent, where a text has it.
pub fn utf8<'a>(pool: &[PoolEntry<'a>], number: u16) -> Option<&'a [u8]>
    ensures { option_map (λ text. text.now) result ≡ thin.utf8 (map entry_view pool.now) number }
{
    match entry_of(pool, number)? {
        PoolEntry::Utf8(text) => Some(text),
        PoolEntry::Class(_) => None,
    }
}

/// The name of the class of this number, lent, where a class has it.
pub fn class_name<'a>(pool: &[PoolEntry<'a>], number: u16) -> Option<&'a [u8]>
    ensures { option_map (λ text. text.now) result ≡ thin.class_name (map entry_view pool.now) number }
{
    match entry_of(pool, number)? {
        PoolEntry::Utf8(_) => None,
        PoolEntry::Class(name) => utf8(pool, name),
    }
}
