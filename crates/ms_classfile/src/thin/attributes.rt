ghost use Rattle.std.specs.Prelude.{◌≡◌, map, filter, codes};
ghost use Rattle.std.specs.Option.{option_map};
ghost use Rattle.ms_classfile.specs.ThinFile.{is_named};
ghost use Rattle.ms_classfile.specs.Reading.{attribute_at, attributes_at, repeated, only};
ghost use Rattle.ms_classfile.specs.Found.{Finds, Leads, entry_view, attribute_view};

use super::failure::{Failure, Refused};
use super::parts::{PoolEntry, RawAttribute};
use super::pool::utf8;
use ms_pool::Cursor;
use std::alloc::Global;

#[tactic(auto, unfolding(crate::specs::Reading::attribute_at))]
fn attribute<'a>(
    pool: &[PoolEntry<'a>],
    cursor: &mut Cursor<'a>,
) -> Result<RawAttribute<'a>, Refused>
    ensures { Finds attribute_view result cursor.new (attribute_at (map entry_view pool.now) cursor.old) }
{
    let name = cursor.u2()?;
    let size = cursor.u4()?;
    let content = cursor.slice(size)?;
    if utf8(pool, name).is_none() {
        return Err(Refused);
    }
    Ok(RawAttribute { name, content })
}

fn counted<'a>(
    alloc: Global,
    pool: &[PoolEntry<'a>],
    count: u16,
    cursor: &mut Cursor<'a>,
) -> Result<Vec<RawAttribute<'a>>, Failure>
    ensures { Leads (λ found. map attribute_view found.items) result cursor.new (repeated (attribute_at (map entry_view pool.now)) count cursor.old) }
{
    let mut attributes = Vec::new(alloc);
    for _ in 0..count {
        let found = attribute(pool, cursor)?;
        attributes.push(found)?;
    }
    Ok(attributes)
}

/// The attributes, how many they are first, each passed over by its length (JVMS SE 8, section 4.7).
#[tactic(auto, unfolding(crate::specs::Reading::attributes_at))]
pub fn attributes<'a>(
    alloc: Global,
    pool: &[PoolEntry<'a>],
    cursor: &mut Cursor<'a>,
) -> Result<Vec<RawAttribute<'a>>, Failure>
    ensures { Leads (λ found. map attribute_view found.items) result cursor.new (attributes_at (map entry_view pool.now) cursor.old) }
{
    let count = cursor.u2()?;
    counted(alloc, pool, count, cursor)
}

fn is_code(pool: &[PoolEntry<'_>], attribute: RawAttribute<'_>) -> bool
    ensures { result ≡ is_named (map entry_view pool.now) (codes "Code") (attribute_view attribute.entry) }
{
    match utf8(pool, attribute.name) {
        Some(text) => text == b"Code".as_slice(),
        None => false,
    }
}

/// The one attribute that is named Code, where there is one and no other.
pub fn code_attribute<'a>(
    pool: &[PoolEntry<'a>],
    attributes: &[RawAttribute<'a>],
) -> Option<RawAttribute<'a>>
    ensures { option_map attribute_view result ≡ only (filter (is_named (map entry_view pool.now) (codes "Code")) (map attribute_view attributes.now)) }
{
    let mut code = None;
    for attribute in attributes {
        if is_code(pool, *attribute) {
            if code.is_some() {
                return None;
            }
            code = Some(*attribute);
        }
    }
    code
}
