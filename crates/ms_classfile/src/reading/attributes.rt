ghost use Rattle.ms_classfile.specs.ClassFile.{attribute, counted, passed};
ghost use Rattle.ms_classfile.specs.ClassFinds.{Finds, short_of};
ghost use Rattle.ms_pool.specs.Formats.{repeated};

use super::names::text;
use super::numbers::{Inside, run, u2, u4};
use crate::ClassFault;
use ms_pool::{Cursor, Pool};

/// Passes over what an attribute holds, by its length.
#[tactic(auto, unfolding(crate::specs::ClassFile::passed))]
pub fn passed(cursor: &mut Cursor<'_>, inside: Inside) -> Result<(), ClassFault>
    ensures { Finds (λ nothing. nothing) result cursor.new ((passed (short_of inside)).read cursor.old) }
{
    let size = u4(cursor, inside)?;
    let _content = run(size, cursor, inside)?;
    Ok(())
}

/// Passes over an attribute that doesn't count.
#[tactic(auto, unfolding(crate::specs::ClassFile::attribute))]
fn attribute(pool: &Pool<'_>, cursor: &mut Cursor<'_>, inside: Inside) -> Result<(), ClassFault>
    ensures { Finds (λ nothing. nothing) result cursor.new ((attribute (short_of inside) pool.now tt).read cursor.old) }
{
    let _name = text(pool, cursor, inside)?;
    passed(cursor, inside)
}

#[tactic(auto, using(ms_pool::specs::Loops::ends, ms_pool::specs::Loops::goes_on, ms_pool::specs::Loops::is_done))]
fn several(
    pool: &Pool<'_>,
    count: u16,
    cursor: &mut Cursor<'_>,
    inside: Inside,
) -> Result<(), ClassFault>
    ensures { Finds (λ nothing. nothing) result cursor.new ((repeated count (attribute (short_of inside) pool.now) tt).read cursor.old) }
{
    for _ in 0..count {
        attribute(pool, cursor, inside)?;
    }
    Ok(())
}

/// Passes over attributes that don't count; how many they are comes first.
pub fn attributes(
    pool: &Pool<'_>,
    cursor: &mut Cursor<'_>,
    inside: Inside,
) -> Result<(), ClassFault>
    ensures { Finds (λ nothing. nothing) result cursor.new ((counted (short_of inside) (attribute (short_of inside) pool.now) tt).read cursor.old) }
{
    let count = u2(cursor, inside)?;
    several(pool, count, cursor, inside)
}
