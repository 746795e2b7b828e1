ghost use Rattle.std.specs.Prelude.{◌≡◌, []};
ghost use Rattle.ms_classfile.specs.ClassFile.{code, code_attribute, handler, short};
ghost use Rattle.ms_classfile.specs.ClassFinds.{Finds, Leads, short_of};
ghost use Rattle.ms_classfile.specs.ClassViews.{code_view};
ghost use Rattle.ms_pool.specs.Formats.{added, or_short, repeated};
ghost use Rattle.ms_pool.specs.Places.{part_at};
ghost use Rattle.ms_pool.specs.Pools.{has_tag};

use super::attributes::attributes;
use super::numbers::{Inside, run, u2, u4};
use crate::ClassFault;
use ms_pool::{ClassKind, CodeRow, Cursor, Handlers, Pool, RawHandler};
use std::alloc::Global;

/// The next entry of an exception table (JVMS SE 8, section 4.7.3).
#[tactic(auto, unfolding(crate::specs::ClassFile::handler))]
fn handler(
    pool: &Pool<'_>,
    cursor: &mut Cursor<'_>,
    inside: Inside,
) -> Result<RawHandler, ClassFault>
    ensures { Finds (λ row. row) result cursor.new ((handler (short_of inside) pool.now).read cursor.old) }
{
    let start = u2(cursor, inside)?;
    let end = u2(cursor, inside)?;
    let handler = u2(cursor, inside)?;
    let at = cursor.at();
    let catch_type = u2(cursor, inside)?;
    if catch_type != 0 && !is_class(pool, catch_type) {
        return Err(ClassFault::At {
            kind: ClassKind::Index,
            at,
        });
    }
    Ok(RawHandler {
        start,
        end,
        handler,
        catch_type,
    })
}

/// Whether the pool has a class of this number.
fn is_class(pool: &Pool<'_>, number: u16) -> bool
    ensures { result ≡ has_tag pool.now number 7 }
{
    match pool.tag(number) {
        Some(tag) => tag == 7,
        None => false,
    }
}

#[tactic(auto, using(ms_pool::specs::Loops::ends, ms_pool::specs::Loops::goes_on, ms_pool::specs::Loops::is_done))]
fn handlers(
    alloc: Global,
    pool: &Pool<'_>,
    count: u16,
    cursor: &mut Cursor<'_>,
    inside: Inside,
) -> Result<Handlers, ClassFault>
    ensures { Leads (λ rows. rows) result cursor.new ((repeated count (added (λ before. handler (short_of inside) pool.now)) []).read cursor.old) }
{
    let mut rows = Vec::new(alloc);
    for _ in 0..count {
        let row = handler(pool, cursor, inside)?;
        rows.push(row)?;
    }
    Ok(Handlers::new(rows))
}

/// What a Code attribute holds whose name has this place.
#[tactic(auto, unfolding(crate::specs::ClassFile::code))]
fn content<'a>(
    alloc: Global,
    pool: &Pool<'_>,
    attribute_at: u64,
    cursor: &mut Cursor<'a>,
) -> Result<CodeRow<'a>, ClassFault>
    ensures { Leads code_view result cursor.new ((code pool.now attribute_at).read cursor.old) }
{
    let inside = Inside::Code(attribute_at);
    let max_stack = u2(cursor, inside)?;
    let max_locals = u2(cursor, inside)?;
    let size = u4(cursor, inside)?;
    if size == 0 || size > 65_535 {
        return Err(ClassFault::At {
            kind: ClassKind::Shape,
            at: attribute_at,
        });
    }
    let code_at = cursor.at();
    let code = run(size, cursor, inside)?;
    let count = u2(cursor, inside)?;
    let table_at = cursor.at();
    let table = handlers(alloc, pool, count, cursor, inside)?;
    attributes(pool, cursor, inside)?;
    Ok(CodeRow {
        max_stack,
        max_locals,
        code,
        code_at,
        table,
        table_at,
    })
}

/// The Code attribute whose name has this place, read from behind it.
#[tactic(auto, unfolding(crate::specs::ClassFile::code_attribute))]
pub fn code_attribute<'a>(
    alloc: Global,
    pool: &Pool<'_>,
    at: u64,
    cursor: &mut Cursor<'a>,
) -> Result<CodeRow<'a>, ClassFault>
    ensures { Leads code_view result cursor.new ((code_attribute pool.now at).read cursor.old) }
{
    let size = u4(cursor, Inside::File)?;
    let mut inner = part(size, cursor)?;
    let code = content(alloc, pool, at, &mut inner)?;
    if !inner.is_at_end() {
        return Err(ClassFault::At {
            kind: ClassKind::Shape,
            at,
        });
    }
    Ok(code)
}

/// The next bytes, as many as the size says, as a cursor of their own.
fn part<'a>(size: u32, cursor: &mut Cursor<'a>) -> Result<Cursor<'a>, ClassFault>
    ensures { Finds (λ part. part) result cursor.new (or_short short (part_at size cursor.old)) }
{
    match cursor.part(size) {
        Ok(part) => Ok(part),
        Err(none) => Err(Inside::File.short(none.at)),
    }
}
