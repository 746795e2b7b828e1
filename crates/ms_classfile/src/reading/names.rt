ghost use Rattle.std.specs.Prelude.{◌≡◌, IfOk, Some};
ghost use Rattle.ms_classfile.specs.ClassFile.{head, indexed};
ghost use Rattle.ms_classfile.specs.declared.fault.ClassFault.TheVariants.{At};
ghost use Rattle.ms_pool.specs.declared.code.ClassKind.TheVariants as kinds;
ghost use Rattle.ms_classfile.specs.ClassFinds.{Finds, short_of};
ghost use Rattle.ms_classfile.specs.Seen.{head_view};
ghost use Rattle.ms_pool.specs.ByNumber.{class_name, integer, utf8};

use super::numbers::{Inside, u2};
use crate::ClassFault;
use ms_pool::{ClassKind, Cursor, Pool};

/// A number of the pool and the text that it leads to, lent.
#[derive(Clone, Copy, Debug)]
pub struct Named<'a> {
    pub index: u16,
    pub text: &'a [u8],
}

fn no_entry(at: u64) -> ClassFault
    ensures { result ≡ At kinds.Index at }
{
    ClassFault::At {
        kind: ClassKind::Index,
        at,
    }
}

/// The next number, which is that of a text of the pool.
#[tactic(auto, unfolding(crate::specs::ClassFile::indexed))]
pub fn text<'a>(
    pool: &Pool<'a>,
    cursor: &mut Cursor<'_>,
    inside: Inside,
) -> Result<Named<'a>, ClassFault>
    ensures read { Finds (λ named. (named.index, named.text.now)) result cursor.new ((indexed (short_of inside) (utf8 pool.now)).read cursor.old) }
    ensures text { IfOk result (λ named. utf8 pool.now named.index ≡ Some named.text.now) }
{
    let at = cursor.at();
    let index = u2(cursor, inside)?;
    match pool.utf8(index) {
        Some(text) => Ok(Named { index, text }),
        None => Err(no_entry(at)),
    }
}

/// The next number, which is that of a class of the pool.
#[tactic(auto, unfolding(crate::specs::ClassFile::indexed))]
pub fn class_name<'a>(
    pool: &Pool<'a>,
    cursor: &mut Cursor<'_>,
    inside: Inside,
) -> Result<Named<'a>, ClassFault>
    ensures { Finds (λ named. (named.index, named.text.now)) result cursor.new ((indexed (short_of inside) (class_name pool.now)).read cursor.old) }
{
    let at = cursor.at();
    let index = u2(cursor, inside)?;
    match pool.class_name(index) {
        Some(text) => Ok(Named { index, text }),
        None => Err(no_entry(at)),
    }
}

/// The next number, which is that of an int of the pool, with the int.
#[tactic(auto, unfolding(crate::specs::ClassFile::indexed))]
pub fn integer(
    pool: &Pool<'_>,
    cursor: &mut Cursor<'_>,
    inside: Inside,
) -> Result<(u16, i32), ClassFault>
    ensures { Finds (λ found. found) result cursor.new ((indexed (short_of inside) (integer pool.now)).read cursor.old) }
{
    let at = cursor.at();
    let index = u2(cursor, inside)?;
    match pool.integer(index) {
        Some(int) => Ok((index, int)),
        None => Err(no_entry(at)),
    }
}

/// With what a field or a method begins.
#[derive(Clone, Copy, Debug)]
pub struct Head<'a> {
    pub at: u64,
    pub access: u16,
    pub name: Named<'a>,
    pub desc: Named<'a>,
}

/// The beginning of the next field or method.
#[tactic(auto, unfolding(crate::specs::ClassFile::head))]
pub fn member_head<'a>(pool: &Pool<'a>, cursor: &mut Cursor<'_>) -> Result<Head<'a>, ClassFault>
    ensures read { Finds head_view result cursor.new ((head pool.now).read cursor.old) }
    ensures name { IfOk result (λ head. utf8 pool.now head.name.index ≡ Some head.name.text.now) }
    ensures desc { IfOk result (λ head. utf8 pool.now head.desc.index ≡ Some head.desc.text.now) }
{
    let at = cursor.at();
    let access = u2(cursor, Inside::File)?;
    let name = text(pool, cursor, Inside::File)?;
    let desc = text(pool, cursor, Inside::File)?;
    Ok(Head {
        at,
        access,
        name,
        desc,
    })
}

/// The fault that there is an earlier one with the same name and descriptor.
pub fn duplicate(at: u64) -> ClassFault
    ensures { result ≡ At kinds.Duplicate at }
{
    ClassFault::At {
        kind: ClassKind::Duplicate,
        at,
    }
}
