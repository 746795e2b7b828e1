ghost use Rattle.std.specs.Prelude.{◌≡◌, ◌&&◌, [], None, OnOk, map};
ghost use Rattle.ms_classfile.specs.ClassFile.{constant_value, counted, field, field_attribute, is_constant_value, field_key, is_int_kind, is_static, short};
ghost use Rattle.ms_classfile.specs.ClassFinds.{Finds, Leads};
ghost use Rattle.ms_classfile.specs.ClassViews.{field_view};
ghost use Rattle.ms_classfile.specs.Seen.{AreKeysOf, AreNumbers, field_of, head_view};
ghost use Rattle.ms_pool.specs.Formats.{added, repeated};

use super::attributes::passed;
use super::names::{Head, duplicate, integer, member_head, text};
use super::numbers::{Inside, u2, u4};
use super::seen::{Keys, Texts};
use crate::{ClassFault, FieldRow, Fields};
use ms_pool::{ClassKind, Cursor, Pool};
use std::alloc::Global;

/// Whether the flags have static set (tables 4.5-A and 4.6-A).
pub fn is_static(access: u16) -> bool
    ensures { result ≡ is_static access }
{
    access & 0x0008 == 0x0008
}

/// Whether the descriptor is that of an int or of a narrower kind (table 4.3-A).
fn is_int_kind(desc: &[u8]) -> bool
    ensures { result ≡ is_int_kind desc.now }
{
    desc == b"Z".as_slice()
        || desc == b"B".as_slice()
        || desc == b"C".as_slice()
        || desc == b"S".as_slice()
        || desc == b"I".as_slice()
}

/// Whether a ConstantValue of the field counts: it is static, and of such a kind.
fn takes_int(head: Head<'_>) -> bool
    ensures { result ≡ (is_static head.entry.access && is_int_kind head.entry.desc.text.now) }
{
    is_static(head.access) && is_int_kind(head.desc.text)
}

fn is_constant_value(name: &[u8]) -> bool
    ensures { result ≡ is_constant_value name.now }
{
    name == b"ConstantValue".as_slice()
}

/// The int of a ConstantValue whose name has this place.
#[tactic(auto, unfolding(crate::specs::ClassFile::constant_value))]
fn constant_value(pool: &Pool<'_>, at: u64, cursor: &mut Cursor<'_>) -> Result<i32, ClassFault>
    ensures { Finds (λ int. int) result cursor.new ((constant_value pool.now at).read cursor.old) }
{
    let size = u4(cursor, Inside::File)?;
    if size != 2 {
        return Err(ClassFault::At {
            kind: ClassKind::Shape,
            at,
        });
    }
    let (_, int) = integer(pool, cursor, Inside::File)?;
    Ok(int)
}

/// Reads an attribute of a field that has this int at first, as far as is known. What it has then.
#[tactic(auto, unfolding(crate::specs::ClassFile::field_attribute))]
fn attribute(
    pool: &Pool<'_>,
    gives: bool,
    known: Option<i32>,
    cursor: &mut Cursor<'_>,
) -> Result<Option<i32>, ClassFault>
    ensures { Finds (λ known. known) result cursor.new ((field_attribute pool.now gives known).read cursor.old) }
{
    let at = cursor.at();
    let name = text(pool, cursor, Inside::File)?;
    if gives && is_constant_value(name.text) && known.is_none() {
        let int = constant_value(pool, at, cursor)?;
        return Ok(Some(int));
    }
    passed(cursor, Inside::File)?;
    Ok(known)
}

#[tactic(auto, using(ms_pool::specs::Loops::ends, ms_pool::specs::Loops::goes_on, ms_pool::specs::Loops::is_done))]
fn several_attributes(
    pool: &Pool<'_>,
    gives: bool,
    count: u16,
    cursor: &mut Cursor<'_>,
) -> Result<Option<i32>, ClassFault>
    ensures { Finds (λ known. known) result cursor.new ((repeated count (field_attribute pool.now gives) None).read cursor.old) }
{
    let mut known = None;
    for _ in 0..count {
        known = attribute(pool, gives, known, cursor)?;
    }
    Ok(known)
}

/// The int that the attributes of a field give it; how many they are comes first.
fn attributes(
    pool: &Pool<'_>,
    gives: bool,
    cursor: &mut Cursor<'_>,
) -> Result<Option<i32>, ClassFault>
    ensures { Finds (λ known. known) result cursor.new ((counted short (field_attribute pool.now gives) None).read cursor.old) }
{
    let count = u2(cursor, Inside::File)?;
    several_attributes(pool, gives, count, cursor)
}

/// The field with this beginning and this int at first, or 0.
fn row_of<'a>(head: Head<'a>, initial: Option<i32>) -> FieldRow<'a>
    ensures { field_view result ≡ field_of (head_view head.entry) initial }
{
    FieldRow {
        access: head.access,
        name: head.name.text,
        name_index: head.name.index,
        desc: head.desc.text,
        desc_index: head.desc.index,
        initial: initial.unwrap_or(0),
    }
}

/// Reads the next field and adds it to the rows, whose keys these are.
#[tactic(auto, unfolding(crate::specs::ClassFile::field))]
fn add<'a>(
    pool: &Pool<'a>,
    texts: &Texts,
    rows: &mut Vec<FieldRow<'a>>,
    keys: &mut Keys,
    cursor: &mut Cursor<'_>,
) -> Result<(), ClassFault>
    requires texts { AreNumbers pool.now texts.now }
    requires keys { AreKeysOf pool.now texts.now keys.old (map field_key (map field_view rows.old.items)) }
    ensures read { Leads (λ nothing. map field_view rows.new.items) result cursor.new ((added (field pool.now) (map field_view rows.old.items)).read cursor.old) }
    ensures keys { OnOk result (AreKeysOf pool.now texts.now keys.new (map field_key (map field_view rows.new.items))) }
{
    let head = member_head(pool, cursor)?;
    if !keys.add(texts.key(head))? {
        return Err(duplicate(head.at));
    }
    let initial = attributes(pool, takes_int(head), cursor)?;
    rows.push(row_of(head, initial))?;
    Ok(())
}

#[tactic(auto, using(ms_pool::specs::Loops::ends, ms_pool::specs::Loops::goes_on, ms_pool::specs::Loops::is_done))]
fn several<'a>(
    alloc: Global,
    pool: &Pool<'a>,
    texts: &Texts,
    count: u16,
    cursor: &mut Cursor<'_>,
) -> Result<Vec<FieldRow<'a>>, ClassFault>
    requires { AreNumbers pool.now texts.now }
    ensures { Leads (λ rows. map field_view rows.items) result cursor.new ((repeated count (added (field pool.now)) []).read cursor.old) }
{
    let mut rows = Vec::new(alloc);
    let mut keys = Keys::new(alloc);
    for _ in 0..count {
        add(pool, texts, &mut rows, &mut keys, cursor)?;
    }
    Ok(rows)
}

/// The fields; how many they are comes first.
pub fn fields<'a>(
    alloc: Global,
    pool: &Pool<'a>,
    texts: &Texts,
    cursor: &mut Cursor<'_>,
) -> Result<Fields<'a>, ClassFault>
    requires { AreNumbers pool.now texts.now }
    ensures { Leads (λ fields. map field_view fields) result cursor.new ((counted short (added (field pool.now)) []).read cursor.old) }
{
    let count = u2(cursor, Inside::File)?;
    let rows = several(alloc, pool, texts, count, cursor)?;
    Ok(Fields::new(rows))
}
