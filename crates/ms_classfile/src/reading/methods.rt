ghost use Rattle.std.specs.Prelude.{◌≡◌, [], None, OnOk, map, option_map};
ghost use Rattle.ms_classfile.specs.ClassFile.{counted, is_code, method, method_attribute, method_key, short};
ghost use Rattle.ms_classfile.specs.ClassFinds.{Leads};
ghost use Rattle.ms_classfile.specs.ClassViews.{code_view, method_view};
ghost use Rattle.ms_classfile.specs.Seen.{AreKeysOf, AreNumbers, head_view, method_of};
ghost use Rattle.ms_pool.specs.Formats.{added, repeated};

use super::attributes::passed;
use super::code::code_attribute;
use super::names::{Head, duplicate, member_head, text};
use super::numbers::{Inside, u2};
use super::seen::{Keys, Texts};
use crate::{ClassFault, MethodRow, Methods};
use ms_pool::{ClassKind, CodeRow, Cursor, Pool};
use std::alloc::Global;

fn is_code(name: &[u8]) -> bool
    ensures { result ≡ is_code name.now }
{
    name == b"Code".as_slice()
}

/// Reads an attribute of a method that has this code, as far as is known. What it has then.
#[tactic(auto, unfolding(crate::specs::ClassFile::method_attribute))]
fn attribute<'a>(
    alloc: Global,
    pool: &Pool<'_>,
    known: Option<CodeRow<'a>>,
    cursor: &mut Cursor<'a>,
) -> Result<Option<CodeRow<'a>>, ClassFault>
    ensures { Leads (λ known. option_map code_view known) result cursor.new ((method_attribute pool.now (option_map code_view known.entry)).read cursor.old) }
{
    let at = cursor.at();
    let name = text(pool, cursor, Inside::File)?;
    if is_code(name.text) {
        if known.is_some() {
            return Err(ClassFault::At {
                kind: ClassKind::Shape,
                at,
            });
        }
        let code = code_attribute(alloc, pool, at, cursor)?;
        return Ok(Some(code));
    }
    passed(cursor, Inside::File)?;
    Ok(known)
}

#[tactic(auto, using(ms_pool::specs::Loops::ends, ms_pool::specs::Loops::goes_on, ms_pool::specs::Loops::is_done))]
fn several_attributes<'a>(
    alloc: Global,
    pool: &Pool<'_>,
    count: u16,
    cursor: &mut Cursor<'a>,
) -> Result<Option<CodeRow<'a>>, ClassFault>
    ensures { Leads (λ known. option_map code_view known) result cursor.new ((repeated count (method_attribute pool.now) None).read cursor.old) }
{
    let mut known = None;
    for _ in 0..count {
        known = attribute(alloc, pool, known, cursor)?;
    }
    Ok(known)
}

/// The code that the attributes of a method give it; how many they are comes first.
fn attributes<'a>(
    alloc: Global,
    pool: &Pool<'_>,
    cursor: &mut Cursor<'a>,
) -> Result<Option<CodeRow<'a>>, ClassFault>
    ensures { Leads (λ known. option_map code_view known) result cursor.new ((counted short (method_attribute pool.now) None).read cursor.old) }
{
    let count = u2(cursor, Inside::File)?;
    several_attributes(alloc, pool, count, cursor)
}

/// The method with this beginning and this code.
fn row_of<'a>(head: Head<'a>, code: Option<CodeRow<'a>>) -> MethodRow<'a>
    ensures { method_view result ≡ method_of (head_view head.entry) (option_map code_view code.entry) }
{
    MethodRow {
        access: head.access,
        name: head.name.text,
        name_index: head.name.index,
        desc: head.desc.text,
        desc_index: head.desc.index,
        code,
        at: head.at,
    }
}

/// Reads the next method and adds it to the rows, whose keys these are.
#[tactic(auto, unfolding(crate::specs::ClassFile::method))]
fn add<'a>(
    alloc: Global,
    pool: &Pool<'a>,
    texts: &Texts,
    rows: &mut Vec<MethodRow<'a>>,
    keys: &mut Keys,
    cursor: &mut Cursor<'a>,
) -> Result<(), ClassFault>
    requires texts { AreNumbers pool.now texts.now }
    requires keys { AreKeysOf pool.now texts.now keys.old (map method_key (map method_view rows.old.items)) }
    ensures read { Leads (λ nothing. map method_view rows.new.items) result cursor.new ((added (method pool.now) (map method_view rows.old.items)).read cursor.old) }
    ensures keys { OnOk result (AreKeysOf pool.now texts.now keys.new (map method_key (map method_view rows.new.items))) }
{
    let head = member_head(pool, cursor)?;
    if !keys.add(texts.key(head))? {
        return Err(duplicate(head.at));
    }
    let code = attributes(alloc, pool, cursor)?;
    rows.push(row_of(head, code))?;
    Ok(())
}

#[tactic(auto, using(ms_pool::specs::Loops::ends, ms_pool::specs::Loops::goes_on, ms_pool::specs::Loops::is_done))]
fn several<'a>(
    alloc: Global,
    pool: &Pool<'a>,
    texts: &Texts,
    count: u16,
    cursor: &mut Cursor<'a>,
) -> Result<Vec<MethodRow<'a>>, ClassFault>
    requires { AreNumbers pool.now texts.now }
    ensures { Leads (λ rows. map method_view rows.items) result cursor.new ((repeated count (added (method pool.now)) []).read cursor.old) }
{
    let mut rows = Vec::new(alloc);
    let mut keys = Keys::new(alloc);
    for _ in 0..count {
        add(alloc, pool, texts, &mut rows, &mut keys, cursor)?;
    }
    Ok(rows)
}

/// The methods; how many they are comes first.
pub fn methods<'a>(
    alloc: Global,
    pool: &Pool<'a>,
    texts: &Texts,
    cursor: &mut Cursor<'a>,
) -> Result<Methods<'a>, ClassFault>
    requires { AreNumbers pool.now texts.now }
    ensures { Leads (λ methods. map method_view methods) result cursor.new ((counted short (added (method pool.now)) []).read cursor.old) }
{
    let count = u2(cursor, Inside::File)?;
    let rows = several(alloc, pool, texts, count, cursor)?;
    Ok(Methods::new(rows))
}
