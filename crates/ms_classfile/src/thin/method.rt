ghost use Rattle.std.specs.Prelude.{◌≡◌, map};
ghost use Rattle.std.specs.Option.{option_map};
ghost use Rattle.ms_classfile.specs.ThinFile as thin;
ghost use Rattle.ms_classfile.specs.Reading.{method_at};
ghost use Rattle.ms_classfile.specs.Reading as reading;
ghost use Rattle.ms_classfile.specs.Found.{Leads, entry_view, view};

use super::attributes::{attributes, code_attribute};
use super::code::code;
use super::failure::Failure;
use super::parts::{PoolEntry, ThinMethod};
use super::pool::utf8;
use ms_pool::Cursor;
use ms_words::{Kind, Kinds};
use std::alloc::Global;

/// Of the flags static, synchronized, native and abstract, static alone is set (JVMS SE 8, table 4.6-A).
fn is_plain_static(access: u16) -> bool
    ensures { result ≡ thin.is_plain_static access }
{
    access & 0x0528 == 0x0008
}

/// The kind that a letter of a descriptor stands for, of those that thin methods have.
fn kind_of(letter: u8) -> Option<Kind>
    ensures { result ≡ reading.kind_of letter }
{
    match letter {
        b'Z' => Some(Kind::Z),
        b'I' => Some(Kind::I),
        _ => None,
    }
}

/// The kinds of the parameters, at most eight, and what stands behind the closing parenthesis.
fn parameters(text: &[u8]) -> Option<(Kinds, &[u8])>
    ensures { option_map (λ found. (found.0, found.1.now)) result ≡ reading.parameters_of 8 text.now }
{
    let mut kinds = Kinds::new();
    for (at, letter) in text.iter().enumerate() {
        if *letter == b')' {
            return Some((kinds, &text[at + 1..]));
        }
        let kind = kind_of(*letter)?;
        if !kinds.push(kind) {
            return None;
        }
    }
    None
}

/// The kinds of the parameters and of the result that a descriptor states (JVMS SE 8, section 4.3.3).
fn signature(descriptor: &[u8]) -> Option<(Kinds, Kind)>
    ensures { result ≡ reading.signature_of descriptor.now }
{
    let [b'(', text @ ..] = descriptor else {
        return None;
    };
    let Some((kinds, rest)) = parameters(text) else {
        return None;
    };
    let [letter] = rest else {
        return None;
    };
    let result = kind_of(*letter)?;
    Some((kinds, result))
}

/// The method of the class of this name (JVMS SE 8, section 4.6).
#[tactic(auto, unfolding(crate::specs::Reading::method_at))]
pub fn method<'a>(
    alloc: Global,
    pool: &[PoolEntry<'a>],
    class: &'a [u8],
    cursor: &mut Cursor<'a>,
) -> Result<ThinMethod<'a>, Failure>
    ensures { Leads view result cursor.new (method_at (map entry_view pool.now) class.now cursor.old) }
{
    let access = cursor.u2()?;
    let name_number = cursor.u2()?;
    let descriptor_number = cursor.u2()?;
    if !is_plain_static(access) {
        return Err(Failure::NotThin);
    }
    let attributes = attributes(alloc, pool, cursor)?;
    let name = utf8(pool, name_number).ok_or(Failure::NotThin)?;
    let descriptor = utf8(pool, descriptor_number).ok_or(Failure::NotThin)?;
    let (kinds, result) = signature(descriptor).ok_or(Failure::NotThin)?;
    let attribute = code_attribute(pool, &attributes).ok_or(Failure::NotThin)?;
    let (max_stack, instructions) = code(alloc, pool, kinds.get().len(), attribute.content)?;
    Ok(ThinMethod {
        class,
        name,
        descriptor,
        kinds,
        result,
        max_stack,
        instructions,
    })
}
