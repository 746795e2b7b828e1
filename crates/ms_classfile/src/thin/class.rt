ghost use Rattle.std.specs.Prelude.{map};
ghost use Rattle.ms_classfile.specs.Reading as reading;
ghost use Rattle.ms_classfile.specs.Found.{Finds, LeadsBehind, entry_view};

use super::failure::Refused;
use super::parts::PoolEntry;
use super::pool::class_name;
use ms_pool::Cursor;
use ms_words::thrown_named;

/// What a class file begins with.
const MAGIC: u32 = 0xCAFE_BABE;

/// Reads the magic number and the version, 45.0 to 52.65535 (JVMS SE 8, section 4.1).
#[tactic(auto, unfolding(crate::specs::Reading::header_at))]
pub fn header(cursor: &mut Cursor<'_>) -> Result<(), Refused>
    ensures { LeadsBehind result cursor.new (reading.header_at cursor.old) }
{
    let first = cursor.u4()?;
    if first != MAGIC {
        return Err(Refused);
    }
    let _minor = cursor.u2()?;
    let major = cursor.u2()?;
    if major < 45 || major > 52 {
        return Err(Refused);
    }
    Ok(())
}

/// Reads the class's flags, its name, which no throwable has, and its parent, java/lang/Object. It gives
/// the name.
#[tactic(auto, unfolding(crate::specs::Reading::class_part_at))]
pub fn class_part<'a>(pool: &[PoolEntry<'a>], cursor: &mut Cursor<'a>) -> Result<&'a [u8], Refused>
    ensures { Finds (λ name. name.now) result cursor.new (reading.class_part_at (map entry_view pool.now) cursor.old) }
{
    let _access = cursor.u2()?;
    let this_class = cursor.u2()?;
    let super_class = cursor.u2()?;
    let name = class_name(pool, this_class).ok_or(Refused)?;
    let parent = class_name(pool, super_class).ok_or(Refused)?;
    if thrown_named(name).is_some() || parent != b"java/lang/Object".as_slice() {
        return Err(Refused);
    }
    Ok(name)
}

/// Reads how many interfaces, fields and methods there are: none, none and one.
#[tactic(auto, unfolding(crate::specs::Reading::counts_at))]
pub fn counts(cursor: &mut Cursor<'_>) -> Result<(), Refused>
    ensures { LeadsBehind result cursor.new (reading.counts_at cursor.old) }
{
    let interfaces = cursor.u2()?;
    let fields = cursor.u2()?;
    let methods = cursor.u2()?;
    if interfaces != 0 || fields != 0 || methods != 1 {
        return Err(Refused);
    }
    Ok(())
}
