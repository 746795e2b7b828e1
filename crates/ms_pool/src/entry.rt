ghost use Rattle.std.specs.Prelude.{◌≡◌};
ghost use Rattle.ms_pool.specs.Found.{Finds, entry_view};
ghost use Rattle.ms_pool.specs.Pools.{is_one_tag, is_two_tag, is_wide_tag, is_word_tag, tag_of};
ghost use Rattle.ms_pool.specs.PoolReading.{behind_tag, entry_at, handle_at, one_at, text_at, two_at, wide_at, word_at};

use crate::{Cursor, PoolFault};

/// An entry of a pool, its bytes lent.
#[derive(Clone, Copy, Debug)]
pub enum RawEntry<'a> {
    Utf8(&'a [u8]),
    Word { tag: u8, number: u32 },
    Wide { tag: u8, bytes: &'a [u8] },
    One { tag: u8, index: u16 },
    Two { tag: u8, first: u16, second: u16 },
    Handle { kind: u8, index: u16 },
}

impl<'a> RawEntry<'a> {
    /// Its tag.
    pub fn tag(self) -> u8
        ensures { result ≡ tag_of (entry_view self.entry) }
    {
        match self {
            RawEntry::Utf8(_) => 1,
            RawEntry::Word { tag, .. } => tag,
            RawEntry::Wide { tag, .. } => tag,
            RawEntry::One { tag, .. } => tag,
            RawEntry::Two { tag, .. } => tag,
            RawEntry::Handle { .. } => 15,
        }
    }

    /// Whether it takes two numbers.
    pub fn is_wide(self) -> bool
        ensures { result ≡ is_wide_tag (tag_of (entry_view self.entry)) }
    {
        let tag = self.tag();
        tag == 5 || tag == 6
    }
}

fn is_word_tag(tag: u8) -> bool
    ensures { result ≡ is_word_tag tag }
{
    tag == 3 || tag == 4
}

fn is_wide_tag(tag: u8) -> bool
    ensures { result ≡ is_wide_tag tag }
{
    tag == 5 || tag == 6
}

fn is_one_tag(tag: u8) -> bool
    ensures { result ≡ is_one_tag tag }
{
    tag == 7 || tag == 8 || tag == 16
}

fn is_two_tag(tag: u8) -> bool
    ensures { result ≡ is_two_tag tag }
{
    tag == 9 || tag == 10 || tag == 11 || tag == 12 || tag == 18
}

#[tactic(auto, unfolding(crate::specs::PoolReading::text_at))]
fn text<'a>(cursor: &mut Cursor<'a>) -> Result<RawEntry<'a>, PoolFault>
    ensures { Finds entry_view result cursor.new (text_at cursor.old) }
{
    let size = cursor.u2()?;
    let text = cursor.slice(u32::from(size))?;
    Ok(RawEntry::Utf8(text))
}

#[tactic(auto, unfolding(crate::specs::PoolReading::word_at))]
fn word<'a>(tag: u8, cursor: &mut Cursor<'a>) -> Result<RawEntry<'a>, PoolFault>
    ensures { Finds entry_view result cursor.new (word_at tag cursor.old) }
{
    let number = cursor.u4()?;
    Ok(RawEntry::Word { tag, number })
}

#[tactic(auto, unfolding(crate::specs::PoolReading::wide_at))]
fn wide<'a>(tag: u8, cursor: &mut Cursor<'a>) -> Result<RawEntry<'a>, PoolFault>
    ensures { Finds entry_view result cursor.new (wide_at tag cursor.old) }
{
    let bytes = cursor.slice(8)?;
    Ok(RawEntry::Wide { tag, bytes })
}

#[tactic(auto, unfolding(crate::specs::PoolReading::one_at))]
fn one<'a>(tag: u8, cursor: &mut Cursor<'a>) -> Result<RawEntry<'a>, PoolFault>
    ensures { Finds entry_view result cursor.new (one_at tag cursor.old) }
{
    let index = cursor.u2()?;
    Ok(RawEntry::One { tag, index })
}

#[tactic(auto, unfolding(crate::specs::PoolReading::two_at))]
fn two<'a>(tag: u8, cursor: &mut Cursor<'a>) -> Result<RawEntry<'a>, PoolFault>
    ensures { Finds entry_view result cursor.new (two_at tag cursor.old) }
{
    let first = cursor.u2()?;
    let second = cursor.u2()?;
    Ok(RawEntry::Two { tag, first, second })
}

#[tactic(auto, unfolding(crate::specs::PoolReading::handle_at))]
fn handle<'a>(cursor: &mut Cursor<'a>) -> Result<RawEntry<'a>, PoolFault>
    ensures { Finds entry_view result cursor.new (handle_at cursor.old) }
{
    let kind = cursor.u1()?;
    let index = cursor.u2()?;
    Ok(RawEntry::Handle { kind, index })
}

/// What stands behind a tag that has the place `at`, where the pool has so many numbers left.
#[tactic(auto, unfolding(crate::specs::PoolReading::behind_tag))]
fn behind_tag<'a>(
    tag: u8,
    at: u64,
    numbers_left: u16,
    cursor: &mut Cursor<'a>,
) -> Result<RawEntry<'a>, PoolFault>
    ensures { Finds entry_view result cursor.new (behind_tag tag at numbers_left cursor.old) }
{
    if tag == 1 {
        return text(cursor);
    }
    if is_word_tag(tag) {
        return word(tag, cursor);
    }
    if is_wide_tag(tag) {
        if numbers_left == 1 {
            return Err(PoolFault::Pool { at });
        }
        return wide(tag, cursor);
    }
    if is_one_tag(tag) {
        return one(tag, cursor);
    }
    if is_two_tag(tag) {
        return two(tag, cursor);
    }
    if tag == 15 {
        return handle(cursor);
    }
    Err(PoolFault::Pool { at })
}

/// The entry at the cursor, where the pool has so many numbers left.
#[tactic(auto, unfolding(crate::specs::PoolReading::entry_at))]
pub fn entry<'a>(numbers_left: u16, cursor: &mut Cursor<'a>) -> Result<RawEntry<'a>, PoolFault>
    ensures { Finds entry_view result cursor.new (entry_at numbers_left cursor.old) }
{
    let at = cursor.at();
    let tag = cursor.u1()?;
    behind_tag(tag, at, numbers_left, cursor)
}
