ghost use Rattle.std.specs.Prelude.{◌≡◌, ◌⊎◌, ◌<◌, ◌+◌, ◌^◌, ◌++◌, length, IfErr, IfOk, OnOk};
ghost use Rattle.ms_pool.specs.declared.pool.PoolFault.TheVariants.{NoMemory};
ghost use Rattle.ms_pool.specs.ByNumber.{places_of};
ghost use Rattle.ms_pool.specs.Found.{AreCounted, Fails, Lists, entry_view};
ghost use Rattle.ms_pool.specs.Numbers.{IsBytes};
ghost use Rattle.ms_pool.specs.Places.{place_in};
ghost use Rattle.ms_pool.specs.Pools.{IsFirstFault, IsPoolOf, slots_of, width_of};
ghost use Rattle.ms_pool.specs.PoolReading.{entries_at, pool_at};

use crate::entry::{RawEntry, entry};
use crate::{Cursor, Member, PoolFault, PoolIndex};
use std::alloc::Global;
use std::marker::Model;

/// A constant pool, lent from the bytes that it was read from (JVMS SE 8, section 4.4). Each number that
/// an entry names has the tag that is wanted there, but for those of a MethodHandle, a MethodType and an
/// InvokeDynamic. Texts may be any bytes. No getter takes memory.
#[derive(Debug, Drop)]
pub struct Pool<'a> {
    bytes: &'a [u8],
    index: PoolIndex,
}

impl<'a> Model for Pool<'a> {
    ghost use Rattle.std.specs.Prelude.{◌≡◌, List, Option};
    ghost use Rattle.ms_pool.specs.ByNumber.{entries_in, places_of};
    ghost use Rattle.ms_pool.specs.Pools.{IsPoolOf, Placed};
    ghost use Rattle.ms_pool.specs.Places.{Place};

    ghost Value = { List (Option Placed) };

    ghost view = { λ pool. entries_in pool.bytes.now pool.index };

    ghost invariant = { λ pool. (places_of (entries_in pool.bytes.now pool.index) ≡ pool.index) × ((place : Place) × (after : Place) × IsPoolOf place (entries_in pool.bytes.now pool.index) after) };
}

impl<'a> Pool<'a> {
    ghost use Rattle.std.specs.Prelude.{is_some, option_map};
    ghost use Rattle.ms_pool.specs.Pools.{has_tag};
    ghost use Rattle.ms_pool.specs.ByNumber.{class_name, integer, is_member, member, places_of, string_text, tag_numbered, utf8};
    ghost use Rattle.ms_pool.specs.Found.{member_view};

    /// The pool's count, constant_pool_count: one more than the greatest number (section 4.1).
    pub fn count(&self) -> u16
        ensures { result ≡ length self.now }
    {
        self.index.count()
    }

    /// The tag of the entry of this number (table 4.4-A), where one has it.
    pub fn tag(&self, i: u16) -> Option<u8>
        ensures { result ≡ tag_numbered self.now i }
    {
        self.index.tag(self.bytes, i)
    }

    /// The bytes of the Utf8 of this number, lent, where one has it.
    pub fn utf8(&self, i: u16) -> Option<&'a [u8]>
        ensures value { option_map (λ text. text.now) result ≡ utf8 self.now i }
        ensures there { is_some result ≡ has_tag self.now i 1 }
    {
        self.index.utf8(self.bytes, i)
    }

    /// The name of the Class of this number, lent, where one has it.
    pub fn class_name(&self, i: u16) -> Option<&'a [u8]>
        ensures value { option_map (λ text. text.now) result ≡ class_name self.now i }
        ensures there { is_some result ≡ has_tag self.now i 7 }
    {
        self.index.class_name(self.bytes, i)
    }

    /// The text of the String of this number, lent, where one has it.
    pub fn text(&self, i: u16) -> Option<&'a [u8]>
        ensures value { option_map (λ text. text.now) result ≡ string_text self.now i }
        ensures there { is_some result ≡ has_tag self.now i 8 }
    {
        self.index.text(self.bytes, i)
    }

    /// The int of the Integer of this number, where one has it.
    pub fn integer(&self, i: u16) -> Option<i32>
        ensures value { result ≡ integer self.now i }
        ensures there { is_some result ≡ has_tag self.now i 3 }
    {
        self.index.integer(self.bytes, i)
    }

    /// The field or method of the entry of this number, its names lent, where it refers to one.
    pub fn member(&self, i: u16) -> Option<Member<'a>>
        ensures value { option_map member_view result ≡ member self.now i }
        ensures there { is_some result ≡ is_member self.now i }
    {
        self.index.member(self.bytes, i)
    }

    /// The places of the entries. It gives up the loan of the bytes, and takes no memory.
    pub fn into_index(self) -> PoolIndex
        ensures { result ≡ places_of self.entry }
    {
        self.index
    }
}

/// Adds the place of an entry, and a 0 behind it where the entry takes two numbers. How many it takes.
fn add(places: &mut Vec<usize>, at: usize, entry: RawEntry<'_>) -> Result<u16, PoolFault>
    ensures taken { IfOk result (λ taken. taken ≡ width_of (entry_view entry.entry)) }
    ensures added { OnOk result (places.new.items ≡ places.old.items ++ places_of (slots_of at (entry_view entry.entry))) }
    ensures err { IfErr result (λ fault. fault ≡ NoMemory) }
{
    places.push(at)?;
    if entry.is_wide() {
        places.push(0)?;
        return Ok(2);
    }
    Ok(1)
}

/// The places of entries that take so many numbers together, by their numbers, behind a 0 for the number 0.
fn places<'a>(alloc: Global, numbers: u16, cursor: &mut Cursor<'a>) -> Result<Vec<usize>, PoolFault>
    requires { IsBytes cursor.old.left }
    ensures listed { Lists (λ places. places.items) cursor.old result cursor.new (entries_at numbers cursor.old) }
    ensures many { IfOk result (λ places. length places.items ≡ numbers + 1) }
{
    let mut places = Vec::new(alloc);
    places.push(0)?;
    let mut left = numbers;
    while left > 0 {
        let at = cursor.index();
        let entry = entry(left, cursor)?;
        let taken = add(&mut places, at, entry)?;
        left -= taken;
    }
    Ok(places)
}

/// The places of the entries behind the count, by their numbers.
#[tactic(auto, using(crate::proofs::Whole::counted, crate::proofs::Whole::no_count, crate::proofs::Whole::fit_behind))]
fn counted<'a>(alloc: Global, cursor: &mut Cursor<'a>) -> Result<Vec<usize>, PoolFault>
    requires { IsBytes cursor.old.left }
    ensures places { IfOk result (λ places. AreCounted cursor.old places.items cursor.new) }
    ensures few { IfOk result (λ places. length places.items < 2 ^ 16) }
    ensures fault { IfErr result (λ fault. Fails fault (pool_at cursor.old)) }
{
    let start = cursor.at();
    let count = cursor.u2()?;
    if count == 0 {
        return Err(PoolFault::Pool { at: start });
    }
    places(alloc, count - 1, cursor)
}

/// The pool at the cursor, which stands at a place of these bytes.
#[tactic(auto, using(crate::proofs::Whole::all_linked, crate::proofs::Whole::first_fault, crate::proofs::Whole::fit_here, crate::proofs::Whole::kept, crate::proofs::Whole::unlinked_at))]
fn read<'a>(alloc: Global, bytes: &'a [u8], cursor: &mut Cursor<'a>) -> Result<Pool<'a>, PoolFault>
    requires { cursor.old ≡ place_in bytes.now cursor.old.at }
    ensures pool { IfOk result (λ pool. IsPoolOf cursor.old pool cursor.new) }
    ensures fault { IfErr result (λ fault. (fault ≡ NoMemory) ⊎ IsFirstFault cursor.old fault) }
{
    let places = counted(alloc, cursor)?;
    let index = PoolIndex::new(places);
    if let Some(at) = index.first_unlinked(bytes) {
        return Err(PoolFault::Index { at: at as u64 });
    }
    Ok(Pool { bytes, index })
}

/// Reads the constant pool at the cursor, its count first (JVMS SE 8, section 4.1). It takes memory for a
/// place for each number. After a fault the cursor may stand anywhere. That memory ran out has no cause
/// in a clause.
pub fn read_pool<'a>(alloc: Global, cursor: &mut Cursor<'a>) -> Result<Pool<'a>, PoolFault>
    // The bytes begin with the pool that is found, and the cursor goes behind it.
    ensures pool { IfOk result (λ pool. IsPoolOf cursor.old pool cursor.new) }
    // A fault is the first of bytes that begin with none, unless memory ran out.
    ensures fault { IfErr result (λ fault. (fault ≡ NoMemory) ⊎ IsFirstFault cursor.old fault) }
{
    let bytes = cursor.bytes();
    read(alloc, bytes, cursor)
}
