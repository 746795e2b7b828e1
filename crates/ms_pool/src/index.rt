ghost use Rattle.std.specs.Prelude.{◌≡◌, ◌<◌, ◌^◌, length, option_map};
ghost use Rattle.ms_pool.specs.ByNumber.{class_name, entries_in, entry_in, entry_of, integer, int_held, member, member_held, name_and_type, string_text, tag_numbered, text_held, text_named, utf8};
ghost use Rattle.ms_pool.specs.Found.{entry_view, member_view};
ghost use Rattle.ms_pool.specs.Pools.{has_tag, is_linked, is_unlinked, unlinked};

use crate::Cursor;
use crate::entry::{RawEntry, entry};
use std::marker::Model;

/// A field or a method that a class file refers to (JVMS SE 8, section 4.4.2), its names lent from the bytes.
#[derive(Clone, Copy, Debug)]
pub struct Member<'a> {
    /// The tag: 9 of a field, 10 of a class's method, 11 of an interface's method.
    pub tag: u8,
    /// The name of the class that has it.
    pub class: &'a [u8],
    /// Its name.
    pub name: &'a [u8],
    /// Its descriptor.
    pub desc: &'a [u8],
}

/// Where the entries of a constant pool stand in the bytes that it was read from, which it doesn't keep.
/// It has a place for each number below the pool's count: that of the entry's tag, or 0 where no entry
/// has the number.
///
/// Each getter is given the bytes once more. They are to be those that were read: for others it answers
/// what stands in them at those places, which needn't be the pool's entry. No getter takes memory.
#[derive(Debug, Drop)]
pub struct PoolIndex {
    places: Vec<usize>,
}

impl Model for PoolIndex {
    ghost use Rattle.std.specs.Prelude.{ℕ, ◌<◌, ◌^◌, List, length};

    ghost Value = { List ℕ };

    ghost view = { λ index. index.places.items };

    ghost invariant = { λ index. length index.places.items < 2 ^ 16 };
}

/// The entry whose tag has this place, where one stands there.
#[tactic(auto, using(crate::proofs::Slots::none_past))]
fn entry_in(bytes: &[u8], at: usize) -> Option<RawEntry<'_>>
    ensures { option_map entry_view result ≡ option_map (λ placed. placed.entry) (entry_in bytes.now at) }
{
    if at == 0 {
        return None;
    }
    let mut cursor = Cursor::from_place(bytes, at)?;
    entry(2, &mut cursor).ok()
}

/// The text that the entry holds, where it is a Utf8.
fn text_held(entry: RawEntry<'_>) -> Option<&[u8]>
    ensures { option_map (λ text. text.now) result ≡ text_held (entry_view entry.entry) }
{
    match entry {
        RawEntry::Utf8(text) => Some(text),
        _ => None,
    }
}

impl PoolIndex {
    /// The index with these places, by number.
    pub(crate) fn new(places: Vec<usize>) -> PoolIndex
        requires { length places.items < 2 ^ 16 }
        ensures { result ≡ places.items }
    {
        PoolIndex { places }
    }

    /// The pool's count, constant_pool_count: one more than the greatest number (section 4.1).
    pub fn count(&self) -> u16
        ensures { result ≡ length self.now }
    {
        self.places.len() as u16
    }

    #[tactic(auto, using(crate::proofs::Slots::entry_there, crate::proofs::Slots::no_entry))]
    fn entry<'b>(&self, bytes: &'b [u8], i: u16) -> Option<RawEntry<'b>>
        ensures { option_map entry_view result ≡ entry_of (entries_in bytes.now self.now) i }
    {
        let at = *self.places.get(usize::from(i))?;
        entry_in(bytes, at)
    }

    /// The tag of the entry of this number (table 4.4-A), where one has it.
    pub fn tag(&self, bytes: &[u8], i: u16) -> Option<u8>
        ensures { result ≡ tag_numbered (entries_in bytes.now self.now) i }
    {
        let entry = self.entry(bytes, i)?;
        Some(entry.tag())
    }

    /// The bytes of the Utf8 of this number, where one has it.
    pub fn utf8<'b>(&self, bytes: &'b [u8], i: u16) -> Option<&'b [u8]>
        ensures { option_map (λ text. text.now) result ≡ utf8 (entries_in bytes.now self.now) i }
    {
        let entry = self.entry(bytes, i)?;
        text_held(entry)
    }

    /// The text that the entry names, where it has this tag.
    fn text_named<'b>(&self, bytes: &'b [u8], wanted: u8, entry: RawEntry<'b>) -> Option<&'b [u8]>
        ensures { option_map (λ text. text.now) result ≡ text_named wanted (entries_in bytes.now self.now) (entry_view entry.entry) }
    {
        match entry {
            RawEntry::One { tag, index } => {
                if tag != wanted {
                    return None;
                }
                self.utf8(bytes, index)
            }
            _ => None,
        }
    }

    /// The name of the Class of this number, where one has it.
    pub fn class_name<'b>(&self, bytes: &'b [u8], i: u16) -> Option<&'b [u8]>
        ensures { option_map (λ text. text.now) result ≡ class_name (entries_in bytes.now self.now) i }
    {
        let entry = self.entry(bytes, i)?;
        self.text_named(bytes, 7, entry)
    }

    /// The text of the String of this number, where one has it.
    pub fn text<'b>(&self, bytes: &'b [u8], i: u16) -> Option<&'b [u8]>
        ensures { option_map (λ text. text.now) result ≡ string_text (entries_in bytes.now self.now) i }
    {
        let entry = self.entry(bytes, i)?;
        self.text_named(bytes, 8, entry)
    }

    /// The int of the Integer of this number, where one has it.
    pub fn integer(&self, bytes: &[u8], i: u16) -> Option<i32>
        ensures { result ≡ integer (entries_in bytes.now self.now) i }
    {
        let entry = self.entry(bytes, i)?;
        int_held(entry)
    }

    /// The field or method of the entry of this number, where it refers to one.
    pub fn member<'b>(&self, bytes: &'b [u8], i: u16) -> Option<Member<'b>>
        ensures { option_map member_view result ≡ member (entries_in bytes.now self.now) i }
    {
        let entry = self.entry(bytes, i)?;
        let held = member_held(entry)?;
        let class = self.class_name(bytes, held.class)?;
        let second = self.entry(bytes, held.name_and_type)?;
        let (name, desc) = name_and_type(second)?;
        let name = self.utf8(bytes, name)?;
        let desc = self.utf8(bytes, desc)?;
        Some(Member {
            tag: held.tag,
            class,
            name,
            desc,
        })
    }
}

impl PoolIndex {
    fn has_tag(&self, bytes: &[u8], i: u16, wanted: u8) -> bool
        ensures { result ≡ has_tag (entries_in bytes.now self.now) i wanted }
    {
        match self.entry(bytes, i) {
            Some(entry) => entry.tag() == wanted,
            None => false,
        }
    }

    /// Whether each number that the entry names has the tag that is wanted.
    fn is_linked(&self, bytes: &[u8], entry: RawEntry<'_>) -> bool
        ensures { result ≡ is_linked (entries_in bytes.now self.now) (entry_view entry.entry) }
    {
        match entry {
            RawEntry::One { tag, index } => {
                if tag == 16 {
                    return true;
                }
                self.has_tag(bytes, index, 1)
            }
            RawEntry::Two { tag, first, second } => {
                if tag == 12 {
                    return self.has_tag(bytes, first, 1) && self.has_tag(bytes, second, 1);
                }
                if tag == 18 {
                    return true;
                }
                self.has_tag(bytes, first, 7) && self.has_tag(bytes, second, 12)
            }
            _ => true,
        }
    }

    /// Whether an entry stands at this place that names a number without the wanted tag.
    fn is_unlinked(&self, bytes: &[u8], at: usize) -> bool
        ensures { result ≡ is_unlinked (entries_in bytes.now self.now) (entry_in bytes.now at) }
    {
        match entry_in(bytes, at) {
            Some(entry) => !self.is_linked(bytes, entry),
            None => false,
        }
    }

    /// The place of the first entry, in order of number, that names a number without the wanted tag.
    pub(crate) fn first_unlinked(&self, bytes: &[u8]) -> Option<usize>
        ensures { result ≡ option_map (λ placed. placed.at) (unlinked (entries_in bytes.now self.now)) }
    {
        for at in &self.places {
            if self.is_unlinked(bytes, *at) {
                return Some(*at);
            }
        }
        None
    }
}

/// The int that the entry holds, where it is an Integer.
fn int_held(entry: RawEntry<'_>) -> Option<i32>
    ensures { result ≡ int_held (entry_view entry.entry) }
{
    match entry {
        RawEntry::Word { tag, number } => {
            if tag != 3 {
                return None;
            }
            Some(number.cast_signed())
        }
        _ => None,
    }
}

/// What a Fieldref, Methodref or InterfaceMethodref holds: its tag and two numbers.
#[derive(Clone, Copy)]
struct Held {
    tag: u8,
    class: u16,
    name_and_type: u16,
}

fn member_held(entry: RawEntry<'_>) -> Option<Held>
    ensures { option_map (λ held. (held.tag, held.class, held.name_and_type)) result ≡ member_held (entry_view entry.entry) }
{
    match entry {
        RawEntry::Two { tag, first, second } => {
            if tag == 9 || tag == 10 || tag == 11 {
                Some(Held {
                    tag,
                    class: first,
                    name_and_type: second,
                })
            } else {
                None
            }
        }
        _ => None,
    }
}

/// The numbers of a NameAndType.
fn name_and_type(entry: RawEntry<'_>) -> Option<(u16, u16)>
    ensures { result ≡ name_and_type (entry_view entry.entry) }
{
    match entry {
        RawEntry::Two { tag, first, second } => {
            if tag != 12 {
                return None;
            }
            Some((first, second))
        }
        _ => None,
    }
}
