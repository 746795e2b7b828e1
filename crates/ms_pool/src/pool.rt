ghost use Rattle.std.specs.Prelude.{◌≡◌, ◌⊎◌, ◌<◌, ◌+◌, All, List, ℕ, is_some, length};
ghost use Rattle.ms_pool.specs.ByNumber.{class_name, entries_in, integer, is_member, member, places_of, string_text, utf8};
ghost use Rattle.ms_pool.specs.Places.{Place, place_in};
ghost use Rattle.ms_pool.specs.Pools.{Entry, HasFirstFault, HasPool, IsFirstFault, IsPool, has_tag, numbered, width};
ghost use Rattle.ms_pool.specs.declared.pool.PoolFault as faults;
ghost use Rattle.ms_pool.specs.declared.pool.PoolFault.TheVariants as variants;

use crate::Short;
use std::alloc::{AllocError, AllocFailed};
use thiserror::Error;

/// Why no constant pool was read (JVMS SE 8, section 4.4). But for want of memory, each says that the
/// bytes begin with none; its place is how many bytes come before it.
#[derive(Clone, Copy, Debug, PartialEq, Eq, Drop, Error)]
pub enum PoolFault {
    /// A number, or a run of bytes, doesn't fit in what is left: where it would begin.
    #[error("the bytes end within what begins at {at}")]
    Short { at: u64 },
    /// The count is 0, a tag is unknown, or a Long or Double would take a number that the pool doesn't have:
    /// the place of the count or the tag.
    #[error("the pool can't be as the number at {at} says")]
    Pool { at: u64 },
    /// All entries are whole, and one of a tag from 7 to 12 names a number that no entry of the wanted
    /// tag has: the place of the first such entry's tag, in order of number.
    #[error("the pool's entry at {at} names a number without the wanted tag")]
    Index { at: u64 },
    /// Memory ran out.
    #[error("memory ran out")]
    NoMemory,
}

impl From<Short> for PoolFault {
    ghost from_gives = { λ short fault. fault ≡ variants.Short short.at };

    fn from(short: Short) -> PoolFault {
        PoolFault::Short { at: short.at }
    }
}

impl From<AllocError> for PoolFault {
    ghost from_gives = { λ _ fault. fault ≡ variants.NoMemory };

    fn from(_error: AllocError) -> PoolFault {
        PoolFault::NoMemory
    }
}

impl<T: Drop> From<AllocFailed<T>> for PoolFault {
    ghost from_gives = { λ _ fault. fault ≡ variants.NoMemory };

    fn from(_error: AllocFailed<T>) -> PoolFault {
        PoolFault::NoMemory
    }
}

/// The law of constant pools, at any place whose bytes are below 256. It does nothing.
pub fn pools_are_whole_or_have_a_fault()
    // The bytes begin with a pool or have a first fault, and not both.
    ensures either { (place : Place) → All (λ byte. byte < 256) place.left → HasPool place ⊎ HasFirstFault place }
    ensures not_both { (place : Place) → All (λ byte. byte < 256) place.left → HasPool place → ¬ HasFirstFault place }
    // They begin with one pool at most, and have one first fault at most.
    ensures one_pool { (place first_after second_after : Place) (first second : List Entry) → All (λ byte. byte < 256) place.left → IsPool place first first_after → IsPool place second second_after → (first ≡ second) × (first_after ≡ second_after) }
    ensures one_fault { (place : Place) (first second : faults.PoolFault) → All (λ byte. byte < 256) place.left → IsFirstFault place first → IsFirstFault place second → first ≡ second }
{}

/// The law of what a pool says by number. It does nothing.
pub fn pools_hold_what_they_name()
    // The places of a pool, in the bytes that it was read from, lead to its entries.
    ensures index { (bytes : List ℕ) (at : ℕ) (entries : List Entry) (after : Place) → IsPool (place_in bytes at) entries after → entries_in bytes (places_of (numbered at entries)) ≡ numbered at entries }
    // There are as many numbers as the count says, with the number 0.
    ensures count { (at : ℕ) (entries : List Entry) → length (numbered at entries) ≡ width entries + 1 }
    // What is said of a number is there exactly where its entry has the tag.
    ensures utf8 { (place after : Place) (entries : List Entry) → IsPool place entries after → (i : ℕ) → is_some (utf8 (numbered place.at entries) i) ≡ has_tag (numbered place.at entries) i 1 }
    ensures integer { (place after : Place) (entries : List Entry) → IsPool place entries after → (i : ℕ) → is_some (integer (numbered place.at entries) i) ≡ has_tag (numbered place.at entries) i 3 }
    ensures class_name { (place after : Place) (entries : List Entry) → IsPool place entries after → (i : ℕ) → is_some (class_name (numbered place.at entries) i) ≡ has_tag (numbered place.at entries) i 7 }
    ensures text { (place after : Place) (entries : List Entry) → IsPool place entries after → (i : ℕ) → is_some (string_text (numbered place.at entries) i) ≡ has_tag (numbered place.at entries) i 8 }
    ensures member { (place after : Place) (entries : List Entry) → IsPool place entries after → (i : ℕ) → is_some (member (numbered place.at entries) i) ≡ is_member (numbered place.at entries) i }
{}
