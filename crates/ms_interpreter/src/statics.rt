ghost use Rattle.std.specs.Prelude.{◌≡◌, ◌&&◌, ◌==◌, [], IfOk, OnOk, OnErr};
ghost use Rattle.std.specs.Str.{bytes_eq};
ghost use Rattle.std.proofs.Common.{refl};
ghost use Rattle.ms_interpreter.specs.Fields.{found_in, is_kept, same_field, with_field};

use crate::slot::Slot;
use indexmap::{Equivalent, IndexMap};
use ms_words::NoMemory;
use std::alloc::Global;
use std::marker::Model;

/// A field that is looked for.
#[derive(Clone, Copy, PartialEq, Eq, Hash)]
struct Wanted<'a> {
    class: u16,
    name: &'a [u8],
    descriptor: &'a [u8],
}

/// A field that is kept.
#[derive(PartialEq, Eq, Hash, Drop)]
struct Kept {
    class: u16,
    name: Vec<u8>,
    descriptor: Vec<u8>,
}

impl<'a> Equivalent<Kept> for Wanted<'a> {
    ghost equivalent = { λ q k. is_kept q.class q.name.now q.descriptor.now k.class k.name.items k.descriptor.items };

    ghost respects_hash = { λ q k is. let same = same_field q.class q.name.now q.descriptor.now k.class k.name.items k.descriptor.items is in rw (same.0, same.1, same.2) refl };

    ghost respects_eq = { λ q x y is. let same = same_field q.class q.name.now q.descriptor.now x.class x.name.items x.descriptor.items is in rw (same.0, same.1, same.2) refl };

    fn equivalent(&self, key: &Kept) -> bool {
        self.class == key.class
            && self.name == key.name.as_slice()
            && self.descriptor == key.descriptor.as_slice()
    }
}

/// The static fields that were stored, each with what it holds, in the order of their first stores. They
/// are found by the hashes of their names.
#[derive(Drop)]
pub(crate) struct Statics<I: Copy + Drop> {
    slots: IndexMap<Kept, Slot<I>>,
}

impl<I: Copy + Drop> Model for Statics<I> {
    ghost use Rattle.std.specs.Prelude.{List, map};
    ghost use Rattle.ms_interpreter.specs.Frames.{Field};

    ghost Value = { List (Field I) };

    ghost view = { λ statics. map (λ entry. record { class = entry.0.class; name = entry.0.name.items; descriptor = entry.0.descriptor.items; slot = entry.1 }) statics.slots.entries };
}

impl<I: Copy + Drop> Statics<I> {
    /// None.
    pub(crate) fn new(alloc: Global) -> Statics<I>
        ensures { result ≡ [] }
    {
        Statics {
            slots: IndexMap::new(alloc),
        }
    }

    /// What a field holds, where it was stored.
    pub(crate) fn get(&self, class: u16, name: &[u8], descriptor: &[u8]) -> Option<Slot<I>>
        ensures { result ≡ found_in self.now class name.now descriptor.now }
    {
        self.slots
            .get(Wanted {
                class,
                name,
                descriptor,
            })
            .copied()
    }

    /// Stores something in a field.
    pub(crate) fn set(
        &mut self,
        alloc: Global,
        class: u16,
        name: &[u8],
        descriptor: &[u8],
        slot: Slot<I>,
    ) -> Result<(), NoMemory>
        ensures { OnOk result (self.new ≡ with_field self.old class name.now descriptor.now slot) }
    {
        let name = Vec::from_slice(alloc, name)?;
        let descriptor = Vec::from_slice(alloc, descriptor)?;
        let key = Kept {
            class,
            name,
            descriptor,
        };
        self.slots.insert(key, slot)?;
        Ok(())
    }
}
