ghost use Rattle.std.specs.Prelude.{◌≡◌, ◌<◌, ◌∷◌, ◌++◌, [], IfOk, OnOk, false, length, map, option_map, slice_get};
ghost use Rattle.ms_classfile.specs.ClassFile.{field_key, is_there, method_key};
ghost use Rattle.ms_classfile.specs.ClassLaws.{AreDistinct};
ghost use Rattle.ms_classfile.specs.ClassViews.{field_view, method_view};
ghost use Rattle.std.proofs.Common.{refl};
ghost use Rattle.ms_program.specs.Names.{Key, is_named, place_named, same_key};

use indexmap::{Equivalent, IndexSet};
use ms_classfile::{FieldRow, MethodRow};
use std::alloc::{AllocError, Global};
use std::marker::Model;

/// A name and a descriptor that are looked for.
#[derive(Clone, Copy, PartialEq, Eq, Hash)]
struct Wanted<'a> {
    name: &'a [u8],
    desc: &'a [u8],
}

/// A name and a descriptor that are kept.
#[derive(PartialEq, Eq, Hash, Drop)]
struct Kept {
    name: Vec<u8>,
    desc: Vec<u8>,
}

impl<'a> Equivalent<Kept> for Wanted<'a> {
    ghost equivalent = { λ q k. is_named q.name.now q.desc.now (k.name.items, k.desc.items) };

    ghost respects_hash = { λ q k is. let same = same_key q.name.now q.desc.now (k.name.items, k.desc.items) is in rw (same.0, same.1) refl };

    ghost respects_eq = { λ q x y is. let same = same_key q.name.now q.desc.now (x.name.items, x.desc.items) is in rw (same.0, same.1) refl };

    fn equivalent(&self, key: &Kept) -> bool {
        self.name == key.name.as_slice() && self.desc == key.desc.as_slice()
    }
}

/// Names with their descriptors, each once, in the order in which they were added.
#[derive(Drop)]
pub(crate) struct Names {
    keys: IndexSet<Kept>,
}

impl Model for Names {
    ghost use Rattle.std.specs.Prelude.{List, map};
    ghost use Rattle.ms_program.specs.Names.{Key};

    ghost Value = { List Key };

    ghost view = { λ names. map (λ key. (key.name.items, key.desc.items)) names.keys.keys };
}

impl Names {
    /// None.
    pub(crate) fn new(alloc: Global) -> Names
        ensures { result ≡ [] }
    {
        Names {
            keys: IndexSet::new(alloc),
        }
    }

    /// Adds a name and a descriptor that aren't there.
    pub(crate) fn add(&mut self, alloc: Global, name: &[u8], desc: &[u8]) -> Result<(), AllocError>
        requires { is_there name.now desc.now self.old ≡ false }
        ensures { OnOk result (self.new ≡ self.old ++ (name.now, desc.now) ∷ []) }
    {
        let name = Vec::from_slice(alloc, name)?;
        let desc = Vec::from_slice(alloc, desc)?;
        self.keys.insert(Kept { name, desc })?;
        Ok(())
    }

    /// The place where a name and a descriptor stand, counted from 0.
    pub(crate) fn find(&self, name: &[u8], desc: &[u8]) -> Option<usize>
        ensures { result ≡ place_named name.now desc.now self.now }
    {
        self.keys.get_index_of(Wanted { name, desc })
    }

    /// How many there are.
    pub(crate) fn len(&self) -> usize
        ensures { result ≡ length self.now }
    {
        self.keys.len()
    }

    /// The name and the descriptor at a place.
    pub(crate) fn get(&self, i: usize) -> Option<(&[u8], &[u8])>
        ensures { option_map (λ key. (key.0.now, key.1.now)) result ≡ slice_get self.now i }
    {
        let key = self.keys.get_index(i)?;
        Some((key.name.as_slice(), key.desc.as_slice()))
    }
}

/// What has a name and a descriptor.
pub(crate) trait Member {
    // Its name and its descriptor.
    ghost key: { Self → Key };

    /// Its name.
    fn name(&self) -> &[u8]
        ensures { result.now ≡ (key self.now).0 };

    /// Its descriptor.
    fn desc(&self) -> &[u8]
        ensures { result.now ≡ (key self.now).1 };
}

impl<'a> Member for FieldRow<'a> {
    ghost key = { λ row. field_key (field_view row) };

    fn name(&self) -> &[u8] {
        self.name
    }

    fn desc(&self) -> &[u8] {
        self.desc
    }
}

impl<'a> Member for MethodRow<'a> {
    ghost key = { λ row. method_key (method_view row) };

    fn name(&self) -> &[u8] {
        self.name
    }

    fn desc(&self) -> &[u8] {
        self.desc
    }
}

/// The names and descriptors of members, of which no two have the same.
pub(crate) fn names_of<M: Member>(alloc: Global, members: &[M]) -> Result<Names, AllocError>
    requires { AreDistinct (map M.key members.now) }
    ensures { IfOk result (λ names. names ≡ map M.key members.now) }
{
    let mut names = Names::new(alloc);
    for member in members {
        names.add(alloc, member.name(), member.desc())?;
    }
    Ok(names)
}
