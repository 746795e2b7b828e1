ghost use Rattle.std.specs.Prelude.{◌≡◌, IfOk};
ghost use Rattle.ms_words.specs.Items.{firsts};
ghost use Rattle.ms_symexec.specs.Keys.{key};

use indexmap::IndexSet;
use ms_words::{Footprint, Item, NoMemory};
use std::alloc::Global;

/// An item, as a set keeps it.
#[derive(Clone, Copy, PartialEq, Eq, Hash)]
pub(crate) enum Key {
    /// That of the entry.
    Entry,
    /// That of an instruction, by its class, method and offset.
    At(u16, u16, u16),
}

/// The key of an item.
fn key_of(item: Item) -> Key
    ensures { result ≡ key item }
{
    match item {
        Item::Entry => Key::Entry,
        Item::At {
            class,
            method,
            offset,
        } => Key::At(class, method, offset),
    }
}

/// The items of a list, each once, in the order of their first places.
pub(crate) fn footprint_of(alloc: Global, trace: &[Item]) -> Result<Footprint, NoMemory>
    ensures { IfOk result (λ footprint. footprint ≡ firsts trace.now) }
{
    let mut seen = IndexSet::new(alloc);
    let mut footprint = Footprint::new(alloc);
    for place in 0..trace.len() {
        let is_new = match seen.insert(key_of(trace[place])) {
            Ok(is_new) => is_new,
            Err(_) => return Err(NoMemory),
        };
        if is_new {
            footprint.add(trace[place])?;
        }
    }
    Ok(footprint)
}
