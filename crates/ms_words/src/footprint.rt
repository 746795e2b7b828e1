ghost use Rattle.std.specs.Prelude.{◌≡◌, ◌∷◌, ◌++◌, [], Contains, OnErr, OnOk};
ghost use Rattle.ms_words.specs.Items.{AreDistinct};

use crate::{Item, NoMemory};
use std::alloc::Global;
use std::marker::Model;

/// A footprint: the items that a segment executes, each once, in the order in which they are executed
/// first.
#[derive(Debug, Drop)]
pub struct Footprint {
    items: Vec<Item>,
}

impl Model for Footprint {
    ghost use Rattle.std.specs.Prelude.{List};
    ghost use Rattle.ms_words.specs.declared.item.Item.{Item};
    ghost use Rattle.ms_words.specs.Items.{AreDistinct};

    ghost Value = { List Item };

    ghost view = { λ footprint. footprint.items.items };

    ghost invariant = { λ footprint. AreDistinct footprint.items.items };
}

impl Footprint {
    /// The empty footprint. It takes no memory.
    pub fn new(alloc: Global) -> Footprint
        ensures { result ≡ [] }
    {
        Footprint {
            items: Vec::new(alloc),
        }
    }

    /// Adds an item, which isn't in it, at the end. Where memory runs out, it stays as it was.
    pub fn add(&mut self, item: Item) -> Result<(), NoMemory>
        requires { ¬ Contains self.old item }
        ensures ok { OnOk result (self.new ≡ self.old ++ item ∷ []) }
        ensures err { OnErr result (self.new ≡ self.old) }
        ensures kept { AreDistinct self.new }
    {
        self.items.push(item)?;
        Ok(())
    }

    /// The items, lent. It takes no memory.
    pub fn items(&self) -> &[Item]
        ensures items { result.now ≡ self.now }
        ensures kept { AreDistinct self.now }
    {
        self.items.as_slice()
    }
}
