ghost use Rattle.std.specs.Prelude.{◌≡◌, [], ◌∷◌, ◌++◌, OnErr, OnOk};

use ms_words::NoMemory;
use std::alloc::Global;
use std::marker::Model;

/// A list of words, each of 32 bits, as a command has them.
#[derive(Debug, Drop)]
pub struct Words {
    items: Vec<i32>,
}

impl Model for Words {
    ghost use Rattle.std.specs.Prelude.{List, ℤ};

    ghost Value = { List ℤ };

    ghost view = { λ words. words.items.items };
}

impl Words {
    /// The empty list. It takes no memory.
    pub fn new(alloc: Global) -> Words
        ensures { result ≡ [] }
    {
        Words {
            items: Vec::new(alloc),
        }
    }

    /// Adds a word at the end. Where memory runs out, the list stays as it was.
    pub fn push(&mut self, word: i32) -> Result<(), NoMemory>
        ensures ok { OnOk result (self.new ≡ self.old ++ word ∷ []) }
        ensures err { OnErr result (self.new ≡ self.old) }
    {
        self.items.push(word)?;
        Ok(())
    }

    /// The words, lent. It takes no memory.
    pub fn get(&self) -> &[i32]
        ensures { result.now ≡ self.now }
    {
        self.items.as_slice()
    }
}
