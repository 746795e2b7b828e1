ghost use Rattle.std.specs.Prelude.{◌≡◌, ◌∷◌, ◌++◌, [], IfOk, OnOk, not, if◌then◌else◌, slice_index};
ghost use Rattle.ms_classfile.specs.Seen.{AreNumbers, IsPlaced, has_key};

use super::names::Head;
use indexmap::IndexSet;
use ms_pool::Pool;
use std::alloc::{AllocError, Global};
use std::marker::Model;

/// A number for each text of a pool, by its number in the pool. Equal texts have the same, others have
/// others: so that two names are compared without their bytes.
#[derive(Debug, Drop)]
pub struct Texts {
    numbers: Vec<usize>,
}

impl Model for Texts {
    ghost use Rattle.std.specs.Prelude.{ℕ, List};

    ghost Value = { List ℕ };

    ghost view = { λ texts. texts.numbers.items };
}

/// The place of the text of this number among the texts, which get it where they lack it, and 0 where
/// none has the number.
fn number_in<'a>(
    texts: &mut IndexSet<&'a [u8]>,
    pool: &Pool<'a>,
    i: u16,
) -> Result<usize, AllocError>
    ensures { IfOk result (λ number. IsPlaced pool.now i texts.old.keys texts.new.keys number) }
{
    match pool.utf8(i) {
        Some(text) => Ok(texts.insert_full(text)?.0),
        None => Ok(0),
    }
}

impl Texts {
    /// The numbers of the texts of this pool. Each text is looked at once.
    pub fn of(alloc: Global, pool: &Pool<'_>) -> Result<Texts, AllocError>
        ensures { IfOk result (λ texts. AreNumbers pool.now texts) }
    {
        let mut texts = IndexSet::new(alloc);
        let mut numbers = Vec::new(alloc);
        for i in 0..pool.count() {
            let number = number_in(&mut texts, pool, i)?;
            numbers.push(number)?;
        }
        Ok(Texts { numbers })
    }

    /// The number of the text that has this number in the pool, and 0 where none has.
    pub fn number(&self, i: u16) -> usize
        ensures { result ≡ slice_index self.now i }
    {
        self.numbers.get(usize::from(i)).copied().unwrap_or(0)
    }

    /// The key of a name and a descriptor.
    pub fn key(&self, head: Head<'_>) -> (usize, usize)
        ensures { result ≡ (slice_index self.now head.entry.name.index, slice_index self.now head.entry.desc.index) }
    {
        (self.number(head.name.index), self.number(head.desc.index))
    }
}

/// Names with descriptors, by the numbers of their texts, in the order in which they came.
#[derive(Debug, Drop)]
pub struct Keys {
    keys: IndexSet<(usize, usize)>,
}

impl Model for Keys {
    ghost use Rattle.std.specs.Prelude.{ℕ, List};

    ghost Value = { List (ℕ × ℕ) };

    ghost view = { λ keys. keys.keys.keys };
}

impl Keys {
    /// No keys.
    pub fn new(alloc: Global) -> Keys
        ensures { result ≡ [] }
    {
        Keys {
            keys: IndexSet::new(alloc),
        }
    }

    /// Adds a key, and says whether it is new.
    pub fn add(&mut self, key: (usize, usize)) -> Result<bool, AllocError>
        ensures new { IfOk result (λ new. new ≡ not (has_key key self.old)) }
        ensures added { OnOk result (self.new ≡ (if has_key key self.old then self.old else self.old ++ key ∷ [])) }
    {
        let new = self.keys.insert(key)?;
        Ok(new)
    }
}
