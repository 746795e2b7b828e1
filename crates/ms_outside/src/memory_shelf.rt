ghost use Rattle.std.specs.Prelude.{◌≡◌, ◌↔◌, ◌∷◌, ◌++◌, [], Some, IfSome, IsTrue};
ghost use Rattle.ms_outside.specs.Shelves.{FetchHasCauses, IsWithinLimit, answer_of, answered};
ghost use Rattle.ms_outside.specs.Memory.{ShelfState, HasBytes, is_listed, raised, shelf_after};

use crate::calls::Calls;
use crate::shelves::fetch_from;
use crate::tally::Tally;
use crate::{Fetch, Shelf, Shelved};
use std::alloc::Global;
use std::marker::Model;

/// Files in memory whose fetches fail where a list says so. The fetches are numbered from 1, and the
/// number stands still at 2^64 - 1.
#[derive(Debug, Drop)]
pub struct MemoryShelf {
    files: Vec<Shelved>,
    calls: Calls,
    tally: Tally,
}

impl Model for MemoryShelf {
    ghost Value = { ShelfState };

    ghost view = { λ shelf. record { files = shelf.files.items; fails = shelf.calls.fails.items; calls = shelf.calls.count; asked = shelf.tally.asked; counts = shelf.tally.counts } };
}

impl MemoryShelf {
    /// A shelf with these files. The fetches whose numbers are in `fails` are to fail.
    pub fn new(files: Vec<Shelved>, fails: Vec<u32>) -> MemoryShelf
        ensures { result ≡ record { files = files.items; fails = fails.items; calls = 0; asked = []; counts = record { faults = 0; misses = 0; overlong = 0 } } }
    {
        MemoryShelf {
            files,
            calls: Calls::new(fails),
            tally: Tally::new(),
        }
    }
}

impl Shelf for MemoryShelf {
    ghost files = { λ shelf. Some shelf.files };

    ghost counts = { λ shelf. shelf.counts };

    ghost asked = { λ shelf. shelf.asked };

    /// Answers `Failed` where its number is listed, and nowhere else. `NoMemory` comes only where
    /// there are bytes to hand out.
    fn fetch(&mut self, alloc: Global, name: &[u8]) -> Fetch
        ensures answer { IfSome (answered result) (λ answer. answer ≡ answer_of self.old.files name.now) }
        ensures size { IfSome (answered result) IsWithinLimit }
        ensures files { self.new.files ≡ self.old.files }
        ensures causes { FetchHasCauses self.old.counts self.new.counts result }
        ensures asked { self.new.asked ≡ self.old.asked ++ (name.now, answered result) ∷ [] }
        ensures listed { (result ≡ Fetch.Failed) ↔ IsTrue (is_listed self.old.fails (raised self.old.calls)) }
        ensures memory { result ≡ Fetch.NoMemory → HasBytes (answer_of self.old.files name.now) }
        ensures after { self.new ≡ shelf_after self.old name.now result }
    {
        let fetched = if self.calls.next() {
            Fetch::Failed
        } else {
            fetch_from(alloc, self.files.as_slice(), name)
        };
        self.tally.count(name, &fetched);
        fetched
    }
}
