ghost use Rattle.std.specs.Prelude.{◌≡◌, ◌≢◌, ◌∷◌, ◌++◌, [], Some, IfSome};
ghost use Rattle.ms_outside.specs.Shelves.{FetchHasCauses, IsWithinLimit, answer_of, answered};
ghost use Rattle.ms_outside.specs.Memory.{SureShelfState, HasBytes, sure_counts, sure_shelf_after};

use crate::shelves::fetch_from;
use crate::tally::Tally;
use crate::{Fetch, Shelf, Shelved};
use std::alloc::Global;
use std::marker::Model;

/// Files in memory none of whose fetches fails.
#[derive(Debug, Drop)]
pub struct SureShelf {
    files: Vec<Shelved>,
    tally: Tally,
}

impl Model for SureShelf {
    ghost Value = { SureShelfState };

    ghost view = { λ shelf. record { files = shelf.files.items; asked = shelf.tally.asked; misses = shelf.tally.counts.misses; overlong = shelf.tally.counts.overlong } };
}

impl SureShelf {
    /// A shelf with these files.
    pub fn new(files: Vec<Shelved>) -> SureShelf
        ensures { result ≡ record { files = files.items; asked = []; misses = 0; overlong = 0 } }
    {
        SureShelf {
            files,
            tally: Tally::new(),
        }
    }
}

impl Shelf for SureShelf {
    ghost files = { λ shelf. Some shelf.files };

    ghost counts = { sure_counts };

    ghost asked = { λ shelf. shelf.asked };

    /// Never answers `Failed`. `NoMemory` comes only where there are bytes to hand out.
    fn fetch(&mut self, alloc: Global, name: &[u8]) -> Fetch
        ensures answer { IfSome (answered result) (λ answer. answer ≡ answer_of self.old.files name.now) }
        ensures size { IfSome (answered result) IsWithinLimit }
        ensures files { self.new.files ≡ self.old.files }
        ensures causes { FetchHasCauses (sure_counts self.old) (sure_counts self.new) result }
        ensures asked { self.new.asked ≡ self.old.asked ++ (name.now, answered result) ∷ [] }
        ensures sure { result ≢ Fetch.Failed }
        ensures memory { result ≡ Fetch.NoMemory → HasBytes (answer_of self.old.files name.now) }
        ensures after { self.new ≡ sure_shelf_after self.old name.now result }
    {
        let fetched = fetch_from(alloc, self.files.as_slice(), name);
        self.tally.count(name, &fetched);
        fetched
    }
}
