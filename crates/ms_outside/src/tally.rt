ghost use Rattle.std.specs.Prelude.{◌≡◌, [], ◌∷◌, ◌++◌};
ghost use Rattle.ms_outside.specs.Shelves.{FetchHasCauses, answered};
ghost use Rattle.ms_outside.specs.Memory.{counts_after};

use crate::Fetch;
use crate::history::History;
use std::marker::Model;

/// What a shelf was asked, and how often it failed, had no file of a name, and had one that is too long.
/// Each of the three counts stands still at 2^64 - 1.
#[derive(Debug, Drop)]
pub(crate) struct Tally {
    history: History,
    faults: u64,
    misses: u64,
    overlong: u64,
}

impl Model for Tally {
    ghost use Rattle.ms_outside.specs.Histories.{ShelfHistory};

    ghost Value = { ShelfHistory };

    ghost view = { λ tally. record { asked = tally.history; counts = record { faults = tally.faults; misses = tally.misses; overlong = tally.overlong } } };
}

impl Tally {
    /// Nothing was asked yet.
    pub(crate) fn new() -> Tally
        ensures { result ≡ record { asked = []; counts = record { faults = 0; misses = 0; overlong = 0 } } }
    {
        Tally {
            history: History::new(),
            faults: 0,
            misses: 0,
            overlong: 0,
        }
    }

    /// Adds the name with its answer, if there is one, and raises the count that tells of it, if one does.
    pub(crate) fn count(&mut self, name: &[u8], fetched: &Fetch)
        ensures asked { self.new.asked ≡ self.old.asked ++ (name.now, answered fetched.now) ∷ [] }
        ensures after { self.new.counts ≡ counts_after self.old.counts fetched.now }
        ensures causes { FetchHasCauses self.old.counts self.new.counts fetched.now }
    {
        self.history.add(name, fetched);
        match fetched {
            Fetch::Bytes(_) | Fetch::NoMemory => {}
            Fetch::Absent => self.misses = self.misses.saturating_add(1),
            Fetch::TooLong => self.overlong = self.overlong.saturating_add(1),
            Fetch::Failed => self.faults = self.faults.saturating_add(1),
        }
    }
}
