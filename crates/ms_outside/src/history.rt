ghost use Rattle.std.specs.Prelude.{◌≡◌, ◌∷◌, ◌++◌, [], fold};
ghost use Rattle.ms_outside.specs.Histories.{with_byte};
ghost use Rattle.ms_outside.specs.Shelves.{answered};

use crate::Fetch;
use http_server::Log;
use std::fmt;
use std::marker::Model;

/// What a shelf was asked, with the answers that it gave. A clause sees it as the list of names and
/// answers; at run time nothing is kept, and no memory is taken.
#[derive(Drop)]
pub(crate) struct History {
    notes: Log<Option<u8>, Fetch>,
}

impl Model for History {
    ghost use Rattle.std.specs.Prelude.{List};
    ghost use Rattle.ms_outside.specs.Histories.{asked_in};
    ghost use Rattle.ms_outside.specs.Shelves.{Asking};

    ghost Value = { List Asking };

    ghost view = { λ history. asked_in history.notes.items };
}

impl History {
    /// Nothing was asked yet.
    pub(crate) fn new() -> History
        ensures { result ≡ [] }
    {
        History { notes: Log::new() }
    }

    /// Adds the name of a fetch with its answer, if it brought one.
    #[tactic(auto, using(crate::proofs::Histories::named))]
    pub(crate) fn add(&mut self, name: &[u8], fetched: &Fetch)
        ensures { self.new ≡ self.old ++ (name.now, answered fetched.now) ∷ [] }
    {
        self.begin(fetched);
        self.add_name(name, fetched);
    }

    /// Begins with the answer of a fetch. The name is empty yet.
    fn begin(&mut self, fetched: &Fetch)
        ensures { self.new ≡ self.old ++ ([], answered fetched.now) ∷ [] }
    {
        self.notes = self.notes.and(&None, fetched);
    }

    /// Adds these bytes to the last name.
    fn add_name(&mut self, name: &[u8], fetched: &Fetch)
        ensures { self.new ≡ fold with_byte self.old name.now }
    {
        for byte in name {
            self.notes = self.notes.and(&Some(*byte), fetched);
        }
    }
}

/// It holds nothing at run time that could be shown.
impl fmt::Debug for History {
    fn fmt<W: fmt::Write>(&self, f: &mut fmt::Formatter<W>) -> fmt::Result {
        f.write_str("History")
    }
}
