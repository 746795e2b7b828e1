ghost use Rattle.std.specs.Prelude.{◌≡◌};
ghost use Rattle.ms_outside.specs.Memory.{is_listed, raised};

/// The calls that came, and the numbers of those that are to fail. They are numbered from 1.
#[derive(Debug, Drop)]
pub(crate) struct Calls {
    fails: Vec<u32>,
    count: u64,
}

impl Calls {
    /// No call has come yet. Those with these numbers are to fail.
    pub(crate) fn new(fails: Vec<u32>) -> Calls
        ensures fails { result.fails.items ≡ fails.items }
        ensures count { result.count ≡ 0 }
    {
        Calls { fails, count: 0 }
    }

    /// Counts a call, and says whether it is to fail. The count stands still at 2^64 - 1.
    pub(crate) fn next(&mut self) -> bool
        ensures listed { result ≡ is_listed self.old.fails.items (raised self.old.count) }
        ensures fails { self.new.fails.items ≡ self.old.fails.items }
        ensures count { self.new.count ≡ raised self.old.count }
    {
        self.count = self.count.saturating_add(1);
        has_number(self.fails.as_slice(), self.count)
    }
}

fn has_number(fails: &[u32], number: u64) -> bool
    ensures { result ≡ is_listed fails.now number }
{
    fails.iter().any(|listed| u64::from(*listed) == number)
}
