ghost use Rattle.std.specs.Prelude.{◌≡◌};
ghost use Rattle.ms_memoise.specs.Statuses.{code_of};

use ms_session::Stop;
use ms_words::NoMemory;

/// How a run of the program ended.
#[derive(Clone, Copy, Debug, PartialEq, Eq)]
pub enum Status {
    /// The input was read to its end or to the first `quit`, and each reply was written.
    Done,
    /// There were words on the command line, and the program takes none.
    Usage,
    /// The source failed.
    ReadFault,
    /// The sink failed.
    WriteFault,
    /// Memory ran out.
    NoMemory,
    /// The shelf failed.
    ShelfFault,
    /// More than 4,294,967,295 bytes came, and no `quit` is among the lines that the first ones end.
    TooMuchInput,
}

impl Status {
    /// The number with which the program ends.
    pub fn code(&self) -> u8
        ensures { result ≡ code_of self.now }
    {
        match self {
            Status::Done => 0,
            Status::Usage => 2,
            Status::ReadFault => 4,
            Status::WriteFault => 5,
            Status::NoMemory => 7,
            Status::ShelfFault => 8,
            Status::TooMuchInput => 9,
        }
    }

    /// What the program says on standard error: a sentence without a line feed, and nothing for
    /// `Done`.
    pub fn text(&self) -> &'static str {
        match self {
            Status::Done => "",
            Status::Usage =>
                "usage: memoise  (it takes no words; command lines come on standard input)",
            Status::ReadFault => "memoise: standard input could not be read",
            Status::WriteFault => "memoise: standard output could not be written",
            Status::NoMemory => "memoise: memory ran out",
            Status::ShelfFault => "memoise: a file of the current folder could not be read",
            Status::TooMuchInput => "memoise: more than 4,294,967,295 bytes of commands came",
        }
    }
}

impl From<NoMemory> for Status {
    ghost use Rattle.ms_memoise.specs.declared.status.Status.TheVariants as statuses;

    ghost from_gives = { λ _ status. status ≡ statuses.NoMemory };

    fn from(_: NoMemory) -> Status {
        Status::NoMemory
    }
}

impl From<Stop> for Status {
    ghost use Rattle.ms_memoise.specs.Feeding.{status_of};

    ghost from_gives = { λ stop status. status ≡ status_of stop };

    fn from(stop: Stop) -> Status {
        match stop {
            Stop::ShelfFault => Status::ShelfFault,
            Stop::WriteFault => Status::WriteFault,
            Stop::NoMemory => Status::NoMemory,
        }
    }
}
