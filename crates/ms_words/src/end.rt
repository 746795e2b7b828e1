ghost use Rattle.std.specs.Prelude.{◌≡◌, IfOk};

use crate::{Name, NoMemory, Thrown};
use std::alloc::Global;

/// How a run ends by itself. The limits below are this project's; the standard leaves such limits to the
/// machine.
#[derive(Debug, Drop)]
pub enum Ended {
    /// The entry returned this word, from -2,147,483,648 to 2,147,483,647 (JVMS SE 8, section 2.6.4).
    Returned(i32),
    /// The entry returned, and it is void (section 2.6.4).
    ReturnedVoid,
    /// A throwable of this class left the entry, which no handler on the way caught (section 2.10).
    Threw(Thrown),
    /// A throwable left the initialiser of the class of this number, counted from 0 in the order in which
    /// classes were added (section 5.5).
    InitFailed(u16),
    /// The run came to something that the program doesn't have (section 5.4.3). It has its name: that of a
    /// class that is absent; a class, a full stop and a name for a field that is absent; the same and a
    /// descriptor for a method that is absent or foreign; and a class, a full stop and `<clinit>` for an
    /// initialiser that is foreign.
    Missing(Name),
    /// A segment executed 20,000 instructions and came to no choice and no end.
    Runaway,
    /// 256 frames stood, and one more was due (section 2.5.2 says which error a machine then throws).
    Deep,
    /// An array was to be made, and a parameter entered its length (section 6.5, newarray).
    SymLength,
    /// An array of more than 256 cells was to be made, or one with which the arrays of the run would have more
    /// than 4,096 cells in all, or an array or a throwable where 4,096 of both had been made.
    HeapFull,
}

impl Ended {
    /// The same end once more. It fails for want of memory alone.
    pub fn copy(&self, alloc: Global) -> Result<Ended, NoMemory>
        ensures { IfOk result (λ end. end ≡ self.now) }
    {
        match self {
            Ended::Returned(word) => Ok(Ended::Returned(*word)),
            Ended::ReturnedVoid => Ok(Ended::ReturnedVoid),
            Ended::Threw(class) => Ok(Ended::Threw(*class)),
            Ended::InitFailed(class) => Ok(Ended::InitFailed(*class)),
            Ended::Missing(name) => Ok(Ended::Missing(Name::of(alloc, name.bytes())?)),
            Ended::Runaway => Ok(Ended::Runaway),
            Ended::Deep => Ok(Ended::Deep),
            Ended::SymLength => Ok(Ended::SymLength),
            Ended::HeapFull => Ok(Ended::HeapFull),
        }
    }
}

/// How a path ends: by itself, or cut at the depth.
#[derive(Debug, Drop)]
pub enum PathEnd {
    /// The run ended by itself.
    Ended(Ended),
    /// One choice more was due than the depth allows.
    Cut,
}

impl PathEnd {
    /// The same end once more. It fails for want of memory alone.
    pub fn copy(&self, alloc: Global) -> Result<PathEnd, NoMemory>
        ensures { IfOk result (λ end. end ≡ self.now) }
    {
        match self {
            PathEnd::Ended(end) => Ok(PathEnd::Ended(end.copy(alloc)?)),
            PathEnd::Cut => Ok(PathEnd::Cut),
        }
    }
}
