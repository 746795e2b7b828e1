ghost use Rattle.std.specs.Prelude.{◌≡◌};
ghost use Rattle.ms_code.specs.declared.trouble.Trouble.TheVariants.{At, NoMemory};
ghost use Rattle.ms_pool.specs.declared.code.ClassKind.TheVariants as kinds;

use ms_pool::ClassKind;
use std::alloc::{AllocError, AllocFailed};

/// Why a code isn't decoded.
#[derive(Clone, Copy)]
pub enum Trouble {
    /// It has an instruction or an operand that is outside the subset, or a handler of a class that is no
    /// known throwable.
    Foreign,
    /// It is no code: a kind of fault, and the place in the file.
    At { kind: ClassKind, at: u64 },
    /// Memory ran out.
    NoMemory,
}

impl From<AllocError> for Trouble {
    ghost from_gives = { λ _ trouble. trouble ≡ NoMemory };

    fn from(_error: AllocError) -> Trouble {
        Trouble::NoMemory
    }
}

impl<T: Drop> From<AllocFailed<T>> for Trouble {
    ghost from_gives = { λ _ trouble. trouble ≡ NoMemory };

    fn from(_error: AllocFailed<T>) -> Trouble {
        Trouble::NoMemory
    }
}

/// An instruction that passes the end of the code.
pub fn cut(place: u64) -> Trouble
    ensures { result ≡ At kinds.Cut place }
{
    Trouble::At {
        kind: ClassKind::Cut,
        at: place,
    }
}
