ghost use Rattle.std.specs.Prelude.{◌≡◌};
ghost use Rattle.ms_classfile.specs.declared.thin.failure.Failure.TheVariants.{NotThin, NoMemory};

use ms_pool::Short;
use std::alloc::{AllocError, AllocFailed};

/// What is read is not what a thin file has there. A reader that takes no memory fails so alone.
#[derive(Clone, Copy, Debug, PartialEq, Eq)]
pub struct Refused;

impl From<Short> for Refused {
    fn from(_short: Short) -> Refused {
        Refused
    }
}

/// Why no method is read: the bytes are not a thin file, or memory ran out.
#[derive(Clone, Copy, Debug, PartialEq, Eq)]
pub enum Failure {
    /// The bytes are not a thin file.
    NotThin,
    /// Memory ran out before that was known.
    NoMemory,
}

impl From<Refused> for Failure {
    ghost from_gives = { λ _ failure. failure ≡ NotThin };

    fn from(_refused: Refused) -> Failure {
        Failure::NotThin
    }
}

impl From<Short> for Failure {
    ghost from_gives = { λ _ failure. failure ≡ NotThin };

    fn from(_short: Short) -> Failure {
        Failure::NotThin
    }
}

impl From<AllocError> for Failure {
    ghost from_gives = { λ _ failure. failure ≡ NoMemory };

    fn from(_error: AllocError) -> Failure {
        Failure::NoMemory
    }
}

impl<T: Drop> From<AllocFailed<T>> for Failure {
    ghost from_gives = { λ _ failure. failure ≡ NoMemory };

    fn from(_error: AllocFailed<T>) -> Failure {
        Failure::NoMemory
    }
}
