ghost use Rattle.std.specs.Prelude.{◌≡◌};
ghost use Rattle.ms_classfile.specs.declared.fault.ClassFault.TheVariants.{NoMemory};

use ms_pool::ClassKind;
use std::alloc::{AllocError, AllocFailed};
use thiserror::Error;

/// Why no class was read.
#[derive(Clone, Copy, Debug, PartialEq, Eq, Drop, Error)]
pub enum ClassFault {
    /// The bytes aren't a class file as `read_class` takes it: the first fault, in reading order, and its
    /// place, which is how many bytes come before it.
    #[error("no class file: {kind:?} at {at}")]
    At { kind: ClassKind, at: u64 },
    /// Memory ran out.
    #[error("memory ran out")]
    NoMemory,
}

impl From<AllocError> for ClassFault {
    ghost from_gives = { λ _ fault. fault ≡ NoMemory };

    fn from(_error: AllocError) -> ClassFault {
        ClassFault::NoMemory
    }
}

impl<T: Drop> From<AllocFailed<T>> for ClassFault {
    ghost from_gives = { λ _ fault. fault ≡ NoMemory };

    fn from(_error: AllocFailed<T>) -> ClassFault {
        ClassFault::NoMemory
    }
}
