ghost use Rattle.std.specs.Prelude.{◌≡◌};
ghost use Rattle.ms_classwrite.specs.declared.refusal.WriteRefusal.TheVariants.{NoMemory};

use std::alloc::AllocError;
use thiserror::Error;

/// Why no class file was written.
#[derive(Clone, Copy, Debug, PartialEq, Eq, Drop, Error)]
pub enum WriteRefusal {
    /// The pool would have more than 65,534 entries, a list (the fields, the methods, a name, a
    /// descriptor, a text, a code) has more than 65,535, or the file would have more than 1,048,576 bytes.
    #[error("the plan has too much for a class file")]
    TooMany,
    /// Memory ran out.
    #[error("memory ran out")]
    NoMemory,
}

impl From<AllocError> for WriteRefusal {
    ghost from_gives = { λ _ refusal. refusal ≡ NoMemory };

    fn from(_error: AllocError) -> WriteRefusal {
        WriteRefusal::NoMemory
    }
}
