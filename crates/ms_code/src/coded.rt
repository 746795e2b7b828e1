use crate::decoded::Decoded;
use ms_pool::ClassKind;
use thiserror::Error;

/// What a code is, where it isn't at fault.
#[derive(Drop)]
pub enum Coded {
    /// Its instructions and handlers.
    Decoded(Decoded),
    /// It has an instruction or an operand outside the subset, or a handler of a class that is no known
    /// throwable.
    Foreign,
}

/// Why a code wasn't decoded.
#[derive(Clone, Copy, Debug, PartialEq, Eq, Drop, Error)]
pub enum CodeFault {
    /// The first fault, one of `Cut`, `Target` and `Switch`, and its place in the file: that of the
    /// instruction or of the entry of the exception table.
    #[error("no code: {kind:?} at {at}")]
    At { kind: ClassKind, at: u64 },
    /// Memory ran out.
    #[error("memory ran out")]
    NoMemory,
}
