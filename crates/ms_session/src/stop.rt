use thiserror::Error;

/// Why a command broke off. The session is given up then.
#[derive(Clone, Copy, Debug, PartialEq, Eq, Drop, Error)]
pub enum Stop {
    /// The shelf failed.
    #[error("the shelf failed")]
    ShelfFault,
    /// The sink failed.
    #[error("the sink failed")]
    WriteFault,
    /// Memory ran out.
    #[error("memory ran out")]
    NoMemory,
}
