use ms_words::{Name, Thrown};

/// How a run ends by itself.
#[derive(Drop)]
pub enum Finish<I> {
    /// It returned this int.
    Returned(I),
    /// It returned nothing.
    ReturnedVoid,
    /// A throwable of this class left the entry.
    Threw(Thrown),
    /// A throwable left the initialiser of the class of this number.
    InitFailed(u16),
    /// What has this name is absent or foreign.
    Missing(Name),
    /// Too many frames would stand.
    Deep,
    /// The length of an array is no constant.
    SymLength,
    /// Too much was made.
    HeapFull,
    /// No rule applies; no verified program comes to this.
    Stuck,
}
