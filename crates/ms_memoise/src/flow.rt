/// What follows a line.
#[derive(Clone, Copy, Debug, PartialEq, Eq)]
pub enum Flow {
    /// More lines are done.
    GoesOn,
    /// The line was a quit: no more lines are done.
    Quits,
}
