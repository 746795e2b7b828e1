use crate::Input;

/// What a search for an input that meets a condition found.
#[derive(Clone, Copy, Debug)]
pub enum Verdict {
    /// This input meets it, and none that comes before it does.
    Sat(Input),
    /// No input meets it.
    Unsat,
    /// The search was given up: its budget or its room was spent.
    Spent,
}
