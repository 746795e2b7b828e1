use crate::ChoiceString;
use ms_words::{Input, PathEnd};

/// What became of a string.
#[derive(Debug, Drop)]
pub enum Outcome {
    /// The search for an input that takes it was given up.
    Undecided,
    /// It is a path: its least input, and how the path ends.
    Path { input: Input, end: PathEnd },
}

/// A row of a report: a string whose search was given up, or a path with its least input and how it
/// ends.
#[derive(Debug, Drop)]
pub struct PathRow {
    pub choices: ChoiceString,
    pub outcome: Outcome,
}
