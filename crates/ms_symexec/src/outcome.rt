use ms_terms::TermId;
use ms_words::{Ended, Footprint};

/// A segment: the run up to the next choice or the end, for every input that takes the string before it.
#[derive(Drop)]
pub struct Segment {
    /// What comes then.
    pub next: SegmentNext,
    /// The items that were executed, each once, in order of first execution: the entry first in the first segment.
    pub footprint: Footprint,
}

/// What comes after a segment.
#[derive(Drop)]
pub enum SegmentNext {
    /// A choice of so many arms, 1 to 65,535.
    Choice { arms: u32 },
    /// The end.
    End(SymEnd),
}

/// How a symbolic run ends.
#[derive(Drop)]
pub enum SymEnd {
    /// It returned the int of this term.
    Returned(TermId),
    /// It ended otherwise.
    Other(Ended),
}
