//! Symbolic execution: one state for every input that takes a string of choices (King, "Symbolic execution and
//! program testing"). Its ints are terms over the parameters of the entry.
//!
//! A segment is the run up to the next choice or the end. What it executes, and what comes then, is the same for each
//! input that takes the string.
#![tactic(auto)]

mod arriving;
mod choosing;
mod counting;
mod footprints;
mod next;
mod outcome;
mod running;
mod segmenting;
mod segments;
mod starting;
mod state;

pub use choosing::choose;
pub use outcome::{Segment, SegmentNext, SymEnd};
pub use running::segment;
pub use starting::start;
pub use state::State;
