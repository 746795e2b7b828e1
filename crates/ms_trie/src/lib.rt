//! The trie of a symbolic execution. Today the crate has the strings of arms that lead through it, and
//! the rows of a report on them.
#![tactic(auto)]

mod choices;
mod row;

pub use choices::ChoiceString;
pub use row::{Outcome, PathRow};
