//! Terms over the parameters of the entry: how the ints of a symbolic execution depend on its input.
//!
//! A term is a constant word, a parameter, or an operator with the terms of its operands. A table keeps each
//! term once, and names it by a number, which stays valid as the table grows: equal terms have equal numbers.
//! An operator gives a constant exactly where all operands are constants.
#![tactic(auto)]

mod table;
mod term;

pub use table::Terms;
pub use term::{Term, TermId};
