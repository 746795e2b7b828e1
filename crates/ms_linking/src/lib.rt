//! What the machine sees of a program of class files, as definitions: a table from opcodes to what the
//! machine does, and one function from a program's views to those of the machine (JVMS SE 8, sections
//! 5.4 and 6.5).
//!
//! Its laws are the contracts of functions that have no effect.
#![tactic(auto)]

mod decoding;
mod instruction;
mod laws;

pub use decoding::instruction_of;
pub use instruction::{Comparison, Instruction, Member, Sort};
pub use laws::{linked_programs_are_in_order, opcodes_have_groups, programs_are_linked};
