//! The code of a method, decoded (JVMS SE 8, sections 4.7.3, 4.9.1 and 6.5): its instructions by their
//! offsets and its handlers; or that it is foreign, since it has an instruction, an operand or a handler
//! outside the subset that is explored; or its first fault.
//!
//! `specs/Opcodes` has the table of the subset, `specs/Instructions` how each form of operands is
//! written, `specs/Codes` what a whole code says.
#![tactic(auto)]

mod checking;
mod coded;
mod decoded;
mod decoding;
mod form;
mod instruction;
mod laws;
mod names;
mod numbers;
mod operands;
mod switches;
mod trouble;
mod walking;

pub use coded::{CodeFault, Coded};
pub use decoded::{Decoded, Handler};
pub use decoding::decode;
pub use instruction::{Case, Instr, Operand, Switch};
pub use laws::{codes_are_decoded_foreign_or_at_fault, codes_are_read, decoded_codes_are_whole};
