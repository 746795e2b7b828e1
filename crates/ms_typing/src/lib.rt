//! The type rules of codes, as definitions: what a place of a frame may hold, what each instruction asks and
//! leaves, and how a method is verified by type inference (JVMS SE 8, sections 4.9 and 4.10.2).
//!
//! Its laws, of any method and any program, are the contracts of functions that have no effect.
#![tactic(auto)]

mod kind;
mod laws;

pub use kind::{PlaceKind, VerifyKind};
pub use laws::{methods_have_one_outcome, verified_programs_are_never_stuck};
