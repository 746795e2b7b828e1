//! Tests of what is read from class files.
//!
//! The expected values come from the Java Virtual Machine Specification, SE 8, chapter 4, and from the
//! rules for faults.
#![tactic(auto)]

#[cfg(test)]
mod classes;
#[cfg(test)]
mod codes;
pub mod javac;
#[cfg(test)]
mod pools;
