//! Tests of codes, and of the words that they compute with.
//!
//! The expected texts come from the Java Virtual Machine Specification, SE 8, sections 4.7.3, 4.9.1 and
//! 6.5, from the rules for faults, and from `javap`.
#![tactic(auto)]

#[cfg(test)]
mod codes;
#[cfg(test)]
mod compiled;
#[cfg(test)]
mod large;
#[cfg(test)]
mod members;
#[cfg(test)]
mod opcodes;
#[cfg(test)]
mod switches;
#[cfg(test)]
mod telling;
#[cfg(test)]
mod words;
