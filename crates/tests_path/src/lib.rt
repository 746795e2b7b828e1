//! Tests of the whole program over devices in memory, and of each public call of the crates below it.
//!
//! The expected replies come from the rules for commands, and Java's class tree from the Java Virtual Machine
//! Specification, SE 8.
#![tactic(auto)]

#[cfg(test)]
mod adapters;
#[cfg(test)]
mod commands;
#[cfg(test)]
mod faults;
#[cfg(test)]
mod layers;
#[cfg(test)]
mod lines;
#[cfg(test)]
mod running;
#[cfg(test)]
mod session;
