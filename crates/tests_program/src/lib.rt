//! Tests of programs of classes.
//!
//! The expected texts come from the Java Virtual Machine Specification, SE 8, sections 2.9, 4.5 to 4.7 and 6.5,
//! and from `javap`.
#![tactic(auto)]

#[cfg(test)]
mod calls;
#[cfg(test)]
mod copying;
#[cfg(test)]
mod entries;
#[cfg(test)]
mod files;
#[cfg(test)]
mod history;
#[cfg(test)]
mod large;
#[cfg(test)]
mod telling;
#[cfg(test)]
mod views;
