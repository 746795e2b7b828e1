//! Tests of terms, conditions, slices and inputs that are put together.
//!
//! The expected texts follow from the rules: an operator of constants is a constant, equal terms have one number,
//! and a slice has the literals that share parameters, transitively, with the last ones.
#![tactic(auto)]

#[cfg(test)]
mod mixing;
#[cfg(test)]
mod slices;
#[cfg(test)]
mod terms;
