//! Tests of what class files are written.
#![tactic(auto)]

#[cfg(test)]
mod written;
