//! Tests of the verifier.
//!
//! The expected texts come from a verifier in Python that was written from the rules (JVMS SE 8, sections 4.9
//! and 4.10.2), and is not part of this repository.
#![tactic(auto)]

#[cfg(test)]
mod changes;
#[cfg(test)]
mod compiled;
#[cfg(test)]
mod faults;
#[cfg(test)]
mod flows;
#[cfg(test)]
mod hostile;
#[cfg(test)]
mod keeping;
#[cfg(test)]
mod kinds;
#[cfg(test)]
mod linked;
#[cfg(test)]
mod programs;
#[cfg(test)]
mod telling;
#[cfg(test)]
mod writing;
