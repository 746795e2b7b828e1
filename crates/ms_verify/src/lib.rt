//! The verifier: whether each method of a program obeys the type rules, and else the first fault (JVMS SE 8,
//! sections 4.9 and 4.10.2).
#![tactic(auto)]

mod kinds;
mod laws;
mod line;
mod passing;
mod reading;
mod rules;
mod shape;
mod turns;
mod verified;

pub use laws::{
    accepted_programs_are_never_stuck, accepted_programs_are_verified,
    accepted_programs_have_no_fault, first_faults_are_found, methods_are_seen,
};
pub use ms_typing::{PlaceKind, VerifyKind};
pub use verified::{Unverified, Verified, VerifyWhy};
