//! Reports: a line for each path with its least input and how it ends, and a line for each string whose
//! search was given up.
#![tactic(auto)]

mod line;
mod number;
mod report;

pub use report::{ReportStop, Totals, write_report};
