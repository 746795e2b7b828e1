//! Runs of a method on an input, to a depth (JVMS SE 8, sections 2.6, 2.10, 5.5 and 6.5): how the run ends,
//! and after how many choices. Each int has a mark that says whether a parameter entered it, so it is known
//! which tests are choices. The methods of thin files still have a small interpreter of their own.
#![tactic(auto)]

mod choices;
mod execute;
mod interpreter;
mod laws;
mod marked;
mod marks;
mod path;
mod running;
mod segments;
mod stack;
mod starting;
mod turn;

pub use interpreter::thin_methods_end;
pub use laws::entered_runs_have_ends;
pub use path::{Path, path_of};
pub use running::{Ran, run};
