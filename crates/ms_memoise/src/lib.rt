//! The whole program over an outside that is handed in: it reads command lines from a source, runs them
//! in a session, which asks a shelf for class files, and writes each reply to a sink.
#![tactic(auto)]

mod conversation;
mod feed;
mod flow;
mod program;
mod response;
mod status;
mod sure;

pub use conversation::converse;
pub use program::{MOST_INPUT, memoise};
pub use status::Status;
pub use sure::memoise_sure;
