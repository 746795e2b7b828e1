//! Command lines, and the text of replies.
//!
//! A line is cut into tokens at its spaces, and the tokens are a command where they have the form of
//! one. Each reply is one line of text, ended by a line feed.
#![tactic(auto)]

mod command;
mod ending;
mod number;
mod printing;
mod reply;
mod tokens;
mod words;

pub use command::{Command, CommandRefusal, read_command};
pub use ending::end_text;
pub use reply::{Reply, write_reply};
pub use words::Words;
