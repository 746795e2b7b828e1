//! The session.
#![tactic(auto)]

mod entry;
mod exploring;
mod fault;
mod fetching;
mod known;
mod laws;
mod names;
mod once;
mod output;
mod runs;
mod session;
mod stop;
mod tree;
mod unverified;

pub use laws::{
    least_inputs_come_first, once_answers_every_file, path_list_is_unique, reports_list_each_path,
    trees_are_in_choice_order,
};
pub use session::Session;
pub use stop::Stop;
