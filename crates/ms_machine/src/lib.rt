//! The machine, as definitions: what an instruction does, where it leads, and what runs, choices,
//! segments, strings and footprints are (JVMS SE 8, chapters 2 and 6). It is one machine for any kind
//! of ints: words with shadow terms, terms alone, or words with a mark.
//!
//! It has the instructions that are decoded: of ints, arrays of ints, throwables, strings as their
//! messages, static fields and static methods.
//!
//! Its laws over whole runs, of any program, are the contracts of functions that have no effect.
#![tactic(auto)]

mod laws;

pub use laws::{
    choices_are_small, footprints_have_views, inputs_share_shadows, least_exists, least_is_first,
    least_is_unique, marks_are_right, shadows_need_no_input, takes_where_literals_hold,
    takes_where_met, words_are_values, words_take_an_arm,
};
