//! Conditions on the input: lists of relations between terms, and their slices.
//!
//! A slice has the literals that share parameters, transitively, with the last ones, in their order. The others
//! speak of other parameters, so an input that makes them true and one that makes the slice true are put
//! together, parameter by parameter, to one that makes all true.
#![tactic(auto)]

mod condition;
mod gathering;
mod laws;
mod literal;
mod mixing;

pub use condition::{Condition, Slice};
pub use laws::{
    least_inputs_are_put_together, slices_are_put_together, tables_that_grow_keep_slices,
    takers_make_slices_true,
};
pub use literal::{Literal, Literals, support};
pub use mixing::put_together;
