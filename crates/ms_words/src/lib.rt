//! The words that the machine computes with, their operators and relations, kinds, inputs and their
//! order, items, footprints, ends of runs, verdicts, names, and the classes of throwables.
//!
//! A word is an int of the Java virtual machine: a whole number from -2,147,483,648 to
//! 2,147,483,647 (JVMS SE 8, section 2.3). An operator computes with whole numbers and reduces the
//! result to a word. A name is a list of bytes.
#![tactic(auto)]

mod descriptor;
mod end;
mod footprint;
mod input;
mod item;
mod kind;
mod name;
mod operator;
mod thrown;
mod verdict;

pub use descriptor::{
    EntryPart, FieldType, Signature, descriptors_spell_types, entry_part, field_type,
    is_known_signature, known_parameters, known_signature,
};
pub use end::{Ended, PathEnd};
pub use footprint::Footprint;
pub use input::{Input, input_less};
pub use item::Item;
pub use kind::{Kind, Kinds};
pub use name::Name;
pub use operator::{Bin, Rel, Un, apply1, apply2, holds};
pub use std::alloc::AllocError as NoMemory;
pub use thrown::{Thrown, thrown_named};
pub use verdict::Verdict;
