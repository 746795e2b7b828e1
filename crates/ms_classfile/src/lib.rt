//! Class files (JVMS SE 8, chapter 4). `read_class` reads those of classes directly below
//! java/lang/Object, up to major version 52, or gives their first fault. `read_thin` reads thin files
//! alone: those of one class with one static method over ints and booleans, whose code computes, branches
//! ahead and returns.
#![tactic(auto)]

mod class;
mod fault;
mod instruction;
mod reading;
mod thin;

pub use class::{Class, FieldRow, Fields, MethodRow, Methods};
pub use fault::ClassFault;
pub use instruction::{Condition, Instruction};
pub use reading::{
    class_files_are_read, class_files_are_whole_or_have_a_fault, codes_lie_in_their_file,
    faults_have_places, members_are_distinct, pools_lie_in_their_file, read_class,
};
pub use thin::{ThinMethod, read_thin, thin_files_are_read};
