//! Programs of classes (JVMS SE 8, chapter 4): what their files say, and what one step of a run may read
//! of them.
#![tactic(auto)]

mod body;
mod file;
mod laws;
mod loaded;
mod method;
mod names;
mod program;
mod view;

pub use body::{Bodies, Body};
pub use file::{File, FileFault, first_fault, read_file};
pub use laws::{
    bodies_have_whole_codes, files_are_read, files_are_whole_or_have_a_fault,
    instructions_are_of_the_subset, members_have_first_items, views_lead_to_views,
};
pub use method::{MethodBody, MethodId};
pub use program::{AddFault, EntryRefusal, Program};
pub use view::{CatchPart, Initialiser, MemberPart, Named, View};
