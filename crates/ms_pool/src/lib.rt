//! Numbers and runs of bytes, read one after another from a list of bytes and written to one, as class
//! files and stores spell them: each number with its highest byte first. The constant pool of a class
//! file, read and lent. The rows of a Code attribute, for the crates that read and decode it.
//! `specs/Formats` has what a format of bytes is.
#![tactic(auto)]

mod code;
mod cursor;
mod entry;
mod index;
mod out;
mod pool;
mod reading;

pub use code::{ClassKind, CodeRow, Handlers, RawHandler};
pub use cursor::{Cursor, Short};
pub use index::{Member, PoolIndex};
pub use out::Out;
pub use pool::{PoolFault, pools_are_whole_or_have_a_fault, pools_hold_what_they_name};
pub use reading::{Pool, read_pool};
