//! What lies outside the program: where bytes come from, where they go, and the files that a name
//! asks for.
//!
//! Each trait has a count of faults that never falls, and a call answers `Failed` only where that
//! count rose in the call. What an object holds is known only where the object tells it: forms in
//! memory do, adapters over real things need not.
#![tactic(auto)]

mod calls;
mod copying;
pub mod folder_shelf;
mod history;
pub mod memory_shelf;
pub mod memory_sink;
pub mod memory_source;
pub mod shelf;
pub mod shelved;
mod shelves;
pub mod sink;
pub mod source;
pub mod std_sink;
pub mod std_source;
pub mod sure_shelf;
pub mod sure_sink;
pub mod sure_source;
mod tally;
pub mod writing;

pub use folder_shelf::FolderShelf;
pub use memory_shelf::MemoryShelf;
pub use memory_sink::MemorySink;
pub use memory_source::MemorySource;
pub use shelf::{Fetch, Shelf};
pub use shelved::Shelved;
pub use sink::Sink;
pub use source::Source;
pub use std_sink::StdSink;
pub use std_source::StdSource;
pub use sure_shelf::SureShelf;
pub use sure_sink::SureSink;
pub use sure_source::SureSource;
pub use writing::write_all;

/// A call to the outside failed. The count of faults of the object that was called has risen.
#[derive(Clone, Copy, Debug, PartialEq, Eq)]
pub struct Failed;
