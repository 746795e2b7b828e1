//! What the tests of the program share: the worked class file and files that differ from it, devices that
//! move few bytes at once, and runs of the program over devices in memory.
#![tactic(auto)]

mod paced;
mod running;
mod worked;

pub use paced::{PacedSink, PacedSource};
pub use running::{Devices, SOUND, run};
pub use worked::{ADDS, Change, changed, lengthened, line_for, thin};
