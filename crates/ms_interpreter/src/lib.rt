//! One interpreter for every kind of ints (JVMS SE 8, sections 2.6, 2.10, 5.5 and 6.5): what an instruction
//! does to a frame and to memory, the test that it asks, and where it leads. It is the machine's step, at
//! any ints that have an arithmetic.
#![tactic(auto)]

mod acting;
mod arithmetic;
mod arms;
mod arrays;
mod asked;
mod asking;
mod did;
mod finish;
mod frame;
mod lead;
mod leading;
mod memory;
mod operands;
mod plan;
mod settling;
mod slot;
mod starting;
mod state;
mod statics;
mod terms;
mod turn;

pub use arithmetic::Arithmetic;
pub use arms::{arm_of_case, arm_of_comparison, arm_of_divisor, arm_of_index, known_arm};
pub use asked::Asked;
pub use did::{Did, Stop};
pub use finish::Finish;
pub use frame::Frame;
pub use lead::Lead;
pub use memory::Memory;
pub use plan::Plan;
pub use slot::Slot;
pub use starting::{Beginning, start};
pub use state::State;
pub use turn::{Turn, choose, take_turn, test_asked};
