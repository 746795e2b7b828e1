//! Class files, written from a plan (JVMS SE 8, chapter 4): a class directly below java/lang/Object, with
//! its pool lines, its fields and its methods. Each entry of the constant pool stands in it once.
#![tactic(auto)]

mod law;
mod limits;
mod lines;
mod octets;
mod parts;
mod plan;
mod pool;
mod refusal;
mod writing;

pub use law::written_plans_are_read_back;
pub use octets::Octets;
pub use plan::{ClassPlan, PlanField, PlanMethod, PoolLine};
pub use refusal::WriteRefusal;
pub use std::alloc::AllocError as NoMemory;
pub use writing::write_class;
