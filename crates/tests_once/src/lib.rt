//! Tests of `once` on classes as `javac` makes them, and on classes with a method for each opcode and each end.
//!
//! The sources of the first stand in `tools/java`; the others are assembled from `tools/every.py` and
//! `tools/every_end.py`. `tools/jvm_answers.py` ran their methods on the Java machine and wrote the modules
//! here: each has a class file, command lines, and the replies to them. The ends that the Java machine doesn't
//! have are told by the rules.
#![tactic(auto)]

#[cfg(test)]
mod answers;
#[cfg(test)]
mod bits;
#[cfg(test)]
mod broken;
#[cfg(test)]
mod callers;
#[cfg(test)]
mod every_array;
#[cfg(test)]
mod every_branch;
#[cfg(test)]
mod every_catch;
#[cfg(test)]
mod every_end;
#[cfg(test)]
mod every_fails;
#[cfg(test)]
mod every_fails_itself;
#[cfg(test)]
mod every_foreign;
#[cfg(test)]
mod every_foreign_start;
#[cfg(test)]
mod every_int;
#[cfg(test)]
mod every_load;
#[cfg(test)]
mod every_mark;
#[cfg(test)]
mod every_member;
#[cfg(test)]
mod every_own;
#[cfg(test)]
mod every_stack;
#[cfg(test)]
mod every_started;
#[cfg(test)]
mod every_switch;
#[cfg(test)]
mod every_throw;
#[cfg(test)]
mod faults;
#[cfg(test)]
mod helper;
#[cfg(test)]
mod kinds;
#[cfg(test)]
mod limits;
#[cfg(test)]
mod numbers;
#[cfg(test)]
mod recursion;
#[cfg(test)]
mod sieve;
#[cfg(test)]
mod sorting;
#[cfg(test)]
mod statics;
#[cfg(test)]
mod switches;
