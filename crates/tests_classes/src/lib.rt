//! Tests of thin class files and of the runs of their methods: which files are thin, what the first fault of
//! others is, what their code does, and which choices its runs come to.
//!
//! The expected replies come from the rules for class files, codes and thin files, and those of Java's
//! instructions from the Java Virtual Machine Specification, SE 8.
#![tactic(auto)]

#[cfg(test)]
mod branches;
#[cfg(test)]
mod classes;
#[cfg(test)]
mod codes;
#[cfg(test)]
mod running;
