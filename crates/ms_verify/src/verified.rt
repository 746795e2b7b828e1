ghost use Rattle.std.specs.Prelude.{◌≡◌, ◌<◌, IfErr, IfOk, IfSome, length, slice_get};
ghost use Rattle.ms_program.specs.Programs.{IsProgram};
ghost use Rattle.ms_verify.specs.Methods.{AllAccepted};
ghost use Rattle.ms_verify.specs.Checking.{HasFault, IsChecked, IsCheckedClass, IsCheckedProgram, IsWhy};

use crate::line::Fault;
use crate::reading::code_of;
use crate::turns::fault_in;
use ms_program::Program;
use ms_typing::VerifyKind;
use std::alloc::{AllocError, Global};
use std::marker::Model;
use thiserror::Error;

/// A program of which each method that isn't foreign obeys the type rules (JVMS SE 8, sections 4.9 and
/// 4.10.2), as far as it is reached from its first instruction. So no run of an entry of it is ever stuck.
#[derive(Drop)]
pub struct Verified {
    program: Program,
}

impl Model for Verified {
    ghost use Rattle.ms_program.specs.Programs.{Program as Seen};
    ghost use Rattle.ms_verify.specs.Methods.{AllAccepted};

    ghost Value = { Seen };

    ghost view = { λ verified. verified.program };

    ghost invariant = { λ verified. AllAccepted verified.program };
}

/// Why a program isn't verified.
#[derive(Clone, Copy, Debug, PartialEq, Eq, Drop, Error)]
pub enum VerifyWhy {
    /// A rule fails first there: in the first method that has a fault, by the numbers of classes and of the
    /// methods in them, which count from 0, foreign ones too; at the instruction of this offset, in bytes, of
    /// its code. Of two stacks of different depths it is the instruction that both lead to.
    #[error("{kind:?} in class {class}, method {method}, at {offset}")]
    Fault {
        class: u16,
        method: u16,
        offset: u16,
        kind: VerifyKind,
    },
    /// Memory ran out.
    #[error("memory ran out")]
    NoMemory,
}

/// A program that isn't verified, handed back, and why.
#[derive(Drop)]
pub struct Unverified {
    pub program: Program,
    pub why: VerifyWhy,
}

/// What is wrong with a method first.
fn fault_of_method(
    alloc: Global,
    program: &Program,
    class: u16,
    method: u16,
) -> Result<Option<Fault>, AllocError>
    requires class { class < length program.now.classes }
    requires method { IfSome (slice_get program.now.classes class) (λ class. method < length class.methods) }
    requires program { IsProgram program.now }
    ensures { IfOk result (IsChecked program.now class method) }
{
    match code_of(alloc, program, class, method)? {
        Some(code) => fault_in(alloc, &code),
        None => Ok(None),
    }
}

/// The first method of a class that has a fault, and that fault.
fn fault_of_class(
    alloc: Global,
    program: &Program,
    class: u16,
) -> Result<Option<(u16, Fault)>, AllocError>
    requires class { class < length program.now.classes }
    requires program { IsProgram program.now }
    ensures { IfOk result (IsCheckedClass program.now class) }
{
    for method in 0..program.methods(class) {
        if let Some(fault) = fault_of_method(alloc, program, class, method)? {
            return Ok(Some((method, fault)));
        }
    }
    Ok(None)
}

/// The first class and method that have a fault, and that fault.
fn fault_of_program(
    alloc: Global,
    program: &Program,
) -> Result<Option<(u16, u16, Fault)>, AllocError>
    ensures { IfOk result (IsCheckedProgram program.now) }
{
    for class in 0..program.classes() {
        if let Some((method, fault)) = fault_of_class(alloc, program, class)? {
            return Ok(Some((class, method, fault)));
        }
    }
    Ok(None)
}

impl Verified {
    /// Verifies each method of a program that isn't foreign. A program that isn't verified is handed back, with
    /// its first fault, or since memory ran out. In a method offset 0 waits first, and the lowest offset that
    /// waits is always taken next: depth, local, kind, return and the fall off the end are tested in this order,
    /// and then what the instruction leaves is passed on. It ends on every program, since what is known of a
    /// method's places only ever grows wider.
    pub fn new(alloc: Global, program: Program) -> Result<Verified, Unverified>
        ensures accepted { IfOk result (λ _. AllAccepted program) }
        ensures kept { IfOk result (λ verified. verified ≡ program) }
        ensures why { IfErr result (λ unverified. IsWhy program unverified.why) }
        ensures handed_back { IfErr result (λ unverified. unverified.program ≡ program) }
    {
        let why = match fault_of_program(alloc, &program) {
            Ok(None) => return Ok(Verified { program }),
            Ok(Some((class, method, fault))) => VerifyWhy::Fault {
                class,
                method,
                offset: fault.offset,
                kind: fault.kind,
            },
            Err(_) => VerifyWhy::NoMemory,
        };
        Err(Unverified { program, why })
    }

    /// The program, lent.
    pub fn program(&self) -> &Program
        ensures program { result.now ≡ self.now }
        ensures verified { AllAccepted self.now }
    {
        &self.program
    }

    /// The program, handed back.
    pub fn into_program(self) -> Program
        ensures program { result ≡ self }
        ensures verified { AllAccepted self }
    {
        self.program
    }
}
