ghost use Rattle.std.specs.Prelude.{◌≡◌, IfOk, IsSome, Some};
ghost use Rattle.ms_program.specs.Programs.{IsProgram};
ghost use Rattle.ms_verify.specs.Checking.{IsWhy};
ghost use Rattle.ms_verify.specs.Faults.{ProgramFault, fault_of};
ghost use Rattle.ms_verify.specs.Methods.{method_of};
ghost use Rattle.ms_session.specs.Once as once;

use ms_command::Reply;
use ms_program::Program;
use ms_verify::{Unverified, VerifyKind, VerifyWhy, first_faults_are_found};
use ms_words::{Name, NoMemory};
use std::alloc::{AllocError, Global};

/// The name of a kind of fault of the type rules.
fn verify_name(kind: VerifyKind) -> &'static [u8]
    ensures { result.now ≡ once.verify_name kind }
{
    match kind {
        VerifyKind::Depth => b"Depth",
        VerifyKind::Kind => b"Kind",
        VerifyKind::Local => b"Local",
        VerifyKind::FallOff => b"FallOff",
        VerifyKind::Merge => b"Merge",
        VerifyKind::Return => b"Return",
    }
}

/// The name of a method that isn't foreign and, behind it, its descriptor.
fn method_name(alloc: Global, program: &Program, class: u16, method: u16) -> Result<Name, NoMemory>
    requires { IsSome (method_of program.now class method) }
    ensures { IfOk result (λ name. name ≡ once.method_name program.now class method) }
{
    let Some(body) = program.method_body(class, method) else {
        unreachable!()
    };
    let mut text = Vec::from_slice(alloc, body.name)?;
    text.extend_from_slice(body.desc)?;
    Name::of(alloc, text.as_slice())
}

/// The reply to a program that isn't verified.
pub fn unverified_reply(alloc: Global, unverified: &Unverified) -> Result<Reply, NoMemory>
    requires program { IsProgram unverified.now.program }
    requires why { IsWhy unverified.now.program unverified.now.why }
    ensures { IfOk result (λ reply. (fault : ProgramFault) × (fault_of unverified.now.program ≡ Some fault) × (reply ≡ once.unverified_reply unverified.now.program fault)) }
{
    first_faults_are_found();
    match unverified.why {
        VerifyWhy::Fault {
            class,
            method,
            offset,
            kind,
        } => {
            let method = method_name(alloc, &unverified.program, class, method)?;
            let kind = Name::of(alloc, verify_name(kind))?;
            Ok(Reply::VerifyFault {
                kind,
                method,
                offset,
            })
        }
        VerifyWhy::NoMemory => Err(AllocError),
    }
}
