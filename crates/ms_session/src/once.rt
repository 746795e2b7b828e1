ghost use Rattle.std.specs.Prelude.{◌≡◌, Err, IfOk, IfSome, IsSome, MatchResult, Ok, Some, option_and_then, option_map, true};
ghost use Rattle.ms_classfile.specs.declared.fault.ClassFault.TheVariants.{At};
ghost use Rattle.ms_program.specs.Files.{File};
ghost use Rattle.ms_program.specs.Programs.{body_of, can_be_entry, key_of};
ghost use Rattle.ms_program.specs.Reading.{file_read};
ghost use Rattle.ms_verify.specs.Faults.{fault_of};
ghost use Rattle.ms_jvm.specs.Entered.{entered};
ghost use Rattle.ms_session.specs.Once as replies;
ghost use Rattle.ms_session.specs.Once.{call_reply, names_of, once_reply, program_in, read_reply, verified_reply};
ghost use Rattle.ms_session.specs.Sessions.{answer_in};

use crate::fault::fault_reply;
use crate::fetching::Fetched;
use crate::names::class_names;
use crate::unverified::unverified_reply;
use ms_command::{Reply, Words, end_text};
use ms_jvm::run;
use ms_program::{AddFault, FileFault, MethodId, Program, files_are_read};
use ms_verify::{Verified, first_faults_are_found};
use ms_words::{Input, Kinds, Name, NoMemory, entry_part};
use std::alloc::{AllocError, Global};

/// The most choices of a run.
const DEPTH: u16 = 256;

/// A method that can be an entry, and the kinds of its parameters.
#[derive(Clone, Copy)]
struct EntryMethod {
    id: MethodId,
    kinds: Kinds,
}

/// The reply to `once`, by what the shelf answered.
pub fn once(
    alloc: Global,
    file: &Name,
    name: &Name,
    desc: &Name,
    words: &Words,
    found: Fetched,
) -> Result<Reply, NoMemory>
    ensures { IfOk result (λ reply. reply ≡ once_reply file.now name.now desc.now words.now (answer_in found)) }
{
    match found {
        Fetched::Absent => {
            let file = Name::of(alloc, file.bytes())?;
            Ok(Reply::Absent { file })
        }
        Fetched::TooLong => {
            let file = Name::of(alloc, file.bytes())?;
            Ok(Reply::TooLong { file })
        }
        Fetched::Bytes(bytes) => once_in(alloc, bytes, name.bytes(), desc.bytes(), words.get()),
    }
}

/// The reply to `once` on a file of these bytes.
fn once_in(
    alloc: Global,
    bytes: Vec<u8>,
    name: &[u8],
    desc: &[u8],
    words: &[i32],
) -> Result<Reply, NoMemory>
    ensures { IfOk result (λ reply. reply ≡ read_reply bytes.items name.now desc.now words.now (file_read bytes.items)) }
{
    match load(alloc, bytes)? {
        Ok(program) => program_reply(alloc, program, name, desc, words),
        Err(fault) => fault_reply(alloc, fault),
    }
}

/// The program of the one class of a file of these bytes, or the first fault of the file.
fn load(alloc: Global, bytes: Vec<u8>) -> Result<Result<Program, FileFault>, NoMemory>
    ensures { IfOk result (λ loaded. MatchResult loaded
        (λ P. (file : File) × (file_read bytes.items ≡ Ok file) × (P ≡ program_in bytes.items file))
        (λ fault. file_read bytes.items ≡ Err (At fault.kind fault.at))) }
{
    files_are_read();
    let mut program = Program::new(alloc);
    match program.add(alloc, bytes) {
        Ok(_) => Ok(Ok(program)),
        Err(AddFault::Class { kind, at }) => Ok(Err(FileFault { kind, at })),
        Err(AddFault::NoMemory) => Err(AllocError),
        Err(AddFault::Known | AddFault::Unknown | AddFault::Classes) => unreachable!(),
    }
}

/// The reply to `once` on a program.
fn program_reply(
    alloc: Global,
    program: Program,
    name: &[u8],
    desc: &[u8],
    words: &[i32],
) -> Result<Reply, NoMemory>
    ensures { IfOk result (λ reply. reply ≡ verified_reply program name.now desc.now words.now (fault_of program)) }
{
    first_faults_are_found();
    let names = class_names(alloc, &program)?;
    match Verified::new(alloc, program) {
        Ok(verified) => call(alloc, names.as_slice(), &verified, name, desc, words),
        Err(unverified) => unverified_reply(alloc, &unverified),
    }
}

/// The reply to `once` on a verified program, by the names of its classes.
fn call(
    alloc: Global,
    names: &[Name],
    verified: &Verified,
    name: &[u8],
    desc: &[u8],
    words: &[i32],
) -> Result<Reply, NoMemory>
    ensures { IfOk result (λ reply. reply ≡ call_reply names.now words.now (replies.called verified.now name.now desc.now)) }
{
    let Some(method) = called(verified.program(), name, desc) else {
        return Ok(Reply::EntryMissing);
    };
    let Some(input) = Input::of(method.kinds, words) else {
        return Ok(Reply::Words);
    };
    let ran = run(alloc, verified, method.id, &input, DEPTH)?;
    let end = end_text(alloc, names, &ran.end)?;
    Ok(Reply::Ran { end })
}

/// The method of this name and descriptor in the first class, where there is one that isn't foreign and can
/// be an entry.
fn called(program: &Program, name: &[u8], desc: &[u8]) -> Option<EntryMethod>
    ensures machine { option_and_then (λ method. entered program.now method.id) result ≡ replies.called program.now name.now desc.now }
    ensures kinds { IfSome result (λ method. option_map (λ P. P.entry.kinds) (entered program.now method.id) ≡ Some method.kinds) }
    ensures known { IfSome result (λ method. IsSome (body_of program.now method.id)) }
    ensures enters { IfSome result (λ method. option_map can_be_entry (key_of program.now method.id) ≡ Some true) }
{
    if name == b"<clinit>".as_slice() {
        return None;
    }
    let part = entry_part(desc)?;
    let id = program.method(0, name, desc)?;
    Some(EntryMethod {
        id,
        kinds: part.kinds,
    })
}
