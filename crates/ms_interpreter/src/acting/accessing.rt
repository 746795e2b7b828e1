ghost use Rattle.std.specs.Prelude.{◌≡◌, ◌++◌, IfOk};
ghost use Rattle.ms_machine.specs.Effects as machine;
ghost use Rattle.ms_linking.specs.Told.{member_told};
ghost use Rattle.ms_interpreter.specs.Accessing.{Accesses, missing_name};

use crate::did::{Did, Stop};
use crate::memory::Memory;
use ms_linking::Member;
use ms_program::Initialiser;
use ms_words::{Name, NoMemory};
use std::alloc::Global;

/// What a member is, where its name is needed: a field or a method.
#[derive(Clone, Copy)]
pub(crate) enum Sought {
    Field,
    Method,
}

/// What comes of an access to a member.
#[derive(Drop)]
pub(crate) enum Accessed<I> {
    /// The class of this number is started, and the member is there.
    Class(u16),
    /// Something else comes first, or the run ends.
    Did(Did<I>),
}

/// With the class of a member, once that is started (JVMS SE 8, sections 5.4.3 and 5.5). What is missing first
/// ends the run: the class, then the member, and then a foreign initialiser; one that isn't foreign runs first.
pub(crate) fn access<I: Copy + Drop>(
    alloc: Global,
    member: &Member<'_>,
    sought: Sought,
    memory: &mut Memory<I>,
) -> Result<Accessed<I>, NoMemory>
    ensures { IfOk result (λ accessed. Accesses (member_told member.now) (missing_name sought (member_told member.now)) memory.old accessed memory.new) }
{
    let Some(class) = member.class else {
        let name = Name::of(alloc, member.class_name)?;
        return Ok(Accessed::Did(Did::Stops(Stop::Missing(name))));
    };
    if !member.is_there {
        let name = name_of(alloc, member, sought)?;
        return Ok(Accessed::Did(Did::Stops(Stop::Missing(name))));
    }
    if memory.is_started(class) {
        return Ok(Accessed::Class(class));
    }
    match member.initialiser {
        Initialiser::Absent => {
            memory.start(class)?;
            Ok(Accessed::Class(class))
        }
        Initialiser::Present => {
            memory.start(class)?;
            Ok(Accessed::Did(Did::Initialises(class)))
        }
        Initialiser::Foreign => {
            let name = initialiser_name(alloc, member.class_name)?;
            Ok(Accessed::Did(Did::Stops(Stop::Missing(name))))
        }
    }
}

/// The name of a member, as an end names what is missing.
fn name_of(alloc: Global, member: &Member<'_>, sought: Sought) -> Result<Name, NoMemory>
    ensures { IfOk result (λ name. name ≡ missing_name sought (member_told member.now)) }
{
    let mut bytes = Vec::from_slice(alloc, member.class_name)?;
    bytes.extend_from_slice(b".")?;
    bytes.extend_from_slice(member.name)?;
    match sought {
        Sought::Field => Name::of(alloc, bytes.as_slice()),
        Sought::Method => with_descriptor(alloc, bytes, member),
    }
}

/// The same with a descriptor behind it.
fn with_descriptor(alloc: Global, bytes: Vec<u8>, member: &Member<'_>) -> Result<Name, NoMemory>
    ensures { IfOk result (λ name. name ≡ bytes.items ++ member.now.descriptor.now) }
{
    let mut bytes = bytes;
    bytes.extend_from_slice(member.descriptor)?;
    Name::of(alloc, bytes.as_slice())
}

/// The name of the initialiser of the class of this name.
pub(crate) fn initialiser_name(alloc: Global, class_name: &[u8]) -> Result<Name, NoMemory>
    ensures { IfOk result (λ name. name ≡ machine.initialiser_name class_name.now) }
{
    let mut bytes = Vec::from_slice(alloc, class_name)?;
    bytes.extend_from_slice(b".<clinit>")?;
    Name::of(alloc, bytes.as_slice())
}
