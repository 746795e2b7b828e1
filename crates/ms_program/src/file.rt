ghost use Rattle.std.specs.Prelude.{◌≡◌, IfErr, IfOk};
ghost use Rattle.ms_program.specs.FileViews.{file_view};
ghost use Rattle.ms_program.specs.Files.{IsFaultOf, IsFile};
ghost use Rattle.ms_program.specs.Reading.{first_fault};

use crate::body::{Bodies, bodies_of};
use crate::laws::files_are_read;
use ms_classfile::{Class, ClassFault, read_class};
use ms_pool::ClassKind;
use ms_words::NoMemory;
use std::alloc::Global;

/// A class file with what its methods do, lent from the bytes of the file.
#[derive(Drop)]
pub struct File<'a> {
    /// The class, as `read_class` reads it.
    pub class: Class<'a>,
    /// What its methods do, in file order.
    pub bodies: Bodies,
}

/// Reads a class file whole: its class, and then the code of each of its methods that isn't foreign
/// already for what stands around its code.
///
/// A method is foreign exactly where it isn't static, or is synchronized, native or abstract; where it has
/// no code; where its descriptor names another type than Z, B, C, S, I, `[I`, and V as result; where its
/// code has more than 256 places on its stack or more than 256 locals, or fewer locals than parameters;
/// or where none of these holds and `decode` finds its code foreign.
///
/// The first fault of a file is that of `read_class`, and else that of `decode` on the first method, in
/// file order, whose code is decoded and has one. That memory ran out has no cause in a clause.
pub fn read_file<'a>(alloc: Global, bytes: &'a [u8]) -> Result<File<'a>, ClassFault>
    // The bytes are the class file that is found, with these bodies.
    ensures file { IfOk result (λ file. IsFile bytes.now (file_view file)) }
    // A fault is the first of these bytes, unless memory ran out.
    ensures fault { IfErr result (IsFaultOf bytes.now) }
{
    let class = read_class(alloc, bytes)?;
    let bodies = bodies_of(alloc, &class.pool, class.methods.rows())?;
    Ok(File { class, bodies })
}

/// The first fault of a file.
#[derive(Clone, Copy, PartialEq, Eq)]
pub struct FileFault {
    /// Its kind.
    pub kind: ClassKind,
    /// Its place: how many bytes of the file come before it.
    pub at: u64,
}

/// The first fault of a file, where it has one, as `read_file` says which that is.
#[tactic(auto, unfolding(crate::specs::Reading::first_fault))]
pub fn first_fault(alloc: Global, bytes: &[u8]) -> Result<Option<FileFault>, NoMemory>
    ensures { IfOk result (λ fault. fault ≡ first_fault bytes.now) }
{
    files_are_read();
    match read_file(alloc, bytes) {
        Ok(_file) => Ok(None),
        Err(ClassFault::At { kind, at }) => Ok(Some(FileFault { kind, at })),
        Err(ClassFault::NoMemory) => Err(NoMemory),
    }
}
