//! Thin files: class files of one class with one static method over ints and booleans, whose code
//! computes, branches ahead and returns.

ghost use Rattle.std.specs.Prelude.{◌≡◌, ◌<◌, ℕ, List, All, Some, IfOk, IfSome, IfNone};
ghost use Rattle.std.specs.Option.{option_map};
ghost use Rattle.ms_classfile.specs.ThinFile.{Method, IsThinFile, IsThinMethod};
ghost use Rattle.ms_classfile.specs.Reading.{thin_method};
ghost use Rattle.ms_classfile.specs.Found.{Gives, view};

mod attributes;
mod class;
mod code;
mod decoding;
mod failure;
mod method;
mod parts;
mod pool;
mod walking;

use attributes::attributes;
use class::{class_part, counts, header};
use failure::Failure;
use method::method;
use ms_pool::Cursor;
use ms_words::NoMemory;
pub use parts::ThinMethod;
use pool::pool;
use std::alloc::{AllocError, Global};

#[tactic(auto, unfolding(crate::specs::Reading::thin_method))]
fn file(alloc: Global, bytes: &[u8]) -> Result<ThinMethod<'_>, Failure>
    ensures { Gives view result (thin_method bytes.now) }
{
    let mut cursor = Cursor::new(bytes);
    header(&mut cursor)?;
    let pool = pool(alloc, &mut cursor)?;
    let class = class_part(&pool, &mut cursor)?;
    counts(&mut cursor)?;
    let method = method(alloc, &pool, class, &mut cursor)?;
    let _attributes = attributes(alloc, &pool, &mut cursor)?;
    if !cursor.is_at_end() {
        return Err(Failure::NotThin);
    }
    Ok(method)
}

/// The method of the thin file that these bytes are, or `None` where they are none (JVMS SE 8, chapter 4).
/// The name of its class, its name and its descriptor are lent from the bytes. It fails for want of memory
/// alone.
pub fn read_thin(alloc: Global, bytes: &[u8]) -> Result<Option<ThinMethod<'_>>, NoMemory>
    // The bytes are a thin file with the method that is found; where none is found, they are no thin file.
    ensures thin { IfOk result (λ found. IfSome found (λ method. IsThinFile bytes.now (view method))) }
    ensures none { IfOk result (λ found. IfNone found ((method : Method) → ¬ IsThinFile bytes.now method)) }

    // What is found is what reading these bytes from left to right gives.
    ensures found { IfOk result (λ found. option_map view found ≡ thin_method bytes.now) }

    // What holds of each thin method holds of it.
    ensures method { IfOk result (λ found. IfSome found (λ method. IsThinMethod (view method))) }
{
    match file(alloc, bytes) {
        Ok(method) => Ok(Some(method)),
        Err(Failure::NotThin) => Ok(None),
        Err(Failure::NoMemory) => Err(AllocError),
    }
}

/// The law of thin files. Reading, which goes over the bytes from left to right, and the rules for a
/// thin file, which say of what parts it is spelled and what holds of them, agree. It does nothing.
pub fn thin_files_are_read()
    // What is read is a thin file, spelled by all of the bytes.
    ensures read { (bytes : List ℕ) (method : Method) → All (λ byte. byte < 256) bytes → thin_method bytes ≡ Some method → IsThinFile bytes method }
    // And what holds of each thin method holds of it.
    ensures method { (bytes : List ℕ) (method : Method) → All (λ byte. byte < 256) bytes → thin_method bytes ≡ Some method → IsThinMethod method }
    // A thin file is read.
    ensures only { (bytes : List ℕ) (method : Method) → IsThinFile bytes method → thin_method bytes ≡ Some method }
    // The bytes determine the method.
    ensures one { (bytes : List ℕ) (first second : Method) → IsThinFile bytes first → IsThinFile bytes second → first ≡ second }
{}
