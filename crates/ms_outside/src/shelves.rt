ghost use Rattle.std.specs.Prelude.{◌≡◌, ◌≢◌, IfSome, Some, option_copied, find, bytes_eq};
ghost use Rattle.ms_outside.specs.Shelves.{answer_of, answered, IsWithinLimit};
ghost use Rattle.ms_outside.specs.Memory.{HasBytes};

use crate::shelf::MOST_BYTES;
use crate::{Fetch, Shelved};
use std::alloc::Global;

/// The first file of this name.
fn first_named<'a>(files: &'a [Shelved], name: &[u8]) -> Option<&'a Shelved>
    ensures { option_copied result ≡ find (λ file. bytes_eq file.name name.now) files.now }
{
    files.iter().find(|file| file.is_named(name))
}

/// What these files answer to a name. It never answers `Failed`, and `NoMemory` only where there
/// are bytes to copy.
pub(crate) fn fetch_from(alloc: Global, files: &[Shelved], name: &[u8]) -> Fetch
    ensures answer { IfSome (answered result) (λ answer. answer ≡ answer_of files.now name.now) }
    ensures size { IfSome (answered result) IsWithinLimit }
    ensures sure { result ≢ Fetch.Failed }
    ensures memory { result ≡ Fetch.NoMemory → HasBytes (answer_of files.now name.now) }
{
    let Some(file) = first_named(files, name) else {
        return Fetch::Absent;
    };
    let bytes = file.bytes();
    if bytes.len() > MOST_BYTES {
        return Fetch::TooLong;
    }
    if bytes.is_empty() {
        return Fetch::Bytes(Vec::new(alloc));
    }
    match Vec::from_slice(alloc, bytes) {
        Ok(copied) => Fetch::Bytes(copied),
        Err(_) => Fetch::NoMemory,
    }
}
