ghost use Rattle.std.specs.Prelude.{◌≡◌, ◌∷◌, ◌++◌, [], List, Option, IfSome};
ghost use Rattle.ms_outside.specs.Counts.{ShelfCounts};
ghost use Rattle.ms_outside.specs.Shelves.{Asking, File, FetchHasCauses, IsWithinLimit, answer_of, answered};

use std::alloc::Global;

/// The most bytes that a shelf hands out of one file: 1,048,576.
pub const MOST_BYTES: usize = 1_048_576;

/// What a shelf answers where a file is asked for.
#[derive(Debug, Drop)]
pub enum Fetch {
    /// The file's bytes, at most `MOST_BYTES`.
    Bytes(Vec<u8>),
    /// No file has this name.
    Absent,
    /// The file has more than `MOST_BYTES` bytes.
    TooLong,
    /// The shelf failed.
    Failed,
    /// Memory ran out.
    NoMemory,
}

/// Files by name.
pub trait Shelf {
    /// The files, where the shelf tells them. Of several files of one name the first counts.
    ghost files: { Self → Option (List File) };

    /// How often a fetch failed, found no file, and found one that is too long. None of the three
    /// ever falls, and each stands still at 2^64 - 1.
    ghost counts: { Self → ShelfCounts };

    /// The names that it was asked for, one after another, each with the answer that it gave, if it gave
    /// one.
    ghost asked: { Self → List Asking };

    /// The bytes of the file of this name. Files that are told stay as they are.
    fn fetch(&mut self, alloc: Global, name: &[u8]) -> Fetch
        // Where the files are told, a fetch that brought an answer brought theirs.
        ensures answer { IfSome (files self.old) (λ files. IfSome (answered result) (λ answer. answer ≡ answer_of files name.now)) }
        ensures size { IfSome (answered result) IsWithinLimit }
        ensures files { files self.new ≡ files self.old }
        ensures causes { FetchHasCauses (counts self.old) (counts self.new) result }
        ensures asked { asked self.new ≡ asked self.old ++ (name.now, answered result) ∷ [] };
}
