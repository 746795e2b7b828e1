ghost use Rattle.std.specs.Prelude.{◌≡◌, ◌≢◌, ◌∷◌, ◌++◌, [], IfOk, IfErr, IfSome, OnOk, IsUtf8, None, Some};
ghost use Rattle.std.specs.IoError.{error_kind};
ghost use Rattle.ms_outside.specs.Histories.{ShelfHistory};
ghost use Rattle.ms_outside.specs.Shelves.{FetchHasCauses, IsWithinLimit, answer_of_contents, answered};
ghost use Rattle.ms_outside.specs.Memory.{counts_after};
ghost use Rattle.ms_outside.specs.Folders.{open_answer, read_answer};

use crate::shelf::MOST_BYTES;
use crate::tally::Tally;
use crate::{Fetch, Shelf};
use std::alloc::Global;
use std::io::{ErrorKind, Read};
use std::marker::Model;
use std::rt::Files;
use std::{fs, io};

/// How many bytes one read of a file asks for.
const CHUNK_BYTES: usize = 4096;

/// The files of the folder that the program runs in, and of other folders by their paths. It tells
/// no files. A clause sees it as what it was asked, with the answers that it gave, and its counts.
#[derive(Debug, Drop)]
pub struct FolderShelf<R: Files + Drop> {
    files: R,
    tally: Tally,
}

impl<R: Files + Drop> Model for FolderShelf<R> {
    ghost Value = { ShelfHistory };

    ghost view = { λ shelf. shelf.tally };
}

impl<R: Files + Drop> FolderShelf<R> {
    /// A shelf over this runtime's files. No fetch has come yet.
    pub fn new(files: R) -> FolderShelf<R>
        ensures { result ≡ record { asked = []; counts = record { faults = 0; misses = 0; overlong = 0 } } }
    {
        FolderShelf {
            files,
            tally: Tally::new(),
        }
    }
}

impl<R: Files + Drop> Shelf for FolderShelf<R> {
    ghost files = { λ _. None };

    ghost counts = { λ shelf. shelf.counts };

    ghost asked = { λ shelf. shelf.asked };

    /// Opens the file and reads it to its end, or until it is too long. `Absent`: the open said that
    /// there is no such file, or no file can have this name. `NoMemory`: it said that memory ran
    /// out, or there is none for the bytes. `Failed`: any other error of the open or of a read.
    fn fetch(&mut self, alloc: Global, name: &[u8]) -> Fetch
        ensures size { IfSome (answered result) IsWithinLimit }
        ensures causes { FetchHasCauses self.old.counts self.new.counts result }
        ensures asked { self.new.asked ≡ self.old.asked ++ (name.now, answered result) ∷ [] }
        ensures after { self.new.counts ≡ counts_after self.old.counts result }
        ensures no_text { ¬ IsUtf8 name.now → result ≡ Fetch.Absent }
    {
        let fetched = fetch_file(alloc, &self.files, name);
        self.tally.count(name, &fetched);
        fetched
    }
}

/// What the file of this name answers. A name that is no UTF-8 text is no file's.
fn fetch_file<R: Files>(alloc: Global, files: &R, name: &[u8]) -> Fetch
    ensures size { IfSome (answered result) IsWithinLimit }
    ensures no_text { ¬ IsUtf8 name.now → result ≡ Fetch.Absent }
{
    let Ok(path) = str::from_utf8(name) else {
        return Fetch::Absent;
    };
    fetch_opened(alloc, fs::open(files, path))
}

/// What an open answers: what the file holds, or what its error tells.
fn fetch_opened<F: Read + Drop>(alloc: Global, opened: io::Result<F>) -> Fetch
    ensures answer { IfOk opened (λ file. IfSome (F.remaining file) (λ bytes. IfSome (answered result) (λ answer. answer ≡ answer_of_contents (Some bytes)))) }
    ensures size { IfSome (answered result) IsWithinLimit }
    ensures refused { IfErr opened (λ error. result ≡ open_answer (error_kind error)) }
    ensures present { OnOk opened (result ≢ Fetch.Absent) }
{
    match opened {
        Ok(mut file) => read_whole(alloc, &mut file),
        Err(error) => refused_open(error.kind()),
    }
}

/// What an open that failed answers. `InvalidInput` and `InvalidFilename` are names that no file can
/// have, as one with a zero byte or one that is too long; `NotADirectory` is a path through a file.
fn refused_open(kind: ErrorKind) -> Fetch
    ensures { result ≡ open_answer kind }
{
    match kind {
        ErrorKind::NotFound
        | ErrorKind::NotADirectory
        | ErrorKind::InvalidFilename
        | ErrorKind::InvalidInput => Fetch::Absent,
        ErrorKind::OutOfMemory => Fetch::NoMemory,
        _ => Fetch::Failed,
    }
}

/// What a read that failed answers.
fn refused_read(kind: ErrorKind) -> Fetch
    ensures { result ≡ read_answer kind }
{
    match kind {
        ErrorKind::OutOfMemory => Fetch::NoMemory,
        _ => Fetch::Failed,
    }
}

/// Reads to the end, or past the most bytes that a shelf hands out.
fn read_whole<F: Read>(alloc: Global, reader: &mut F) -> Fetch
    ensures answer { IfSome (F.remaining reader.old) (λ bytes. IfSome (answered result) (λ answer. answer ≡ answer_of_contents (Some bytes))) }
    ensures size { IfSome (answered result) IsWithinLimit }
    ensures present { result ≢ Fetch.Absent }
{
    let mut chunk = [0u8; CHUNK_BYTES];
    let mut bytes = Vec::new(alloc);
    while bytes.len() <= MOST_BYTES {
        match reader.read(&mut chunk) {
            Ok(0) => return Fetch::Bytes(bytes),
            Ok(count) => {
                if bytes.extend_from_slice(&chunk[..count]).is_err() {
                    return Fetch::NoMemory;
                }
            }
            Err(error) => return refused_read(error.kind()),
        }
    }
    Fetch::TooLong
}
