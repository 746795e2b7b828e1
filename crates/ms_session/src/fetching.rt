ghost use Rattle.std.specs.Prelude.{MatchResult};
ghost use Rattle.ms_session.specs.Outside.{shelf_side};
ghost use Rattle.ms_session.specs.Sessions.{IsGiven, Unanswered, answer_in};

use crate::stop::Stop;
use ms_outside::{Fetch, Shelf};
use ms_words::Name;
use std::alloc::Global;

/// What the shelf answered.
#[derive(Debug, Drop)]
pub enum Fetched {
    /// No file has the name.
    Absent,
    /// The file is longer than a shelf hands out.
    TooLong,
    /// The bytes of the file.
    Bytes(Vec<u8>),
}

/// Asks the shelf for a file.
pub fn ask<F: Shelf>(alloc: Global, file: &Name, shelf: &mut F) -> Result<Fetched, Stop>
    ensures { MatchResult result
        (λ found. IsGiven file.now (answer_in found) (shelf_side (F.files shelf.old) (F.counts shelf.old) (F.asked shelf.old)) (shelf_side (F.files shelf.new) (F.counts shelf.new) (F.asked shelf.new)))
        (λ stop. Unanswered stop file.now (shelf_side (F.files shelf.old) (F.counts shelf.old) (F.asked shelf.old)) (shelf_side (F.files shelf.new) (F.counts shelf.new) (F.asked shelf.new))) }
{
    match shelf.fetch(alloc, file.bytes()) {
        Fetch::Bytes(bytes) => Ok(Fetched::Bytes(bytes)),
        Fetch::Absent => Ok(Fetched::Absent),
        Fetch::TooLong => Ok(Fetched::TooLong),
        Fetch::Failed => Err(Stop::ShelfFault),
        Fetch::NoMemory => Err(Stop::NoMemory),
    }
}
