ghost use Rattle.std.specs.Prelude.{◌≢◌, ◌<◌, MatchResult};
ghost use Rattle.ms_session.specs.Outside.{shelf_side, sink_side};
ghost use Rattle.ms_memoise.specs.Conversations.{Conversation, outside};
ghost use Rattle.ms_memoise.specs.Turns.{AtLimit, Finishes, TurnBroke, Turned, last_lines};

use crate::feed::feed;
use crate::flow::Flow;
use crate::response::respond;
use crate::status::Status;
use ms_outside::{Shelf, Sink, Source};
use ms_session::Session;
use std::alloc::Global;

/// How many bytes are read at once, at most.
const MOST_AT_ONCE: usize = 4096;

/// What came of a turn.
#[derive(Clone, Copy, Debug, PartialEq, Eq)]
enum Turn {
    /// The source is at its end.
    Ended,
    /// So many bytes came, and none of the lines that they end is a quit.
    GoesOn(u32),
    /// One of the lines that they end is a quit.
    Quits,
}

/// Reads command lines from the source to its end or to the first quit, runs them one after another in a
/// new session, and writes the reply to each to the sink. Of the source it takes at most `limit` bytes,
/// and one more to see that there are too many. What it takes behind a quit belongs to no line.
pub fn converse<S: Source, F: Shelf, K: Sink>(
    alloc: Global,
    limit: u32,
    source: &mut S,
    shelf: &mut F,
    sink: &mut K,
) -> Status
    ensures conversation { Conversation limit
        (outside (S.left source.old) (S.faults source.old) (shelf_side (F.files shelf.old) (F.counts shelf.old) (F.asked shelf.old)) (K.taken sink.old) (K.faults sink.old))
        (outside (S.left source.new) (S.faults source.new) (shelf_side (F.files shelf.new) (F.counts shelf.new) (F.asked shelf.new)) (K.taken sink.new) (K.faults sink.new))
        result }
    ensures words { result ≢ Status.Usage }
{
    let mut session = Session::new(alloc);
    let mut line = Vec::new(alloc);
    let mut left = limit;
    while left > 0 {
        match take_turn(alloc, left, &mut line, &mut session, source, shelf, sink) {
            Err(status) => return status,
            Ok(Turn::Ended) => return finish(alloc, line.as_slice(), &mut session, shelf, sink),
            Ok(Turn::Quits) => return Status::Done,
            Ok(Turn::GoesOn(count)) => left -= count,
        }
    }
    at_limit(alloc, line.as_slice(), &mut session, source, shelf, sink)
}

/// Reads some bytes, at most `most`, and does what the lines ask for that they end, up to the first quit.
fn take_turn<S: Source, F: Shelf, K: Sink>(
    alloc: Global,
    most: u32,
    line: &mut Vec<u8>,
    session: &mut Session,
    source: &mut S,
    shelf: &mut F,
    sink: &mut K,
) -> Result<Turn, Status>
    requires { 0 < most }
    ensures { MatchResult result
        (λ turn. Turned most line.old.items turn line.new.items session.old session.new
        (outside (S.left source.old) (S.faults source.old) (shelf_side (F.files shelf.old) (F.counts shelf.old) (F.asked shelf.old)) (K.taken sink.old) (K.faults sink.old))
        (outside (S.left source.new) (S.faults source.new) (shelf_side (F.files shelf.new) (F.counts shelf.new) (F.asked shelf.new)) (K.taken sink.new) (K.faults sink.new)))
        (λ status. TurnBroke status most line.old.items session.old
        (outside (S.left source.old) (S.faults source.old) (shelf_side (F.files shelf.old) (F.counts shelf.old) (F.asked shelf.old)) (K.taken sink.old) (K.faults sink.old))
        (outside (S.left source.new) (S.faults source.new) (shelf_side (F.files shelf.new) (F.counts shelf.new) (F.asked shelf.new)) (K.taken sink.new) (K.faults sink.new))) }
{
    let mut buffer = [0; MOST_AT_ONCE];
    let room = MOST_AT_ONCE.min(most as usize);
    let count = match source.read(&mut buffer[..room]) {
        Ok(count) => count,
        Err(_) => return Err(Status::ReadFault),
    };
    if count == 0 {
        return Ok(Turn::Ended);
    }
    match feed(alloc, &buffer[..count], line, session, shelf, sink)? {
        Flow::GoesOn => Ok(Turn::GoesOn(count as u32)),
        Flow::Quits => Ok(Turn::Quits),
    }
}

/// Does what the line asks for that the end of the source ends, where it isn't empty.
fn finish<F: Shelf, K: Sink>(
    alloc: Global,
    line: &[u8],
    session: &mut Session,
    shelf: &mut F,
    sink: &mut K,
) -> Status
    ensures { Finishes result (last_lines line.now) session.old session.new (shelf_side (F.files shelf.old) (F.counts shelf.old) (F.asked shelf.old)) (shelf_side (F.files shelf.new) (F.counts shelf.new) (F.asked shelf.new)) (sink_side (K.taken sink.old) (K.faults sink.old)) (sink_side (K.taken sink.new) (K.faults sink.new)) }
{
    if line.is_empty() {
        return Status::Done;
    }
    match respond(alloc, line, session, shelf, sink) {
        Ok(_) => Status::Done,
        Err(status) => status,
    }
}

/// Sees whether the source ends where no more of its bytes are to be taken.
fn at_limit<S: Source, F: Shelf, K: Sink>(
    alloc: Global,
    line: &[u8],
    session: &mut Session,
    source: &mut S,
    shelf: &mut F,
    sink: &mut K,
) -> Status
    ensures { AtLimit result line.now session.old session.new
        (outside (S.left source.old) (S.faults source.old) (shelf_side (F.files shelf.old) (F.counts shelf.old) (F.asked shelf.old)) (K.taken sink.old) (K.faults sink.old))
        (outside (S.left source.new) (S.faults source.new) (shelf_side (F.files shelf.new) (F.counts shelf.new) (F.asked shelf.new)) (K.taken sink.new) (K.faults sink.new)) }
{
    let mut buffer = [0; 1];
    match source.read(&mut buffer) {
        Err(_) => Status::ReadFault,
        Ok(0) => finish(alloc, line, session, shelf, sink),
        Ok(_) => Status::TooMuchInput,
    }
}
