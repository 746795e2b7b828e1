ghost use Rattle.std.specs.Prelude.{◌≡◌, ◌∷◌, [], OnOk, MatchResult};
ghost use Rattle.std.specs.Str.Lines.{strip_carriage_return};
ghost use Rattle.ms_session.specs.Outside.{shelf_side, sink_side};
ghost use Rattle.ms_memoise.specs.Events.{up_to_quit};
ghost use Rattle.ms_memoise.specs.Feeding.{Broke, Fed, ended_lines, kept_more};

use crate::flow::Flow;
use crate::response::respond;
use crate::status::Status;
use ms_outside::{Shelf, Sink};
use ms_session::Session;
use ms_words::NoMemory;
use std::alloc::Global;

/// The most bytes that are kept of a line: as many as a command may have, its carriage return, and one
/// more, which tells that the line is too long.
const MOST_KEPT: usize = 4098;

/// Does what the lines ask for that these bytes end, up to the first quit. `line` is what is kept of the
/// line that they go on, and then, unless there was a quit, of the line after them.
pub fn feed<F: Shelf, K: Sink>(
    alloc: Global,
    bytes: &[u8],
    line: &mut Vec<u8>,
    session: &mut Session,
    shelf: &mut F,
    sink: &mut K,
) -> Result<Flow, Status>
    ensures { MatchResult result
        (λ flow. Fed flow line.old.items bytes.now line.new.items session.old session.new (shelf_side (F.files shelf.old) (F.counts shelf.old) (F.asked shelf.old)) (shelf_side (F.files shelf.new) (F.counts shelf.new) (F.asked shelf.new)) (sink_side (K.taken sink.old) (K.faults sink.old)) (sink_side (K.taken sink.new) (K.faults sink.new)))
        (λ status. Broke status (up_to_quit (ended_lines line.old.items bytes.now)) session.old (shelf_side (F.files shelf.old) (F.counts shelf.old) (F.asked shelf.old)) (shelf_side (F.files shelf.new) (F.counts shelf.new) (F.asked shelf.new)) (sink_side (K.taken sink.old) (K.faults sink.old)) (sink_side (K.taken sink.new) (K.faults sink.new))) }
{
    for byte in bytes {
        match accept(alloc, *byte, line, session, shelf, sink)? {
            Flow::GoesOn => {},
            Flow::Quits => return Ok(Flow::Quits),
        }
    }
    Ok(Flow::GoesOn)
}

/// The same for one byte.
fn accept<F: Shelf, K: Sink>(
    alloc: Global,
    byte: u8,
    line: &mut Vec<u8>,
    session: &mut Session,
    shelf: &mut F,
    sink: &mut K,
) -> Result<Flow, Status>
    ensures { MatchResult result
        (λ flow. Fed flow line.old.items (byte ∷ []) line.new.items session.old session.new (shelf_side (F.files shelf.old) (F.counts shelf.old) (F.asked shelf.old)) (shelf_side (F.files shelf.new) (F.counts shelf.new) (F.asked shelf.new)) (sink_side (K.taken sink.old) (K.faults sink.old)) (sink_side (K.taken sink.new) (K.faults sink.new)))
        (λ status. Broke status (up_to_quit (ended_lines line.old.items (byte ∷ []))) session.old (shelf_side (F.files shelf.old) (F.counts shelf.old) (F.asked shelf.old)) (shelf_side (F.files shelf.new) (F.counts shelf.new) (F.asked shelf.new)) (sink_side (K.taken sink.old) (K.faults sink.old)) (sink_side (K.taken sink.new) (K.faults sink.new))) }
{
    if byte != b'\n' {
        keep(line, byte)?;
        return Ok(Flow::GoesOn);
    }
    let flow = respond(
        alloc,
        without_carriage_return(line.as_slice()),
        session,
        shelf,
        sink,
    )?;
    line.clear();
    Ok(flow)
}

/// Keeps one more byte of a line, unless enough of it is kept.
fn keep(line: &mut Vec<u8>, byte: u8) -> Result<(), NoMemory>
    ensures { OnOk result (line.new.items ≡ kept_more line.old.items byte) }
{
    if line.len() < MOST_KEPT {
        line.push(byte)?;
    }
    Ok(())
}

/// A line without the carriage return that may end it.
fn without_carriage_return(line: &[u8]) -> &[u8]
    ensures { result.now ≡ strip_carriage_return line.now }
{
    match line {
        [front @ .., b'\r'] => front,
        _ => line,
    }
}
