ghost use Rattle.std.specs.Prelude.{◌∷◌, [], MatchResult, Ok};
ghost use Rattle.ms_command.specs.Commands.{IsInRange};
ghost use Rattle.ms_session.specs.Outside.{shelf_side, sink_side};
ghost use Rattle.ms_memoise.specs.Events.{quits};
ghost use Rattle.ms_memoise.specs.Feeding.{Broke, Halted, Hushed, IsFlow, Ran, Responded, Said};

use crate::flow::Flow;
use crate::status::Status;
use ms_command::{Command, CommandRefusal, Reply, read_command, write_reply};
use ms_outside::{Shelf, Sink, write_all};
use ms_session::Session;
use std::alloc::Global;

/// Does what a line asks for, and writes its reply.
pub fn respond<F: Shelf, K: Sink>(
    alloc: Global,
    line: &[u8],
    session: &mut Session,
    shelf: &mut F,
    sink: &mut K,
) -> Result<Flow, Status>
    ensures { MatchResult result
        (λ flow. Responded flow line.now session.old session.new (shelf_side (F.files shelf.old) (F.counts shelf.old) (F.asked shelf.old)) (shelf_side (F.files shelf.new) (F.counts shelf.new) (F.asked shelf.new)) (sink_side (K.taken sink.old) (K.faults sink.old)) (sink_side (K.taken sink.new) (K.faults sink.new)))
        (λ status. Broke status (line.now ∷ []) session.old (shelf_side (F.files shelf.old) (F.counts shelf.old) (F.asked shelf.old)) (shelf_side (F.files shelf.new) (F.counts shelf.new) (F.asked shelf.new)) (sink_side (K.taken sink.old) (K.faults sink.old)) (sink_side (K.taken sink.new) (K.faults sink.new))) }
{
    match read_command(alloc, line) {
        Ok(command) => run(alloc, &command, session, shelf, sink),
        Err(CommandRefusal::Line) => say(alloc, &Reply::NoLine, sink),
        Err(CommandRefusal::Command) => say(alloc, &Reply::NoCommand, sink),
        Err(CommandRefusal::Range) => say(alloc, &Reply::Range, sink),
        Err(CommandRefusal::NoMemory) => Err(Status::NoMemory),
    }
}

/// Runs a command in the session, which writes its reply.
fn run<F: Shelf, K: Sink>(
    alloc: Global,
    command: &Command,
    session: &mut Session,
    shelf: &mut F,
    sink: &mut K,
) -> Result<Flow, Status>
    requires { IsInRange command.now }
    ensures { MatchResult result
        (λ flow. Ran flow command.now session.old session.new (shelf_side (F.files shelf.old) (F.counts shelf.old) (F.asked shelf.old)) (shelf_side (F.files shelf.new) (F.counts shelf.new) (F.asked shelf.new)) (sink_side (K.taken sink.old) (K.faults sink.old)) (sink_side (K.taken sink.new) (K.faults sink.new)))
        (λ status. Halted status command.now session.old (shelf_side (F.files shelf.old) (F.counts shelf.old) (F.asked shelf.old)) (shelf_side (F.files shelf.new) (F.counts shelf.new) (F.asked shelf.new)) (sink_side (K.taken sink.old) (K.faults sink.old)) (sink_side (K.taken sink.new) (K.faults sink.new))) }
{
    session.command(alloc, command, shelf, sink)?;
    Ok(flow_after(command))
}

/// Whether lines are done after this command.
fn flow_after(command: &Command) -> Flow
    ensures { IsFlow result (quits (Ok command.now)) }
{
    match command {
        Command::Quit => Flow::Quits,
        _ => Flow::GoesOn,
    }
}

/// Writes a refusal.
fn say<K: Sink>(alloc: Global, reply: &Reply, sink: &mut K) -> Result<Flow, Status>
    ensures { MatchResult result
        (λ flow. Said flow reply.now (sink_side (K.taken sink.old) (K.faults sink.old)) (sink_side (K.taken sink.new) (K.faults sink.new)))
        (λ status. Hushed status reply.now (sink_side (K.taken sink.old) (K.faults sink.old)) (sink_side (K.taken sink.new) (K.faults sink.new))) }
{
    let text = write_reply(alloc, reply)?;
    match write_all(sink, text.as_slice()) {
        Ok(()) => Ok(Flow::GoesOn),
        Err(_) => Err(Status::WriteFault),
    }
}
