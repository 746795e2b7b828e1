ghost use Rattle.std.specs.Prelude.{◌≡◌, ◌≤◌, MatchResult, length};
ghost use Rattle.std.specs.Io.KnownBytes.{Appends};
ghost use Rattle.ms_command.specs.Texts.{reply_text};
ghost use Rattle.ms_session.specs.Sessions.{IsShort, output_text};
ghost use Rattle.ms_session.specs.Steps.{reported};
ghost use Rattle.ms_session.specs.Writing.{WriteStops};

use crate::stop::Stop;
use ms_command::{Reply, write_reply};
use ms_outside::{Sink, write_all};
use ms_report::{ReportStop, write_report};
use ms_trie::PathRow;
use ms_words::Name;
use std::alloc::Global;

/// What a command is about to write.
#[derive(Debug, Drop)]
pub enum Output {
    /// Nothing.
    Nothing,
    /// A reply.
    Reply(Reply),
    /// The rows of a report, and then its totals; `names` has the names of the classes by their numbers.
    Report {
        names: Vec<Name>,
        rows: Vec<PathRow>,
    },
}

/// Writes it. A report has at most 4,294,967,295 rows.
pub fn write_output<K: Sink>(alloc: Global, output: &Output, sink: &mut K) -> Result<(), Stop>
    requires { IsShort output.now }
    ensures { MatchResult result
        (λ _. Appends (K.taken sink.old) (K.taken sink.new) (output_text output.now) × (K.faults sink.new ≡ K.faults sink.old))
        (λ stop. WriteStops stop (output_text output.now) (K.taken sink.old) (K.taken sink.new) (K.faults sink.old) (K.faults sink.new)) }
{
    match output {
        Output::Nothing => Ok(()),
        Output::Reply(reply) => say(alloc, reply, sink),
        Output::Report { names, rows } => {
            report(alloc, names.as_slice(), rows.as_slice(), sink)
        },
    }
}

/// Writes a reply.
fn say<K: Sink>(alloc: Global, reply: &Reply, sink: &mut K) -> Result<(), Stop>
    ensures { MatchResult result
        (λ _. Appends (K.taken sink.old) (K.taken sink.new) (reply_text reply.now) × (K.faults sink.new ≡ K.faults sink.old))
        (λ stop. WriteStops stop (reply_text reply.now) (K.taken sink.old) (K.taken sink.new) (K.faults sink.old) (K.faults sink.new)) }
{
    let Ok(text) = write_reply(alloc, reply) else {
        return Err(Stop::NoMemory);
    };
    match write_all(sink, text.as_slice()) {
        Ok(()) => Ok(()),
        Err(_) => Err(Stop::WriteFault),
    }
}

/// Writes the rows of a report, and then its totals.
fn report<K: Sink>(
    alloc: Global,
    names: &[Name],
    rows: &[PathRow],
    sink: &mut K,
) -> Result<(), Stop>
    requires { length rows.now ≤ 4_294_967_295 }
    ensures { MatchResult result
        (λ _. Appends (K.taken sink.old) (K.taken sink.new) (reported names.now rows.now) × (K.faults sink.new ≡ K.faults sink.old))
        (λ stop. WriteStops stop (reported names.now rows.now) (K.taken sink.old) (K.taken sink.new) (K.faults sink.old) (K.faults sink.new)) }
{
    let totals = match write_report(alloc, names, rows, sink) {
        Ok(totals) => totals,
        Err(ReportStop::WriteFault) => return Err(Stop::WriteFault),
        Err(ReportStop::NoMemory) => return Err(Stop::NoMemory),
    };
    let reply = Reply::Reported {
        paths: totals.paths,
        undecided: totals.undecided,
    };
    say(alloc, &reply, sink)
}
