ghost use Rattle.std.specs.Prelude.{◌≡◌, ◌≤◌, length, IfErr, IfOk, OnErr, OnOk};
ghost use Rattle.std.specs.Io.KnownBytes.{Appends};
ghost use Rattle.ms_outside.specs.Sinks.{TakesPart};
ghost use Rattle.ms_report.specs.Rows as rows_spec;
ghost use Rattle.ms_report.specs.Rows.{rows_text};
ghost use Rattle.ms_report.specs.Stops.{StopsAtRow, HasStopped, totals_of};

use crate::line::row_text;
use ms_outside::{Sink, write_all};
use ms_trie::{Outcome, PathRow};
use ms_words::{Name, NoMemory};
use std::alloc::Global;
use thiserror::Error;

/// How many rows of a report are paths, and how many are strings whose search was given up.
#[derive(Clone, Copy, Debug, PartialEq, Eq)]
pub struct Totals {
    pub paths: u32,
    pub undecided: u32,
}

/// Why a report wasn't written to its end.
#[derive(Clone, Copy, Debug, PartialEq, Eq, Drop, Error)]
pub enum ReportStop {
    /// A write to the sink failed.
    #[error("a write failed")]
    WriteFault,
    /// Memory ran out.
    #[error("memory ran out")]
    NoMemory,
}

impl From<NoMemory> for ReportStop {
    ghost use Rattle.ms_report.specs.declared.report.ReportStop.TheVariants as stops;

    ghost from_gives = { λ _ stop. stop ≡ stops.NoMemory };

    fn from(_: NoMemory) -> ReportStop {
        ReportStop::NoMemory
    }
}

/// Writes the rows, at most 4,294,967,295, to the sink, each by a line, and counts them. `names` has the
/// names of the program's classes by their numbers, which the line of a path names that ends with an
/// initialiser that failed. Where a write
/// fails, the sink has taken some first bytes of the report, perhaps none, and nothing else; where memory
/// runs out, before one of the rows, the lines of those before it. The sink's count of faults has risen
/// exactly where a write failed.
pub fn write_report<K: Sink>(
    alloc: Global,
    names: &[Name],
    rows: &[PathRow],
    sink: &mut K,
) -> Result<Totals, ReportStop>
    requires { length rows.now ≤ 4_294_967_295 }
    ensures totals { IfOk result (λ totals. totals ≡ totals_of rows.now) }
    ensures whole { OnOk result (Appends (K.taken sink.old) (K.taken sink.new) (rows_text names.now rows.now)) }
    ensures part { OnErr result (TakesPart (K.taken sink.old) (K.taken sink.new) (rows_text names.now rows.now)) }
    ensures steady { OnOk result (K.faults sink.new ≡ K.faults sink.old) }
    ensures cause { IfErr result (λ stop. HasStopped stop (K.faults sink.old) (K.faults sink.new)) }
    ensures grows { K.faults sink.old ≤ K.faults sink.new }
    ensures row { IfErr result (λ stop. StopsAtRow stop names.now rows.now (K.taken sink.old) (K.taken sink.new)) }
{
    let mut totals = Totals {
        paths: 0,
        undecided: 0,
    };
    for row in rows {
        let text = row_text(alloc, names, row)?;
        let Ok(()) = write_all(sink, text.as_slice()) else {
            return Err(ReportStop::WriteFault);
        };
        if is_path(&row.outcome) {
            totals.paths += 1;
        } else {
            totals.undecided += 1;
        }
    }
    Ok(totals)
}

fn is_path(outcome: &Outcome) -> bool
    ensures { result ≡ rows_spec.is_path outcome.now }
{
    matches!(outcome, Outcome::Path { .. })
}
