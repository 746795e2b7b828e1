ghost use Rattle.std.specs.Prelude.{◌≡◌, ◌<◌, ◌≤◌, ◌↔◌, IfOk, IsOk, IsTrue, length};
ghost use Rattle.ms_outside.specs.Counts.{HasCause};
ghost use Rattle.ms_outside.specs.Sinks.{WriteTakes};
ghost use Rattle.ms_outside.specs.Telling.{Telling, faults_after};

use crate::{Failed, Sink};
use std::io;
use std::io::Write;
use std::marker::Model;

/// A writer that takes bytes. It tells what it took where its writer tells it.
#[derive(Debug, Drop)]
pub struct StdSink<W: Write + Drop> {
    writer: W,
    faults: u64,
}

impl<W: Write + Drop> Model for StdSink<W> {
    ghost Value = { Telling };

    ghost view = { λ sink. record { known = W.contents sink.writer; faults = sink.faults } };
}

impl<W: Write + Drop> StdSink<W> {
    /// A sink over this writer. No write has failed yet.
    pub fn new(writer: W) -> StdSink<W>
        ensures { result ≡ record { known = W.contents writer; faults = 0 } }
    {
        StdSink { writer, faults: 0 }
    }
}

impl<W: Write + Drop> Sink for StdSink<W> {
    ghost taken = { λ sink. sink.known };

    ghost faults = { λ sink. sink.faults };

    /// Writes once and flushes. An error of either is a fault, and so is a writer that takes none of
    /// a piece that isn't empty. After a flush that failed the writer keeps the bytes that it took.
    /// An empty piece is taken without a call.
    #[tactic(auto, using(crate::proofs::Parts::taken_part, crate::proofs::Parts::taken_none))]
    fn write(&mut self, piece: &[u8]) -> Result<usize, Failed>
        ensures within { IfOk result (λ n. n ≤ length piece.now) }
        ensures progress { IfOk result (λ n. 0 < length piece.now → 0 < n) }
        ensures bytes { WriteTakes self.old.known self.new.known result piece.now }
        ensures cause { HasCause self.old.faults self.new.faults result }
        ensures faults { self.new.faults ≡ faults_after self.old.faults result }
        ensures empty { length piece.now ≡ 0 → IsOk result }
    {
        if piece.is_empty() {
            return Ok(0);
        }
        match write_once(&mut self.writer, piece) {
            Ok(count) => Ok(count),
            Err(Failed) => {
                self.faults = self.faults.saturating_add(1);
                Err(Failed)
            }
        }
    }
}

/// Writes some first bytes of a piece that isn't empty, at least one, and flushes.
#[tactic(auto, using(crate::proofs::Parts::taken_part, crate::proofs::Parts::taken_none))]
fn write_once<W: Write>(writer: &mut W, piece: &[u8]) -> Result<usize, Failed>
    ensures within { IfOk result (λ n. n ≤ length piece.now) }
    ensures progress { IfOk result (λ n. 0 < n) }
    ensures bytes { WriteTakes (W.contents writer.old) (W.contents writer.new) result piece.now }
{
    let Ok(count) = writer.write(piece) else {
        return Err(Failed);
    };
    let flushed = writer.flush();
    if is_done(count, &flushed) {
        Ok(count)
    } else {
        Err(Failed)
    }
}

/// A write of a piece that isn't empty is done where the writer took some of it and flushed it.
fn is_done(count: usize, flushed: &io::Result<()>) -> bool
    ensures { IsTrue result ↔ ((0 < count) × IsOk flushed.now) }
{
    count > 0 && flushed.is_ok()
}
