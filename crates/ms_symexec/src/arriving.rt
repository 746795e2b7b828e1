ghost use Rattle.std.specs.Prelude.{◌≡◌, ◌+◌, ◌≤◌, IfOk, IsSome, length};
ghost use Rattle.ms_linking.specs.Linked.{views_of};
ghost use Rattle.ms_machine.specs.Control.{Done};
ghost use Rattle.ms_machine.specs.Ints.{shadows};
ghost use Rattle.ms_machine.specs.Segments.{segment_from};
ghost use Rattle.ms_terms.specs.Terms.{Term};
ghost use Rattle.ms_interpreter.specs.Staying.{Stay};
ghost use Rattle.ms_interpreter.specs.Symbols.{symbol};
ghost use Rattle.ms_symexec.specs.Segments.{Arrives, onto};
ghost use Rattle.ms_symexec.specs.Standing.{StandsFor};

use crate::segments::{Came, segment};
use ms_interpreter::{Beginning, Finish, State};
use ms_program::Program;
use ms_terms::{TermId, Terms};
use ms_words::{Item, NoMemory};
use std::alloc::Global;

/// Where a segment leads.
#[derive(Drop)]
pub(crate) enum Arrived {
    /// To a choice, at which this state stands.
    AtChoice(State<TermId>),
    /// To the end.
    Over(Finish<TermId>),
    /// To no choice and no end within the most instructions.
    Runaway,
}

/// Goes on up to the next choice or the end, and adds the items that are executed.
pub(crate) fn arrive(
    alloc: Global,
    program: &Program,
    run: Beginning<TermId>,
    terms: &mut Terms,
    trace: &mut Vec<Item>,
) -> Result<Arrived, NoMemory>
    requires room { length terms.old + 40000 ≤ 4294967295 }
    ensures arrives { IfOk result (λ arrived. (done : Done Term) → StandsFor terms.old (views_of program.now) run done → Arrives terms.new (views_of program.now) trace.new.items arrived (onto trace.old.items (segment_from shadows (views_of program.now) done))) }
    ensures stay { Stay (λ v. IsSome v) (symbol terms.old) (symbol terms.new) }
    ensures few { length terms.new ≤ length terms.old + 40000 }
{
    match run {
        Beginning::In(state) => {
            let mut state = state;
            match segment(alloc, program, &mut state, terms, trace)? {
                Came::AtChoice => Ok(Arrived::AtChoice(state)),
                Came::Over(finish) => Ok(Arrived::Over(finish)),
                Came::Runaway => Ok(Arrived::Runaway),
            }
        }
        Beginning::Over(finish) => Ok(Arrived::Over(finish)),
    }
}
