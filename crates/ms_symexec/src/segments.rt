ghost use Rattle.std.specs.Prelude.{◌≡◌, ◌+◌, ◌*◌, ◌≤◌, IfOk, IsSome, length};
ghost use Rattle.ms_linking.specs.Linked.{views_of};
ghost use Rattle.ms_machine.specs.Control as control;
ghost use Rattle.ms_machine.specs.Control.{Goes};
ghost use Rattle.ms_machine.specs.Ints.{shadows};
ghost use Rattle.ms_machine.specs.Segments.{segment_from, segment_within};
ghost use Rattle.ms_terms.specs.Terms.{Term};
ghost use Rattle.ms_interpreter.specs.Staying.{Stay};
ghost use Rattle.ms_interpreter.specs.Symbols.{symbol};
ghost use Rattle.ms_symexec.specs.Segments.{Comes, onto};
ghost use Rattle.ms_symexec.specs.Standing.{Stands};

use ms_interpreter::{Finish, State, Turn, take_turn};
use ms_program::Program;
use ms_terms::{TermId, Terms};
use ms_words::{Item, NoMemory};
use std::alloc::Global;

/// The most instructions of a segment.
const MOST_INSTRUCTIONS: u16 = 20_000;

/// What comes after a segment.
#[derive(Drop)]
pub(crate) enum Came {
    /// A choice.
    AtChoice,
    /// The end.
    Over(Finish<TermId>),
    /// As many instructions were executed as may be.
    Runaway,
}

/// Goes on up to the next choice or the end, within so many instructions, and adds the items that are executed.
fn segment_within(
    alloc: Global,
    program: &Program,
    most: u16,
    state: &mut State<TermId>,
    terms: &mut Terms,
    trace: &mut Vec<Item>,
) -> Result<Came, NoMemory>
    requires room { length terms.old + 2 * most ≤ 4294967295 }
    ensures comes { IfOk result (λ came. (seen : control.State Term) → Stands terms.old (views_of program.now) state.old seen → Comes terms.new (views_of program.now) trace.new.items came state.new (onto trace.old.items (segment_within shadows (views_of program.now) most (Goes seen)))) }
    ensures stay { Stay (λ v. IsSome v) (symbol terms.old) (symbol terms.new) }
    ensures few { length terms.new ≤ length terms.old + 2 * most }
{
    let mut left = most;
    while left > 0 {
        trace.push(state.at())?;
        let turn = take_turn::<Terms>(alloc, program, state, terms)?;
        match turn {
            Turn::Goes => left -= 1,
            Turn::Stands => return Ok(Came::AtChoice),
            Turn::Ends(finish) => return Ok(Came::Over(finish)),
        }
    }
    Ok(Came::Runaway)
}

/// Goes on up to the next choice or the end, and adds the items that are executed.
pub(crate) fn segment(
    alloc: Global,
    program: &Program,
    state: &mut State<TermId>,
    terms: &mut Terms,
    trace: &mut Vec<Item>,
) -> Result<Came, NoMemory>
    requires room { length terms.old + 40000 ≤ 4294967295 }
    ensures comes { IfOk result (λ came. (seen : control.State Term) → Stands terms.old (views_of program.now) state.old seen → Comes terms.new (views_of program.now) trace.new.items came state.new (onto trace.old.items (segment_from shadows (views_of program.now) (Goes seen)))) }
    ensures stay { Stay (λ v. IsSome v) (symbol terms.old) (symbol terms.new) }
    ensures few { length terms.new ≤ length terms.old + 40000 }
{
    segment_within(alloc, program, MOST_INSTRUCTIONS, state, terms, trace)
}
