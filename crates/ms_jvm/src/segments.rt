ghost use Rattle.std.specs.Prelude.{◌≡◌, IfOk};
ghost use Rattle.ms_machine.specs.Segments.{most_instructions};
ghost use Rattle.ms_linking.specs.Linked.{views_of};
ghost use Rattle.ms_jvm.specs.Segments.{Comes};

use crate::marked::MarkedInt;
use crate::marks::Marks;
use ms_interpreter::{Finish, State, Turn, take_turn};
use ms_program::Program;
use ms_words::NoMemory;
use std::alloc::Global;

/// The most instructions of a segment.
const MOST_INSTRUCTIONS: u16 = 20_000;

/// What comes after a segment.
#[derive(Drop)]
pub(crate) enum Came {
    /// A choice.
    AtChoice,
    /// The end.
    Over(Finish<MarkedInt>),
    /// As many instructions were executed as may be.
    Runaway,
}

/// Goes on up to the next choice or the end, within so many instructions.
fn segment_within(
    alloc: Global,
    program: &Program,
    most: u16,
    state: &mut State<MarkedInt>,
) -> Result<Came, NoMemory>
    ensures { IfOk result (λ came. Comes (views_of program.now) most state.old came state.new) }
{
    let mut marks = Marks;
    let mut left = most;
    while left > 0 {
        let turn = take_turn::<Marks>(alloc, program, state, &mut marks)?;
        match turn {
            Turn::Goes => left -= 1,
            Turn::Stands => return Ok(Came::AtChoice),
            Turn::Ends(finish) => return Ok(Came::Over(finish)),
        }
    }
    Ok(Came::Runaway)
}

/// Goes on up to the next choice or the end.
pub(crate) fn segment(
    alloc: Global,
    program: &Program,
    state: &mut State<MarkedInt>,
) -> Result<Came, NoMemory>
    ensures { IfOk result (λ came. Comes (views_of program.now) most_instructions state.old came state.new) }
{
    segment_within(alloc, program, MOST_INSTRUCTIONS, state)
}
