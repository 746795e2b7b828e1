ghost use Rattle.std.specs.Prelude.{◌≡◌, ◌≤◌, IfOk, length};
ghost use Rattle.ms_machine.specs.Ints.{marks};
ghost use Rattle.ms_machine.specs.Laws.{mark_arm};
ghost use Rattle.ms_machine.specs.Runs.{end_from, string_from};
ghost use Rattle.ms_linking.specs.Linked.{views_of};
ghost use Rattle.ms_jvm.specs.Segments.{Chose, IsAtChoice, TakesArm, ends_with, going};

use crate::marked::MarkedInt;
use crate::marks::{Marks, arm_of};
use crate::segments::{Came, segment};
use ms_interpreter::{Finish, State, choose, test_asked};
use ms_program::Program;
use ms_words::NoMemory;
use std::alloc::Global;

/// How a run with marks ended, and after how many choices.
#[derive(Drop)]
pub(crate) struct Run {
    pub(crate) last: Last,
    pub(crate) arms: u16,
}

/// How a run to a depth ended.
#[derive(Drop)]
pub(crate) enum Last {
    /// By itself.
    Over(Finish<MarkedInt>),
    /// As many instructions were executed as may be in a segment.
    Runaway,
    /// One choice more was due.
    Cut,
}

/// The arm that the choice where a state is takes.
fn arm_at(alloc: Global, program: &Program, state: &State<MarkedInt>) -> Result<usize, NoMemory>
    ensures { IfOk result (λ arm. TakesArm (views_of program.now) state.now arm) }
{
    match test_asked::<Marks>(alloc, program, state) {
        Ok(Some(test)) => Ok(arm_of(&test)),
        Ok(None) => Ok(0),
        Err(error) => Err(error),
    }
}

/// Takes the arm of the choice where a state is.
fn choose_arm(
    alloc: Global,
    program: &Program,
    state: &mut State<MarkedInt>,
) -> Result<Option<Finish<MarkedInt>>, NoMemory>
    requires { IsAtChoice (views_of program.now) state.old }
    ensures { IfOk result (λ finish. Chose (views_of program.now) state.old finish state.new) }
{
    let arm = arm_at(alloc, program, state)?;
    let finish = choose::<Marks>(alloc, program, state, arm, &mut Marks)?;
    Ok(finish)
}

/// Runs from a state to a depth.
pub(crate) fn run_from(
    alloc: Global,
    program: &Program,
    state: &mut State<MarkedInt>,
    depth: u16,
) -> Result<Run, NoMemory>
    ensures end { IfOk result (λ run. end_from marks (views_of program.now) mark_arm depth (going (views_of program.now) state.old) ≡ ends_with run.last) }
    ensures arms { IfOk result (λ run. length (string_from marks (views_of program.now) mark_arm depth (going (views_of program.now) state.old)) ≡ run.arms) }
    ensures few { IfOk result (λ run. run.arms ≤ depth) }
{
    let mut arms = 0;
    'choices: loop {
        match segment(alloc, program, state)? {
            Came::Runaway => return Ok(Run {
                last: Last::Runaway,
                arms,
            }),
            Came::Over(finish) => return Ok(Run {
                last: Last::Over(finish),
                arms,
            }),
            Came::AtChoice => {
                if arms == depth {
                    return Ok(Run {
                        last: Last::Cut,
                        arms,
                    });
                }
                arms += 1;
                if let Some(finish) = choose_arm(alloc, program, state)? {
                    return Ok(Run {
                        last: Last::Over(finish),
                        arms,
                    });
                }
            }
        }
    }
}
