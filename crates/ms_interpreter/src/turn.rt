ghost use Rattle.std.specs.Prelude.{◌≡◌, ◌+◌, ◌≤◌, IfOk, IfSome, IsSome, Some, option_map};
ghost use Rattle.ms_machine.specs.Effects.{effect};
ghost use Rattle.ms_linking.specs.Linked.{views_of};
ghost use Rattle.ms_linking.specs.Told.{told};
ghost use Rattle.ms_interpreter.specs.Asking.{asked_of};
ghost use Rattle.ms_interpreter.specs.Doing.{HasText, test_of};
ghost use Rattle.ms_interpreter.specs.Leads.{done_of};
ghost use Rattle.ms_interpreter.specs.Seen.{here_of, texts_of};
ghost use Rattle.ms_interpreter.specs.Staying.{Stay};
ghost use Rattle.ms_interpreter.specs.Turns.{Executes, IsSeen, Turns, arm_due, step_in, test_in, turn_of, with_arm};

use crate::acting::act;
use crate::arithmetic::Arithmetic;
use crate::arms::known_arm;
use crate::asked::Asked;
use crate::asking::ask;
use crate::finish::Finish;
use crate::leading::lead;
use crate::settling::settle;
use crate::state::State;
use ms_linking::{Instruction, instruction_of};
use ms_program::Program;
use ms_words::{Item, NoMemory};
use std::alloc::Global;

/// What a turn comes to.
#[derive(Drop)]
pub enum Turn<I> {
    /// The run goes on.
    Goes,
    /// It stands at a choice: a parameter entered the test that comes.
    Stands,
    /// It ends.
    Ends(Finish<I>),
}

/// Executes an instruction in the frame that runs, with an arm of its test where it asks one.
fn execute<A: Arithmetic>(
    alloc: Global,
    program: &Program,
    instruction: &Instruction<'_>,
    arm: usize,
    state: &mut State<A::Int>,
    arithmetic: &mut A,
) -> Result<Option<Finish<A::Int>>, NoMemory>
    requires room { A.kept arithmetic.old + 2 ≤ 4294967295 }
    requires there { IsSome (views_of program.now state.old.top.at) }
    requires text { HasText (texts_of (views_of program.now)) state.old.top.at (told instruction.now) }
    ensures executes { IfOk result (λ finish. Executes A.ints (A.means arithmetic.new) (views_of program.now) (told instruction.now) arm state.old finish state.new) }
    ensures stay { Stay A.Has (A.means arithmetic.old) (A.means arithmetic.new) }
    ensures few { A.kept arithmetic.new ≤ A.kept arithmetic.old + 2 }
{
    let did = act(
        alloc,
        program,
        instruction,
        arm,
        &mut state.top,
        &mut state.memory,
    )?;
    let led = settle(alloc, did, &mut state.top, &mut state.memory, arithmetic)?;
    let finish = lead::<A>(alloc, program, state, led)?;
    Ok(finish)
}

/// The instruction of an item, if the machine sees one there.
fn seen_at<'a>(
    alloc: Global,
    program: &'a Program,
    item: Item,
) -> Result<Option<Instruction<'a>>, NoMemory>
    ensures { IfOk result (λ found. IsSeen (views_of program.now) item (option_map told found)) }
{
    let Some(view) = program.view(item) else {
        return Ok(None);
    };
    let found = instruction_of(alloc, program, &view)?;
    Ok(found)
}

/// The arm with which an instruction is executed: that of its test, where no parameter entered it, or any where it
/// asks none; none at a choice.
fn due<A: Arithmetic>(
    instruction: &Instruction<'_>,
    state: &State<A::Int>,
    program: &Program,
    arithmetic: &A,
) -> Option<usize>
    ensures now { result ≡ arm_due A.ints (test_of (effect A.ints (told instruction.now) (here_of (A.means arithmetic.now) (texts_of (views_of program.now)) state.now.top state.now.memory))) }
    ensures later { (f : A.Int → A.V) → Stay A.Has (A.means arithmetic.now) f → IfSome result (λ arm. arm_due A.ints (test_of (effect A.ints (told instruction.now) (here_of f (texts_of (views_of program.now)) state.now.top state.now.memory))) ≡ Some arm) }
{
    match ask(instruction, &state.top, &state.memory) {
        Some(test) => known_arm(&test, arithmetic),
        None => Some(0),
    }
}

/// The run ended so, or goes on.
fn turned<I>(finish: Option<Finish<I>>) -> Turn<I>
    ensures { result ≡ turn_of finish }
{
    match finish {
        Some(finish) => Turn::Ends(finish),
        None => Turn::Goes,
    }
}

/// Takes a turn: executes the instruction that comes, unless it is at a choice. It makes two ints at most, for which there
/// is room.
pub fn take_turn<A: Arithmetic>(
    alloc: Global,
    program: &Program,
    state: &mut State<A::Int>,
    arithmetic: &mut A,
) -> Result<Turn<A::Int>, NoMemory>
    requires room { A.kept arithmetic.old + 2 ≤ 4294967295 }
    ensures turns { IfOk result (λ came. Turns A.ints (A.means arithmetic.new) (views_of program.now) state.old came state.new) }
    ensures stay { Stay A.Has (A.means arithmetic.old) (A.means arithmetic.new) }
    ensures few { A.kept arithmetic.new ≤ A.kept arithmetic.old + 2 }
{
    let Some(instruction) = seen_at(alloc, program, state.top.at())? else {
        return Ok(Turn::Ends(Finish::Stuck));
    };
    let Some(arm) = due::<A>(&instruction, state, program, arithmetic) else {
        return Ok(Turn::Stands);
    };
    let finish = execute(alloc, program, &instruction, arm, state, arithmetic)?;
    Ok(turned(finish))
}

/// The test that the instruction that comes asks, if it asks one.
pub fn test_asked<'a, A: Arithmetic>(
    alloc: Global,
    program: &'a Program,
    state: &State<A::Int>,
) -> Result<Option<Asked<'a, A::Int>>, NoMemory>
    ensures { IfOk result (λ test. (f : A.Int → A.V) → option_map (asked_of A.ints f) test ≡ test_in (step_in A.ints f (views_of program.now) state.now)) }
{
    let Some(instruction) = seen_at(alloc, program, state.top.at())? else {
        return Ok(None);
    };
    let test = ask(&instruction, &state.top, &state.memory);
    Ok(test)
}

/// Executes the instruction that comes, with an arm of its test. It makes two ints at most, for which there is room.
pub fn choose<A: Arithmetic>(
    alloc: Global,
    program: &Program,
    state: &mut State<A::Int>,
    arm: usize,
    arithmetic: &mut A,
) -> Result<Option<Finish<A::Int>>, NoMemory>
    requires room { A.kept arithmetic.old + 2 ≤ 4294967295 }
    ensures chooses { IfOk result (λ finish. with_arm arm (step_in A.ints (A.means arithmetic.new) (views_of program.now) state.old) ≡ done_of (A.means arithmetic.new) (texts_of (views_of program.now)) finish state.new) }
    ensures stay { Stay A.Has (A.means arithmetic.old) (A.means arithmetic.new) }
    ensures few { A.kept arithmetic.new ≤ A.kept arithmetic.old + 2 }
{
    let Some(instruction) = seen_at(alloc, program, state.top.at())? else {
        return Ok(Some(Finish::Stuck));
    };
    let finish = execute(alloc, program, &instruction, arm, state, arithmetic)?;
    Ok(finish)
}
