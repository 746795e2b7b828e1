ghost use Rattle.std.specs.Prelude.{◌≡◌, ◌+◌, ◌≤◌, IfOk, OnOk, IsSome, false, length};
ghost use Rattle.ms_linking.specs.Linked.{views_of};
ghost use Rattle.ms_machine.specs.Runs.{done_after};
ghost use Rattle.ms_machine.specs.Segments.{After};
ghost use Rattle.ms_terms.specs.Terms.{Term};
ghost use Rattle.ms_interpreter.specs.Staying.{Stay};
ghost use Rattle.ms_interpreter.specs.Symbols.{symbol};
ghost use Rattle.ms_symexec.specs.Standing.{IsAt, StandsFor};

use crate::state::State;
use ms_interpreter as interpreter;
use ms_interpreter::{Beginning, Finish};
use ms_program::Program;
use ms_terms::{TermId, Terms};
use ms_verify::Verified;
use ms_words::NoMemory;
use std::alloc::Global;
use std::mem;

/// Takes an arm of the choice at which a run stands.
fn chosen(
    alloc: Global,
    program: &Program,
    run: Beginning<TermId>,
    arm: usize,
    terms: &mut Terms,
) -> Result<Beginning<TermId>, NoMemory>
    requires room { length terms.old + 2 ≤ 4294967295 }
    ensures chosen { IfOk result (λ after_it. (after : After Term) → IsAt terms.old (views_of program.now) run after → StandsFor terms.new (views_of program.now) after_it (done_after after arm)) }
    ensures stay { Stay (λ v. IsSome v) (symbol terms.old) (symbol terms.new) }
    ensures few { length terms.new ≤ length terms.old + 2 }
{
    match run {
        Beginning::In(state) => {
            let mut state = state;
            match interpreter::choose::<Terms>(alloc, program, &mut state, arm, terms)? {
                None => Ok(Beginning::In(state)),
                Some(finish) => Ok(Beginning::Over(finish)),
            }
        }
        Beginning::Over(finish) => Ok(Beginning::Over(finish)),
    }
}

/// Takes an arm, counted from 0, of the choice at which a state stands, with its terms and the program of its run: it
/// then stands for the string with that arm. There are at most 4,000,000,000 terms, and at most two come to them. It
/// fails for want of memory alone, and then the state is given up.
pub fn choose(
    alloc: Global,
    verified: &Verified,
    state: &mut State,
    terms: &mut Terms,
    arm: u32,
) -> Result<(), NoMemory>
    requires room { length terms.old ≤ 4000000000 }
    ensures chosen { OnOk result ((after : After Term) → IsAt terms.old (views_of verified.now) state.old.run after → StandsFor terms.new (views_of verified.now) state.new.run (done_after after arm)) }
    ensures later { OnOk result (state.new.is_first ≡ false) }
    ensures stay { Stay (λ v. IsSome v) (symbol terms.old) (symbol terms.new) }
    ensures few { length terms.new ≤ length terms.old + 2 }
{
    let run = mem::replace(&mut state.run, Beginning::Over(Finish::Stuck));
    state.is_first = false;
    state.run = chosen(alloc, verified.program(), run, arm as usize, terms)?;
    Ok(())
}
