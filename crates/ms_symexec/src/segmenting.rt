ghost use Rattle.std.specs.Prelude.{IfOk, List};
ghost use Rattle.ms_linking.specs.Linked.{views_of};
ghost use Rattle.ms_machine.specs.Control as control;
ghost use Rattle.ms_machine.specs.Control.{step};
ghost use Rattle.ms_machine.specs.Ints.{shadows};
ghost use Rattle.ms_terms.specs.declared.term.Term.{Term as Node};
ghost use Rattle.ms_terms.specs.Terms.{Term};
ghost use Rattle.ms_interpreter.specs.Turns.{choice_of};
ghost use Rattle.ms_symexec.specs.Outcomes.{AtSmallChoice, HasArms};
ghost use Rattle.ms_symexec.specs.Segments.{IsAtChoice};

use crate::counting::arms_of;
use ms_interpreter::{State, test_asked};
use ms_program::Program;
use ms_terms::{TermId, Terms};
use ms_words::NoMemory;
use std::alloc::Global;

/// How many arms the choice has at which a state stands.
pub(crate) fn arms_at(
    alloc: Global,
    program: &Program,
    state: &State<TermId>,
) -> Result<u32, NoMemory>
    requires { AtSmallChoice (views_of program.now) state.now }
    ensures { IfOk result (λ arms. (nodes : List Node) (seen : control.State Term) → IsAtChoice nodes (views_of program.now) state.now seen → HasArms arms (choice_of (step shadows (views_of program.now) seen))) }
{
    match test_asked::<Terms>(alloc, program, state) {
        Ok(Some(test)) => Ok(arms_of(&test)),
        Ok(None) => Ok(0),
        Err(error) => Err(error),
    }
}
