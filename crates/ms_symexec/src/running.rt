ghost use Rattle.std.specs.Prelude.{◌≡◌, ◌+◌, ◌≤◌, ◌∷◌, [], if◌then◌else◌, IfOk, IsSome, length};
ghost use Rattle.ms_words.specs.declared.item.Item.TheVariants as items;
ghost use Rattle.ms_program.specs.Programs.{IsProgram};
ghost use Rattle.ms_linking.specs.Linked.{views_of};
ghost use Rattle.ms_machine.specs.Control.{Done};
ghost use Rattle.ms_machine.specs.Ints.{shadows};
ghost use Rattle.ms_machine.specs.Segments.{segment_from};
ghost use Rattle.ms_terms.specs.Terms.{Term};
ghost use Rattle.ms_interpreter.specs.Staying.{Stay};
ghost use Rattle.ms_interpreter.specs.Symbols.{symbol};
ghost use Rattle.ms_symexec.specs.Outcomes.{IsSegment, Reached};
ghost use Rattle.ms_symexec.specs.Standing.{StandsFor};

use crate::arriving::arrive;
use crate::footprints::footprint_of;
use crate::next::come_next;
use crate::outcome::Segment;
use crate::starting::is_program;
use crate::state::State;
use ms_interpreter::{Beginning, Finish};
use ms_linking::linked_programs_are_in_order;
use ms_machine::choices_are_small;
use ms_terms::Terms;
use ms_verify::{Verified, accepted_programs_are_never_stuck};
use ms_words::{Item, NoMemory};
use std::alloc::Global;
use std::mem;

/// The items before the first instruction of a segment: the entry, in the first.
fn begun(alloc: Global, is_first: bool) -> Result<Vec<Item>, NoMemory>
    ensures { IfOk result (λ trace. trace.items ≡ (if is_first then items.Entry ∷ [] else [])) }
{
    let mut trace = Vec::new(alloc);
    if !is_first {
        return Ok(trace);
    }
    trace.push(Item::Entry)?;
    Ok(trace)
}

/// Goes on from a state that `start` or `choose` left up to the next choice or the end, with its terms and the program of
/// its run (JVMS SE 8, sections 2.6, 2.10, 5.5 and 6.5). The state then stands at the choice. There are at most
/// 4,000,000,000 terms, and at most 40,000 come to them. It fails for want of memory alone, and then the state is given up.
pub fn segment(
    alloc: Global,
    verified: &Verified,
    state: &mut State,
    terms: &mut Terms,
) -> Result<Segment, NoMemory>
    requires reached { Reached terms.old verified.now state.old }
    requires room { length terms.old ≤ 4000000000 }
    ensures segment { IfOk result (λ segment. (done : Done Term) → StandsFor terms.old (views_of verified.now) state.old.run done → IsSegment terms.new (views_of verified.now) state.old.is_first segment state.new (segment_from shadows (views_of verified.now) done)) }
    ensures stay { Stay (λ v. IsSome v) (symbol terms.old) (symbol terms.new) }
    ensures few { length terms.new ≤ length terms.old + 40000 }
{
    choices_are_small();
    linked_programs_are_in_order();
    accepted_programs_are_never_stuck();
    let program = verified.program();
    is_program(program);
    let mut trace = begun(alloc, state.is_first)?;
    let run = mem::replace(&mut state.run, Beginning::Over(Finish::Stuck));
    let arrived = arrive(alloc, program, run, terms, &mut trace)?;
    let (next, run) = come_next(alloc, program, arrived)?;
    state.run = run;
    let footprint = footprint_of(alloc, trace.as_slice())?;
    Ok(Segment { next, footprint })
}
