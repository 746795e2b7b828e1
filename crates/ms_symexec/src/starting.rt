ghost use Rattle.std.specs.Prelude.{◌≡◌, ◌+◌, ◌≤◌, IfOk, IsSome, Some, length, true};
ghost use Rattle.ms_linking.specs.Linked.{program_of};
ghost use Rattle.ms_program.specs.Programs.{IsProgram};
ghost use Rattle.ms_machine.specs.Control.{Program as Machine};
ghost use Rattle.ms_machine.specs.Laws.{parameters_from, shadow_started};
ghost use Rattle.ms_machine.specs.Maps.{map_locals};
ghost use Rattle.ms_interpreter.specs.Seen.{Texts, locals_of};
ghost use Rattle.ms_interpreter.specs.Staying.{Stay};
ghost use Rattle.ms_interpreter.specs.Symbols.{symbol};
ghost use Rattle.ms_symexec.specs.Standing.{StandsFor, held};

use crate::state::State;
use ms_interpreter as interpreter;
use ms_interpreter::Slot;
use ms_linking::programs_are_linked;
use ms_program::Program;
use ms_terms::{TermId, Terms};
use ms_verify::Verified;
use ms_words::{Item, Kinds, NoMemory};
use std::alloc::Global;

/// The kinds of the parameters of the entry.
fn kinds_of(program: &Program) -> Option<Kinds>
    ensures { (P : Machine) → program_of program.now ≡ Some P → result ≡ Some P.entry.kinds }
{
    let view = program.view(Item::Entry)?;
    let part = view.entry_part()?;
    Some(part.kinds)
}

/// A term for each parameter, as locals hold them.
fn parameters(
    alloc: Global,
    kinds: &Kinds,
    terms: &mut Terms,
) -> Result<Vec<Option<Slot<TermId>>>, NoMemory>
    requires room { length terms.old + 8 ≤ 4294967295 }
    ensures locals { IfOk result (λ locals. (texts : Texts) → locals_of (symbol terms.new) texts locals.items ≡ map_locals (λ term. Some term) (held (parameters_from 0 kinds.now))) }
    ensures stay { Stay (λ v. IsSome v) (symbol terms.old) (symbol terms.new) }
    ensures few { length terms.new ≤ length terms.old + 8 }
{
    let mut locals = Vec::new(alloc);
    let kinds = kinds.get();
    for place in 0..kinds.len() {
        let id = terms.param(place as u8, kinds[place])?;
        locals.push(Some(Slot::Int(id)))?;
    }
    Ok(locals)
}

/// A program is one. It does nothing.
pub(crate) fn is_program(program: &Program)
    ensures { IsProgram program.now }
{
    program.classes();
}

/// The state in which every input begins, with a term for each parameter of the entry, which is set (JVMS SE 8, sections
/// 2.6 and 5.5). There are at most 4,000,000,000 terms, and at most eight come to them. It fails for want of memory alone.
pub fn start(alloc: Global, verified: &Verified, terms: &mut Terms) -> Result<State, NoMemory>
    requires entry { IsSome verified.now.entry }
    requires room { length terms.old ≤ 4000000000 }
    ensures started { IfOk result (λ state. (P : Machine) → program_of verified.now ≡ Some P → StandsFor terms.new P.view state.run (shadow_started P P.entry.kinds)) }
    ensures first { IfOk result (λ state. state.is_first ≡ true) }
    ensures stay { Stay (λ v. IsSome v) (symbol terms.old) (symbol terms.new) }
    ensures few { length terms.new ≤ length terms.old + 8 }
{
    programs_are_linked();
    let program = verified.program();
    is_program(program);
    let Some(entry) = program.entry() else {
        unreachable!()
    };
    let Some(kinds) = kinds_of(program) else {
        unreachable!()
    };
    let locals = parameters(alloc, &kinds, terms)?;
    let run = interpreter::start::<Terms>(alloc, program, entry, locals)?;
    Ok(State {
        run,
        is_first: true,
    })
}
