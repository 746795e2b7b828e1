ghost use Rattle.std.specs.Prelude.{◌≡◌, ◌<◌, IfOk, Some, length, map, option_map};
ghost use Rattle.ms_words.specs.Inputs.{IsInput};
ghost use Rattle.ms_machine.specs.Laws.{marked_start};
ghost use Rattle.ms_interpreter.specs.Begun.{begins};
ghost use Rattle.ms_interpreter.specs.Seen.{texts_of};
ghost use Rattle.ms_linking.specs.Linked.{views_of};
ghost use Rattle.ms_jvm.specs.Entered.{entered};
ghost use Rattle.ms_jvm.specs.Segments.{parameter_of};

use crate::marked::MarkedInt;
use crate::marks::Marks;
use ms_interpreter::{Beginning, Slot, start};
use ms_program::{MethodId, Program};
use ms_words::{Input, NoMemory};
use std::alloc::Global;

/// A parameter, as a local holds it.
fn parameter(word: i32) -> Option<Slot<MarkedInt>>
    ensures { result ≡ parameter_of word }
{
    Some(Slot::Int(MarkedInt { word, plain: false }))
}

/// The parameters, as locals hold them.
fn parameters(alloc: Global, x: &Input) -> Result<Vec<Option<Slot<MarkedInt>>>, NoMemory>
    ensures locals { IfOk result (λ locals. locals.items ≡ map parameter_of x.now.words) }
    ensures input { IsInput x.now }
{
    x.words().iter().map(|word| parameter(*word)).collect(alloc)
}

/// How the run of an entry on an input begins.
pub(crate) fn start_of(
    alloc: Global,
    program: &Program,
    entry: MethodId,
    x: &Input,
) -> Result<Beginning<MarkedInt>, NoMemory>
    requires class { entry.class < length program.now.classes }
    requires kinds { option_map (λ P. P.entry.kinds) (entered program.now entry) ≡ Some x.now.kinds }
    ensures start { IfOk result (λ start. option_map (λ P. marked_start P x.now) (entered program.now entry) ≡ Some (begins (λ a. a) (texts_of (views_of program.now)) start)) }
    ensures input { IsInput x.now }
{
    let locals = parameters(alloc, x)?;
    start::<Marks>(alloc, program, entry, locals)
}
