ghost use Rattle.std.specs.Prelude.{◌≡◌, ◌≤◌, ◌<◌, ◌++◌, All, IsTrue, map, IfOk, OnOk};
ghost use Rattle.std.specs.List.{AllByRecursion, list_all};
ghost use Rattle.ms_words.specs.Inputs.{Words};
ghost use Rattle.ms_classfile.specs.Found.{view};
ghost use Rattle.ms_classfile.specs.ThinFile.{IsThinMethod};
ghost use Rattle.ms_jvm.specs.Programs.{program_of};
ghost use Rattle.ms_session.specs.Growing.{IsBooleanAt, run_of, with_one};
ghost use Rattle.ms_session.specs.Paths.{inputs_of};
ghost use Rattle.ms_session.specs.States.{is_boolean};

use ms_classfile::ThinMethod;
use ms_jvm::{Path, path_of};
use ms_words::{Input, Kind, Kinds, NoMemory};
use std::alloc::Global;

/// The run of an input to a depth.
#[derive(Debug, Drop)]
pub struct Run {
    /// The input, of the kinds of the entry's parameters.
    pub input: Input,
    /// Its choices, at most as many as the depth, and how it ends.
    pub path: Path,
}

/// The runs of all inputs of a thin method whose parameters are boolean, in the order of the inputs, to a
/// depth of at most 256.
pub fn all_runs(alloc: Global, method: &ThinMethod<'_>, depth: u16) -> Result<Vec<Run>, NoMemory>
    requires thin { IsThinMethod (view method.now) }
    requires booleans { IsTrue (list_all is_boolean method.now.kinds) }
    requires depth { depth ≤ 256 }
    ensures { IfOk result (λ runs. runs.items ≡ map (run_of (program_of (view method.now)) depth) (inputs_of method.now.kinds)) }
{
    let inputs = all_inputs(alloc, method.kinds)?;
    let mut runs = Vec::new(alloc);
    for input in inputs.as_slice() {
        runs.push(run_on(alloc, method, *input, depth)?)?;
    }
    Ok(runs)
}

/// The run of one input.
fn run_on(alloc: Global, method: &ThinMethod<'_>, input: Input, depth: u16) -> Result<Run, NoMemory>
    requires thin { IsThinMethod (view method.now) }
    requires kinds { input.kinds ≡ method.now.kinds }
    requires depth { depth ≤ 256 }
    ensures { IfOk result (λ run. run ≡ run_of (program_of (view method.now)) depth input.words) }
{
    let path = path_of(alloc, method, &input, depth)?;
    Ok(Run { input, path })
}

/// All inputs of these kinds, each of which is boolean, in their order.
fn all_inputs(alloc: Global, kinds: Kinds) -> Result<Vec<Input>, NoMemory>
    requires { IsTrue (list_all is_boolean kinds) }
    ensures inputs { IfOk result (λ inputs. inputs.items ≡ map (λ words. record { kinds = kinds; words = words }) (inputs_of kinds)) }
    ensures kinds { IfOk result (λ inputs. AllByRecursion (λ (input : Words). input.kinds ≡ kinds) inputs.items) }
{
    let mut inputs = Vec::new(alloc);
    inputs.push(Input::zero(kinds))?;
    let mut place = kinds.get().len();
    while place > 0 {
        place -= 1;
        double(&mut inputs, place)?;
    }
    Ok(inputs)
}

/// Adds each input once more, with 1 in this place.
fn double(inputs: &mut Vec<Input>, place: usize) -> Result<(), NoMemory>
    requires { AllByRecursion (IsBooleanAt place) inputs.old.items }
    ensures { OnOk result (inputs.new.items ≡ inputs.old.items ++ map (with_one place) inputs.old.items) }
{
    let count = inputs.len();
    for i in 0..count {
        let next = raised(inputs[i], place);
        inputs.push(next)?;
    }
    Ok(())
}

/// The input with 1 in this place.
fn raised(input: Input, place: usize) -> Input
    requires { IsBooleanAt place input }
    ensures { result ≡ with_one place input }
{
    let mut next = input;
    next.set(place, 1);
    next
}
