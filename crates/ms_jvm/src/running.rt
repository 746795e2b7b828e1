ghost use Rattle.std.specs.Prelude.{◌≡◌, ◌≤◌, IfOk, IsSome, Some, length, option_and_then, option_map, true};
ghost use Rattle.ms_words.specs.Inputs.{IsInput};
ghost use Rattle.ms_program.specs.Programs.{IsProgram, body_of, can_be_entry, key_of};
ghost use Rattle.ms_machine.specs.Ints.{marks};
ghost use Rattle.ms_machine.specs.Laws.{mark_arm, marked_start};
ghost use Rattle.ms_machine.specs.Runs as runs;
ghost use Rattle.ms_machine.specs.Runs.{end_from, end_of, string, string_from};
ghost use Rattle.ms_interpreter.specs.Leads.{finish_of};
ghost use Rattle.ms_jvm.specs.Ends.{path_end_by, path_end_of};
ghost use Rattle.ms_jvm.specs.Entered.{entered};
ghost use Rattle.ms_jvm.specs.Segments.{ends_with};

use crate::choices::{Last, Run, run_from};
use crate::laws::entered_runs_have_ends;
use crate::marked::MarkedInt;
use crate::starting::start_of;
use ms_interpreter::{Beginning, Finish};
use ms_machine::marks_are_right;
use ms_program::{MethodId, Program};
use ms_verify::Verified;
use ms_words::{Ended, Input, NoMemory, PathEnd};
use std::alloc::Global;

/// How a run to a depth ends, and after how many choices.
#[derive(Drop)]
pub struct Ran {
    /// How it ends: by itself, or cut where one choice more is due.
    pub end: PathEnd,
    /// The number of its choices, at most the depth.
    pub arms: u16,
}

/// How a run with marks ends by itself, in the words of callers; none where no rule applies.
fn ended(finish: Finish<MarkedInt>) -> Option<Ended>
    ensures { option_map PathEnd.Ended result ≡ path_end_by (λ a. a.word) (runs.Ended (finish_of (λ a. a) finish)) }
{
    match finish {
        Finish::Returned(a) => Some(Ended::Returned(a.word)),
        Finish::ReturnedVoid => Some(Ended::ReturnedVoid),
        Finish::Threw(class) => Some(Ended::Threw(class)),
        Finish::InitFailed(class) => Some(Ended::InitFailed(class)),
        Finish::Missing(name) => Some(Ended::Missing(name)),
        Finish::Deep => Some(Ended::Deep),
        Finish::SymLength => Some(Ended::SymLength),
        Finish::HeapFull => Some(Ended::HeapFull),
        Finish::Stuck => None,
    }
}

/// How a run with marks ends, in the words of callers; none where no rule applies.
fn path_end(last: Last) -> Option<PathEnd>
    ensures { result ≡ path_end_by (λ a. a.word) (ends_with last) }
{
    match last {
        Last::Over(finish) => Some(PathEnd::Ended(ended(finish)?)),
        Last::Runaway => Some(PathEnd::Ended(Ended::Runaway)),
        Last::Cut => Some(PathEnd::Cut),
    }
}

/// Runs a method with marks.
fn run_marked(
    alloc: Global,
    program: &Program,
    entry: MethodId,
    x: &Input,
    depth: u16,
) -> Result<Run, NoMemory>
    requires known { IsSome (body_of program.now entry) }
    requires kinds { option_map (λ P. P.entry.kinds) (entered program.now entry) ≡ Some x.now.kinds }
    ensures end { IfOk result (λ run. option_map (λ P. end_from marks P.view mark_arm depth (marked_start P x.now)) (entered program.now entry) ≡ Some (ends_with run.last)) }
    ensures arms { IfOk result (λ run. option_map (λ P. length (string_from marks P.view mark_arm depth (marked_start P x.now))) (entered program.now entry) ≡ Some run.arms) }
    ensures few { IfOk result (λ run. run.arms ≤ depth) }
    ensures input { IsInput x.now }
{
    match start_of(alloc, program, entry, x)? {
        Beginning::In(state) => {
            let mut state = state;
            let run = run_from(alloc, program, &mut state, depth)?;
            Ok(run)
        }
        Beginning::Over(finish) => Ok(Run {
            last: Last::Over(finish),
            arms: 0,
        }),
    }
}

/// A program is one. It does nothing.
fn is_program(program: &Program)
    ensures { IsProgram program.now }
{
    program.classes();
}

/// Runs a method of a verified program on an input to a depth, 0 to 256 choices (JVMS SE 8, sections 2.6,
/// 2.10, 5.5 and 6.5). The method isn't foreign and can be an entry, and the input has the kinds of its
/// parameters. It fails for want of memory alone.
pub fn run(
    alloc: Global,
    verified: &Verified,
    entry: MethodId,
    x: &Input,
    depth: u16,
) -> Result<Ran, NoMemory>
    requires known { IsSome (body_of verified.now entry) }
    requires enters { option_map can_be_entry (key_of verified.now entry) ≡ Some true }
    requires kinds { option_map (λ P. P.entry.kinds) (entered verified.now entry) ≡ Some x.now.kinds }
    requires depth { depth ≤ 256 }
    ensures end { IfOk result (λ ran. option_and_then (λ P. path_end_of (end_of P x.now depth)) (entered verified.now entry) ≡ Some ran.end) }
    ensures arms { IfOk result (λ ran. option_map (λ P. length (string P x.now depth)) (entered verified.now entry) ≡ Some ran.arms) }
    ensures few { IfOk result (λ ran. ran.arms ≤ depth) }
{
    marks_are_right();
    entered_runs_have_ends();
    let program = verified.program();
    is_program(program);
    let run = run_marked(alloc, program, entry, x, depth)?;
    let Some(end) = path_end(run.last) else {
        unreachable!()
    };
    Ok(Ran {
        end,
        arms: run.arms,
    })
}
