ghost use Rattle.std.specs.Prelude.{◌≢◌, ◌<◌, All, AllPairs, ℕ, ℤ, List};
ghost use Rattle.ms_outside.specs.Shelves.{Found};
ghost use Rattle.ms_command.specs.declared.reply.Reply.TheVariants.{NotBuilt};
ghost use Rattle.ms_classfile.specs.ThinFile.{IsThinMethod, Method};
ghost use Rattle.ms_jvm.specs.Programs.{program_of};
ghost use Rattle.ms_machine.specs.Control.{Program};
ghost use Rattle.ms_session.specs.Laws.{LeastComesFirst, ListsPaths, PathListIsUnique, Precedes};
ghost use Rattle.ms_session.specs.Once.{once_reply};
ghost use Rattle.ms_session.specs.Paths.{report, tree};

use ms_classfile::members_are_distinct;
use ms_jvm::{entered_runs_have_ends, thin_methods_end};
use ms_machine::{inputs_share_shadows, least_is_unique};
use ms_program::{files_are_read, files_are_whole_or_have_a_fault};
use ms_verify::first_faults_are_found;

/// The first of all inputs that takes a string is the least input of it, in any program.
pub fn least_inputs_come_first()
    ensures { (P : Program) (p : List ℕ) → LeastComesFirst P p }
{}

/// The report of a thin method to a depth lists each path that some input takes, once and in choice order,
/// with its least input and its end, and nothing else.
pub fn reports_list_each_path()
    ensures { (method : Method) (depth : ℕ) → IsThinMethod method → ListsPaths (program_of method) depth (report (program_of method) depth) }
{
    inputs_share_shadows();
    thin_methods_end();
}

/// There is at most one list of the paths to a depth, in any program. So the report of a thin method is the
/// list of its paths, however it is found.
pub fn path_list_is_unique()
    ensures { (P : Program) (depth : ℕ) → PathListIsUnique P depth }
{
    least_is_unique();
}

/// The strings of the tree stand in choice order, each once, in any program: so the first that needs settling
/// is the first in that order.
pub fn trees_are_in_choice_order()
    ensures { (P : Program) (depth : ℕ) → AllPairs Precedes (tree P depth) }
{}

/// The law of `once`, of files of bytes below 256: each has its reply, and none is beyond what is built. It
/// does nothing.
pub fn once_answers_every_file()
    ensures { (file name desc bytes : List ℕ) (words : List ℤ) → All (λ byte. byte < 256) bytes → once_reply file name desc words (Found bytes) ≢ NotBuilt }
{
    files_are_whole_or_have_a_fault();
    files_are_read();
    members_are_distinct();
    first_faults_are_found();
    entered_runs_have_ends();
}
