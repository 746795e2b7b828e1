ghost use Rattle.std.specs.Prelude.{◌≡◌, IsSome, Some, option_map, true, ℕ};
ghost use Rattle.ms_words.specs.Inputs.{Words};
ghost use Rattle.ms_program.specs.declared.method.MethodId.{MethodId};
ghost use Rattle.ms_program.specs.Programs.{IsProgram, Program, body_of, can_be_entry, key_of};
ghost use Rattle.ms_machine.specs.Control.{Program as Machine};
ghost use Rattle.ms_machine.specs.Runs.{IsInputOf, end_of};
ghost use Rattle.ms_verify.specs.Methods.{AllAccepted};
ghost use Rattle.ms_jvm.specs.Ends.{path_end_of};
ghost use Rattle.ms_jvm.specs.Entered.{entered};

use ms_machine::words_take_an_arm;
use ms_verify::{accepted_programs_are_never_stuck, accepted_programs_have_no_fault};

/// The law of entered methods: in an accepted program the run of an input of any method that isn't foreign
/// and can be an entry has an end, to every depth. It does nothing.
pub fn entered_runs_have_ends()
    ensures { (P : Program) (id : MethodId) (machine : Machine) (x : Words) (depth : ℕ) → IsProgram P → AllAccepted P → IsSome (body_of P id) → option_map can_be_entry (key_of P id) ≡ Some true
        → entered P id ≡ Some machine → IsInputOf machine x → IsSome (path_end_of (end_of machine x depth)) }
{
    words_take_an_arm();
    accepted_programs_have_no_fault();
    accepted_programs_are_never_stuck();
}
