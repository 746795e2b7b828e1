ghost use Rattle.std.specs.Prelude.{◌≡◌, ◌↔◌, ◌<◌, IsSome, None, Some, length, ℕ};
ghost use Rattle.ms_program.specs.declared.body.Body.{Body};
ghost use Rattle.ms_program.specs.declared.method.MethodId.{MethodId};
ghost use Rattle.ms_program.specs.Programs.{IsProgram, Program, body_of, method_id};
ghost use Rattle.ms_machine.specs.Control.{Program as Machine};
ghost use Rattle.ms_linking.specs.Linked.{program_of};
ghost use Rattle.ms_typing.specs.declared.kind.VerifyKind.{VerifyKind};
ghost use Rattle.ms_typing.specs.Typed.{IsNeverStuck, IsVerified, Typings};
ghost use Rattle.ms_typing.specs.Verifier.{Method};
ghost use Rattle.ms_verify.specs.Faults.{ProgramFault, fault_of};
ghost use Rattle.ms_verify.specs.Laws.{AreLastShapes};
ghost use Rattle.ms_verify.specs.Methods.{AllAccepted, HasFirstFault, method_of};

use ms_linking::opcodes_have_groups;
use ms_program::{
    bodies_have_whole_codes, instructions_are_of_the_subset, members_have_first_items,
    views_lead_to_views,
};
use ms_typing::{methods_have_one_outcome, verified_programs_are_never_stuck};

/// The law of methods: the rules see each method that isn't foreign, and each that they see has a code. It
/// does nothing.
pub fn methods_are_seen()
    ensures seen { (P : Program) (class number : ℕ) (body : Body) → IsProgram P → body_of P (method_id class number) ≡ Some body → IsSome (method_of P class number) }
    ensures code { (P : Program) (class number : ℕ) (method : Method) → IsProgram P → method_of P class number ≡ Some method → 0 < length method.lines }
{
    bodies_have_whole_codes();
}

/// The law of accepted programs: none has a first fault, and the entry is of no account. It does nothing.
pub fn accepted_programs_have_no_fault()
    ensures no_fault { (P : Program) (class number offset : ℕ) (kind : VerifyKind) → IsProgram P → AllAccepted P → HasFirstFault P class number offset kind → ⊥ }
    ensures entry { (P : Program) (id : MethodId) → AllAccepted P → AllAccepted (record P { entry = Some id }) }
{
    methods_are_seen();
    methods_have_one_outcome();
}

/// The law of first faults: that of a program is a function of it, `fault_of`, which says the first fault where
/// a program has one, and none exactly where all its methods are accepted. It does nothing.
pub fn first_faults_are_found()
    ensures found { (P : Program) (fault : ProgramFault) → IsProgram P → HasFirstFault P fault.class fault.method fault.offset fault.kind ↔ (fault_of P ≡ Some fault) }
    ensures none { (P : Program) → IsProgram P → AllAccepted P ↔ (fault_of P ≡ None) }
{
    methods_are_seen();
    methods_have_one_outcome();
    accepted_programs_have_no_fault();
}

/// The law of the types of an accepted program: all rules hold of the last shapes of its methods, in the
/// program that the machine runs. It does nothing.
pub fn accepted_programs_are_verified()
    ensures { (P : Program) (machine : Machine) → IsProgram P → AllAccepted P → program_of P ≡ Some machine → (T : Typings) × AreLastShapes P T × IsVerified machine T }
{
    methods_are_seen();
    opcodes_have_groups();
    instructions_are_of_the_subset();
    members_have_first_items();
    views_lead_to_views();
    methods_have_one_outcome();
}

/// The law of the runs of an accepted program: it is never stuck, and all values are of the kinds that the
/// last shapes of its methods say. It does nothing.
pub fn accepted_programs_are_never_stuck()
    ensures { (P : Program) (machine : Machine) → IsProgram P → AllAccepted P → program_of P ≡ Some machine → (T : Typings) × AreLastShapes P T × IsVerified machine T × IsNeverStuck machine T }
{
    accepted_programs_are_verified();
    verified_programs_are_never_stuck();
}
