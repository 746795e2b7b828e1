ghost use Rattle.std.specs.Prelude.{◌↔◌, ◌<◌, List, length};
ghost use Rattle.ms_machine.specs.Control.{Program};
ghost use Rattle.ms_typing.specs.Solutions.{HasOneOutcome, HasSolution, IsAccepted, LastAreLeast};
ghost use Rattle.ms_typing.specs.Typed.{IsNeverStuck, IsVerified, Typings};
ghost use Rattle.ms_typing.specs.Verifier.{Accepted, Cell, Method, Verifies};

use ms_machine::words_take_an_arm;

/// The law of verification, of any method that has a code: it has one outcome; it is accepted exactly where
/// some shapes meet all rules; and the last shapes are the least that do. So the order in which offsets are
/// taken decides no more than which fault is named. It does nothing.
pub fn methods_have_one_outcome()
    ensures outcome { (method : Method) → 0 < length method.lines → HasOneOutcome method }
    ensures accepted { (method : Method) → 0 < length method.lines → IsAccepted method ↔ HasSolution method }
    ensures last { (method : Method) (last : List Cell) → 0 < length method.lines → Verifies method (Accepted last) → LastAreLeast method last }
{}

/// The law of verified programs: from the start of the entry, and after any arms of the choices that come,
/// no run comes to the end that no rule covers, and all values are of the kinds that the types say. It does
/// nothing.
pub fn verified_programs_are_never_stuck()
    ensures { (P : Program) (T : Typings) → IsVerified P T → IsNeverStuck P T }
{
    words_take_an_arm();
}
