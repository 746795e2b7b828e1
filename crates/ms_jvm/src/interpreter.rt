ghost use Rattle.std.specs.Prelude.{◌≡◌, ℕ, List, IsSome, IsTrue};
ghost use Rattle.ms_words.specs.Inputs.{Words, are_of};
ghost use Rattle.ms_classfile.specs.ThinFile.{IsThinMethod, Method};
ghost use Rattle.ms_machine.specs.Laws.{IsWhole};
ghost use Rattle.ms_machine.specs.Runs.{IsInputOf, end_of, segment_after};
ghost use Rattle.ms_jvm.specs.Ends.{HasTwoArms, ReturnsOrIsCut, path_end_of};
ghost use Rattle.ms_jvm.specs.Programs.{program_of};

/// The law of thin methods: each run returns a word or is cut, each choice that it comes to has two arms,
/// and words of the kinds of the parameters are an input. It does nothing.
pub fn thin_methods_end()
    ensures returns { (method : Method) (x : Words) (depth : ℕ) → IsThinMethod method → x.kinds ≡ method.kinds → IsWhole x → ReturnsOrIsCut (end_of (program_of method) x depth) }
    ensures ends { (method : Method) (x : Words) (depth : ℕ) → IsThinMethod method → x.kinds ≡ method.kinds → IsWhole x → IsSome (path_end_of (end_of (program_of method) x depth)) }
    ensures arms { (method : Method) (x : Words) (p : List ℕ) → IsThinMethod method → x.kinds ≡ method.kinds → IsWhole x → HasTwoArms (segment_after (program_of method) x p).after }
    ensures inputs { (method : Method) (x : Words) → x.kinds ≡ method.kinds → IsTrue (are_of x.kinds x.words) → IsInputOf (program_of method) x }
{}
