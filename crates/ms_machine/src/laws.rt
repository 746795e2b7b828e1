ghost use Rattle.std.specs.Prelude.{◌≡◌, ◌<◌, List, ℕ, ℤ};
ghost use Rattle.ms_words.specs.Inputs.{Words};
ghost use Rattle.ms_machine.specs.Control.{Program};
ghost use Rattle.ms_machine.specs.Effects.{Test};
ghost use Rattle.ms_machine.specs.Runs.{footprint};
ghost use Rattle.ms_machine.specs.Tests.{arm_of, arms_of};
ghost use Rattle.ms_machine.specs.Laws.{
  ChoicesAreSmall,
  IsClosed,
  IsSmallAndThere,
  IsWhole,
  LawOfTheString,
  LeastExists,
  LeastIsFirst,
  LeastIsUnique,
  MarksAreRight,
  NeedsNoInput,
  SharesShadows,
  TakesWhereMet,
  WordsAreValues,
};

/// The word of every int is the value of its shadow on the input, after any number of steps.
pub fn words_are_values()
    ensures { (P : Program) (x : Words) → IsWhole x → WordsAreValues P x }
{}

/// The machine whose ints are a word and a mark chooses and ends as the machine whose ints are a word
/// and a shadow.
pub fn marks_are_right()
    ensures { (P : Program) (x : Words) → MarksAreRight P x }
{}

/// The run of an input, with the words left out, is that of the machine whose ints are terms, which has
/// no input.
pub fn shadows_need_no_input()
    ensures { (P : Program) (x : Words) → IsWhole x → NeedsNoInput P x }
{}

/// Two inputs of the same kinds have the same shadows, the same control flow and the same footprint
/// through the segment after a string.
pub fn inputs_share_shadows()
    ensures { (P : Program) (x y : Words) → IsWhole x → IsWhole y → x.kinds ≡ y.kinds → SharesShadows P x y }
{}

/// Where the keys of each switch differ, some input takes a string, and an arm is one of the choice that
/// comes after it: an input of the same kinds takes the string with that arm exactly where it makes true
/// each literal on the way through the string and those of the arm.
pub fn takes_where_literals_hold()
    ensures { (P : Program) → LawOfTheString P }
{}

/// Where the keys of each switch differ, and some input takes a string: an input of the same kinds takes it
/// exactly where it makes true each literal on the way through it.
pub fn takes_where_met()
    ensures { (P : Program) → TakesWhereMet P }
{}

/// The arm that a test of words takes is one of the test's.
pub fn words_take_an_arm()
    ensures { (test : Test ℤ) → arm_of test < arms_of test }
{}

/// Where each switch has fewer than 65,535 keys, what comes after a segment is the end, or a choice of
/// 1 to 65,535 arms, each with at most 65,535 literals.
pub fn choices_are_small()
    ensures { (P : Program) → ChoicesAreSmall P }
{}

/// Where each item of a program's views has a view, each item of a footprint is the entry or has one, and
/// there are at most 20,001.
pub fn footprints_have_views()
    ensures { (P : Program) → IsClosed P → (x : Words) (p : List ℕ) → IsSmallAndThere P (footprint P x p) }
{}

/// An input that takes a string, and that its least input does not come before, is the least input.
pub fn least_is_first()
    ensures { (P : Program) → LeastIsFirst P }
{}

/// A string has at most one least input.
pub fn least_is_unique()
    ensures { (P : Program) → LeastIsUnique P }
{}

/// A string that some input takes has a least input.
pub fn least_exists()
    ensures { (P : Program) → LeastExists P }
{}
