ghost use Rattle.std.specs.Prelude.{◌≡◌};
ghost use Rattle.std.proofs.Common.{refl};
ghost use Rattle.ms_machine.specs.Ints.{marks};
ghost use Rattle.ms_machine.specs.Laws.{mark_arm};
ghost use Rattle.ms_interpreter.specs.Asking.{asked_of};

use crate::marked::MarkedInt;
use ms_interpreter::{
    Arithmetic, Asked, arm_of_case, arm_of_comparison, arm_of_divisor, arm_of_index,
};
use ms_words::{Bin, NoMemory, Un, apply1, apply2};

/// The arithmetic of words with marks.
#[derive(Drop)]
pub struct Marks;

impl Arithmetic for Marks {
    ghost use Rattle.ms_machine.specs.Ints.{Marked, marks};

    type Int = MarkedInt;

    ghost V = { Marked };

    ghost ints = { marks };

    ghost means = { λ self a. a };

    ghost Has = { λ v. Unit {0} };

    ghost kept = { λ self. 0 };

    ghost constants = { λ word. refl };

    ghost has_constants = { λ word. tt };

    ghost has_known = { λ v word is. tt };

    fn constant(&mut self, word: i32) -> Result<MarkedInt, NoMemory> {
        Ok(MarkedInt { word, plain: true })
    }

    fn unary(&mut self, op: Un, a: MarkedInt) -> Result<MarkedInt, NoMemory> {
        Ok(MarkedInt {
            word: apply1(op, a.word),
            plain: a.plain,
        })
    }

    fn binary(&mut self, op: Bin, a: MarkedInt, b: MarkedInt) -> Result<MarkedInt, NoMemory> {
        Ok(MarkedInt {
            word: apply2(op, a.word, b.word),
            plain: a.plain && b.plain,
        })
    }

    fn known(&self, a: MarkedInt) -> Option<i32> {
        if a.plain { Some(a.word) } else { None }
    }
}

/// The arm that a test takes by its words.
pub(crate) fn arm_of(asked: &Asked<'_, MarkedInt>) -> usize
    ensures { result ≡ mark_arm (asked_of marks (λ a. a) asked.now) }
{
    match asked {
        Asked::Compares(comparison, a, b) => arm_of_comparison(*comparison, a.word, b.word),
        Asked::ComparesZero(comparison, a) => arm_of_comparison(*comparison, a.word, 0),
        Asked::Divides(b) => arm_of_divisor(b.word),
        Asked::Selects(a, switch) => arm_of_case(&a.word, switch.cases()),
        Asked::Indexes(a, len) => arm_of_index(a.word, *len),
    }
}
