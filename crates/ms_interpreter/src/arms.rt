ghost use Rattle.std.specs.Prelude.{◌≡◌, map, pos};
ghost use Rattle.ms_words.specs.Relations.{int_eq};
ghost use Rattle.ms_code.specs.declared.instruction.Case.{Case};
ghost use Rattle.ms_machine.specs.Effects as effects;
ghost use Rattle.ms_machine.specs.Instructions.{relation};
ghost use Rattle.ms_machine.specs.Tests as tests;
ghost use Rattle.ms_linking.specs.Told.{comparison_of};
ghost use Rattle.ms_interpreter.specs.Asking.{asked_of};
ghost use Rattle.ms_interpreter.specs.Turns as turns;

use crate::arithmetic::Arithmetic;
use crate::asked::Asked;
use ms_code::Case;
use ms_linking::Comparison;
use ms_words::{Rel, holds};

/// The relation that a comparison is.
fn relation_of(comparison: Comparison) -> Rel
    ensures { result ≡ relation (comparison_of comparison) }
{
    match comparison {
        Comparison::Equal => Rel::Eq,
        Comparison::NotEqual => Rel::Ne,
        Comparison::Less => Rel::Lt,
        Comparison::AtLeast => Rel::Ge,
        Comparison::Greater => Rel::Gt,
        Comparison::AtMost => Rel::Le,
    }
}

/// The arm that a comparison of two words takes.
pub fn arm_of_comparison(comparison: Comparison, a: i32, b: i32) -> usize
    ensures { result ≡ tests.arm_of (effects.Compares (comparison_of comparison) a b) }
{
    if holds(relation_of(comparison), a, b) {
        return 1;
    }
    0
}

/// The arm that a test of a divisor takes.
pub fn arm_of_divisor(b: i32) -> usize
    ensures { result ≡ tests.arm_of (effects.Divides b) }
{
    if holds(Rel::Eq, b, 0) {
        return 1;
    }
    0
}

/// Whether a word is the key of a case.
fn is_key(word: &i32, case: &Case) -> bool
    ensures { result ≡ int_eq word.now case.now.key }
{
    holds(Rel::Eq, *word, case.key)
}

/// The arm that a word selects: the place of the case with this key, or the number of cases.
pub fn arm_of_case(word: &i32, cases: &[Case]) -> usize
    ensures { result ≡ tests.case_of word.now (map (λ (case : Case). case.key) cases.now) }
{
    for (i, case) in cases.iter().enumerate() {
        if is_key(word, case) {
            return i;
        }
    }
    cases.len()
}

/// The arm that an index takes: the index, where it is below the length, and else the length.
pub fn arm_of_index(word: i32, len: usize) -> usize
    ensures { result ≡ tests.index_arm word len }
{
    let Ok(index) = usize::try_from(word) else {
        return len;
    };
    if index < len {
        return index;
    }
    len
}

/// The arm of a test whose ints no parameter entered.
pub fn known_arm<A: Arithmetic>(asked: &Asked<'_, A::Int>, arithmetic: &A) -> Option<usize>
    ensures { result ≡ turns.known_arm A.ints (asked_of A.ints (A.means arithmetic.now) asked.now) }
{
    match asked {
        Asked::Compares(comparison, a, b) => {
            let a = arithmetic.known(*a)?;
            let b = arithmetic.known(*b)?;
            Some(arm_of_comparison(*comparison, a, b))
        }
        Asked::ComparesZero(comparison, a) => {
            let a = arithmetic.known(*a)?;
            Some(arm_of_comparison(*comparison, a, 0))
        }
        Asked::Divides(b) => {
            let b = arithmetic.known(*b)?;
            Some(arm_of_divisor(b))
        }
        Asked::Selects(a, switch) => {
            let a = arithmetic.known(*a)?;
            Some(arm_of_case(&a, switch.cases()))
        }
        Asked::Indexes(index, len) => {
            let index = arithmetic.known(*index)?;
            Some(arm_of_index(index, *len))
        }
    }
}
