ghost use Rattle.std.specs.Prelude.{◌≡◌};

use ms_words::{Bin, Kind, Un};
use std::marker::Model;

/// The number of a term in its table: the place where it stands, counted from 0.
#[derive(Clone, Copy, Debug, Default, PartialEq, Eq, Hash)]
pub struct TermId(u32);

impl Model for TermId {
    ghost use Rattle.std.specs.Prelude.{ℕ, refl};

    ghost Value = { ℕ };

    ghost view = { λ id. id.0 };

    ghost inverse = { λ n. record { 0 = n } };

    ghost inverse_ok = { λ id p. refl };
}

impl TermId {
    /// The number of the term at this place.
    pub(crate) fn new(place: u32) -> TermId
        ensures { result ≡ place }
    {
        TermId(place)
    }

    /// The place of the term.
    pub(crate) fn place(self) -> usize
        ensures { result ≡ self }
    {
        self.0 as usize
    }
}

/// A term, whose operands are numbers of terms in the same table.
#[derive(Clone, Copy, Debug, PartialEq, Eq, Hash)]
pub enum Term {
    /// A word.
    Constant(i32),
    /// The parameter of this number, counted from 0 and at most 7, and its kind.
    Param { index: u8, kind: Kind },
    /// The result of an operator of one operand.
    Unary { op: Un, a: TermId },
    /// The result of an operator of two operands.
    Binary { op: Bin, a: TermId, b: TermId },
}
