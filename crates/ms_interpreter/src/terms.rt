ghost use Rattle.std.specs.Prelude.{length};
ghost use Rattle.std.proofs.Common.{refl};

use crate::arithmetic::Arithmetic;
use ms_terms::{TermId, Terms};
use ms_words::{Bin, NoMemory, Un};

/// The arithmetic of terms: an int is the number of a term of the table. A number of none stays one of none.
impl Arithmetic for Terms {
    ghost use Rattle.std.specs.Prelude.{IsSome, Option};
    ghost use Rattle.ms_terms.specs.Terms.{Term};
    ghost use Rattle.ms_interpreter.specs.Symbols.{has_known, symbol, symbols};

    type Int = TermId;

    ghost V = { Option Term };

    ghost ints = { symbols };

    ghost means = { symbol };

    ghost Has = { λ v. IsSome v };

    ghost kept = { λ nodes. length nodes };

    ghost constants = { λ word. refl };

    ghost has_constants = { λ word. refl };

    ghost has_known = { has_known };

    fn constant(&mut self, word: i32) -> Result<TermId, NoMemory> {
        Terms::constant(self, word)
    }

    fn unary(&mut self, op: Un, a: TermId) -> Result<TermId, NoMemory> {
        if !self.has(a) {
            return Ok(a);
        }
        Terms::unary(self, op, a)
    }

    fn binary(&mut self, op: Bin, a: TermId, b: TermId) -> Result<TermId, NoMemory> {
        if !self.has(a) {
            return Ok(a);
        }
        if !self.has(b) {
            return Ok(b);
        }
        Terms::binary(self, op, a, b)
    }

    fn known(&self, a: TermId) -> Option<i32> {
        if !self.has(a) {
            return None;
        }
        self.is_constant(a)
    }
}
