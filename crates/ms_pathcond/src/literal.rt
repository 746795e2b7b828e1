ghost use Rattle.std.specs.Prelude.{◌≡◌, ◌∷◌, ◌++◌, [], OnErr, OnOk, length};
ghost use Rattle.ms_pathcond.specs.Literals.{IsOf, relation_of, support_of};

use ms_terms::{TermId, Terms};
use ms_words::{NoMemory, Rel};
use smallvec::SmallVec;
use std::alloc::Global;
use std::marker::Model;

/// A relation between two terms.
#[derive(Clone, Copy, Debug, PartialEq, Eq)]
pub struct Literal {
    pub rel: Rel,
    pub a: TermId,
    pub b: TermId,
}

impl Default for Literal {
    /// The literal that a list keeps where it has none yet.
    fn default() -> Literal {
        Literal {
            rel: Rel::Eq,
            a: TermId::default(),
            b: TermId::default(),
        }
    }
}

/// The parameters in a literal over these terms: bit i is set exactly where parameter i, from 0 to 7, is in it.
pub fn support(terms: &Terms, literal: Literal) -> u8
    requires { IsOf (length terms.now) literal }
    ensures { result ≡ support_of (relation_of terms.now literal) }
{
    terms.params(literal.a) | terms.params(literal.b)
}

/// How many literals of a list are kept without an allocation.
const INLINE: usize = 2;

/// A list of literals.
#[derive(Drop)]
pub struct Literals {
    literals: SmallVec<Literal, INLINE>,
}

impl Model for Literals {
    ghost use Rattle.std.specs.Prelude.{List};
    ghost use Rattle.ms_pathcond.specs.declared.literal.Literal.{Literal};

    ghost Value = { List Literal };

    ghost view = { λ list. list.literals.items };
}

impl Literals {
    /// The empty list.
    pub fn new(alloc: Global) -> Literals
        ensures { result ≡ [] }
    {
        Literals {
            literals: SmallVec::new(alloc),
        }
    }

    /// Adds a literal at the end. It fails for want of memory alone, and then changes nothing.
    pub fn push(&mut self, literal: Literal) -> Result<(), NoMemory>
        ensures ok { OnOk result (self.new ≡ self.old ++ literal ∷ []) }
        ensures err { OnErr result (self.new ≡ self.old) }
    {
        self.literals.push(literal)?;
        Ok(())
    }

    /// The literals, lent.
    pub fn get(&self) -> &[Literal]
        ensures { result.now ≡ self.now }
    {
        self.literals.as_slice()
    }
}
