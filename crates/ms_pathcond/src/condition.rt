ghost use Rattle.std.specs.Prelude.{◌≡◌, ◌∷◌, ◌++◌, ◌<◌, [], IfOk, OnErr, OnOk, length};
ghost use Rattle.std.specs.List.{All, Contains};
ghost use Rattle.ms_pathcond.specs.Gathered.{ArePicked};
ghost use Rattle.ms_pathcond.specs.Literals as slices;
ghost use Rattle.ms_pathcond.specs.Literals.{AreOf};
ghost use Rattle.ms_pathcond.specs.Slices.{IsSlice};

use crate::gathering::{gather_all, meets};
use crate::literal::{Literal, support};
use ms_terms::Terms;
use ms_words::NoMemory;
use std::alloc::Global;
use std::marker::Model;

/// A list of at most 4,294,967,295 literals, all of which are to hold.
#[derive(Drop)]
pub struct Condition {
    literals: Vec<Literal>,
}

impl Model for Condition {
    ghost use Rattle.std.specs.Prelude.{◌≤◌, List, length};
    ghost use Rattle.ms_pathcond.specs.declared.literal.Literal.{Literal};

    ghost Value = { List Literal };

    ghost view = { λ condition. condition.literals.items };

    ghost invariant = { λ condition. length condition.literals.items ≤ 4294967295 };
}

impl Condition {
    /// The condition of no literals, which is always true.
    pub fn new(alloc: Global) -> Condition
        ensures { result ≡ [] }
    {
        Condition {
            literals: Vec::new(alloc),
        }
    }

    /// Adds a literal at the end. There are fewer than 4,294,967,295. It fails for want of memory alone, and then
    /// changes nothing.
    pub fn push(&mut self, literal: Literal) -> Result<(), NoMemory>
        requires { length self.old < 4294967295 }
        ensures ok { OnOk result (self.new ≡ self.old ++ literal ∷ []) }
        ensures err { OnErr result (self.new ≡ self.old) }
    {
        self.literals.push(literal)?;
        Ok(())
    }

    /// How many literals there are, at most 4,294,967,295.
    pub fn len(&self) -> u32
        ensures { result ≡ length self.now }
    {
        self.literals.len() as u32
    }

    /// The literals, lent.
    pub fn literals(&self) -> &[Literal]
        ensures { result.now ≡ self.now }
    {
        self.literals.as_slice()
    }

    /// The literals that share parameters, transitively, with those from place `first` on, counted from 0, in
    /// their order: none where `first` is behind the last. All are over these terms. It fails for want of memory
    /// alone.
    pub fn slice(&self, alloc: Global, terms: &Terms, first: u32) -> Result<Slice, NoMemory>
        requires { AreOf (length terms.now) self.now }
        ensures slice { IfOk result (IsSlice terms.now self.now first) }
        ensures of { IfOk result (λ slice. AreOf (length terms.now) slice.literals) }
        ensures among { IfOk result (λ slice. All (Contains self.now) slice.literals) }
    {
        let first = first as usize;
        let literals = self.literals.as_slice();
        let supports = supports(alloc, terms, literals)?;
        let gathered = gather_all(supports.as_slice(), first);
        picked(alloc, literals, supports.as_slice(), first, gathered)
    }
}

/// The parameters in each literal.
fn supports(alloc: Global, terms: &Terms, literals: &[Literal]) -> Result<Vec<u8>, NoMemory>
    requires { AreOf (length terms.now) literals.now }
    ensures { IfOk result (λ list. list.items ≡ slices.supports terms.now literals.now) }
{
    let mut list = Vec::new(alloc);
    for place in 0..literals.len() {
        list.push(support(terms, literals[place]))?;
    }
    Ok(list)
}

/// The literals that are met, with their parameters.
fn picked(
    alloc: Global,
    literals: &[Literal],
    supports: &[u8],
    first: usize,
    gathered: u8,
) -> Result<Slice, NoMemory>
    requires { length supports.now ≡ length literals.now }
    ensures { IfOk result (ArePicked supports.now first gathered literals.now (length literals.now)) }
{
    let mut slice = Slice {
        literals: Vec::new(alloc),
        params: 0,
    };
    for place in 0..literals.len() {
        if meets(place, supports[place], first, gathered) {
            slice.literals.push(literals[place])?;
            slice.params |= supports[place];
        }
    }
    Ok(slice)
}

/// The slice of a condition: some of its literals, in their order, and the parameters in them.
#[derive(Drop)]
pub struct Slice {
    literals: Vec<Literal>,
    params: u8,
}

impl Model for Slice {
    ghost use Rattle.ms_pathcond.specs.Slices.{Slice};

    ghost Value = { Slice };

    ghost view = { λ slice. record { literals = slice.literals.items; params = slice.params } };
}

impl Slice {
    /// The literals, lent.
    pub fn literals(&self) -> &[Literal]
        ensures { result.now ≡ self.now.literals }
    {
        self.literals.as_slice()
    }

    /// The parameters in the literals: the bit of each, counted from the lowest.
    pub fn params(&self) -> u8
        ensures { result ≡ self.now.params }
    {
        self.params
    }
}
