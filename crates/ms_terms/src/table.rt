ghost use Rattle.std.specs.Prelude.{◌≡◌, ◌+◌, ◌<◌, ◌≤◌, [], IfOk, OnErr, Some, length, map, nat_lt, pos, slice_get, take, unwrap_or};
ghost use Rattle.ms_terms.specs.Values.{word_over};
ghost use Rattle.ms_terms.specs.Nodes.{Adds, EachOnce, Grows, IsAbsent, IsBelow, over, term_of, terms_of};
ghost use Rattle.ms_terms.specs.Terms as terms;

use crate::term::{Term, TermId};
use indexmap::IndexMap;
use ms_words::{Bin, Input, Kind, NoMemory, Un, apply1, apply2};
use std::alloc::Global;
use std::marker::Model;

/// A table of terms, in which each stands once: equal terms have equal numbers (hash consing). It only grows, so a
/// number that a call on it gave stays that of the same term.
///
/// The calls that add take a term that isn't there yet. They fail for want of memory alone, where the term isn't there,
/// and then change nothing.
#[derive(Drop)]
pub struct Terms {
    // each term with its parameters
    nodes: IndexMap<Term, u8>,
}

impl Model for Terms {
    ghost use Rattle.std.specs.Prelude.{List};
    ghost use Rattle.std.specs.HashMap.{keys};
    ghost use Rattle.ms_terms.specs.declared.term.Term.{Term};
    ghost use Rattle.ms_terms.specs.Nodes.{AreParams, IsTable};

    ghost Value = { List Term };

    ghost view = { λ terms. keys terms.nodes };

    ghost invariant = { λ terms. IsTable (keys terms.nodes) × AreParams terms.nodes.entries };
}

impl Terms {
    /// A table of no terms.
    pub fn new(alloc: Global) -> Terms
        ensures { result ≡ [] }
    {
        Terms {
            nodes: IndexMap::new(alloc),
        }
    }

    /// How many terms there are, at most 4,294,967,295.
    pub fn count(&self) -> u32
        ensures count { result ≡ length self.now }
        ensures once { EachOnce (terms_of self.now) }
    {
        self.nodes.len() as u32
    }

    /// The number of a constant, which is added where it isn't there. There are fewer than 4,294,967,295 terms.
    pub fn constant(&mut self, word: i32) -> Result<TermId, NoMemory>
        requires room { length self.old < 4294967295 }
        ensures adds { IfOk result (λ id. Adds self.old (terms.Constant word) id self.new) }
        ensures within { IfOk result (λ id. id < length self.new) }
        ensures grown { length self.old ≤ length self.new }
        ensures few { length self.new ≤ length self.old + 1 }
        ensures unchanged { OnErr result (self.new ≡ self.old) }
        ensures absent { OnErr result (IsAbsent self.old (terms.Constant word)) }
        ensures grows { Grows self.old self.new }
    {
        self.add(Term::Constant(word), 0)
    }

    /// The number of a parameter, counted from 0 and below 8, of this kind, which is added where it isn't there. There
    /// are fewer than 4,294,967,295 terms.
    pub fn param(&mut self, index: u8, kind: Kind) -> Result<TermId, NoMemory>
        requires index { index < 8 }
        requires room { length self.old < 4294967295 }
        ensures adds { IfOk result (λ id. Adds self.old (terms.Param index kind) id self.new) }
        ensures within { IfOk result (λ id. id < length self.new) }
        ensures grown { length self.old ≤ length self.new }
        ensures few { length self.new ≤ length self.old + 1 }
        ensures unchanged { OnErr result (self.new ≡ self.old) }
        ensures absent { OnErr result (IsAbsent self.old (terms.Param index kind)) }
        ensures grows { Grows self.old self.new }
    {
        self.add(Term::Param { index, kind }, 1 << index)
    }

    /// The number of an operator's result, a constant exactly where its operand is one, which is added where it isn't
    /// there. The operand is of these terms, of which there are fewer than 4,294,967,295.
    pub fn unary(&mut self, op: Un, a: TermId) -> Result<TermId, NoMemory>
        requires operand { a < length self.old }
        requires room { length self.old < 4294967295 }
        ensures adds { IfOk result (λ id. Adds self.old (terms.unary op (term_of self.old a)) id self.new) }
        ensures within { IfOk result (λ id. id < length self.new) }
        ensures grown { length self.old ≤ length self.new }
        ensures few { length self.new ≤ length self.old + 1 }
        ensures unchanged { OnErr result (self.new ≡ self.old) }
        ensures absent { OnErr result (IsAbsent self.old (terms.unary op (term_of self.old a))) }
        ensures grows { Grows self.old self.new }
    {
        match self.is_constant(a) {
            Some(word) => self.constant(apply1(op, word)),
            None => self.add(Term::Unary { op, a }, self.params(a)),
        }
    }

    /// The number of an operator's result, a constant exactly where both operands are, which is added where it isn't
    /// there. The operands are of these terms, of which there are fewer than 4,294,967,295.
    pub fn binary(&mut self, op: Bin, a: TermId, b: TermId) -> Result<TermId, NoMemory>
        requires left { a < length self.old }
        requires right { b < length self.old }
        requires room { length self.old < 4294967295 }
        ensures adds { IfOk result (λ id. Adds self.old (terms.binary op (term_of self.old a) (term_of self.old b)) id self.new) }
        ensures within { IfOk result (λ id. id < length self.new) }
        ensures grown { length self.old ≤ length self.new }
        ensures few { length self.new ≤ length self.old + 1 }
        ensures unchanged { OnErr result (self.new ≡ self.old) }
        ensures absent { OnErr result (IsAbsent self.old (terms.binary op (term_of self.old a) (term_of self.old b))) }
        ensures grows { Grows self.old self.new }
    {
        if let (Some(v), Some(w)) = (self.is_constant(a), self.is_constant(b)) {
            return self.constant(apply2(op, v, w));
        }
        self.add(Term::Binary { op, a, b }, self.params(a) | self.params(b))
    }

    /// Whether a number is that of one of these terms.
    pub fn has(&self, id: TermId) -> bool
        ensures { result ≡ nat_lt id (length self.now) }
    {
        id.place() < self.nodes.len()
    }

    /// A term of these, with the numbers of its operands, which come before its own.
    pub fn term(&self, id: TermId) -> Term
        requires { id < length self.now }
        ensures node { slice_get self.now id ≡ Some result }
        ensures term { over (terms_of self.now) result ≡ term_of self.now id }
        ensures operands { IsBelow id result }
    {
        match self.nodes.get_index(id.place()) {
            Some((node, _)) => *node,
            None => unreachable!(),
        }
    }

    /// The word of a term of these, exactly where it is a constant, without going through it.
    pub fn is_constant(&self, id: TermId) -> Option<i32>
        requires { id < length self.now }
        ensures { result ≡ terms.constant_of (term_of self.now id) }
    {
        match self.term(id) {
            Term::Constant(word) => Some(word),
            _ => None,
        }
    }

    /// The parameters in a term of these, without going through it: bit i is set exactly where parameter i, from 0 to
    /// 7, occurs.
    pub fn params(&self, id: TermId) -> u8
        requires { id < length self.now }
        ensures { result ≡ terms.params (term_of self.now id) }
    {
        match self.nodes.get_index(id.place()) {
            Some((_, params)) => *params,
            None => unreachable!(),
        }
    }

    /// The word of a term of these, where the parameters are the words of this input. A parameter of which it has
    /// no word counts as 0. It goes through the terms before it in order, and keeps a word of each meanwhile. It
    /// fails for want of memory alone.
    pub fn value(&self, alloc: Global, id: TermId, x: &Input) -> Result<i32, NoMemory>
        requires { id < length self.now }
        ensures { IfOk result (λ word. word ≡ terms.value x.now.words (term_of self.now id)) }
    {
        let words = self.values(alloc, id.place() as u32, x.words())?;
        Ok(word_of(self.term(id), words.as_slice(), x.words()))
    }

    /// The words of the first terms, so many, in their order.
    fn values(&self, alloc: Global, count: u32, parameters: &[i32]) -> Result<Vec<i32>, NoMemory>
        requires { count ≤ length self.now }
        ensures { IfOk result (λ words. words.items ≡ map (terms.value parameters.now) (take count (terms_of self.now))) }
    {
        let mut words = Vec::new(alloc);
        for place in 0..count {
            let word = word_of(self.term(TermId::new(place)), words.as_slice(), parameters);
            words.push(word)?;
        }
        Ok(words)
    }

    /// The number of a node's term, which is added where it isn't there; `params` are its parameters.
    fn add(&mut self, node: Term, params: u8) -> Result<TermId, NoMemory>
        requires below { IsBelow (length self.old) node }
        requires params { params ≡ terms.params (over (terms_of self.old) node) }
        requires room { length self.old < 4294967295 }
        ensures adds { IfOk result (λ id. Adds self.old (over (terms_of self.old) node) id self.new) }
        ensures within { IfOk result (λ id. id < length self.new) }
        ensures grown { length self.old ≤ length self.new }
        ensures few { length self.new ≤ length self.old + 1 }
        ensures unchanged { OnErr result (self.new ≡ self.old) }
        ensures absent { OnErr result (IsAbsent self.old (over (terms_of self.old) node)) }
        ensures grows { Grows self.old self.new }
    {
        match self.nodes.insert_full(node, params) {
            Ok((place, _)) => Ok(TermId::new(place as u32)),
            Err(_) => Err(NoMemory),
        }
    }
}

/// The word at a place of a list, and 0 behind its end.
fn word_at(words: &[i32], place: usize) -> i32
    ensures { result ≡ unwrap_or (slice_get words.now place) (pos 0) }
{
    match words.get(place) {
        Some(word) => *word,
        None => 0,
    }
}

/// The word of a node's term, by those of the terms before it and of the parameters.
fn word_of(node: Term, words: &[i32], parameters: &[i32]) -> i32
    ensures { result ≡ word_over words.now parameters.now node }
{
    match node {
        Term::Constant(word) => word,
        Term::Param { index, .. } => word_at(parameters, usize::from(index)),
        Term::Unary { op, a } => apply1(op, word_at(words, a.place())),
        Term::Binary { op, a, b } => {
            apply2(op, word_at(words, a.place()), word_at(words, b.place()))
        }
    }
}
