ghost use Rattle.std.specs.Prelude.{◌≡◌, ◌<◌, ◌≤◌, List, ℤ, pos, false, length, slice_set, slice_get, IfSome, MatchOption};
ghost use Rattle.std.specs.Bool.{OnFalse, OnTrue};
ghost use Rattle.ms_words.specs.Inputs.{IsInput, are_of, bit_of, comes_before, is_of, zero_of};
ghost use Rattle.ms_words.specs.Padding.{padded};

use crate::kind::{Kind, Kinds, MOST, eight_places};
use std::marker::Model;

/// An input: for each parameter, at most eight, a kind and a word of that kind. A word of kind `Z` is 0
/// or 1, of `B` -128 to 127, of `C` 0 to 65,535, of `S` -32,768 to 32,767, and of `I` any. No method
/// takes memory.
#[derive(Clone, Copy, Debug)]
pub struct Input {
    kinds: [Kind; MOST],
    words: [i32; MOST],
    count: usize,
}

impl Model for Input {
    ghost use Rattle.std.specs.Prelude.{length, take, pos};
    ghost use Rattle.ms_words.specs.declared.kind.Kind.TheVariants.{Z};
    ghost use Rattle.ms_words.specs.Padding.{length_unpadded, padded, padded_unpadded};
    ghost use Rattle.ms_words.specs.Inputs.{Words};
    ghost use Rattle.ms_words.specs.Kept.{IsKept};

    ghost Value = { Words };

    ghost view = { λ input. record { kinds = take input.count input.kinds; words = take input.count input.words } };

    ghost invariant = { λ input. IsKept input.kinds input.words input.count };

    ghost inverse = { λ input. record { kinds = padded Z input.kinds; words = padded (pos 0) input.words; count = length input.kinds } };

    ghost inverse_ok = { λ input p i. record {
      kinds = padded_unpadded Z input.kinds input.count p.kinds_kept i;
      words = padded_unpadded (pos 0) input.words input.count p.words_kept i;
      count = length_unpadded Z input.kinds input.count p.kinds_kept i;
    } };
}

impl Input {
    /// The input of these kinds whose words are all 0: no input of these kinds comes before it.
    pub fn zero(kinds: Kinds) -> Input
        ensures zero { result ≡ zero_of kinds }
        ensures first { (words : List ℤ) → comes_before result.kinds words result.words ≡ false }
        ensures kept { IsInput result }
    {
        let given = kinds.get();
        Input {
            kinds: eight_places(given),
            words: [0; MOST],
            count: given.len(),
        }
    }

    /// The input of these kinds with these words, or `None` exactly where there isn't one word of its kind
    /// for each parameter.
    pub fn of(kinds: Kinds, words: &[i32]) -> Option<Input>
        ensures input { MatchOption result (are_of kinds words.now ≡ false) (λ input. input ≡ record { kinds = kinds; words = words.now }) }
        ensures kept { IfSome result IsInput }
    {
        let given = kinds.get();
        if !are_words_of(given, words) {
            return None;
        }
        Some(Input {
            kinds: eight_places(given),
            words: eight_words(words),
            count: given.len(),
        })
    }

    /// The kinds of the parameters.
    pub fn kinds(&self) -> Kinds
        ensures kinds { result ≡ self.now.kinds }
        ensures kept { IsInput self.now }
    {
        Kinds::of(&self.kinds[..self.count])
    }

    /// The words, lent: one for each parameter.
    pub fn words(&self) -> &[i32]
        ensures words { result.now ≡ self.now.words }
        ensures kept { IsInput self.now }
    {
        &self.words[..self.count]
    }

    /// The word of parameter `i`, counted from 0 and below the number of parameters.
    pub fn get(&self, i: usize) -> i32
        requires { i < length self.now.kinds }
        ensures word { slice_get self.now.words i ≡ Some result }
        ensures kept { IsInput self.now }
    {
        self.words()[i]
    }

    /// Makes `word` the word of parameter `i`, counted from 0 and below their number. It answers false,
    /// and changes nothing, exactly where the word is not one of the parameter's kind.
    pub fn set(&mut self, i: usize, word: i32) -> bool
        requires { i < length self.old.kinds }
        ensures fits { IfSome (slice_get self.old.kinds i) (λ kind. result ≡ is_of kind word) }
        ensures written { OnTrue result (self.new ≡ record self.old { words = slice_set self.old.words i word }) }
        ensures refused { OnFalse result (self.new ≡ self.old) }
        ensures kept { IsInput self.new }
    {
        if !self.kinds[i].has(word) {
            return false;
        }
        self.words[i] = word;
        true
    }

    /// Whether bit `b`, from 0 to 31 and counted from the lowest, of the word of parameter `i` is 1.
    pub fn bit(&self, i: usize, b: u32) -> bool
        requires place { i < length self.now.kinds }
        requires bit { b < 32 }
        ensures bit { IfSome (slice_get self.now.words i) (λ word. result ≡ bit_of word b) }
        ensures kept { IsInput self.now }
    {
        (self.get(i).cast_unsigned() >> b) % 2 == 1
    }
}

/// Whether the first input comes before the second of the same kinds: parameter by parameter, the first
/// whose words differ decides, by the unsigned values of the bits that their kind has.
pub fn input_less(a: &Input, b: &Input) -> bool
    requires { a.now.kinds ≡ b.now.kinds }
    ensures { result ≡ comes_before a.now.kinds a.now.words b.now.words }
{
    words_less(&a.kinds[..a.count], a.words(), b.words())
}

/// The words, and 0 behind them up to eight.
fn eight_words(words: &[i32]) -> [i32; MOST]
    requires { length words.now ≤ 8 }
    ensures { result ≡ padded (pos 0) words.now }
{
    let mut places = [0; MOST];
    places[..words.len()].copy_from_slice(words);
    places
}

/// Whether there is one word for each kind, and each is one of its kind.
fn are_words_of(kinds: &[Kind], words: &[i32]) -> bool
    ensures { result ≡ are_of kinds.now words.now }
{
    if kinds.len() != words.len() {
        return false;
    }
    for (i, kind) in kinds.iter().enumerate() {
        if !kind.has(words[i]) {
            return false;
        }
    }
    true
}

fn words_less(kinds: &[Kind], a: &[i32], b: &[i32]) -> bool
    requires first { length a.now ≡ length kinds.now }
    requires second { length b.now ≡ length kinds.now }
    ensures { result ≡ comes_before kinds.now a.now b.now }
{
    for (i, kind) in kinds.iter().enumerate() {
        let first = kind.unsigned(a[i]);
        let second = kind.unsigned(b[i]);
        if first != second {
            return first < second;
        }
    }
    false
}
