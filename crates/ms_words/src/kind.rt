ghost use Rattle.std.specs.Prelude.{◌≡◌, ◌∷◌, ◌++◌, ◌<◌, ◌≤◌, ◌↔◌, [], length, IsTrue};
ghost use Rattle.std.specs.Bool.{OnFalse, OnTrue};
ghost use Rattle.ms_words.specs.Inputs.{bits_of, is_of, unsigned_of};
ghost use Rattle.ms_words.specs.Padding.{padded};

use std::marker::Model;

/// The kind of an int, as a descriptor names it (JVMS SE 8, section 4.3.2): boolean, byte, char, short,
/// int.
#[derive(Clone, Copy, Debug, PartialEq, Eq, Hash)]
pub enum Kind {
    Z,
    B,
    C,
    S,
    I,
}

impl Kind {
    /// How many bits a word of the kind has, from 1 to 32.
    pub fn bits(self) -> u32
        ensures { result ≡ bits_of self }
    {
        match self {
            Kind::Z => 1,
            Kind::B => 8,
            Kind::C | Kind::S => 16,
            Kind::I => 32,
        }
    }

    /// Whether the word is one of the kind: for `Z` 0 or 1, for `B` -128 to 127, for `C` 0 to 65,535, for
    /// `S` -32,768 to 32,767, for `I` any.
    pub fn has(self, word: i32) -> bool
        ensures { result ≡ is_of self word }
    {
        match self {
            Kind::Z => 0 <= word && word <= 1,
            Kind::B => -128 <= word && word <= 127,
            Kind::C => 0 <= word && word <= 65_535,
            Kind::S => -32_768 <= word && word <= 32_767,
            Kind::I => true,
        }
    }

    /// The number, unsigned, that the lowest bits of the word are, as many as the kind has.
    pub fn unsigned(self, word: i32) -> u32
        ensures { result ≡ unsigned_of self word }
    {
        let pattern = word.cast_unsigned();
        match self {
            Kind::Z => pattern % 2,
            Kind::B => pattern % 256,
            Kind::C | Kind::S => pattern % 65_536,
            Kind::I => pattern,
        }
    }
}

/// The most kinds in a list.
pub(crate) const MOST: usize = 8;

/// The kinds, and `Z` behind them up to eight.
pub(crate) fn eight_places(kinds: &[Kind]) -> [Kind; MOST]
    requires { length kinds.now ≤ 8 }
    ensures { result ≡ padded Kind.Z kinds.now }
{
    let mut places = [Kind::Z; MOST];
    places[..kinds.len()].copy_from_slice(kinds);
    places
}

/// A list of at most eight kinds, of the parameters of a method. No method takes memory.
#[derive(Clone, Copy, Debug)]
pub struct Kinds {
    kinds: [Kind; MOST],
    count: usize,
}

impl Model for Kinds {
    ghost use Rattle.std.specs.Prelude.{List, length, take};
    ghost use Rattle.ms_words.specs.declared.kind.Kind.{Kind};
    ghost use Rattle.ms_words.specs.declared.kind.Kind.TheVariants.{Z};
    ghost use Rattle.ms_words.specs.Padding.{IsPadded, length_unpadded, padded, padded_unpadded};

    ghost Value = { List Kind };

    ghost view = { λ list. take list.count list.kinds };

    ghost invariant = { λ list. IsPadded Z list.kinds list.count };

    ghost inverse = { λ kinds. record { kinds = padded Z kinds; count = length kinds } };

    ghost inverse_ok = { λ list p i. record { kinds = padded_unpadded Z list.kinds list.count p i; count = length_unpadded Z list.kinds list.count p i } };
}

impl Kinds {
    /// The empty list.
    pub fn new() -> Kinds
        ensures { result ≡ [] }
    {
        Kinds {
            kinds: [Kind::Z; MOST],
            count: 0,
        }
    }

    /// The list of these kinds, at most eight.
    pub fn of(kinds: &[Kind]) -> Kinds
        requires { length kinds.now ≤ 8 }
        ensures { result ≡ kinds.now }
    {
        Kinds {
            kinds: eight_places(kinds),
            count: kinds.len(),
        }
    }

    /// Adds a kind at the end. It answers false, and changes nothing, exactly where eight kinds are
    /// there.
    pub fn push(&mut self, kind: Kind) -> bool
        ensures room { IsTrue result ↔ (length self.old < 8) }
        ensures added { OnTrue result (self.new ≡ self.old ++ kind ∷ []) }
        ensures full { OnFalse result (self.new ≡ self.old) }
    {
        if self.count == MOST {
            return false;
        }
        self.kinds[self.count] = kind;
        self.count += 1;
        true
    }

    /// The kinds, lent.
    pub fn get(&self) -> &[Kind]
        ensures kinds { result.now ≡ self.now }
        ensures few { length self.now ≤ 8 }
    {
        &self.kinds[..self.count]
    }
}
