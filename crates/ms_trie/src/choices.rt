ghost use Rattle.std.specs.Prelude.{◌≡◌, ◌∷◌, ◌++◌, ◌<◌, ◌≤◌, ◌==◌, [], length, IfOk, IsOk, OnOk, OnErr};
ghost use Rattle.std.proofs.Common.{rules};
ghost use Rattle.std.specs.Cmp.{partial_order_from_own_ties};
ghost use Rattle.std.specs.Cmp.Lexicographic.{pointwise};
ghost use Rattle.std.specs.Cmp.Rules.{comparing};
ghost use Rattle.std.specs.Ordering.{as_partial_cmp};
ghost use Rattle.ms_trie.specs.Choices.{choice_order};

use ms_words::NoMemory;
use smallvec::SmallVec;
use std::alloc::Global;
use std::cmp::Ordering;
use std::marker::Model;

/// How many arms of a string are kept without an allocation.
const INLINE: usize = 16;

/// The arms of the choices on a path, in order: at most 256, each from 0 to 65,535. Up to 16 arms take
/// no memory. Strings are ordered arm by arm, and one comes before those that it begins.
#[derive(Debug, Drop)]
pub struct ChoiceString {
    arms: SmallVec<u16, INLINE>,
}

impl Model for ChoiceString {
    ghost use Rattle.std.specs.Prelude.{ℕ, ◌≤◌, List, length};

    ghost Value = { List ℕ };

    ghost view = { λ string. string.arms.items };

    ghost invariant = { λ string. (length string.arms.items ≤ 256) × (16 ≤ string.arms.capacity) };
}

impl ChoiceString {
    /// The empty string. It takes no memory.
    pub fn new(alloc: Global) -> ChoiceString
        ensures { result ≡ [] }
    {
        ChoiceString {
            arms: SmallVec::new(alloc),
        }
    }

    /// Adds an arm at the end of a string of fewer than 256. It fails for want of memory alone, and then
    /// changes nothing; it takes none for the first 16.
    pub fn push(&mut self, arm: u16) -> Result<(), NoMemory>
        requires { length self.old < 256 }
        ensures ok { OnOk result (self.new ≡ self.old ++ arm ∷ []) }
        ensures err { OnErr result (self.new ≡ self.old) }
        ensures short { length self.old < 16 → IsOk result }
    {
        self.arms.push(arm)?;
        Ok(())
    }

    /// The arms, lent: at most 256.
    pub fn arms(&self) -> &[u16]
        ensures arms { result.now ≡ self.now }
        ensures few { length self.now ≤ 256 }
    {
        self.arms.as_slice()
    }

    /// The same string once more. It fails for want of memory alone, and takes none for up to 16 arms.
    pub fn copy(&self, alloc: Global) -> Result<ChoiceString, NoMemory>
        ensures same { IfOk result (λ string. string ≡ self.now) }
        ensures short { length self.now ≤ 16 → IsOk result }
    {
        Ok(ChoiceString {
            arms: SmallVec::from_slice(alloc, self.arms())?,
        })
    }

    /// The string, of fewer than 256 arms, followed by this arm. It fails for want of memory alone, and
    /// takes none where 16 arms or fewer come of it.
    pub fn with(&self, alloc: Global, arm: u16) -> Result<ChoiceString, NoMemory>
        requires { length self.now < 256 }
        ensures added { IfOk result (λ string. string ≡ self.now ++ arm ∷ []) }
        ensures short { length self.now < 16 → IsOk result }
    {
        let mut string = self.copy(alloc)?;
        string.push(arm)?;
        Ok(string)
    }
}

impl PartialEq for ChoiceString {
    ghost eq = { pointwise ◌==◌ };

    ghost laws = { Prim.search (comparing, rules) };

    fn eq(&self, other: &ChoiceString) -> bool {
        self.arms() == other.arms()
    }
}

impl Eq for ChoiceString {
    ghost laws = { Prim.search (comparing, rules) };
}

impl PartialOrd for ChoiceString {
    ghost partial_cmp = { as_partial_cmp choice_order };

    ghost laws = { partial_order_from_own_ties (Prim.search (comparing, rules)) (Prim.search (comparing, rules)) };

    fn partial_cmp(&self, other: &ChoiceString) -> Option<Ordering> {
        Some(self.cmp(other))
    }
}

impl Ord for ChoiceString {
    ghost cmp = { choice_order };

    ghost total = { Prim.search (comparing, rules) };

    ghost matches_partial_cmp = { Prim.search (comparing, rules) };

    ghost matches_eq = { Prim.search (comparing, rules) };

    fn cmp(&self, other: &ChoiceString) -> Ordering {
        self.arms().cmp(&other.arms())
    }
}
