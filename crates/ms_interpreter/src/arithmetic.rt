ghost use Rattle.std.specs.Prelude.{◌≡◌, ◌+◌, ◌<◌, ◌≤◌, ℕ, ℤ, IfOk, Some};
ghost use Rattle.ms_machine.specs.Ints.{Ints};
ghost use Rattle.ms_interpreter.specs.Staying.{Stay};

use ms_words::{Bin, NoMemory, Un};

/// What the interpreter asks of its ints. An arithmetic may keep them, and then grows with what it makes: of an int
/// that it has it says the same from then on. Of one that it hasn't, what an operator gives is none that it has either.
pub trait Arithmetic {
    /// An int.
    type Int: Copy + Drop;

    // What an int is to the machine.
    ghost V: { Type 0 };

    // The ints of the machine.
    ghost ints: { Ints V };

    // What the ints are, as the arithmetic stands.
    ghost means: { Self → Self.Int → V };

    // That is something which an arithmetic has.
    ghost Has: { V → Type 0 };

    // How many ints the arithmetic keeps.
    ghost kept: { Self → ℕ };

    /// The int of a word. Fewer than 4,294,967,295 ints are kept.
    fn constant(&mut self, word: i32) -> Result<Self::Int, NoMemory>
        requires room { kept self.old < 4294967295 }
        ensures is { IfOk result (λ a. means self.new a ≡ ints.constant word) }
        ensures stay { Stay Has (means self.old) (means self.new) }
        ensures few { kept self.new ≤ kept self.old + 1 };

    /// What an operator gives of one int. Fewer than 4,294,967,295 ints are kept.
    fn unary(&mut self, op: Un, a: Self::Int) -> Result<Self::Int, NoMemory>
        requires room { kept self.old < 4294967295 }
        ensures is { IfOk result (λ b. means self.new b ≡ ints.unary op (means self.new a)) }
        ensures stay { Stay Has (means self.old) (means self.new) }
        ensures few { kept self.new ≤ kept self.old + 1 };

    /// What an operator gives of two ints. Fewer than 4,294,967,295 ints are kept.
    fn binary(&mut self, op: Bin, a: Self::Int, b: Self::Int) -> Result<Self::Int, NoMemory>
        requires room { kept self.old < 4294967295 }
        ensures is { IfOk result (λ c. means self.new c ≡ ints.binary op (means self.new a) (means self.new b)) }
        ensures stay { Stay Has (means self.old) (means self.new) }
        ensures few { kept self.new ≤ kept self.old + 1 };

    /// The word of an int that no parameter entered.
    fn known(&self, a: Self::Int) -> Option<i32>
        ensures { result ≡ ints.known (means self.now a) };

    // The word of a constant is known.
    ghost constants: { (word : ℤ) → ints.known (ints.constant word) ≡ Some word };

    // An arithmetic has the constants, and what is known.
    ghost has_constants: { (word : ℤ) → Has (ints.constant word) };

    ghost has_known: { (v : V) (word : ℤ) → ints.known v ≡ Some word → Has v };
}
