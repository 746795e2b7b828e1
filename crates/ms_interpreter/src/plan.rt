use ms_words::{Bin, Un};

/// An int that an instruction plans to make.
#[derive(Clone, Copy, Drop)]
pub enum Plan<I> {
    /// That of a word.
    Constant(i32),
    /// What an operator gives of one int.
    Unary(Un, I),
    /// What an operator gives of two ints.
    Binary(Bin, I, I),
    /// The sum of an int and a word.
    Plus(I, i32),
}
