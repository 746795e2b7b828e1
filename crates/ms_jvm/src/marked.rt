use std::marker::Model;

/// An int as the interpreter keeps it: its word, and whether no parameter entered it.
#[derive(Clone, Copy, Debug)]
pub struct MarkedInt {
    pub word: i32,
    pub plain: bool,
}

impl Model for MarkedInt {
    ghost use Rattle.ms_machine.specs.Ints.{Marked};

    ghost Value = { Marked };

    ghost view = { λ int. record { word = int.word; plain = int.plain } };

    ghost inverse = { λ value. record { word = value.word; plain = value.plain } };
}
