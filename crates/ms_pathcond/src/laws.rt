ghost use Rattle.ms_machine.specs.Control.{Program};
ghost use Rattle.ms_pathcond.specs.Growing.{LawOfGrowing};
ghost use Rattle.ms_pathcond.specs.Mixing.{LawOfSlices, LeastOfSlices, TakersMeetSlices};

use ms_machine::{takes_where_literals_hold, takes_where_met};

/// An input that makes a slice true, and one of the same kinds, with a word for each, that makes true the literals
/// before the last ones, are put together to one that makes all true: the slice's parameters from the first, the
/// others from the second.
pub fn slices_are_put_together()
    ensures { LawOfSlices }
{}

/// The first input that takes a string with an arm is the first that makes the slice true on the slice's
/// parameters, and the first that takes the string on the others. The slice is that of the literals on the way
/// through the string with the arm, from those of the arm on; the keys of each switch differ.
pub fn least_inputs_are_put_together()
    ensures { (P : Program) → LeastOfSlices P }
{
    takes_where_literals_hold();
    takes_where_met();
}

/// An input that takes a string with an arm makes the slice true. So where no input of the entry's kinds makes it
/// true, none takes that string.
pub fn takers_make_slices_true()
    ensures { (P : Program) → TakersMeetSlices P }
{
    takes_where_literals_hold();
}

/// A table that has grown keeps its numbers: each is that of the same term. One that keeps those of another has as
/// many terms at least. Literals over the other are over it, are the same relations there, and have the same slices.
pub fn tables_that_grow_keep_slices()
    ensures { LawOfGrowing }
{}
