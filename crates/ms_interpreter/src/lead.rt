use crate::did::Stop;
use crate::slot::Slot;
use ms_words::Thrown;

/// Where an instruction leads, once its arithmetic is done.
#[derive(Drop)]
pub enum Lead<I> {
    /// The frame goes on at the next instruction.
    Next,
    /// It goes on at the target at this place.
    Jumps(usize),
    /// The method is called with so many arguments, which are on the stack, the last one on top.
    Calls(usize),
    /// The initialiser of the class of this number runs first.
    Initialises(u16),
    /// The frame returns this, or nothing.
    Returns(Option<Slot<I>>),
    /// A throwable of this number and class is thrown.
    Raises(u16, Thrown),
    /// The run ends.
    Stops(Stop),
}
