use crate::plan::Plan;
use crate::slot::Slot;
use ms_words::{Name, Thrown};

/// How an instruction ends a run.
#[derive(Drop)]
pub enum Stop {
    /// What has this name is absent or foreign.
    Missing(Name),
    /// The length of an array is no constant.
    SymLength,
    /// Too much was made.
    HeapFull,
    /// No rule applies; no verified program comes to this.
    Stuck,
}

/// What an instruction did, and what is still to be done, which wants arithmetic or other frames.
#[derive(Drop)]
pub enum Did<I> {
    /// The frame goes on at the next instruction.
    Next,
    /// It goes on at the target at this place.
    Jumps(usize),
    /// It goes on at the next instruction, with this int on the stack.
    Pushes(Plan<I>),
    /// It goes on at the next instruction, with this int in this local.
    Puts(u16, Plan<I>),
    /// An array of this length is made, put on the stack, and the frame goes on at the next instruction.
    Makes(I),
    /// The method is called with so many arguments, which are on the stack, the last one on top.
    Calls(usize),
    /// The initialiser of the class of this number runs first. The class is marked as started.
    Initialises(u16),
    /// The frame returns this, or nothing.
    Returns(Option<Slot<I>>),
    /// A throwable of this number and class is thrown.
    Raises(u16, Thrown),
    /// The run ends.
    Stops(Stop),
}
