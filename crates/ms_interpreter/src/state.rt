ghost use Rattle.std.specs.Prelude.{◌≡◌, [], OnOk};

use crate::frame::Frame;
use crate::memory::Memory;
use ms_words::{Item, NoMemory};
use std::alloc::Global;

/// Where a run is: the frame that runs, those that wait below it, the uppermost last, and the memory (JVMS
/// SE 8, section 2.6).
#[derive(Drop)]
pub struct State<I: Copy + Drop> {
    pub(crate) top: Frame<I>,
    pub(crate) below: Vec<Frame<I>>,
    pub(crate) memory: Memory<I>,
}

impl<I: Copy + Drop> State<I> {
    /// One frame stands.
    pub fn new(alloc: Global, top: Frame<I>, memory: Memory<I>) -> State<I>
        ensures top { result.top ≡ top }
        ensures below { result.below.items ≡ [] }
        ensures memory { result.memory ≡ memory }
    {
        State {
            top,
            below: Vec::new(alloc),
            memory,
        }
    }

    /// Where the frame that runs is: the instruction that comes.
    pub fn at(&self) -> Item
        ensures { result ≡ self.now.top.at }
    {
        self.top.at()
    }
}
