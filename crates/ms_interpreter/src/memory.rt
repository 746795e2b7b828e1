ghost use Rattle.std.specs.Prelude.{◌≡◌, ◌<◌, ◌≤◌, ◌∷◌, ◌++◌, [], Some, None, suc, OnOk, IfOk, IfSome, IsTrue, get_or, length, nat_lt, option_map, replicate, slice_get, slice_set};
ghost use Rattle.ms_machine.specs.Effects.{most_made};
ghost use Rattle.ms_machine.specs.Values.{is_started};
ghost use Rattle.ms_interpreter.specs.Frames.{MadeThrowable, has_room, made_in};
ghost use Rattle.ms_interpreter.specs.Fields.{found_in, with_field};

use crate::arrays::Arrays;
use crate::slot::Slot;
use crate::statics::Statics;
use ms_words::NoMemory;
use std::alloc::Global;
use std::marker::Model;

/// The most arrays and throwables that a run makes.
const MOST_MADE: usize = 4096;

/// The most cells of its arrays in all.
const MOST_CELLS: usize = 4096;

/// The greatest length of an array.
const GREATEST_LENGTH: usize = 256;

/// What all frames of a run share (JVMS SE 8, section 2.5): the static fields that were stored, the classes
/// that were started, the arrays, and how many throwables were made.
#[derive(Drop)]
pub struct Memory<I: Copy + Drop> {
    statics: Statics<I>,
    started: Vec<u16>,
    arrays: Arrays<I>,
    throwables: usize,
}

impl<I: Copy + Drop> Model for Memory<I> {
    ghost use Rattle.std.specs.Prelude.{◌+◌, ◌≤◌, length};
    ghost use Rattle.ms_interpreter.specs.Frames.{Shared};

    ghost Value = { Shared I };

    ghost view = { λ memory. record { statics = memory.statics; started = memory.started.items; arrays = memory.arrays; throwables = memory.throwables } };

    ghost invariant = { λ memory. length memory.arrays + memory.throwables ≤ 4096 };
}

impl<I: Copy + Drop> Memory<I> {
    /// Memory in which nothing was stored or made, and no class was started.
    pub fn new(alloc: Global) -> Memory<I>
        ensures { result ≡ record { statics = []; started = []; arrays = []; throwables = 0 } }
    {
        Memory {
            statics: Statics::new(alloc),
            started: Vec::new(alloc),
            arrays: Arrays::new(alloc),
            throwables: 0,
        }
    }

    /// Whether a class was started.
    pub fn is_started(&self, class: u16) -> bool
        ensures { result ≡ is_started self.now.started class }
    {
        self.started.contains(&class)
    }

    /// Marks a class as started.
    pub fn start(&mut self, class: u16) -> Result<(), NoMemory>
        ensures { OnOk result (self.new ≡ record self.old { started = self.old.started ++ class ∷ [] }) }
    {
        self.started.push(class)?;
        Ok(())
    }

    /// What a static field holds, where it was stored.
    pub fn field(&self, class: u16, name: &[u8], descriptor: &[u8]) -> Option<Slot<I>>
        ensures { result ≡ found_in self.now.statics class name.now descriptor.now }
    {
        self.statics.get(class, name, descriptor)
    }

    /// Stores something in a static field.
    pub fn set_field(
        &mut self,
        alloc: Global,
        class: u16,
        name: &[u8],
        descriptor: &[u8],
        slot: Slot<I>,
    ) -> Result<(), NoMemory>
        ensures { OnOk result (self.new ≡ record self.old { statics = with_field self.old.statics class name.now descriptor.now slot }) }
    {
        self.statics.set(alloc, class, name, descriptor, slot)
    }

    /// Whether fewer arrays and throwables were made than may be.
    fn may_make(&self) -> bool
        ensures { result ≡ nat_lt (made_in self.now) most_made }
    {
        self.arrays.count() + self.throwables < MOST_MADE
    }

    /// The number of a new throwable, or none where as many arrays and throwables were made as may be.
    pub fn make_throwable(&mut self) -> Option<u16>
        ensures { MadeThrowable self.old result self.new }
    {
        if !self.may_make() {
            return None;
        }
        let number = self.throwables as u16;
        self.throwables += 1;
        Some(number)
    }

    /// Whether an array of this length may be made: it isn't longer than 256, there are at most 4,096 cells in all
    /// then, and fewer than 4,096 arrays and throwables were made.
    pub fn has_room(&self, size: usize) -> bool
        ensures { result ≡ has_room self.now size }
    {
        if size > GREATEST_LENGTH {
            return false;
        }
        if self.arrays.cells() + size > MOST_CELLS {
            return false;
        }
        self.may_make()
    }

    /// Makes an array whose cells are all this, where there is room, and gives its number.
    pub fn make_array(&mut self, alloc: Global, cell: I, size: usize) -> Result<u16, NoMemory>
        requires { IsTrue (has_room self.old size) }
        ensures number { IfOk result (λ number. number ≡ length self.old.arrays) }
        ensures made { OnOk result (self.new ≡ record self.old { arrays = self.old.arrays ++ replicate size cell ∷ [] }) }
    {
        let number = self.arrays.count() as u16;
        self.arrays.add(alloc, cell, size)?;
        Ok(number)
    }

    /// The cells of an array, if there is one of this number.
    pub fn cells(&self, number: u16) -> Option<&[I]>
        ensures cells { option_map (λ cells. cells.now) result ≡ slice_get self.now.arrays number }
        ensures few { IfSome result (λ cells. length cells.now ≤ 4096) }
    {
        self.arrays.get(number)
    }

    /// Stores an int in a cell of an array.
    pub fn set_cell(&mut self, number: u16, place: usize, a: I)
        requires number { number < length self.old.arrays }
        requires place { place < length (get_or self.old.arrays number []) }
        ensures { self.new ≡ record self.old { arrays = slice_set self.old.arrays number (slice_set (get_or self.old.arrays number []) place a) } }
    {
        self.arrays.set(number, place, a);
    }
}
