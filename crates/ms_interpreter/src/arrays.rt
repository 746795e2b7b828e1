ghost use Rattle.std.specs.Prelude.{◌≡◌, ◌+◌, ◌≤◌, ◌<◌, ◌∷◌, ◌++◌, [], OnErr, OnOk, IfOk, IfSome, get_or, length, option_map, replicate, slice_get, slice_set};
ghost use Rattle.ms_machine.specs.Values.{cells_of};

use ms_words::NoMemory;
use std::alloc::Global;
use std::marker::Model;

/// The arrays of a run, in the order in which they were made. Contracts see the list of the cells of each.
#[derive(Drop)]
pub(crate) struct Arrays<I: Copy + Drop> {
    arrays: Vec<Vec<I>>,
    cells: usize,
}

impl<I: Copy + Drop> Model for Arrays<I> {
    ghost use Rattle.std.specs.Prelude.{◌≡◌, ◌≤◌, List};
    ghost use Rattle.ms_machine.specs.Values.{cells_of};
    ghost use Rattle.ms_interpreter.specs.Frames.{lists_in};

    ghost Value = { List (List I) };

    ghost view = { λ arrays. lists_in arrays.arrays.items };

    ghost invariant = { λ arrays. (arrays.cells ≡ cells_of (lists_in arrays.arrays.items)) × (arrays.cells ≤ 4096) };
}

impl<I: Copy + Drop> Arrays<I> {
    /// None.
    pub(crate) fn new(alloc: Global) -> Arrays<I>
        ensures { result ≡ [] }
    {
        Arrays {
            arrays: Vec::new(alloc),
            cells: 0,
        }
    }

    /// How many there are.
    pub(crate) fn count(&self) -> usize
        ensures { result ≡ length self.now }
    {
        self.arrays.len()
    }

    /// How many cells they have in all.
    pub(crate) fn cells(&self) -> usize
        ensures cells { result ≡ cells_of self.now }
        ensures few { result ≤ 4096 }
    {
        self.cells
    }

    /// The cells of an array, if there is one of this number.
    #[tactic(auto, using(crate::proofs::ArraysOf::list_at))]
    pub(crate) fn get(&self, number: u16) -> Option<&[I]>
        ensures cells { option_map (λ cells. cells.now) result ≡ slice_get self.now number }
        ensures few { IfSome result (λ cells. length cells.now ≤ 4096) }
    {
        let cells = self.arrays.get(usize::from(number))?;
        Some(cells.as_slice())
    }

    /// Adds an array of so many cells, all this, where there are at most 4,096 cells then.
    pub(crate) fn add(&mut self, alloc: Global, cell: I, size: usize) -> Result<(), NoMemory>
        requires { cells_of self.old + size ≤ 4096 }
        ensures ok { OnOk result (self.new ≡ self.old ++ replicate size cell ∷ []) }
        ensures err { OnErr result (self.new ≡ self.old) }
    {
        let array = filled(alloc, cell, size)?;
        self.arrays.push(array)?;
        self.cells += size;
        Ok(())
    }

    /// Stores an int in a cell of an array.
    pub(crate) fn set(&mut self, number: u16, place: usize, a: I)
        requires number { number < length self.old }
        requires place { place < length (get_or self.old number []) }
        ensures { self.new ≡ slice_set self.old number (slice_set (get_or self.old number []) place a) }
    {
        set_in(&mut self.arrays[usize::from(number)], place, a);
    }
}

/// Stores an int in a cell.
fn set_in<I: Copy + Drop>(cells: &mut Vec<I>, place: usize, a: I)
    requires { place < length cells.old.items }
    ensures { cells.new.items ≡ slice_set cells.old.items place a }
{
    cells[place] = a;
}

/// So many cells, all this.
fn filled<I: Copy + Drop>(alloc: Global, cell: I, size: usize) -> Result<Vec<I>, NoMemory>
    ensures { IfOk result (λ cells. cells.items ≡ replicate size cell) }
{
    let mut cells = Vec::with_capacity(alloc, size)?;
    for _ in 0..size {
        cells.push(cell)?;
    }
    Ok(cells)
}
