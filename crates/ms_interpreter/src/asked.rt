use ms_code::Switch;
use ms_linking::Comparison;

/// A test of ints that an instruction asks. Arms are numbered in choice order: of a comparison 0 falls
/// through and 1 is taken; of a divisor 0 is that it isn't 0, and 1 that it is; of a switch the cases in table
/// order and then the default; of an index k is index k, and the arm numbered by the length is out of range.
#[derive(Drop)]
pub enum Asked<'a, I> {
    /// How two ints compare.
    Compares(Comparison, I, I),
    /// How an int compares with 0.
    ComparesZero(Comparison, I),
    /// Whether a divisor is 0.
    Divides(I),
    /// Which case of a switch an int selects.
    Selects(I, &'a Switch),
    /// Where an index is, of an array of this length.
    Indexes(I, usize),
}
