use ms_interpreter::Beginning;
use ms_terms::TermId;

/// Where every input is that takes a string of choices: a state of the interpreter whose ints are numbers of terms, or
/// the end.
#[derive(Drop)]
pub struct State {
    pub(crate) run: Beginning<TermId>,
    // whether the segment that comes is the first
    pub(crate) is_first: bool,
}
