//! Inputs that are put together.

use ms_pathcond::put_together;
use ms_words::{Input, Kind, Kinds};
use std::alloc::{AllocError, Global};
use std::fmt::Write;
use std::test::Fail;

/// The words of (1, 2, 3) and (4, 5, 6) put together, with these parameters from the first.
fn mixed(alloc: Global, params: u8) -> Result<String, AllocError> {
    let mut text = String::new(alloc);
    let mut kinds = Kinds::new();
    let _ = kinds.push(Kind::I);
    let _ = kinds.push(Kind::B);
    let _ = kinds.push(Kind::S);
    if let (Some(first), Some(second)) = (
        Input::of(kinds, &[1, 2, 3]),
        Input::of(kinds, &[4, 5, 6]),
    ) {
        let input = put_together(params, &first, &second);
        for word in input.words() {
            let word = *word;
            write!(text, "{word} ")?;
        }
        let count = input.kinds().get().len();
        write!(text, "{count}")?;
    }
    Ok(text)
}

#[test]
fn inputs_are_put_together(rt: HostRuntime) -> Result<(), Fail> {
    let alloc = rt.alloc();
    let two = mixed(alloc, 0b101)?;
    assert!(rt; two.as_str() == "1 5 3 3", "{two}");
    let none = mixed(alloc, 0)?;
    assert!(rt; none.as_str() == "4 5 6 3", "{none}");
    let one = mixed(alloc, 0b1111_1010)?;
    assert!(rt; one.as_str() == "4 2 6 3", "{one}");
    Ok(())
}
