//! That runs of the program go as they are to.

use ms_memoise::{MOST_INPUT, Status};
use std::alloc::AllocError;
use std::process::Abort;
use tests_devices::{SOUND, run};

/// The reply of `class` to a file that isn't thin and has no fault.
const NOT_BUILT: &str = "refused 90 NotBuilt\n";

/// The reply of `once` where there is no such method, or a foreign one, or one that can't be an entry.
pub const ENTRY_MISSING: &str = "refused 11 EntryMissing\n";

/// Its reply where the words aren't one of its kind for each parameter.
pub const WORDS_REFUSED: &str = "refused 16 Words\n";

/// The line for the worked file, and the one that adds its class.
pub const BOTH: &[u8] = b"once T.class f (II)I 5 3\nclass T.class";

/// That the program reads this input to its end where T.class is this file, and writes this.
pub fn check(
    rt: &(impl Abort + AllocGlobal),
    what: &str,
    file: &[u8],
    input: &[u8],
    want: &str,
) -> Result<(), AllocError> {
    let (status, sink) = run(rt.alloc(), MOST_INPUT, SOUND, file, input)?;
    assert_eq!(rt; status, Status::Done, "at {what}");
    assert_eq!(rt; sink.sink.taken(), want.as_bytes(), "at {what}");
    Ok(())
}

/// That `once` gives this reply, and `class` the same where the file has a fault, and else that it isn't
/// built, where T.class is this file.
pub fn check_other(
    rt: &(impl Abort + AllocGlobal),
    what: &str,
    file: &[u8],
    reply: &str,
) -> Result<(), AllocError> {
    let class = if reply.starts_with("refused 5 ") {
        reply
    } else {
        NOT_BUILT
    };
    let want = format!(in rt.alloc(); "{reply}{class}")?;
    check(rt, what, file, BOTH, want.as_str())
}
