//! Sessions: classes, the entry, the depth, explorations in one piece and in several, and reports. The
//! expected rows and numbers of asks were worked out by hand, from the arms that each input takes.

use crate::running::check;
use ms_command::end_text;
use ms_outside::MemorySink;
use ms_report::{ReportStop, Totals, write_report};
use ms_session::Stop;
use ms_trie::{ChoiceString, Outcome, PathRow};
use ms_words::{Ended, Input, Kinds, PathEnd};
use std::alloc::{AllocError, Global};
use std::test::Fail;
use tests_devices::{ADDS, changed, lengthened, thin};

const NO_COMMAND: &str = "refused 2 Command\n";

const RANGE: &str = "refused 13 Range\n";

const NO_ENTRY: &str = "refused 10 NoEntry\n";

/// Of (ZZ)I: 1 where the first is true, and else 0 or 2, by the second.
///
///      0: iload_0        4: iconst_1       6: iload_1       10: iconst_2      12: iconst_0
///      1: ifeq 6         5: ireturn        7: ifne 12       11: ireturn       13: ireturn
const TRUTHS: &[u8] = b"\x1a\x99\x00\x05\x04\xac\x1b\x9a\x00\x05\x05\xac\x03\xac";

/// Of (Z)I: the same test twice, so two of four strings have no input.
///
///      0: iload_0        4: iload_0        8: iconst_1      10: iconst_0
///      1: ifeq 4         5: ifeq 10        9: ireturn       11: ireturn
const AGAIN: &[u8] = b"\x1a\x99\x00\x03\x1a\x99\x00\x05\x04\xac\x03\xac";

/// Of (ZZZZZZZZ)I: 1 where all eight are true, which the last input alone is, and else 0. Each is loaded
/// and tested in turn, and a false one leads to the iconst_0 at 38.
const ALL_EIGHT: &[u8] = b"\x1a\x99\x00\x25\x1b\x99\x00\x21\x1c\x99\x00\x1d\x1d\x99\x00\x19\
\x15\x04\x99\x00\x14\x15\x05\x99\x00\x0f\x15\x06\x99\x00\x0a\x15\x07\x99\x00\x05\x04\xac\x03\xac";

/// Descriptors, code, what is typed, and what is written.
static SESSIONS: [(&str, &[u8], &str, &str); 8] = [
    // At once, and the report to two depths.
    (
        "(ZZ)I",
        TRUTHS,
        "class T.class
entry T f (ZZ)I
depth 2
explore 10
report
depth 1
report
",
        "ok class T verdicts 0 segments 0
ok entry T.f(ZZ)I
ok depth 2
ok explored 5 asks 2 finished
path 0 input 1,0 returns 1
path 1.0 input 0,0 returns 2
path 1.1 input 0,1 returns 0
ok report paths 3 undecided 0
ok depth 1
path 0 input 1,0 returns 1
path 1 input 0,0 cut
ok report paths 2 undecided 0
",
    ),
    // In pieces.
    (
        "(ZZ)I",
        TRUTHS,
        "class T.class
entry T f (ZZ)I
report
explore 1
explore 2
report
explore 1000000
explore 1
report",
        "ok class T verdicts 0 segments 0
ok entry T.f(ZZ)I
ok unfinished
ok explored 1 asks 0 unfinished
ok explored 2 asks 1 unfinished
ok unfinished
ok explored 2 asks 1 finished
ok explored 0 asks 0 finished
path 0 input 1,0 returns 1
path 1.0 input 0,0 returns 2
path 1.1 input 0,1 returns 0
ok report paths 3 undecided 0
",
    ),
    // Deeper after shallower, lower depths, the class and a run between, and the same entry once more.
    (
        "(ZZ)I",
        TRUTHS,
        "class T.class
entry T f (ZZ)I
depth 1
explore 10
depth 2
report
explore 10
depth 0
explore 10
report
class T.class
once T.class f (ZZ)I 0 1
depth 256
report
entry T f (ZZ)I
report
explore 10
",
        "ok class T verdicts 0 segments 0
ok entry T.f(ZZ)I
ok depth 1
ok explored 3 asks 1 finished
ok depth 2
ok unfinished
ok explored 2 asks 1 finished
ok depth 0
ok explored 0 asks 0 finished
path - input 0,0 cut
ok report paths 1 undecided 0
refused 7 Known T
ok returns 0
ok depth 256
path 0 input 1,0 returns 1
path 1.0 input 0,0 returns 2
path 1.1 input 0,1 returns 0
ok report paths 3 undecided 0
ok entry T.f(ZZ)I
ok unfinished
ok explored 5 asks 2 finished
",
    ),
    // Strings that no input takes are settled, and aren't listed.
    (
        "(Z)I",
        AGAIN,
        "class T.class
entry T f (Z)I
explore 6
explore 6
report
depth 1
report
",
        "ok class T verdicts 0 segments 0
ok entry T.f(Z)I
ok explored 6 asks 3 unfinished
ok explored 1 asks 0 finished
path 0.0 input 1 returns 1
path 1.1 input 0 returns 0
ok report paths 2 undecided 0
ok depth 1
path 0 input 1 cut
path 1 input 0 cut
ok report paths 2 undecided 0
",
    ),
    // No parameters, and so no choices.
    (
        "()I",
        b"\x06\xac",
        "class T.class
entry T f ()I
explore 10
report
depth 0
report
",
        "ok class T verdicts 0 segments 0
ok entry T.f()I
ok explored 1 asks 0 finished
path - input - returns 3
ok report paths 1 undecided 0
ok depth 0
path - input - returns 3
ok report paths 1 undecided 0
",
    ),
    // A path that the last of 256 inputs alone takes.
    (
        "(ZZZZZZZZ)I",
        ALL_EIGHT,
        "class T.class
entry T f (ZZZZZZZZ)I
explore 1000
report
",
        "ok class T verdicts 0 segments 0
ok entry T.f(ZZZZZZZZ)I
ok explored 17 asks 8 finished
path 0.0.0.0.0.0.0.0 input 1,1,1,1,1,1,1,1 returns 1
path 0.0.0.0.0.0.0.1 input 1,1,1,1,1,1,1,0 returns 0
path 0.0.0.0.0.0.1 input 1,1,1,1,1,1,0,0 returns 0
path 0.0.0.0.0.1 input 1,1,1,1,1,0,0,0 returns 0
path 0.0.0.0.1 input 1,1,1,1,0,0,0,0 returns 0
path 0.0.0.1 input 1,1,1,0,0,0,0,0 returns 0
path 0.0.1 input 1,1,0,0,0,0,0,0 returns 0
path 0.1 input 1,0,0,0,0,0,0,0 returns 0
path 1 input 0,0,0,0,0,0,0,0 returns 0
ok report paths 9 undecided 0
",
    ),
    // What is refused changes nothing.
    (
        "(ZZ)I",
        TRUTHS,
        "entry T f (ZZ)I
explore 10
report
class U.class
class W.class
class V.class
class T.class
class W.class
class V.class
entry T f (ZZ)I
entry V g (II)I
entry V f (I)I
entry V f (II)I
report
depth 257
",
        "refused 8 Unknown T
refused 10 NoEntry
refused 10 NoEntry
refused 3 Absent U.class
refused 5 Class Short 0
ok class V verdicts 0 segments 0
refused 90 NotBuilt
refused 5 Class Short 0
refused 7 Known V
refused 8 Unknown T
refused 11 EntryMissing
refused 11 EntryMissing
refused 90 NotBuilt
refused 10 NoEntry
refused 13 Range
",
    ),
    // A refused entry keeps the one before, and what is known of it.
    (
        "(ZZ)I",
        TRUTHS,
        "class T.class
entry T f (ZZ)I
depth 1
explore 10
entry T g (ZZ)I
entry U f (ZZ)I
depth 300
explore 0
report
",
        "ok class T verdicts 0 segments 0
ok entry T.f(ZZ)I
ok depth 1
ok explored 3 asks 1 finished
refused 11 EntryMissing
refused 8 Unknown U
refused 13 Range
refused 13 Range
path 0 input 1,0 returns 1
path 1 input 0,0 cut
ok report paths 2 undecided 0
",
    ),
];

#[test]
fn sessions_explore_and_report(rt: HostRuntime) -> Result<(), Fail> {
    for (descriptor, code, input, want) in &SESSIONS {
        let file = thin(rt.alloc(), descriptor.as_bytes(), 4, 8, code)?;
        check(&rt, input, file.as_slice(), input.as_bytes(), want)?;
    }
    Ok(())
}

#[test]
fn an_initialiser_is_no_entry(rt: HostRuntime) -> Result<(), Fail> {
    let class = changed(rt.alloc(), &[(40, 3, b"\x00\x08<clinit>")])?;
    let input = "class T.class\nentry T <clinit> (II)I\nonce T.class <clinit> (II)I 1 2";
    let want =
        "ok class T verdicts 0 segments 0\nrefused 11 EntryMissing\nrefused 11 EntryMissing\n";
    check(&rt, input, class.as_slice(), input.as_bytes(), want)?;
    let object = changed(rt.alloc(), &[(40, 3, b"\x00\x06<init>")])?;
    let input = "class T.class\nentry T <init> (II)I";
    let want = "ok class T verdicts 0 segments 0\nrefused 90 NotBuilt\n";
    check(&rt, input, object.as_slice(), input.as_bytes(), want)?;
    Ok(())
}

/// What is typed where T.class has more than 1,048,576 bytes, and what is written.
static TOO_LONG: [(&str, &str); 8] = [
    ("class T.class", "refused 4 TooLong T.class\n"),
    (
        "class V.class\nclass T.class",
        "ok class V verdicts 0 segments 0\nrefused 4 TooLong T.class\n",
    ),
    (
        "class T.class\nclass V.class",
        "refused 4 TooLong T.class\nok class V verdicts 0 segments 0\n",
    ),
    ("once T.class f (II)I 1 2", "refused 4 TooLong T.class\n"),
    ("once T.class g (II)I 1", "refused 4 TooLong T.class\n"),
    ("once T.class f (II)I 2147483648 1", RANGE),
    ("once T.class f (II)I x 1", NO_COMMAND),
    ("once U.class f (II)I 1 2", "refused 3 Absent U.class\n"),
];

#[test]
fn a_file_that_is_too_long_is_refused(rt: HostRuntime) -> Result<(), Fail> {
    // The attribute that is added stands with 108 bytes more.
    for size in [1_048_577 - 108, 1_048_576] {
        let long = lengthened(rt.alloc(), size)?;
        for (input, want) in &TOO_LONG {
            check(&rt, input, long.as_slice(), input.as_bytes(), want)?;
        }
    }
    Ok(())
}

/// Lines of sessions, and their replies.
static LINES: [(&str, &str); 31] = [
    ("class", NO_COMMAND),
    ("class T.class U.class", NO_COMMAND),
    ("Class T.class", NO_COMMAND),
    ("  class  T.class ", "ok class T verdicts 0 segments 0\n"),
    ("class a\\b", "refused 3 Absent a\\x5cb\n"),
    ("entry", NO_COMMAND),
    ("entry T", NO_COMMAND),
    ("entry T f", NO_COMMAND),
    ("entry T f (II)I 1", NO_COMMAND),
    ("entry a\\b f ()I", "refused 8 Unknown a\\x5cb\n"),
    ("depth", NO_COMMAND),
    ("depth 1 2", NO_COMMAND),
    ("depth x", NO_COMMAND),
    ("depth 0", "ok depth 0\n"),
    ("depth 007", "ok depth 7\n"),
    ("depth 256", "ok depth 256\n"),
    ("depth 257", RANGE),
    ("depth -1", NO_COMMAND),
    ("explore", NO_COMMAND),
    ("explore 1 2", NO_COMMAND),
    ("explore 0x1", NO_COMMAND),
    ("explore 0", RANGE),
    ("explore 1000001", RANGE),
    ("explore 9999999999", RANGE),
    ("explore 1000000", NO_ENTRY),
    ("report 1", NO_COMMAND),
    ("report", NO_ENTRY),
    ("quit 1", NO_COMMAND),
    // What stands behind a quit belongs to no line.
    ("quit", "ok quit\n"),
    ("quit\nreport\n\x07", "ok quit\n"),
    ("report\r\nquit\r\nquit", "refused 10 NoEntry\nok quit\n"),
];

#[test]
fn lines_of_sessions_have_their_replies(rt: HostRuntime) -> Result<(), Fail> {
    for (line, want) in &LINES {
        check(&rt, line, &ADDS, line.as_bytes(), want)?;
    }
    Ok(())
}

/// The choices 0 and 12.
fn choices(alloc: Global) -> Result<ChoiceString, AllocError> {
    let first = ChoiceString::new(alloc).with(alloc, 0)?;
    first.with(alloc, 12)
}

/// The row of a path without words.
fn path(alloc: Global) -> Result<PathRow, AllocError> {
    let outcome = Outcome::Path {
        input: Input::zero(Kinds::new()),
        end: PathEnd::Ended(Ended::Returned(-7)),
    };
    Ok(PathRow {
        choices: choices(alloc)?,
        outcome,
    })
}

/// The row of a string that was given up.
fn given_up(alloc: Global) -> Result<PathRow, AllocError> {
    Ok(PathRow {
        choices: choices(alloc)?,
        outcome: Outcome::Undecided,
    })
}

#[test]
fn reports_are_written_row_by_row(rt: HostRuntime) -> Result<(), Fail> {
    let rows = [given_up(rt.alloc())?, path(rt.alloc())?];
    let mut sink = MemorySink::new(rt.alloc(), Vec::new(rt.alloc()));
    let totals = write_report(rt.alloc(), &[], &rows, &mut sink);
    let want = Totals {
        paths: 1,
        undecided: 1,
    };
    assert_eq!(rt; totals, Ok(want));
    let text = b"undecided 0.12\npath 0.12 input - returns -7\n";
    assert_eq!(rt; sink.taken(), text.as_slice());
    let second = Vec::from_slice(rt.alloc(), &[2])?;
    let mut sink = MemorySink::new(rt.alloc(), second);
    let stopped = write_report(rt.alloc(), &[], &rows, &mut sink);
    assert_eq!(rt; stopped, Err(ReportStop::WriteFault));
    assert_eq!(rt; sink.taken(), b"undecided 0.12\n".as_slice());
    let end = end_text(rt.alloc(), &[], &PathEnd::Cut)?;
    assert_eq!(rt; end.bytes(), b"cut".as_slice());
    Ok(())
}

#[test]
fn stops_are_printed(rt: HostRuntime) -> Result<(), Fail> {
    let (shelf, sink, memory) = (Stop::ShelfFault, Stop::WriteFault, Stop::NoMemory);
    let (write, none) = (ReportStop::WriteFault, ReportStop::NoMemory);
    let text = format!(in rt.alloc(); "{shelf}; {sink}; {memory}; {write}; {none}")?;
    assert_eq!(rt;
        text.as_str(),
        "the shelf failed; the sink failed; memory ran out; a write failed; memory ran out"
    );
    Ok(())
}
