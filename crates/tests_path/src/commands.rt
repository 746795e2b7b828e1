//! Command lines and the replies to them, over a shelf with the worked file and one without bytes.

use crate::running::check;
use std::test::Fail;
use tests_devices::ADDS;

const NO_COMMAND: &str = "refused 2 Command\n";

const RANGE: &str = "refused 13 Range\n";

const ENTRY_MISSING: &str = "refused 11 EntryMissing\n";

const WORDS_REFUSED: &str = "refused 16 Words\n";

#[test]
fn answers_the_worked_lines(rt: HostRuntime) -> Result<(), Fail> {
    let input = b"once T.class f (II)I 2147483647 1
once T.class f (II)I -1 1
once T.class f (II)I 1
once U.class f (II)I 1 1
twice
";
    let want = "ok returns -2147483648
ok returns 0
refused 16 Words
refused 3 Absent U.class
refused 2 Command
";
    check(&rt, "the worked lines", &ADDS, input, want)?;
    Ok(())
}

/// Lines and their replies.
static REPLIES: [(&str, &str); 58] = [
    ("once", NO_COMMAND),
    ("once T.class", NO_COMMAND),
    ("once T.class f", NO_COMMAND),
    ("once T.class f (II)I", WORDS_REFUSED),
    ("Once T.class f (II)I 1 2", NO_COMMAND),
    ("onceT.class f (II)I 1 2", NO_COMMAND),
    ("twice T.class f (II)I 1 2", NO_COMMAND),
    ("once T.class f (II)I 1", WORDS_REFUSED),
    ("once T.class f (II)I 1 2 3", WORDS_REFUSED),
    ("once T.class g (II)I 1 2", ENTRY_MISSING),
    ("once T.class ff (II)I 1 2", ENTRY_MISSING),
    ("once T.class f (I)I 1", ENTRY_MISSING),
    ("once T.class f (III)I 1 2", ENTRY_MISSING),
    ("once T.class f (II) 1 2", ENTRY_MISSING),
    ("once T.class f (II)I 1 2", "ok returns 3\n"),
    ("  once   T.class  f (II)I   1    2  ", "ok returns 3\n"),
    ("once T.class f (II)I 007 0000000001", "ok returns 8\n"),
    ("once T.class f (II)I -007 -0000000001", "ok returns -8\n"),
    ("once T.class f (II)I -0 5", "ok returns 5\n"),
    ("once T.class f (II)I 0 -0", "ok returns 0\n"),
    (
        "once T.class f (II)I 2147483647 -2147483648",
        "ok returns -1\n",
    ),
    (
        "once T.class f (II)I 2147483647 0",
        "ok returns 2147483647\n",
    ),
    (
        "once T.class f (II)I -2147483648 0",
        "ok returns -2147483648\n",
    ),
    (
        "once T.class f (II)I -2147483648 -1",
        "ok returns 2147483647\n",
    ),
    (
        "once T.class f (II)I -2147483648 -2147483648",
        "ok returns 0\n",
    ),
    ("once T.class f (II)I 2147483648 0", RANGE),
    ("once T.class f (II)I 0 2147483648", RANGE),
    ("once T.class f (II)I -2147483649 0", RANGE),
    ("once T.class f (II)I 9999999999 0", RANGE),
    ("once T.class f (II)I -9999999999 0", RANGE),
    ("once T.class f (II)I 4294967297 2", RANGE),
    ("once T.class f (II)I 00000000001 0", NO_COMMAND),
    ("once T.class f (II)I -00000000001 0", NO_COMMAND),
    ("once T.class f (II)I - 1", NO_COMMAND),
    ("once T.class f (II)I 1 -", NO_COMMAND),
    ("once T.class f (II)I +1 1", NO_COMMAND),
    ("once T.class f (II)I --1 1", NO_COMMAND),
    ("once T.class f (II)I 1- 1", NO_COMMAND),
    ("once T.class f (II)I 1a 1", NO_COMMAND),
    ("once T.class f (II)I a1 1", NO_COMMAND),
    ("once T.class f (II)I 0x1 1", NO_COMMAND),
    ("once T.class f (II)I 1,2", NO_COMMAND),
    ("once T.class f (II)I 1 / :", NO_COMMAND),
    ("once U.class f (II)I", "refused 3 Absent U.class\n"),
    ("once U.class f (II)I 1 2", "refused 3 Absent U.class\n"),
    ("once U.class g (ZZ)I 2", "refused 3 Absent U.class\n"),
    // A file at fault is seen before the words.
    ("once W.class f (II)I 1 2", "refused 5 Class Short 0\n"),
    ("once W.class f (II)I", "refused 5 Class Short 0\n"),
    // A number outside its range is seen before the file, and a token that is no number before that.
    ("once U.class f (II)I 9999999999", RANGE),
    ("once T.class g (II)I 1 2147483648", RANGE),
    ("once T.class f (II)I 9999999999 x", NO_COMMAND),
    ("once U.class f (II)I x", NO_COMMAND),
    ("once W.class f (II)I 9999999999", RANGE),
    ("once W.class f (II)I x", NO_COMMAND),
    ("once t.class f (II)I 1 2", "refused 3 Absent t.class\n"),
    ("once a\\b f d", "refused 3 Absent a\\x5cb\n"),
    ("once \\\\ f d", "refused 3 Absent \\x5c\\x5c\n"),
    ("once !~ f d", "refused 3 Absent !~\n"),
];

#[test]
fn lines_have_their_replies(rt: HostRuntime) -> Result<(), Fail> {
    for (line, want) in &REPLIES {
        check(&rt, line, &ADDS, line.as_bytes(), want)?;
    }
    Ok(())
}
