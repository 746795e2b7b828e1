//! Class files: which of them are thin, and what the first fault of the others is.
//! The expected faults were worked out by hand, each the first in reading order, with its place.

use crate::running::{BOTH, ENTRY_MISSING, check, check_other};
use std::alloc::{AllocError, Global};
use std::test::Fail;
use tests_devices::{ADDS, Change, changed, lengthened};

/// The line for the worked file, and its reply.
const LINE: &[u8] = b"once T.class f (II)I 5 3";

const SUM: &str = "ok returns 8\n";

/// What is changed in the worked file where it stays thin.
static THIN: [(&str, &[Change]); 27] = [
    ("nothing", &[]),
    ("the oldest version", &[(6, 2, b"\x00\x2d")]),
    ("a minor version", &[(4, 2, b"\xff\xff")]),
    (
        "one more text",
        &[(8, 2, b"\x00\x09"), (58, 0, b"\x01\x00\x02\xff\x00")],
    ),
    (
        "an empty text",
        &[(8, 2, b"\x00\x09"), (58, 0, b"\x01\x00\x00")],
    ),
    (
        "one more class",
        &[(8, 2, b"\x00\x09"), (58, 0, b"\x07\x00\x01")],
    ),
    (
        "a class named by a later text",
        &[(8, 2, b"\x00\x0a"), (58, 0, b"\x07\x00\x09\x01\x00\x00")],
    ),
    ("other class flags", &[(58, 2, b"\xff\xff")]),
    (
        "another name",
        &[(10, 4, b"\x01\x00\x12java/lang/Throwabl")],
    ),
    ("static alone", &[(70, 2, b"\x00\x08")]),
    ("other method flags", &[(70, 2, b"\x18\x99")]),
    ("the highest stack", &[(84, 2, b"\x01\x00")]),
    ("the most locals", &[(86, 2, b"\x01\x00")]),
    (
        "an attribute of the class",
        &[(100, 2, b"\x00\x01\x00\x01\x00\x00\x00\x03abc")],
    ),
    (
        "an empty attribute of the class",
        &[(100, 2, b"\x00\x01\x00\x05\x00\x00\x00\x00")],
    ),
    (
        "two attributes of the class",
        &[(
            100,
            2,
            b"\x00\x02\x00\x01\x00\x00\x00\x01a\x00\x05\x00\x00\x00\x00",
        )],
    ),
    (
        "an attribute Code of the class",
        &[(100, 2, b"\x00\x01\x00\x07\x00\x00\x00\x01a")],
    ),
    (
        "an attribute before the Code",
        &[(76, 2, b"\x00\x02\x00\x01\x00\x00\x00\x02ab")],
    ),
    (
        "an attribute behind the Code",
        &[
            (76, 2, b"\x00\x02"),
            (100, 0, b"\x00\x01\x00\x00\x00\x02ab"),
        ],
    ),
    (
        "an attribute of the Code",
        &[
            (80, 4, b"\x00\x00\x00\x18"),
            (98, 2, b"\x00\x01\x00\x01\x00\x00\x00\x02ab"),
        ],
    ),
    (
        "an attribute Code of the Code",
        &[
            (80, 4, b"\x00\x00\x00\x16"),
            (98, 2, b"\x00\x01\x00\x07\x00\x00\x00\x00"),
        ],
    ),
    ("the newest version", &[(6, 2, b"\x00\x34")]),
    ("the same class for all", &[(60, 2, b"\x00\x04")]),
    ("a class named as the method", &[(15, 2, b"\x00\x05")]),
    ("a higher stack", &[(84, 2, b"\x00\x03")]),
    (
        "another order of the operands",
        &[(92, 4, b"\x1b\x1a\x60\xac")],
    ),
    ("more locals", &[(86, 2, b"\x00\x03")]),
];

/// The worked file says that it has two methods.
pub const TWO_METHODS: Change = (68, 2, b"\x00\x02");

/// The last instruction of its code is a push without its byte.
pub const CUT: Change = (95, 1, b"\x10");

/// What is changed in the worked file where it is thin no more, and the reply of `once`: its frame, its pool and its
/// class.
static NO_CLASS: [(&str, &[Change], &str); 41] = [
    (
        "the first byte",
        &[(0, 1, b"\xcb")],
        "refused 5 Class Magic 0\n",
    ),
    (
        "the last byte of the magic number",
        &[(3, 1, b"\xbf")],
        "refused 5 Class Magic 0\n",
    ),
    (
        "a version that is too old",
        &[(6, 2, b"\x00\x2c")],
        "refused 5 Class Version 6\n",
    ),
    (
        "a version that is too new",
        &[(6, 2, b"\x00\x35")],
        "refused 5 Class Version 6\n",
    ),
    (
        "a version of two bytes",
        &[(6, 2, b"\x01\x34")],
        "refused 5 Class Version 6\n",
    ),
    (
        "a pool of count 0",
        &[(8, 2, b"\x00\x00")],
        "refused 5 Class Pool 8\n",
    ),
    (
        "a count 0 and no entries",
        &[(8, 50, b"\x00\x00")],
        "refused 5 Class Pool 8\n",
    ),
    (
        "an empty pool",
        &[(8, 50, b"\x00\x01")],
        "refused 5 Class Index 12\n",
    ),
    (
        "a count one too low",
        &[(8, 2, b"\x00\x07")],
        "refused 5 Class Index 53\n",
    ),
    (
        "a count one too high",
        &[(8, 2, b"\x00\x09")],
        "refused 5 Class Pool 58\n",
    ),
    (
        "tag 0",
        &[(8, 2, b"\x00\x09"), (58, 0, b"\x00\x00\x01")],
        "refused 5 Class Pool 58\n",
    ),
    (
        "tag 2",
        &[(8, 2, b"\x00\x09"), (58, 0, b"\x02\x00\x01")],
        "refused 5 Class Pool 58\n",
    ),
    (
        "an int",
        &[(8, 2, b"\x00\x09"), (58, 0, b"\x03\x00\x00\x00\x01")],
        SUM,
    ),
    (
        "a float",
        &[(8, 2, b"\x00\x09"), (58, 0, b"\x04\x00\x00\x00\x01")],
        SUM,
    ),
    (
        "a long",
        &[
            (8, 2, b"\x00\x0a"),
            (58, 0, b"\x05\x00\x00\x00\x00\x00\x00\x00\x01"),
        ],
        SUM,
    ),
    (
        "a string",
        &[(8, 2, b"\x00\x09"), (58, 0, b"\x08\x00\x01")],
        SUM,
    ),
    (
        "a field of a class",
        &[(8, 2, b"\x00\x09"), (58, 0, b"\x09\x00\x02\x00\x01")],
        "refused 5 Class Index 58\n",
    ),
    (
        "a method of a class",
        &[(8, 2, b"\x00\x09"), (58, 0, b"\x0a\x00\x02\x00\x01")],
        "refused 5 Class Index 58\n",
    ),
    (
        "a name and a type",
        &[(8, 2, b"\x00\x09"), (58, 0, b"\x0c\x00\x05\x00\x06")],
        SUM,
    ),
    (
        "a class named by a class",
        &[(8, 2, b"\x00\x09"), (58, 0, b"\x07\x00\x02")],
        "refused 5 Class Index 58\n",
    ),
    (
        "a class named by nothing",
        &[(8, 2, b"\x00\x09"), (58, 0, b"\x07\x00\x00")],
        "refused 5 Class Index 58\n",
    ),
    (
        "a class named from outside the pool",
        &[(8, 2, b"\x00\x09"), (58, 0, b"\x07\x00\x09")],
        "refused 5 Class Index 58\n",
    ),
    (
        "this class is a text",
        &[(60, 2, b"\x00\x01")],
        "refused 5 Class Index 60\n",
    ),
    (
        "this class is none",
        &[(60, 2, b"\x00\x00")],
        "refused 5 Class Index 60\n",
    ),
    (
        "this class is outside the pool",
        &[(60, 2, b"\x00\x08")],
        "refused 5 Class Index 60\n",
    ),
    (
        "the parent is another class",
        &[(62, 2, b"\x00\x02")],
        "refused 5 Class Super 62\n",
    ),
    (
        "the parent is a text",
        &[(62, 2, b"\x00\x03")],
        "refused 5 Class Super 62\n",
    ),
    (
        "the parent is none",
        &[(62, 2, b"\x00\x00")],
        "refused 5 Class Super 62\n",
    ),
    (
        "the parent has another name",
        &[(35, 1, b"T")],
        "refused 5 Class Super 62\n",
    ),
    ("an interface", &[(64, 2, b"\x00\x01\x00\x02")], SUM),
    (
        "a field",
        &[(66, 2, b"\x00\x01\x00\x09\x00\x05\x00\x06\x00\x00")],
        SUM,
    ),
    (
        "a field twice",
        &[(
            66,
            2,
            b"\x00\x02\x00\x09\x00\x05\x00\x06\x00\x00\x00\x01\x00\x05\x00\x06\x00\x00",
        )],
        "refused 5 Class Duplicate 76\n",
    ),
    ("no method", &[(68, 32, b"\x00\x00")], ENTRY_MISSING),
    (
        "a second method",
        &[
            (68, 2, b"\x00\x02"),
            (100, 0, b"\x01\x09\x00\x01\x00\x06\x00\x00"),
        ],
        SUM,
    ),
    (
        "the method twice",
        &[TWO_METHODS, (100, 0, b"\x01\x09\x00\x05\x00\x06\x00\x00")],
        "refused 5 Class Duplicate 100\n",
    ),
    (
        "a class attribute that isn't there",
        &[(100, 2, b"\x00\x01")],
        "refused 5 Class Short 102\n",
    ),
    (
        "a class attribute that is cut",
        &[(100, 2, b"\x00\x01\x00\x01\x00\x00\x00\x02a")],
        "refused 5 Class Short 108\n",
    ),
    (
        "a class attribute named by a class",
        &[(100, 2, b"\x00\x01\x00\x02\x00\x00\x00\x00")],
        "refused 5 Class Index 102\n",
    ),
    (
        "a class attribute named by nothing",
        &[(100, 2, b"\x00\x01\x00\x00\x00\x00\x00\x00")],
        "refused 5 Class Index 102\n",
    ),
    (
        "a class attribute named from outside the pool",
        &[(100, 2, b"\x00\x01\x00\x08\x00\x00\x00\x00")],
        "refused 5 Class Index 102\n",
    ),
    (
        "one more byte",
        &[(102, 0, b"\x00")],
        "refused 5 Class Trailing 102\n",
    ),
];

/// The same: its method and its code.
static NO_METHOD: [(&str, &[Change], &str); 44] = [
    (
        "a method that isn't static",
        &[(70, 2, b"\x00\x01")],
        ENTRY_MISSING,
    ),
    ("a native method", &[(70, 2, b"\x01\x09")], ENTRY_MISSING),
    ("an abstract method", &[(70, 2, b"\x04\x09")], ENTRY_MISSING),
    (
        "a synchronized method",
        &[(70, 2, b"\x00\x29")],
        ENTRY_MISSING,
    ),
    (
        "a name that is a class",
        &[(72, 2, b"\x00\x04")],
        "refused 5 Class Index 72\n",
    ),
    (
        "a name that is none",
        &[(72, 2, b"\x00\x00")],
        "refused 5 Class Index 72\n",
    ),
    (
        "a descriptor that is a class",
        &[(74, 2, b"\x00\x04")],
        "refused 5 Class Index 74\n",
    ),
    (
        "a descriptor outside the pool",
        &[(74, 2, b"\x00\x08")],
        "refused 5 Class Index 74\n",
    ),
    ("no attribute", &[(76, 24, b"\x00\x00")], ENTRY_MISSING),
    (
        "a Code by another name",
        &[(78, 2, b"\x00\x05")],
        ENTRY_MISSING,
    ),
    (
        "a Code named by a class",
        &[(78, 2, b"\x00\x04")],
        "refused 5 Class Index 78\n",
    ),
    ("a name like Code", &[(57, 1, b"d")], ENTRY_MISSING),
    (
        "two Codes",
        &[
            (76, 2, b"\x00\x02"),
            (
                100,
                0,
                b"\x00\x07\x00\x00\x00\x10\x00\x02\x00\x02\x00\x00\x00\x04\x1a\x1b\x60\xac\x00\x00\x00\x00",
            ),
        ],
        "refused 5 Class Shape 100\n",
    ),
    (
        "a second Code that is empty",
        &[(76, 2, b"\x00\x02"), (100, 0, b"\x00\x07\x00\x00\x00\x00")],
        "refused 5 Class Shape 100\n",
    ),
    (
        "an attribute named by a class",
        &[(76, 2, b"\x00\x02"), (100, 0, b"\x00\x02\x00\x00\x00\x00")],
        "refused 5 Class Index 100\n",
    ),
    (
        "a Code one byte short",
        &[(80, 4, b"\x00\x00\x00\x0f")],
        "refused 5 Class Shape 78\n",
    ),
    (
        "a Code one byte long",
        &[(80, 4, b"\x00\x00\x00\x11"), (100, 0, b"\x00")],
        "refused 5 Class Shape 78\n",
    ),
    (
        "a Code beyond the end",
        &[(80, 4, b"\x00\x00\x00\x13")],
        "refused 5 Class Short 84\n",
    ),
    (
        "a stack that is too high",
        &[(84, 2, b"\x01\x01")],
        ENTRY_MISSING,
    ),
    (
        "a stack that is too low",
        &[(84, 2, b"\x00\x01")],
        "refused 6 Verify Depth f(II)I 1\n",
    ),
    (
        "no stack",
        &[(84, 2, b"\x00\x00")],
        "refused 6 Verify Depth f(II)I 0\n",
    ),
    ("too many locals", &[(86, 2, b"\x01\x01")], ENTRY_MISSING),
    (
        "fewer locals than parameters",
        &[(86, 2, b"\x00\x01")],
        ENTRY_MISSING,
    ),
    (
        "code that is cut",
        &[(88, 4, b"\x00\x00\x00\x03")],
        "refused 5 Class Shape 78\n",
    ),
    (
        "code that is too long",
        &[(88, 4, b"\x00\x00\x00\x05")],
        "refused 5 Class Shape 78\n",
    ),
    (
        "a handler",
        &[
            (80, 4, b"\x00\x00\x00\x18"),
            (96, 2, b"\x00\x01\x00\x00\x00\x01\x00\x02\x00\x00"),
        ],
        "refused 6 Verify Merge f(II)I 2\n",
    ),
    (
        "an attribute of the Code that isn't there",
        &[(98, 2, b"\x00\x01")],
        "refused 5 Class Shape 78\n",
    ),
    (
        "an attribute of the Code named by a class",
        &[
            (80, 4, b"\x00\x00\x00\x16"),
            (98, 2, b"\x00\x01\x00\x02\x00\x00\x00\x00"),
        ],
        "refused 5 Class Index 100\n",
    ),
    (
        "an attribute of the Code that is cut",
        &[
            (80, 4, b"\x00\x00\x00\x16"),
            (98, 2, b"\x00\x01\x00\x01\x00\x00\x00\x01"),
        ],
        "refused 5 Class Shape 78\n",
    ),
    (
        "the third parameter of two",
        &[(92, 4, b"\x1a\x1c\x60\xac")],
        "refused 6 Verify Local f(II)I 1\n",
    ),
    (
        "the fourth parameter of two",
        &[(92, 4, b"\x1d\x1b\x60\xac")],
        "refused 6 Verify Local f(II)I 0\n",
    ),
    (
        "a load of a long",
        &[(92, 4, b"\x1a\x1e\x60\xac")],
        ENTRY_MISSING,
    ),
    (
        "an instruction that does nothing",
        &[(84, 2, b"\x00\x03"), (92, 4, b"\x00\x1a\xac\x00")],
        "ok returns 5\n",
    ),
    (
        "a multiplication",
        &[(92, 4, b"\x1a\x1b\x68\xac")],
        "ok returns 15\n",
    ),
    (
        "a negation",
        &[(92, 4, b"\x03\x1a\x74\xac")],
        "ok returns -5\n",
    ),
    (
        "a null",
        &[(92, 4, b"\x01\x1b\x60\xac")],
        "refused 6 Verify Kind f(II)I 2\n",
    ),
    (
        "a long constant",
        &[(92, 4, b"\x09\x1b\x60\xac")],
        ENTRY_MISSING,
    ),
    (
        "a return of a long",
        &[(92, 4, b"\x1a\x1b\x60\xad")],
        ENTRY_MISSING,
    ),
    (
        "a sum of one operand",
        &[(92, 4, b"\x1a\x60\x1b\xac")],
        "refused 6 Verify Depth f(II)I 1\n",
    ),
    (
        "a difference of one operand",
        &[(92, 4, b"\x1a\x64\x1b\xac")],
        "refused 6 Verify Depth f(II)I 1\n",
    ),
    (
        "no return",
        &[(92, 4, b"\x1a\x1b\x60\x1b")],
        "refused 6 Verify FallOff f(II)I 3\n",
    ),
    (
        "a return of two words",
        &[(84, 2, b"\x00\x03"), (92, 4, b"\x1a\x1b\x1a\xac")],
        "ok returns 5\n",
    ),
    (
        "a return of no word",
        &[(92, 4, b"\xac\x1a\x1b\xac")],
        "refused 6 Verify Depth f(II)I 0\n",
    ),
    (
        "a byte to push that isn't there",
        &[(92, 4, b"\x1a\x1b\x60\x10")],
        "refused 5 Class Cut 95\n",
    ),
];

#[test]
fn thin_files_and_others_have_their_replies(rt: HostRuntime) -> Result<(), Fail> {
    for (what, changes) in &THIN {
        let file = changed(rt.alloc(), changes)?;
        check(&rt, what, file.as_slice(), LINE, SUM)?;
    }
    for (what, changes, reply) in NO_CLASS.iter().chain(NO_METHOD.iter()) {
        let file = changed(rt.alloc(), changes)?;
        check_other(&rt, what, file.as_slice(), reply)?;
    }
    Ok(())
}

/// Where those parts of the worked file begin that must be there whole: numbers, texts, the content of
/// the Code.
static PARTS: [usize; 37] = [
    0, 4, 6, 8, 10, 11, 13, 14, 15, 17, 18, 20, 36, 37, 39, 40, 42, 43, 44, 46, 51, 52, 54, 58, 60,
    62, 64, 66, 68, 70, 72, 74, 76, 78, 80, 84, 100,
];

#[test]
fn a_file_that_is_cut_is_short_where_the_cut_part_begins(rt: HostRuntime) -> Result<(), Fail> {
    let mut at = 0;
    for size in 0..ADDS.len() {
        if PARTS.contains(&size) {
            at = size;
        }
        let refusal = format!(in rt.alloc(); "refused 5 Class Short {at}\n")?;
        check_other(&rt, "a cut file", &ADDS[..size], refusal.as_str())?;
    }
    Ok(())
}

/// What is changed in the worked file, what is typed, and what is written: which refusal comes first.
static ORDER: [(&[Change], &str, &str); 20] = [
    // The line, the file, its fault, the type rules, the method, and then the words.
    (&[CUT], "once T.class f (II)I x 3", "refused 2 Command\n"),
    (
        &[CUT],
        "once T.class f (II)I 2147483648 3",
        "refused 13 Range\n",
    ),
    (&[CUT], "once T.class f (II)I", "refused 5 Class Cut 95\n"),
    (
        &[CUT],
        "once T.class f (II)I 5 3 1",
        "refused 5 Class Cut 95\n",
    ),
    (
        &[CUT],
        "once T.class g (II)I 5 3",
        "refused 5 Class Cut 95\n",
    ),
    (
        &[CUT],
        "once T.class f (ZZ)I 5 3",
        "refused 5 Class Cut 95\n",
    ),
    (
        &[(0, 1, b"\xcb")],
        "once T.class g (ZZ)I 5",
        "refused 5 Class Magic 0\n",
    ),
    (
        &[CUT],
        "once U.class g (ZZ)I 5",
        "refused 3 Absent U.class\n",
    ),
    (
        &[(84, 2, b"\x00\x01")],
        "once T.class g (II)I 5 3",
        "refused 6 Verify Depth f(II)I 1\n",
    ),
    (
        &[(84, 2, b"\x00\x01")],
        "once T.class f (II)I 5",
        "refused 6 Verify Depth f(II)I 1\n",
    ),
    (&[], "once T.class g (II)I 5", "refused 11 EntryMissing\n"),
    (&[], "once T.class f (II)I 5", "refused 16 Words\n"),
    (&[CUT], "class U.class", "refused 3 Absent U.class\n"),
    // A fault, and then the class that is present, of another name or of the same.
    (
        &[CUT],
        "class V.class\nclass T.class",
        "ok class V verdicts 0 segments 0\nrefused 5 Class Cut 95\n",
    ),
    (
        &[(13, 1, b"V"), CUT],
        "class V.class\nclass T.class",
        "ok class V verdicts 0 segments 0\nrefused 5 Class Cut 95\n",
    ),
    (
        &[(13, 1, b"V"), (92, 1, b"\xba")],
        "class V.class\nclass T.class",
        "ok class V verdicts 0 segments 0\nrefused 90 NotBuilt\n",
    ),
    (
        &[(13, 1, b"V")],
        "class V.class\nclass T.class",
        "ok class V verdicts 0 segments 0\nrefused 7 Known V\n",
    ),
    (
        &[],
        "class V.class\nclass T.class",
        "ok class V verdicts 0 segments 0\nrefused 90 NotBuilt\n",
    ),
    // What is refused is not added, and keeps nothing out.
    (
        &[CUT],
        "class T.class\nentry T f (II)I",
        "refused 5 Class Cut 95\nrefused 8 Unknown T\n",
    ),
    (
        &[CUT],
        "class T.class\nclass V.class\nonce V.class f (II)I 5 3",
        "refused 5 Class Cut 95\nok class V verdicts 0 segments 0\nok returns 8\n",
    ),
];

#[test]
fn a_fault_comes_before_what_does_not_fit(rt: HostRuntime) -> Result<(), Fail> {
    for (changes, input, want) in &ORDER {
        let file = changed(rt.alloc(), changes)?;
        check(&rt, input, file.as_slice(), input.as_bytes(), want)?;
    }
    Ok(())
}

/// The throwables of java.lang that the machine knows, and the place of the superclass in a class of that
/// name.
static THROWABLES: [(&str, u64); 12] = [
    ("java/lang/Throwable", 80),
    ("java/lang/Exception", 80),
    ("java/lang/Error", 76),
    ("java/lang/RuntimeException", 87),
    ("java/lang/ArithmeticException", 90),
    ("java/lang/IndexOutOfBoundsException", 96),
    ("java/lang/NegativeArraySizeException", 97),
    ("java/lang/NullPointerException", 91),
    ("java/lang/IllegalArgumentException", 95),
    ("java/lang/IllegalStateException", 92),
    ("java/lang/UnsupportedOperationException", 100),
    ("java/lang/ArrayIndexOutOfBoundsException", 101),
];

/// The worked file with a class of this name, of at most 255 bytes.
fn named(alloc: Global, name: &str) -> Result<Vec<u8>, AllocError> {
    let mut file = Vec::from_slice(alloc, &ADDS[..12])?;
    file.push((name.len() % 256) as u8)?;
    file.extend_from_slice(name.as_bytes())?;
    file.extend_from_slice(&ADDS[14..])?;
    Ok(file)
}

#[test]
fn a_class_is_no_throwable(rt: HostRuntime) -> Result<(), Fail> {
    for (name, at) in &THROWABLES {
        let file = named(rt.alloc(), name)?;
        let refusal = format!(in rt.alloc(); "refused 5 Class Super {at}\n")?;
        check_other(&rt, name, file.as_slice(), refusal.as_str())?;
    }
    for name in [
        "java/lang/ClassCastException",
        "java/lang/Errors",
        "Error",
        "",
    ] {
        let file = named(rt.alloc(), name)?;
        check(&rt, name, file.as_slice(), LINE, SUM)?;
    }
    Ok(())
}

#[test]
fn files_have_at_most_a_mebibyte(rt: HostRuntime) -> Result<(), Fail> {
    for (size, want) in [
        (
            1_048_576,
            "ok returns 8\nok class T verdicts 0 segments 0\n",
        ),
        (
            1_048_577,
            "refused 4 TooLong T.class\nrefused 4 TooLong T.class\n",
        ),
    ] {
        let file = lengthened(rt.alloc(), size - 108)?;
        assert_eq!(rt; file.len(), size);
        check(&rt, "a long file", file.as_slice(), BOTH, want)?;
    }
    Ok(())
}
