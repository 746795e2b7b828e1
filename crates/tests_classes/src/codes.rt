//! The code of class files: its first fault where it is looked at, and what code returns. The expected
//! faults were worked out by hand, each with its place.

use crate::classes::{CUT, TWO_METHODS};
use crate::running::{ENTRY_MISSING, check, check_other};
use std::alloc::{AllocError, Global};
use std::test::Fail;
use tests_devices::{Change, changed, line_for, thin};

/// A second method, named T, whose code is such a push and has the place 122.
const CUT_METHOD: Change = (
    100,
    0,
    b"\x00\x09\x00\x01\x00\x06\x00\x01\x00\x07\x00\x00\x00\x0d\x00\x01\x00\x02\x00\x00\x00\x01\x10\x00\x00\x00\x00",
);

/// What is changed in the worked file, and the reply: codes at fault, codes that are foreign, and codes at
/// fault that aren't looked at.
static NO_CODE: [(&str, &[Change], &str); 30] = [
    (
        "a branch behind the code",
        &[(92, 4, b"\x99\x00\x04\xac")],
        "refused 5 Class Target 92\n",
    ),
    (
        "a handler behind the code",
        &[
            (80, 4, b"\x00\x00\x00\x18"),
            (96, 2, b"\x00\x01\x00\x00\x00\x01\x00\x04\x00\x00"),
        ],
        "refused 5 Class Target 98\n",
    ),
    (
        "a switch over the keys from 1 to 0",
        &[
            (80, 4, b"\x00\x00\x00\x1c"),
            (
                88,
                8,
                b"\x00\x00\x00\x10\xaa\x00\x00\x00\x00\x00\x00\x00\x00\x00\x00\x01\x00\x00\x00\x00",
            ),
        ],
        "refused 5 Class Switch 92\n",
    ),
    (
        "a switch over -1 keys",
        &[
            (80, 4, b"\x00\x00\x00\x18"),
            (
                88,
                8,
                b"\x00\x00\x00\x0c\xab\x00\x00\x00\x00\x00\x00\x00\xff\xff\xff\xff",
            ),
        ],
        "refused 5 Class Switch 92\n",
    ),
    ("a push that is cut", &[CUT], "refused 5 Class Cut 95\n"),
    // A fault of the class comes first, and then the methods in their order.
    (
        "a push that is cut, and one more byte",
        &[CUT, (102, 0, b"\x00")],
        "refused 5 Class Trailing 102\n",
    ),
    (
        "a push that is cut in the second method",
        &[TWO_METHODS, CUT_METHOD],
        "refused 5 Class Cut 122\n",
    ),
    (
        "one in each method",
        &[TWO_METHODS, CUT, CUT_METHOD],
        "refused 5 Class Cut 95\n",
    ),
    (
        "a branch behind the code in the first, and a push that is cut in the second",
        &[TWO_METHODS, (92, 4, b"\x99\x00\x04\xac"), CUT_METHOD],
        "refused 5 Class Target 92\n",
    ),
    // In a code the instructions come first, and then their targets.
    (
        "a branch behind the code, and then a push that is cut",
        &[(92, 4, b"\x99\x00\x04\x10")],
        "refused 5 Class Cut 95\n",
    ),
    (
        "a branch behind the code, and then a foreign opcode",
        &[(92, 4, b"\x99\x00\x04\xba")],
        ENTRY_MISSING,
    ),
    // A foreign method has no fault, and hides none of another method.
    ("a foreign opcode", &[(92, 1, b"\xba")], ENTRY_MISSING),
    (
        "a foreign opcode, and then a push that is cut",
        &[(92, 1, b"\xba"), CUT],
        ENTRY_MISSING,
    ),
    (
        "a push that is cut behind a foreign method",
        &[TWO_METHODS, (92, 1, b"\xba"), CUT_METHOD],
        "refused 5 Class Cut 122\n",
    ),
    // The widest frame, and types of each kind: the code is looked at.
    (
        "a push that is cut, and the highest stack",
        &[(84, 2, b"\x01\x00"), CUT],
        "refused 5 Class Cut 95\n",
    ),
    (
        "a push that is cut, and the most locals",
        &[(86, 2, b"\x01\x00"), CUT],
        "refused 5 Class Cut 95\n",
    ),
    (
        "a push that is cut, an array and no result",
        &[(46, 5, b"([I)V"), CUT],
        "refused 5 Class Cut 95\n",
    ),
    (
        "a push that is cut, and an array as result",
        &[(46, 5, b"(Z)[I"), CUT],
        "refused 5 Class Cut 95\n",
    ),
    (
        "a push that is cut, and small ints",
        &[(46, 5, b"(BC)S"), CUT],
        "refused 5 Class Cut 95\n",
    ),
    // What isn't so has a code that isn't looked at.
    (
        "a push that is cut, not static",
        &[(70, 2, b"\x00\x01"), CUT],
        ENTRY_MISSING,
    ),
    (
        "a push that is cut, native",
        &[(70, 2, b"\x01\x09"), CUT],
        ENTRY_MISSING,
    ),
    (
        "a push that is cut, abstract",
        &[(70, 2, b"\x04\x09"), CUT],
        ENTRY_MISSING,
    ),
    (
        "a push that is cut, synchronized",
        &[(70, 2, b"\x00\x29"), CUT],
        ENTRY_MISSING,
    ),
    (
        "a push that is cut, and a stack that is too high",
        &[(84, 2, b"\x01\x01"), CUT],
        ENTRY_MISSING,
    ),
    (
        "a push that is cut, and too many locals",
        &[(86, 2, b"\x01\x01"), CUT],
        ENTRY_MISSING,
    ),
    (
        "a push that is cut, and fewer locals than parameters",
        &[(86, 2, b"\x00\x01"), CUT],
        ENTRY_MISSING,
    ),
    (
        "a push that is cut, and a long to take",
        &[(46, 5, b"(JI)I"), CUT],
        ENTRY_MISSING,
    ),
    (
        "a push that is cut, and a long to return",
        &[(46, 5, b"(II)J"), CUT],
        ENTRY_MISSING,
    ),
    (
        "a push that is cut, and a parameter of no type",
        &[(46, 5, b"(VI)I"), CUT],
        ENTRY_MISSING,
    ),
    (
        "a push that is cut, and no descriptor of a method",
        &[(46, 5, b"III)I"), CUT],
        ENTRY_MISSING,
    ),
];

#[test]
fn codes_at_fault_are_refused_where_they_are_looked_at(rt: HostRuntime) -> Result<(), Fail> {
    for (what, changes, reply) in &NO_CODE {
        let file = changed(rt.alloc(), changes)?;
        check_other(&rt, what, file.as_slice(), reply)?;
    }
    Ok(())
}

/// Descriptors, the highest stack, the number of locals, code, the words, and how the reply begins.
static CODES: [(&str, usize, usize, &[u8], &str, &str); 37] = [
    ("(II)I", 2, 2, b"\x1a\x1b\x64\xac", " 5 3", "ok returns 2\n"),
    (
        "(II)I",
        2,
        2,
        b"\x1b\x1a\x64\xac",
        " 5 3",
        "ok returns -2\n",
    ),
    (
        "(II)I",
        2,
        2,
        b"\x1a\x1b\x64\xac",
        " -2147483648 1",
        "ok returns 2147483647\n",
    ),
    (
        "(II)I",
        2,
        2,
        b"\x1a\x1b\x64\xac",
        " 0 -2147483648",
        "ok returns -2147483648\n",
    ),
    (
        "(II)I",
        2,
        2,
        b"\x1a\x1a\x60\xac",
        " 7 3",
        "ok returns 14\n",
    ),
    ("(II)I", 1, 2, b"\x1b\xac", " 7 3", "ok returns 3\n"),
    (
        "(III)I",
        3,
        3,
        b"\x1a\x1b\x1c\x64\x64\xac",
        " 10 4 1",
        "ok returns 7\n",
    ),
    (
        "(III)I",
        2,
        3,
        b"\x1a\x1b\x64\x1c\x64\xac",
        " 10 4 1",
        "ok returns 5\n",
    ),
    ("(IIII)I", 1, 4, b"\x1d\xac", " 1 2 3 4", "ok returns 4\n"),
    (
        "(IIII)I",
        4,
        4,
        b"\x1a\x1b\x1c\x1d\x64\x64\x64\xac",
        " 1 20 300 4000",
        "ok returns -3719\n",
    ),
    (
        "(I)I",
        1,
        1,
        b"\x1a\xac",
        " -2147483648",
        "ok returns -2147483648\n",
    ),
    (
        "(I)I",
        1,
        1,
        b"\x1b\xac",
        " 1",
        "refused 6 Verify Local f(I)I 0\n",
    ),
    ("(I)I", 1, 0, b"\x1a\xac", " 1", ENTRY_MISSING),
    (
        "(I)I",
        1,
        2,
        b"\x1b\xac",
        " 1",
        "refused 6 Verify Local f(I)I 0\n",
    ),
    ("()I", 1, 0, b"\x02\xac", "", "ok returns -1\n"),
    ("()I", 1, 0, b"\x03\xac", "", "ok returns 0\n"),
    ("()I", 1, 0, b"\x04\xac", "", "ok returns 1\n"),
    ("()I", 1, 0, b"\x05\xac", "", "ok returns 2\n"),
    ("()I", 1, 0, b"\x06\xac", "", "ok returns 3\n"),
    ("()I", 1, 0, b"\x07\xac", "", "ok returns 4\n"),
    ("()I", 1, 0, b"\x08\xac", "", "ok returns 5\n"),
    ("()I", 1, 0, b"\x10\x80\xac", "", "ok returns -128\n"),
    ("()I", 1, 0, b"\x10\x7f\xac", "", "ok returns 127\n"),
    ("()I", 1, 0, b"\x10\xac\xac", "", "ok returns -84\n"),
    (
        "()I",
        0,
        0,
        b"\x03\xac",
        "",
        "refused 6 Verify Depth f()I 0\n",
    ),
    (
        "()I",
        1,
        0,
        b"\x1a\xac",
        "",
        "refused 6 Verify Local f()I 0\n",
    ),
    ("()I", 1, 0, b"\xac", "", "refused 6 Verify Depth f()I 0\n"),
    ("()I", 1, 0, b"", "", "refused 5 Class Shape 76\n"),
    (
        "()I",
        1,
        0,
        b"\x03\x10\xac",
        "",
        "refused 6 Verify Depth f()I 1\n",
    ),
    (
        "(IIIII)I",
        1,
        5,
        b"\x1a\xac",
        " 1 2 3 4 5",
        "ok returns 1\n",
    ),
    (
        "(II)V",
        1,
        2,
        b"\x1a\xac",
        " 1 2",
        "refused 6 Verify Return f(II)V 1\n",
    ),
    ("(II)J", 1, 2, b"\x1a\xac", " 1 2", ENTRY_MISSING),
    ("(IZ)I", 1, 2, b"\x1a\xac", " 5 0", "ok returns 5\n"),
    ("(II)I", 1, 2, b"\x1a\xac\x1b\xac", " 5 3", "ok returns 5\n"),
    (
        "([I)I",
        1,
        1,
        b"\x1a\xac",
        " 1",
        "refused 6 Verify Kind f([I)I 0\n",
    ),
    ("I", 1, 1, b"\x03\xac", "", ENTRY_MISSING),
    ("(I)II", 1, 1, b"\x1a\xac", " 1", ENTRY_MISSING),
];

#[test]
fn code_runs(rt: HostRuntime) -> Result<(), Fail> {
    for (descriptor, max_stack, max_locals, code, words, want) in &CODES {
        let file = thin(
            rt.alloc(),
            descriptor.as_bytes(),
            *max_stack,
            *max_locals,
            code,
        )?;
        let line = line_for(rt.alloc(), descriptor, words)?;
        check(&rt, line.as_str(), file.as_slice(), line.as_bytes(), want)?;
    }
    Ok(())
}

/// Code that adds 1 so often to its parameter, the first time 0 by a byte to push if that is wanted.
fn long_code(alloc: Global, is_odd: bool, count: u32) -> Result<Vec<u8>, AllocError> {
    let mut code = Vec::from_slice(alloc, &[0x1a])?;
    if is_odd {
        code.extend_from_slice(&[0x10, 0, 0x60])?;
    }
    for _ in 0..count {
        code.extend_from_slice(&[0x04, 0x60])?;
    }
    code.push(0xac)?;
    Ok(code)
}

#[test]
fn a_segment_has_at_most_20000_instructions(rt: HostRuntime) -> Result<(), Fail> {
    let cases = [
        (true, 9_997, 19_999, "ok returns 9998\n"),
        (false, 9_999, 20_000, "ok returns 10000\n"),
        (true, 9_998, 20_001, "ok returns 9999\n"),
        (false, 10_000, 20_002, "ok runaway\n"),
    ];
    for (is_odd, count, size, want) in cases {
        let code = long_code(rt.alloc(), is_odd, count)?;
        assert_eq!(rt; code.len(), size);
        let file = thin(rt.alloc(), b"(I)I", 2, 1, code.as_slice())?;
        check(
            &rt,
            "long code",
            file.as_slice(),
            b"once T.class f (I)I 1",
            want,
        )?;
    }
    Ok(())
}
