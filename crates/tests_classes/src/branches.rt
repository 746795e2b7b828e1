//! Branches: the choices of paths and how they end, which files with branches are thin, and which words
//! a method takes. The expected choices were worked out by hand: at a test that a parameter entered, 0
//! where it falls through and 1 where it branches.

use crate::running::{ENTRY_MISSING, WORDS_REFUSED, check};
use ms_classfile::read_thin;
use ms_command::end_text;
use ms_jvm::path_of;
use ms_words::Input;
use std::alloc::{AllocError, Global};
use std::fmt::Write;
use std::process::Abort;
use std::test::Fail;
use tests_devices::{line_for, thin};

/// Words as a line has them, each behind a space.
fn words_text(alloc: Global, words: &[i32]) -> Result<String, AllocError> {
    let mut text = String::new(alloc);
    for word in words {
        write!(text, " {word}")?;
    }
    Ok(text)
}

/// That the path of these words to this depth, at most 256, has these choices and this end, and that `once`
/// gives the same end, if the depth is its own. The method has eight locals and a stack of four.
fn check_path(
    rt: &(impl Abort + AllocGlobal),
    descriptor: &str,
    code: &[u8],
    words: &[i32],
    depth: u16,
    arms: &[u16],
    end: &str,
) -> Result<(), AllocError> {
    let file = thin(rt.alloc(), descriptor.as_bytes(), 4, 8, code)?;
    let Some(method) = read_thin(rt.alloc(), file.as_slice())? else {
        panic!(rt; "{code:?} is not thin");
    };
    let Some(input) = Input::of(method.kinds, words) else {
        panic!(rt; "{words:?} are no words of {descriptor}");
    };
    let depth = depth.min(256);
    let path = path_of(rt.alloc(), &method, &input, depth)?;
    assert_eq!(rt;
        path.choices.arms(),
        arms,
        "{code:?} at {words:?} to {depth}"
    );
    let text = end_text(rt.alloc(), &[], &path.end)?;
    assert_eq!(rt;
        text.bytes(),
        end.as_bytes(),
        "{code:?} at {words:?} to {depth}"
    );
    if depth == 256 {
        let line = line_for(
            rt.alloc(),
            descriptor,
            words_text(rt.alloc(), words)?.as_str(),
        )?;
        let want = format!(in rt.alloc(); "ok {end}\n")?;
        check(
            rt,
            line.as_str(),
            file.as_slice(),
            line.as_bytes(),
            want.as_str(),
        )?;
    }
    Ok(())
}

/// Of (ZI)I: 11 or 22 where the first parameter is true, by whether the second is at least 0, and else
/// 33 or 44, by whether it is above 0.
///
///      0: iload_0        8: bipush 11     14: iload_1       21: bipush 44
///      1: ifeq 14       10: ireturn       15: ifle 21       23: ireturn
///      4: iload_1       11: bipush 22     18: bipush 33
///      5: iflt 11       13: ireturn       20: ireturn
const NESTED: &[u8] =
    b"\x1a\x99\x00\x0d\x1b\x9b\x00\x06\x10\x0b\xac\x10\x16\xac\x1b\x9e\x00\x06\x10\x21\xac\x10\x2c\xac";

/// Of (II)I: whether the first parameter is below 0, asked before and behind the same of the second.
///
///      0: iload_0        5: iflt 8        12: iconst_0
///      1: iflt 4         8: iload_0       13: ireturn
///      4: iload_1        9: iflt 14       14: iconst_1, 15: ireturn
const AGAIN: &[u8] = b"\x1a\x9b\x00\x03\x1b\x9b\x00\x03\x1a\x9b\x00\x05\x03\xac\x04\xac";

/// Of (I)I: a test of 0 and 1, which is no choice and branches, and then whether the parameter is 0.
///
///      0: iconst_0       5: iconst_0       8: ifeq 13       13: iconst_3
///      1: iconst_1       6: ireturn       11: iconst_2       14: ireturn
///      2: if_icmplt 7    7: iload_0       12: ireturn
const KNOWN_FIRST: &[u8] = b"\x03\x04\xa1\x00\x05\x03\xac\x1a\x99\x00\x05\x05\xac\x06\xac";

/// Of (IIIIIIZZ)I: the fifth parameter where the eighth is false, and else the sixth less the seventh.
///
///      0: iload 7        5: iload 4        8: iload 5       12: isub
///      2: ifne 8         7: ireturn       10: iload 6       13: ireturn
const EIGHT: &[u8] = b"\x15\x07\x9a\x00\x06\x15\x04\xac\x15\x05\x15\x06\x64\xac";

/// Of (I)I: a branch over two returns.
///
///      0: iload_0        4: iconst_1       6: iconst_2       8: iconst_3
///      1: ifeq 8         5: ireturn        7: ireturn        9: ireturn
const OVER_RETURNS: &[u8] = b"\x1a\x99\x00\x07\x04\xac\x05\xac\x06\xac";

/// Of (II)I: two branches to one target.
///
///      0: iload_0        4: iload_1        8: iconst_1      10: iconst_2
///      1: ifeq 10        5: ifeq 10        9: ireturn       11: ireturn
const TWO_TO_ONE: &[u8] = b"\x1a\x99\x00\x09\x1b\x99\x00\x05\x04\xac\x05\xac";

/// Descriptors, code, words, depths, choices and ends.
static PATHS: [(&str, &[u8], &[i32], u16, &[u16], &str); 46] = [
    ("(ZI)I", NESTED, &[1, 5], 256, &[0, 0], "returns 11"),
    ("(ZI)I", NESTED, &[1, 0], 256, &[0, 0], "returns 11"),
    ("(ZI)I", NESTED, &[1, -1], 256, &[0, 1], "returns 22"),
    ("(ZI)I", NESTED, &[0, 1], 256, &[1, 0], "returns 33"),
    ("(ZI)I", NESTED, &[0, 0], 256, &[1, 1], "returns 44"),
    ("(ZI)I", NESTED, &[0, -1], 256, &[1, 1], "returns 44"),
    // Below, at and above the number of choices. A path is cut where one more choice is due.
    ("(ZI)I", NESTED, &[1, -1], 0, &[], "cut"),
    ("(ZI)I", NESTED, &[1, -1], 1, &[0], "cut"),
    ("(ZI)I", NESTED, &[1, -1], 2, &[0, 1], "returns 22"),
    ("(ZI)I", NESTED, &[1, -1], 3, &[0, 1], "returns 22"),
    ("(ZI)I", NESTED, &[0, 1], 1, &[1], "cut"),
    // The same test is a choice each time.
    ("(II)I", AGAIN, &[-1, 0], 256, &[1, 0, 1], "returns 1"),
    ("(II)I", AGAIN, &[0, -1], 256, &[0, 1, 0], "returns 0"),
    ("(II)I", AGAIN, &[-1, -1], 256, &[1, 1, 1], "returns 1"),
    ("(II)I", AGAIN, &[0, 0], 256, &[0, 0, 0], "returns 0"),
    ("(II)I", AGAIN, &[-1, 0], 2, &[1, 0], "cut"),
    ("(II)I", AGAIN, &[-1, 0], 3, &[1, 0, 1], "returns 1"),
    // A test of constants alone is no choice, whichever way it goes: iconst_5 and ifne, iconst_5 and
    // ifeq, the sum of bipush -5 and iconst_5 and ifeq, bipush -128 and bipush 127 and if_icmpge.
    (
        "()I",
        b"\x08\x9a\x00\x05\x03\xac\x04\xac",
        &[],
        256,
        &[],
        "returns 1",
    ),
    (
        "()I",
        b"\x08\x99\x00\x05\x03\xac\x04\xac",
        &[],
        0,
        &[],
        "returns 0",
    ),
    (
        "()I",
        b"\x10\xfb\x08\x60\x99\x00\x05\x03\xac\x04\xac",
        &[],
        0,
        &[],
        "returns 1",
    ),
    (
        "()I",
        b"\x10\x80\x10\x7f\xa2\x00\x05\x03\xac\x04\xac",
        &[],
        0,
        &[],
        "returns 0",
    ),
    ("(I)I", KNOWN_FIRST, &[0], 256, &[1], "returns 3"),
    ("(I)I", KNOWN_FIRST, &[9], 256, &[0], "returns 2"),
    ("(I)I", KNOWN_FIRST, &[9], 1, &[0], "returns 2"),
    ("(I)I", KNOWN_FIRST, &[9], 0, &[], "cut"),
    // A test that a parameter entered is one, also beside a constant, and where the outcome is plain: the
    // parameter less itself.
    (
        "(I)I",
        b"\x1a\x10\x64\xa2\x00\x05\x03\xac\x04\xac",
        &[100],
        256,
        &[1],
        "returns 1",
    ),
    (
        "(I)I",
        b"\x1a\x10\x64\xa2\x00\x05\x03\xac\x04\xac",
        &[99],
        256,
        &[0],
        "returns 0",
    ),
    (
        "(I)I",
        b"\x10\x64\x1a\xa2\x00\x05\x03\xac\x04\xac",
        &[99],
        256,
        &[1],
        "returns 1",
    ),
    (
        "(I)I",
        b"\x1a\x1a\x64\x9a\x00\x05\x03\xac\x04\xac",
        &[7],
        256,
        &[0],
        "returns 0",
    ),
    (
        "(I)I",
        b"\x1a\x1a\x64\x9a\x00\x05\x03\xac\x04\xac",
        &[7],
        0,
        &[],
        "cut",
    ),
    // The sum of two parameters, reduced to a word.
    (
        "(II)I",
        b"\x1a\x1b\x60\x9b\x00\x05\x03\xac\x04\xac",
        &[2_147_483_647, 1],
        256,
        &[1],
        "returns 1",
    ),
    // A result of kind Z is the word that was returned.
    ("(I)Z", b"\x1a\xac", &[2], 256, &[], "returns 2"),
    ("(I)Z", b"\x1a\xac", &[-1], 0, &[], "returns -1"),
    (
        "(Z)Z",
        b"\x1a\x99\x00\x05\x05\xac\x1a\xac",
        &[1],
        256,
        &[0],
        "returns 2",
    ),
    (
        "(Z)Z",
        b"\x1a\x99\x00\x05\x05\xac\x1a\xac",
        &[0],
        256,
        &[1],
        "returns 0",
    ),
    // Eight parameters.
    (
        "(IIIIIIZZ)I",
        EIGHT,
        &[1, 2, 3, 4, 50, 60, 1, 0],
        256,
        &[0],
        "returns 50",
    ),
    (
        "(IIIIIIZZ)I",
        EIGHT,
        &[1, 2, 3, 4, 50, 60, 1, 1],
        256,
        &[1],
        "returns 59",
    ),
    (
        "(IIIIIIII)I",
        b"\x15\x04\x15\x05\x64\x15\x06\x64\x15\x07\x64\xac",
        &[1, 2, 3, 4, 100, 20, 3, 1],
        0,
        &[],
        "returns 76",
    ),
    (
        "(IIII)I",
        b"\x15\x00\x15\x03\x64\xac",
        &[1, 2, 3, 4],
        0,
        &[],
        "returns -3",
    ),
    // A branch over two returns, one to the next instruction, and two to one target.
    ("(I)I", OVER_RETURNS, &[0], 256, &[1], "returns 3"),
    ("(I)I", OVER_RETURNS, &[1], 256, &[0], "returns 1"),
    (
        "(I)I",
        b"\x1a\x99\x00\x03\x1a\xac",
        &[0],
        256,
        &[1],
        "returns 0",
    ),
    (
        "(I)I",
        b"\x1a\x99\x00\x03\x1a\xac",
        &[8],
        256,
        &[0],
        "returns 8",
    ),
    ("(II)I", TWO_TO_ONE, &[0, 0], 256, &[1], "returns 2"),
    ("(II)I", TWO_TO_ONE, &[1, 0], 256, &[0, 1], "returns 2"),
    ("(II)I", TWO_TO_ONE, &[1, 1], 256, &[0, 0], "returns 1"),
];

#[test]
fn paths_have_their_choices_and_ends(rt: HostRuntime) -> Result<(), Fail> {
    for (descriptor, code, words, depth, arms, end) in &PATHS {
        check_path(&rt, descriptor, code, words, *depth, arms, end)?;
    }
    Ok(())
}

/// Opcodes of branches, words at which they branch, and words at which they don't. Those from 153 to
/// 158 test the first word against 0, and those from 159 the first against the second.
static CONDITIONS: [(u8, [i32; 2], [i32; 2]); 12] = [
    (153, [0, 5], [-1, 0]),
    (154, [-2_147_483_648, 0], [0, 5]),
    (155, [-1, -1], [0, 5]),
    (156, [0, 5], [-1, -1]),
    (157, [1, 5], [0, -1]),
    (158, [0, -1], [1, 5]),
    (159, [5, 5], [5, -5]),
    (160, [5, -5], [5, 5]),
    (161, [-2_147_483_648, 2_147_483_647], [3, 3]),
    (162, [3, 3], [-2_147_483_648, 2_147_483_647]),
    (163, [2_147_483_647, -2_147_483_648], [3, 3]),
    (164, [3, 3], [2_147_483_647, -2_147_483_648]),
];

#[test]
fn each_condition_branches_and_falls_through(rt: HostRuntime) -> Result<(), Fail> {
    for (opcode, taken, passed) in &CONDITIONS {
        let one = [0x1a, *opcode, 0, 5, 0x03, 0xac, 0x04, 0xac];
        let two = [0x1a, 0x1b, *opcode, 0, 5, 0x03, 0xac, 0x04, 0xac];
        let code: &[u8] = if *opcode < 159 { &one } else { &two };
        check_path(&rt, "(II)I", code, taken, 256, &[1], "returns 1")?;
        check_path(&rt, "(II)I", code, passed, 256, &[0], "returns 0")?;
    }
    Ok(())
}

/// Code that asks whether its parameter is below 0, below 1 and so on, up to below 19, and returns it.
fn twenty_tests(alloc: Global) -> Result<Vec<u8>, AllocError> {
    let mut code = Vec::new(alloc);
    for number in 0..20 {
        code.extend_from_slice(&[0x1a, 0x10, number, 0xa1, 0, 3])?;
    }
    code.extend_from_slice(&[0x1a, 0xac])?;
    Ok(code)
}

/// Code that asks so often whether its parameter is 0, and returns it.
fn tests_of_zero(alloc: Global, count: u32) -> Result<Vec<u8>, AllocError> {
    let mut code = Vec::new(alloc);
    for _ in 0..count {
        code.extend_from_slice(&[0x1a, 0x99, 0, 3])?;
    }
    code.extend_from_slice(&[0x1a, 0xac])?;
    Ok(code)
}

/// The choices at 7: it isn't below 0 to 7, and it is below 8 to 19.
const AT_SEVEN: [u16; 20] = [0, 0, 0, 0, 0, 0, 0, 0, 1, 1, 1, 1, 1, 1, 1, 1, 1, 1, 1, 1];

#[test]
fn paths_have_many_choices(rt: HostRuntime) -> Result<(), Fail> {
    let code = twenty_tests(rt.alloc())?;
    let code = code.as_slice();
    for (depth, end) in [
        (15, "cut"),
        (16, "cut"),
        (17, "cut"),
        (19, "cut"),
        (20, "returns 7"),
        (21, "returns 7"),
        (256, "returns 7"),
    ] {
        let most = usize::from(depth).min(20);
        check_path(&rt, "(I)I", code, &[7], depth, &AT_SEVEN[..most], end)?;
    }
    for (count, end) in [
        (255, "returns 0"),
        (256, "returns 0"),
        (257, "cut"),
        (300, "cut"),
    ] {
        let code = tests_of_zero(rt.alloc(), count)?;
        let most = (count as usize).min(256);
        check_path(
            &rt,
            "(I)I",
            code.as_slice(),
            &[0],
            256,
            &[1; 256][..most],
            end,
        )?;
    }
    Ok(())
}

#[test]
fn once_has_at_most_256_choices(rt: HostRuntime) -> Result<(), Fail> {
    for (count, words, want) in [
        (255, " 0", "ok returns 0\n"),
        (256, " 0", "ok returns 0\n"),
        (256, " -7", "ok returns -7\n"),
        (257, " 0", "ok cut\n"),
        (300, " 0", "ok cut\n"),
        (300, " 5", "ok cut\n"),
    ] {
        let code = tests_of_zero(rt.alloc(), count)?;
        let file = thin(rt.alloc(), b"(I)I", 1, 1, code.as_slice())?;
        let line = line_for(rt.alloc(), "(I)I", words)?;
        check(&rt, line.as_str(), file.as_slice(), line.as_bytes(), want)?;
    }
    Ok(())
}

/// Descriptors of methods that return their first parameter, words, and the reply.
static WORDS: [(&str, &str, &str); 19] = [
    ("(Z)I", " 0", "ok returns 0\n"),
    ("(Z)I", " 1", "ok returns 1\n"),
    ("(Z)I", " 2", WORDS_REFUSED),
    ("(Z)I", " -1", WORDS_REFUSED),
    ("(Z)I", " 2147483647", WORDS_REFUSED),
    ("(Z)I", " 2147483648", "refused 13 Range\n"),
    ("(Z)I", "", WORDS_REFUSED),
    ("(Z)I", " 0 0", WORDS_REFUSED),
    ("(ZZ)I", " 1 1", "ok returns 1\n"),
    ("(ZZ)I", " 1 2", WORDS_REFUSED),
    ("(ZZ)I", " 2 1", WORDS_REFUSED),
    ("(IZ)I", " 2 1", "ok returns 2\n"),
    ("(IZ)I", " 1 2", WORDS_REFUSED),
    ("(IZ)I", " 1 -1", WORDS_REFUSED),
    ("(ZI)I", " 1 -2147483648", "ok returns 1\n"),
    ("(ZI)I", " -1 1", WORDS_REFUSED),
    ("(I)Z", " 2", "ok returns 2\n"),
    ("(ZZZZZZZZ)Z", " 1 0 0 0 0 0 0 1", "ok returns 1\n"),
    ("(ZZZZZZZZ)Z", " 1 0 0 0 0 0 0 2", WORDS_REFUSED),
];

#[test]
fn words_are_of_their_kinds(rt: HostRuntime) -> Result<(), Fail> {
    for (descriptor, words, want) in &WORDS {
        let file = thin(rt.alloc(), descriptor.as_bytes(), 1, 8, b"\x1a\xac")?;
        let line = line_for(rt.alloc(), descriptor, words)?;
        check(&rt, line.as_str(), file.as_slice(), line.as_bytes(), want)?;
    }
    Ok(())
}

/// Code of a method of (I)I that branches ahead, and the reply at the word 1. It has a stack of three.
static CODES: [(&[u8], &str); 8] = [
    // iload_0, ifeq 6, iconst_0, ireturn, 6: iconst_1, ireturn
    (b"\x1a\x99\x00\x05\x03\xac\x04\xac", "ok returns 0\n"),
    // The next instruction is the target.
    (b"\x1a\x99\x00\x03\x03\xac\x04\xac", "ok returns 0\n"),
    // The target is bipush 4.
    (b"\x1a\x9a\x00\x05\x03\xac\x10\x04\xac", "ok returns 4\n"),
    // The target is iload 0.
    (b"\x1a\x9a\x00\x05\x03\xac\x15\x00\xac", "ok returns 1\n"),
    // iload_0, ifne 6, iconst_0, ireturn, 6: iload_0, ifne 10, 10: iconst_2, ireturn
    (
        b"\x1a\x9a\x00\x05\x03\xac\x1a\x9a\x00\x03\x05\xac",
        "ok returns 2\n",
    ),
    // iload_0, iload_0, if_icmpeq 7, iconst_0, ireturn, 7: iconst_1, ireturn
    (b"\x1a\x1a\x9f\x00\x05\x03\xac\x04\xac", "ok returns 1\n"),
    // Two returns.
    (b"\x1a\xac\x03\xac", "ok returns 1\n"),
    (b"\x15\x00\xac", "ok returns 1\n"),
];

/// Other code of the same method, and the reply at the word 1. The code has the place 91.
static OTHER_CODES: [(&str, &[u8], &str); 30] = [
    (
        "back to the start",
        b"\x1a\x99\xff\xff\x03\xac\x04\xac",
        "ok returns 0\n",
    ),
    (
        "far back",
        b"\x1a\x99\x80\x00\x03\xac\x04\xac",
        "refused 5 Class Target 92\n",
    ),
    (
        "to itself",
        b"\x1a\x99\x00\x00\x03\xac\x04\xac",
        "refused 6 Verify Merge f(I)I 1\n",
    ),
    (
        "into itself",
        b"\x1a\x99\x00\x02\x03\xac\x04\xac",
        "refused 5 Class Target 92\n",
    ),
    (
        "behind the code",
        b"\x1a\x99\x00\x07\x03\xac\x04\xac",
        "refused 5 Class Target 92\n",
    ),
    (
        "far behind the code",
        b"\x1a\x99\x7f\xff\x03\xac\x04\xac",
        "refused 5 Class Target 92\n",
    ),
    (
        "to a stack of one",
        b"\x1a\x99\x00\x06\x03\xac\x04\xac",
        "refused 6 Verify Depth f(I)I 7\n",
    ),
    (
        "into a push",
        b"\x1a\x99\x00\x06\x03\xac\x10\x04\xac",
        "refused 5 Class Target 92\n",
    ),
    (
        "into a load",
        b"\x1a\x99\x00\x06\x03\xac\x15\x00\xac",
        "refused 5 Class Target 92\n",
    ),
    (
        "into a branch",
        b"\x1a\x99\x00\x07\x03\xac\x1a\x99\x00\x03\x04\xac",
        "refused 5 Class Target 92\n",
    ),
    (
        "back to another's target",
        b"\x1a\x99\x00\x05\x03\xac\x1a\x99\xff\xff\x04\xac",
        "ok returns 0\n",
    ),
    (
        "one of two words tested",
        b"\x1a\x1a\x99\x00\x04\xac\x04\xac",
        "ok returns 1\n",
    ),
    (
        "two of three words tested",
        b"\x1a\x1a\x1a\x9f\x00\x04\xac\x04\xac",
        "ok returns 1\n",
    ),
    (
        "no word to test",
        b"\x99\x00\x05\x03\xac\x04\xac",
        "refused 6 Verify Depth f(I)I 0\n",
    ),
    (
        "one word to test for two",
        b"\x1a\x9f\x00\x05\x03\xac\x04\xac",
        "refused 6 Verify Depth f(I)I 1\n",
    ),
    // iload_0 four times, isub, isub, if_icmpeq 11, iconst_0, ireturn, 11: iconst_1, ireturn
    (
        "a stack of four",
        b"\x1a\x1a\x1a\x1a\x64\x64\x9f\x00\x05\x03\xac\x04\xac",
        "refused 6 Verify Depth f(I)I 3\n",
    ),
    (
        "one of two words returned",
        b"\x1a\x1a\xac\xac",
        "ok returns 1\n",
    ),
    ("a load at the end", b"\x1a\xac\x1a", "ok returns 1\n"),
    (
        "a push at the end",
        b"\x1a\x99\x00\x05\x03\xac\x04",
        "refused 6 Verify FallOff f(I)I 6\n",
    ),
    (
        "a branch that is cut",
        b"\x1a\xac\x1a\x99\x00",
        "refused 5 Class Cut 94\n",
    ),
    (
        "a branch without an offset",
        b"\x1a\xac\x1a\x99",
        "refused 5 Class Cut 94\n",
    ),
    (
        "a load that is cut",
        b"\x1a\xac\x15",
        "refused 5 Class Cut 93\n",
    ),
    // Tests of two references, a jump, a test of a reference, a comparison of doubles.
    (
        "opcode 165",
        b"\x1a\x1a\xa5\x00\x05\x03\xac\x04\xac",
        "refused 6 Verify Kind f(I)I 2\n",
    ),
    (
        "opcode 166",
        b"\x1a\x1a\xa6\x00\x05\x03\xac\x04\xac",
        "refused 6 Verify Kind f(I)I 2\n",
    ),
    ("opcode 167", b"\xa7\x00\x03\x1a\xac", "ok returns 1\n"),
    (
        "opcode 198",
        b"\x1a\xc6\x00\x05\x03\xac\x04\xac",
        "refused 6 Verify Kind f(I)I 1\n",
    ),
    ("opcode 152", b"\x1a\x1a\x98\xac", ENTRY_MISSING),
    (
        "a local that is no parameter",
        b"\x15\x01\xac",
        "refused 6 Verify Local f(I)I 0\n",
    ),
    (
        "the last local",
        b"\x15\xff\xac",
        "refused 6 Verify Local f(I)I 0\n",
    ),
    (
        "a local behind a return",
        b"\x1a\xac\x1b\xac",
        "ok returns 1\n",
    ),
];

#[test]
fn branches_lead_to_instructions(rt: HostRuntime) -> Result<(), Fail> {
    for (code, want) in &CODES {
        let file = thin(rt.alloc(), b"(I)I", 3, 256, code)?;
        let what = format!(in rt.alloc(); "{code:?}")?;
        check(
            &rt,
            what.as_str(),
            file.as_slice(),
            b"once T.class f (I)I 1",
            want,
        )?;
    }
    for (what, code, want) in &OTHER_CODES {
        let file = thin(rt.alloc(), b"(I)I", 3, 256, code)?;
        check(&rt, what, file.as_slice(), b"once T.class f (I)I 1", want)?;
    }
    Ok(())
}

/// Descriptors, numbers of locals, code, words and replies.
static SIGNATURES: [(&str, usize, &[u8], &str, &str); 20] = [
    (
        "(IIIIIIII)I",
        8,
        b"\x15\x07\xac",
        " 1 2 3 4 5 6 7 8",
        "ok returns 8\n",
    ),
    // Fewer locals than parameters, and nine parameters.
    (
        "(IIIIIIII)I",
        7,
        b"\x15\x06\xac",
        " 1 2 3 4 5 6 7 8",
        ENTRY_MISSING,
    ),
    (
        "(IIIIIIIII)I",
        9,
        b"\x15\x07\xac",
        " 1 2 3 4 5 6 7 8 9",
        ENTRY_MISSING,
    ),
    ("(Z)I", 1, b"\x1a\xac", " 1", "ok returns 1\n"),
    ("(B)I", 1, b"\x1a\xac", " 1", "ok returns 1\n"),
    ("(C)I", 1, b"\x1a\xac", " 1", "ok returns 1\n"),
    ("(S)I", 1, b"\x1a\xac", " 1", "ok returns 1\n"),
    ("(F)I", 1, b"\x03\xac", " 1", ENTRY_MISSING),
    ("(J)I", 2, b"\x03\xac", " 1", ENTRY_MISSING),
    ("([I)I", 1, b"\x03\xac", " 1", ENTRY_MISSING),
    ("(I[I)I", 2, b"\x1a\xac", " 1 2", ENTRY_MISSING),
    ("(I)Z", 1, b"\x1a\xac", " 1", "ok returns 1\n"),
    (
        "(I)V",
        1,
        b"\x1a\xac",
        " 1",
        "refused 6 Verify Return f(I)V 1\n",
    ),
    ("(I)B", 1, b"\x1a\xac", " 1", "ok returns 1\n"),
    ("(I)C", 1, b"\x1a\xac", " 1", "ok returns 1\n"),
    ("(I)S", 1, b"\x1a\xac", " 1", "ok returns 1\n"),
    ("(I)J", 1, b"\x1a\xac", " 1", ENTRY_MISSING),
    ("(I)", 1, b"\x1a\xac", " 1", ENTRY_MISSING),
    ("(I)ZZ", 1, b"\x1a\xac", " 1", ENTRY_MISSING),
    ("(II", 2, b"\x1a\xac", " 1 1", ENTRY_MISSING),
];

#[test]
fn entries_have_at_most_eight_ints(rt: HostRuntime) -> Result<(), Fail> {
    for (descriptor, max_locals, code, words, want) in &SIGNATURES {
        let file = thin(rt.alloc(), descriptor.as_bytes(), 1, *max_locals, code)?;
        let line = line_for(rt.alloc(), descriptor, words)?;
        check(&rt, line.as_str(), file.as_slice(), line.as_bytes(), want)?;
    }
    Ok(())
}
