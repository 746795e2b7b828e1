//! Small codes with one thing wrong in each, and what is said of each offset of one.

use crate::members::pool_bytes;
use crate::telling::{Asked, Entry, compare, told};
use ms_pool::{Cursor, Pool, read_pool};
use std::alloc::{AllocError, Global};
use std::test::Fail;

/// Codes with their exception tables, and what is said of them. The first byte of each has the place 91
/// and the first entry of its table 200. The numbers are those of the pool in `members`.
static CODES: [(&[u8], &[Entry], &str); 68] = [
    // nothing at all
    (&[], &[], ""),
    // an entry, of no code
    (&[], &[(0, 0, 0, 0)], "no code: Target at 200"),
    // targets forwards, backwards and to itself
    (
        &[153, 0, 6, 167, 255, 253, 198, 0, 0, 177],
        &[],
        "0: 153 to 6 then 3; 3: 167 to 0 then 6; 6: 198 to 6 then 9; 9: 177",
    ),
    // a target within an instruction
    (&[167, 0, 4, 17, 0, 0, 177], &[], "no code: Target at 91"),
    // its own operand
    (&[0, 167, 0, 1, 177], &[], "no code: Target at 92"),
    // before the code
    (&[0, 167, 255, 254, 177], &[], "no code: Target at 92"),
    // far before the code
    (&[0, 167, 128, 0, 177], &[], "no code: Target at 92"),
    // at the end of the code
    (&[167, 0, 4, 177], &[], "no code: Target at 91"),
    // behind the code
    (&[167, 127, 255, 177], &[], "no code: Target at 91"),
    // by goto_w: backwards, before the code, behind all codes
    (
        &[0, 200, 255, 255, 255, 255],
        &[],
        "0: 0 then 1; 1: 200 to 0",
    ),
    (&[0, 200, 255, 255, 255, 254], &[], "no code: Target at 92"),
    (&[200, 0, 0, 255, 255], &[], "no code: Target at 91"),
    (&[200, 0, 1, 0, 0], &[], "no code: Target at 91"),
    (&[200, 128, 0, 0, 0], &[], "no code: Target at 91"),
    (&[200, 127, 255, 255, 255], &[], "no code: Target at 91"),
    // within an instruction behind wide
    (
        &[196, 21, 1, 0, 167, 255, 253],
        &[],
        "no code: Target at 95",
    ),
    // the first of two in order of offset
    (
        &[0, 167, 0, 1, 200, 0, 0, 0, 1],
        &[],
        "no code: Target at 92",
    ),
    // the farther one first in the code
    (
        &[200, 0, 0, 0, 9, 0, 167, 0, 1],
        &[],
        "no code: Target at 91",
    ),
    // foreign before a cut
    (&[0, 11, 16], &[], "foreign"),
    // cut before a foreign opcode would come
    (&[0, 17, 11], &[], "no code: Cut at 92"),
    // foreign before a target that is none
    (&[167, 0, 1, 11], &[], "foreign"),
    // foreign behind a switch with keys in order
    (&[171, 0, 0, 0, 0, 0, 0, 0, 0, 0, 0, 0, 11], &[], "foreign"),
    // a switch whose keys are equal, and foreign behind it
    (
        &[
            171, 0, 0, 0, 0, 0, 0, 0, 0, 0, 0, 2, 0, 0, 0, 1, 0, 0, 0, 0, 0, 0, 0, 1, 0, 0, 0, 0,
            11,
        ],
        &[],
        "no code: Switch at 91",
    ),
    // foreign before a switch out of order
    (
        &[11, 0, 0, 170, 0, 0, 0, 0, 0, 0, 0, 1, 0, 0, 0, 0],
        &[],
        "foreign",
    ),
    // a target that is none before a cut
    (&[167, 0, 1, 16], &[], "no code: Cut at 94"),
    // a target that is none before a switch out of order
    (
        &[167, 0, 1, 170, 0, 0, 0, 0, 0, 0, 0, 1, 0, 0, 0, 0],
        &[],
        "no code: Switch at 94",
    ),
    // ldc_w, cut behind a byte that would be a switch
    (&[19, 170], &[], "no code: Cut at 91"),
    // wide before an opcode that has no wider form
    (&[196, 16, 0, 0], &[], "foreign"),
    // wide before wide
    (&[196, 196, 21, 0, 0], &[], "foreign"),
    // wide before an opcode outside the subset
    (&[196, 22, 0, 0], &[], "foreign"),
    // the same, with nothing behind it
    (&[196, 22], &[], "foreign"),
    // wide before return, and return needs no more
    (&[196, 177], &[], "foreign"),
    // wide alone
    (&[177, 196], &[], "no code: Cut at 92"),
    // wide, cut behind the opcode, in the index and in the sum
    (&[196, 21], &[], "no code: Cut at 91"),
    (&[196, 54, 0], &[], "no code: Cut at 91"),
    (&[196, 132, 0, 1, 0], &[], "no code: Cut at 91"),
    // ldc of a Float, a Class, a String, nothing and a text
    (&[18, 4], &[], "foreign"),
    (&[18, 13], &[], "foreign"),
    (&[18, 2], &[], "0: 18 number 2"),
    (&[18, 0], &[], "foreign"),
    (&[18, 255], &[], "foreign"),
    // ldc_w of a Float, and of a number behind the pool
    (&[19, 0, 4], &[], "foreign"),
    (&[19, 255, 255], &[], "foreign"),
    // ldc_w of the second number of a Long, which is none
    (&[19, 0, 6], &[], "foreign"),
    // getstatic of a long, a text and a Methodref
    (&[178, 0, 89], &[], "foreign"),
    (&[178, 0, 101], &[], "foreign"),
    (&[178, 1, 29], &[], "foreign"),
    // putstatic of an array of arrays
    (&[179, 0, 113], &[], "foreign"),
    // invokestatic of an InterfaceMethodref
    (&[184, 1, 21], &[], "foreign"),
    // invokestatic that takes and returns an array, and one that takes a long
    (&[184, 0, 149], &[], "0: 184 number 149"),
    (&[184, 0, 169], &[], "foreign"),
    // invokespecial of another class, of another name, and with another descriptor
    (&[183, 1, 49], &[], "foreign"),
    (&[183, 1, 61], &[], "foreign"),
    (&[183, 1, 41], &[], "foreign"),
    // new of a class outside the tree, and of a text
    (&[187, 0, 41], &[], "foreign"),
    (&[187, 0, 12], &[], "foreign"),
    // newarray of ints, booleans and longs, and of a type there is none of
    (&[188, 10], &[], "0: 188"),
    (&[188, 4], &[], "foreign"),
    (&[188, 11], &[], "foreign"),
    (&[188, 0], &[], "foreign"),
    // a foreign operand before a cut, and a cut operand
    (&[0, 188, 4, 16], &[], "foreign"),
    (&[188], &[], "no code: Cut at 91"),
    // a foreign number before a target that is none
    (&[18, 4, 167, 0, 1], &[], "foreign"),
    // a target that is none before an entry that is none
    (&[167, 0, 1, 177], &[(0, 0, 0, 0)], "no code: Target at 91"),
    // an entry that is none before a class outside the tree, in one entry and in two
    (&[0, 177], &[(0, 0, 0, 41)], "no code: Target at 200"),
    (
        &[0, 177],
        &[(0, 1, 0, 41), (0, 1, 2, 0)],
        "no code: Target at 208",
    ),
    // a cut before an entry that is none; a foreign opcode before one
    (&[16], &[(0, 0, 0, 0)], "no code: Cut at 91"),
    (&[11], &[(0, 0, 0, 0)], "foreign"),
];

/// A code of seven bytes: `bipush`, `ifle` to the beginning, `iload_0`, `ireturn`.
static BACK: [u8; 7] = [16, 5, 153, 255, 254, 26, 172];

/// What is said of it, before its handlers.
static BACK_TOLD: &str = "0: 16 word 5 then 2; 2: 153 to 0 then 5; 5: 26 then 6; 6: 172; ";

/// Exception tables of that code, and what is said of their handlers, or of the code.
static TABLES: [(&[Entry], &str); 23] = [
    // an exception table: a range to the end of the code, one in it, and a handler in its own range
    (
        &[(0, 7, 5, 0), (2, 5, 6, 21), (0, 2, 0, 13)],
        "0 to 7 at 5 Throwable; 2 to 5 at 6 Arithmetic; 0 to 2 at 0 Throwable",
    ),
    // the start of an entry within an instruction, at the end, behind it, and far behind it
    (&[(1, 7, 5, 0)], "no code: Target at 200"),
    (&[(7, 7, 5, 0)], "no code: Target at 200"),
    (&[(8, 7, 5, 0)], "no code: Target at 200"),
    (&[(65535, 7, 5, 0)], "no code: Target at 200"),
    // its end within an instruction, behind the end, and far behind it
    (&[(0, 3, 5, 0)], "no code: Target at 200"),
    (&[(0, 8, 5, 0)], "no code: Target at 200"),
    (&[(0, 65535, 5, 0)], "no code: Target at 200"),
    // its handler within an instruction, at the end, and behind it
    (&[(0, 7, 4, 0)], "no code: Target at 200"),
    (&[(0, 7, 7, 0)], "no code: Target at 200"),
    (&[(0, 7, 65535, 0)], "no code: Target at 200"),
    // an empty range, at the beginning too, and one that ends before it starts
    (&[(2, 2, 5, 0)], "no code: Target at 200"),
    (&[(0, 0, 5, 0)], "no code: Target at 200"),
    (&[(5, 2, 6, 0)], "no code: Target at 200"),
    // the second entry, and the third before a foreign second
    (
        &[(0, 7, 5, 0), (0, 0, 5, 0), (1, 7, 5, 0)],
        "no code: Target at 208",
    ),
    (
        &[(0, 7, 5, 0), (0, 7, 5, 41), (0, 7, 1, 0)],
        "no code: Target at 216",
    ),
    // what is caught: any, a throwable, a text, a class outside the tree, a member, no number of the pool
    (&[(0, 7, 5, 0)], "0 to 7 at 5 Throwable"),
    (&[(0, 7, 5, 33)], "0 to 7 at 5 UnsupportedOperation"),
    (&[(0, 7, 5, 12)], "foreign"),
    (&[(0, 7, 5, 41)], "foreign"),
    (&[(0, 7, 5, 289)], "foreign"),
    (&[(0, 7, 5, 65535)], "foreign"),
    // the last of three is outside the tree
    (&[(0, 7, 5, 0), (0, 7, 5, 13), (0, 7, 5, 37)], "foreign"),
];

/// A code with instructions of one to six bytes and one of 23.
static MIXED: [u8; 45] = [
    26, // 0: iload_0
    170, 238, 238, 0, 0, 0, 37, 0, 0, 0, 0, 0, 0, 0, 1, 0, 0, 0, 23, 0, 0, 0, 31, // 1: tableswitch
    16, 128, // 24: bipush
    132, 1, 255, // 26: iinc
    167, 255, 251, // 29: goto
    196, 132, 1, 0, 254, 212, // 32: wide iinc
    200, 255, 255, 255, 218, // 38: goto_w
    191, // 43: athrow
    172, // 44: ireturn
];

/// Its exception table.
static MIXED_TABLE: [Entry; 4] = [
    (0, 45, 43, 0),
    (24, 26, 43, 21),
    (26, 44, 0, 17),
    (0, 1, 44, 13),
];

/// What is said of it. An offset within an instruction is not told of, since neither an instruction
/// nor one behind it is there.
static MIXED_TOLD: &str = "\
    0: 26 then 1; 1: 170 0:24 1:32 else 38 then 24; 24: 16 word -128 then 26; \
    26: 132 local 1 by -1 then 29; 29: 167 to 24 then 32; \
    32: wide 132 local 256 by -300 then 38; 38: 200 to 0 then 43; 43: 191 then 44; \
    44: 172; 0 to 45 at 43 Throwable; 24 to 26 at 43 Arithmetic; 26 to 44 at 0 Error; \
    0 to 1 at 44 Throwable";

/// Adds what differs of each code.
fn codes_differ(alloc: Global, differing: &mut String, pool: &Pool<'_>) -> Result<(), AllocError> {
    for ((code, entries, want), row) in CODES.iter().zip(0_u16..) {
        let text = told(alloc, pool, code, entries, Asked::All)?;
        compare(differing, row, text.as_str(), want)?;
    }
    Ok(())
}

/// Adds what differs of each exception table.
fn tables_differ(alloc: Global, differing: &mut String, pool: &Pool<'_>) -> Result<(), AllocError> {
    for ((entries, want), row) in TABLES.iter().zip(0_u16..) {
        let text = told(alloc, pool, &BACK, entries, Asked::All)?;
        let text = text.as_str();
        let handlers = text.strip_prefix(BACK_TOLD).unwrap_or(text);
        compare(differing, row, handlers, want)?;
    }
    Ok(())
}

/// What differs.
fn differing(alloc: Global) -> Result<String, Fail> {
    let bytes = pool_bytes(alloc)?;
    let mut cursor = Cursor::new(&bytes);
    let pool = read_pool(alloc, &mut cursor)?;
    let mut differing = String::new(alloc);
    codes_differ(alloc, &mut differing, &pool)?;
    tables_differ(alloc, &mut differing, &pool)?;
    let text = told(alloc, &pool, &MIXED, &MIXED_TABLE, Asked::All)?;
    compare(&mut differing, 0, text.as_str(), MIXED_TOLD)?;
    Ok(differing)
}

#[test]
fn what_is_known_first_of_a_code_counts(rt: HostRuntime) -> Result<(), Fail> {
    let differing = differing(rt.alloc())?;
    assert!(rt; differing.is_empty(), "{differing}");
    Ok(())
}
