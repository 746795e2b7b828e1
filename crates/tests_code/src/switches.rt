//! Both switches, at each alignment.

use crate::members::pool_bytes;
use crate::telling::{Asked, CODE_AT, compare, told};
use ms_pool::{Cursor, Pool, read_pool};
use std::alloc::{AllocError, Global};
use std::test::Fail;

const TABLE: u8 = 170;

const LOOKUP: u8 = 171;

/// Stands for how far the instruction behind a switch is.
const NEXT: i32 = 0x7ff0_0001;

/// Stands for how far the end of the code is, two bytes further on.
const END: i32 = 0x7ff0_0002;

/// Switches by their opcodes and the words behind the gap, and what is said of each where it has the
/// offset 4, 5, 6 and 7. Before it stand as many `nop`, behind it a `nop` and a `return`.
static DECODED: [(u8, &[i32], &str); 7] = [
    // its keys and targets, also backwards, to itself and to what comes behind
    (
        TABLE,
        &[NEXT, -2, 1, -4, 0, NEXT, -1],
        "4: 170 -2:0 -1:4 0:36 1:3 else 36 then 36; 5: 170 -2:1 -1:5 0:36 1:4 else 36 then 36; 6: 170 -2:2 -1:6 0:36 1:5 else 36 then 36; 7: 170 -2:3 -1:7 0:36 1:6 else 36 then 36;",
    ),
    // one key
    (
        TABLE,
        &[0, 5, 5, NEXT],
        "4: 170 5:24 else 4 then 24; 5: 170 5:24 else 5 then 24; 6: 170 5:24 else 6 then 24; 7: 170 5:24 else 7 then 24;",
    ),
    // the least and the greatest keys
    (
        TABLE,
        &[0, i32::MIN, i32::MIN, 0],
        "4: 170 -2147483648:4 else 4 then 24; 5: 170 -2147483648:5 else 5 then 24; 6: 170 -2147483648:6 else 6 then 24; 7: 170 -2147483648:7 else 7 then 24;",
    ),
    (
        TABLE,
        &[0, 2147483646, i32::MAX, 0, NEXT],
        "4: 170 2147483646:4 2147483647:28 else 4 then 28; 5: 170 2147483646:5 2147483647:28 else 5 then 28; 6: 170 2147483646:6 2147483647:28 else 6 then 28; 7: 170 2147483646:7 2147483647:28 else 7 then 28;",
    ),
    // its keys and targets
    (
        LOOKUP,
        &[NEXT, 3, -7, -4, 0, 0, 9, NEXT],
        "4: 171 -7:0 0:4 9:40 else 40 then 40; 5: 171 -7:1 0:5 9:40 else 40 then 40; 6: 171 -7:2 0:6 9:40 else 40 then 40; 7: 171 -7:3 0:7 9:40 else 40 then 40;",
    ),
    // no keys
    (
        LOOKUP,
        &[-1, 0],
        "4: 171 else 3 then 16; 5: 171 else 4 then 16; 6: 171 else 5 then 16; 7: 171 else 6 then 16;",
    ),
    // the least and the greatest key
    (
        LOOKUP,
        &[0, 2, i32::MIN, NEXT, i32::MAX, -3],
        "4: 171 -2147483648:32 2147483647:1 else 4 then 32; 5: 171 -2147483648:32 2147483647:2 else 5 then 32; 6: 171 -2147483648:32 2147483647:3 else 6 then 32; 7: 171 -2147483648:32 2147483647:4 else 7 then 32;",
    ),
];

/// The same, of switches that are at fault, with the kind of the fault.
static FAULTY: [(u8, &[i32], &str); 30] = [
    // low above high
    (TABLE, &[0, 1, 0, 0, 0], "Switch"),
    // low above high, by the most, and nothing fits
    (TABLE, &[0, i32::MAX, i32::MIN], "Switch"),
    // too many keys by one
    (TABLE, &[0, 0, 2, 0, 0], "Cut"),
    // all ints are keys
    (TABLE, &[0, i32::MIN, i32::MAX, 0, 0], "Cut"),
    // no high
    (TABLE, &[0, 0], "Cut"),
    // a target within the switch
    (TABLE, &[NEXT, 0, 1, 0, 1], "Target"),
    // a target within the gap or an operand
    (TABLE, &[NEXT, 0, 0, 5], "Target"),
    // a target before the code
    (TABLE, &[NEXT, 0, 0, -8], "Target"),
    // a target at the end of the code
    (TABLE, &[NEXT, 0, 0, END], "Target"),
    // a target behind all codes
    (TABLE, &[NEXT, 0, 0, 65536], "Target"),
    (TABLE, &[NEXT, 0, 0, i32::MAX], "Target"),
    (TABLE, &[NEXT, 0, 0, i32::MIN], "Target"),
    // a default that is none
    (TABLE, &[2, 0, 0, NEXT], "Target"),
    // a default at the end of the code
    (TABLE, &[END, 0, 0, NEXT], "Target"),
    // a negative count
    (LOOKUP, &[0, -1], "Switch"),
    // the least count
    (LOOKUP, &[0, i32::MIN, 0, 0], "Switch"),
    // equal keys
    (LOOKUP, &[0, 2, 4, 0, 4, 0], "Switch"),
    // equal keys, the last of three
    (LOOKUP, &[0, 3, -4, 0, 4, 0, 4, 0], "Switch"),
    // descending keys
    (LOOKUP, &[0, 2, 4, 0, 3, 0], "Switch"),
    // keys that ascend as unsigned numbers alone
    (LOOKUP, &[0, 2, 0, 0, -1, 0], "Switch"),
    // too many keys by one
    (LOOKUP, &[0, 2, 4, 0], "Cut"),
    // too many keys, and those there are equal
    (LOOKUP, &[0, 3, 4, 0, 4, 0], "Cut"),
    // the greatest count
    (LOOKUP, &[0, i32::MAX, 4, 0], "Cut"),
    // no count
    (LOOKUP, &[0], "Cut"),
    // a target within the switch
    (LOOKUP, &[NEXT, 1, 4, 1], "Target"),
    // a target before the code
    (LOOKUP, &[NEXT, 1, 4, -8], "Target"),
    // a target at the end of the code
    (LOOKUP, &[NEXT, 1, 4, END], "Target"),
    // a target far before all codes
    (LOOKUP, &[NEXT, 1, 4, -65536], "Target"),
    // a default that is none
    (LOOKUP, &[-9, 1, 4, NEXT], "Target"),
    // keys out of order and a target that is none
    (LOOKUP, &[1, 2, 4, 1, 4, 1], "Switch"),
];

/// The code of a switch with this offset.
fn code_of(alloc: Global, offset: u16, op: u8, words: &[i32]) -> Result<Vec<u8>, AllocError> {
    let gap = 3 - offset % 4;
    let size = words.len().min(100) as i32 * 4 + i32::from(gap) + 1;
    let mut code = Vec::new(alloc);
    for _ in 0..offset {
        code.push(0)?;
    }
    code.push(op)?;
    for _ in 0..gap {
        code.push(0xee)?;
    }
    for word in words {
        let word = match *word {
            NEXT => size,
            END => size + 2,
            word => word,
        };
        code.extend_from_slice(&word.to_be_bytes())?;
    }
    code.extend_from_slice(&[0, 177])?;
    Ok(code)
}

/// What is said of a switch with this offset.
fn switch_told(
    alloc: Global,
    pool: &Pool<'_>,
    offset: u16,
    op: u8,
    words: &[i32],
) -> Result<String, AllocError> {
    let code = code_of(alloc, offset, op, words)?;
    told(alloc, pool, &code, &[], Asked::At(offset))
}

/// Adds what differs of the switches of `DECODED`.
fn decoded_differ(
    alloc: Global,
    differing: &mut String,
    pool: &Pool<'_>,
) -> Result<(), AllocError> {
    for ((op, words, want), row) in DECODED.iter().zip(0_u16..) {
        let mut all = String::new(alloc);
        for offset in 4..8 {
            let text = switch_told(alloc, pool, offset, *op, words)?;
            all.push_str(text.as_str())?;
        }
        compare(differing, row, all.as_str().trim_end(), want)?;
    }
    Ok(())
}

/// Adds what differs of the switches of `FAULTY`.
fn faulty_differ(alloc: Global, differing: &mut String, pool: &Pool<'_>) -> Result<(), AllocError> {
    for ((op, words, kind), row) in FAULTY.iter().zip(0_u16..) {
        for offset in 4..8 {
            let text = switch_told(alloc, pool, offset, *op, words)?;
            let place = CODE_AT + u64::from(offset);
            let want = format!(in alloc; "no code: {kind} at {place}")?;
            compare(differing, row, text.as_str(), want.as_str())?;
        }
    }
    Ok(())
}

/// What differs.
fn differing(alloc: Global) -> Result<String, Fail> {
    let bytes = pool_bytes(alloc)?;
    let mut cursor = Cursor::new(&bytes);
    let pool = read_pool(alloc, &mut cursor)?;
    let mut differing = String::new(alloc);
    decoded_differ(alloc, &mut differing, &pool)?;
    faulty_differ(alloc, &mut differing, &pool)?;
    Ok(differing)
}

#[test]
fn switches_are_decoded_at_each_alignment(rt: HostRuntime) -> Result<(), Fail> {
    let differing = differing(rt.alloc())?;
    assert!(rt; differing.is_empty(), "{differing}");
    Ok(())
}
