//! Each opcode, alone and with its operands.

use crate::members::pool_bytes;
use crate::telling::{Asked, compare, told};
use ms_pool::{Cursor, Pool, read_pool};
use std::alloc::{AllocError, Global};
use std::test::Fail;

/// What is said of each opcode with 31 zeros behind it, but for those that are foreign then.
static ALONE: &str = "\
    0: 0 then 1; 0: 1 then 1; 0: 2 then 1; 0: 3 then 1; 0: 4 then 1; 0: 5 then 1; 0: 6 then 1; \
    0: 7 then 1; 0: 8 then 1; 0: 16 word 0 then 2; 0: 17 word 0 then 3; 0: 21 local 0 then 2; \
    0: 25 local 0 then 2; 0: 26 then 1; 0: 27 then 1; 0: 28 then 1; 0: 29 then 1; 0: 42 then 1; \
    0: 43 then 1; 0: 44 then 1; 0: 45 then 1; 0: 46 then 1; 0: 54 local 0 then 2; \
    0: 58 local 0 then 2; 0: 59 then 1; 0: 60 then 1; 0: 61 then 1; 0: 62 then 1; 0: 75 then 1; \
    0: 76 then 1; 0: 77 then 1; 0: 78 then 1; 0: 79 then 1; 0: 87 then 1; 0: 88 then 1; \
    0: 89 then 1; 0: 90 then 1; 0: 91 then 1; 0: 92 then 1; 0: 93 then 1; 0: 94 then 1; \
    0: 95 then 1; 0: 96 then 1; 0: 100 then 1; 0: 104 then 1; 0: 108 then 1; 0: 112 then 1; \
    0: 116 then 1; 0: 120 then 1; 0: 122 then 1; 0: 124 then 1; 0: 126 then 1; 0: 128 then 1; \
    0: 130 then 1; 0: 132 local 0 by 0 then 3; 0: 145 then 1; 0: 146 then 1; 0: 147 then 1; \
    0: 153 to 0 then 3; 0: 154 to 0 then 3; 0: 155 to 0 then 3; 0: 156 to 0 then 3; \
    0: 157 to 0 then 3; 0: 158 to 0 then 3; 0: 159 to 0 then 3; 0: 160 to 0 then 3; \
    0: 161 to 0 then 3; 0: 162 to 0 then 3; 0: 163 to 0 then 3; 0: 164 to 0 then 3; \
    0: 165 to 0 then 3; 0: 166 to 0 then 3; 0: 167 to 0 then 3; 0: 170 0:0 else 0 then 20; \
    0: 171 else 0 then 12; 0: 172 then 1; 0: 176 then 1; 0: 177 then 1; 0: 190 then 1; \
    0: 191 then 1; 0: 198 to 0 then 3; 0: 199 to 0 then 3; 0: 200 to 0 then 5; ";

/// Adds what differs of the opcodes that aren't foreign.
fn alone_differ(alloc: Global, differing: &mut String, pool: &Pool<'_>) -> Result<(), AllocError> {
    let mut all = String::new(alloc);
    let mut code = [0_u8; 32];
    for op in 0..=255_u8 {
        code[0] = op;
        let text = told(alloc, pool, &code, &[], Asked::At(0))?;
        if text.as_str() != "foreign" {
            all.push_str(text.as_str())?;
        }
    }
    compare(differing, 0, all.as_str(), ALONE)
}

/// Instructions with operands, and what is said of each. It is the whole code.
static WHOLE: [(&[u8], &str); 51] = [
    (&[16, 128], "0: 16 word -128"),
    (&[16, 127], "0: 16 word 127"),
    (&[16, 255], "0: 16 word -1"),
    (&[17, 128, 0], "0: 17 word -32768"),
    (&[17, 127, 255], "0: 17 word 32767"),
    (&[17, 255, 255], "0: 17 word -1"),
    (&[18, 1], "0: 18 number 1"),
    (&[18, 2], "0: 18 number 2"),
    (&[19, 0, 1], "0: 19 number 1"),
    (&[19, 0, 2], "0: 19 number 2"),
    (&[21, 255], "0: 21 local 255"),
    (&[25, 255], "0: 25 local 255"),
    (&[54, 255], "0: 54 local 255"),
    (&[58, 255], "0: 58 local 255"),
    (&[132, 255, 128], "0: 132 local 255 by -128"),
    (&[132, 0, 127], "0: 132 local 0 by 127"),
    (&[132, 3, 255], "0: 132 local 3 by -1"),
    (&[153, 0, 0], "0: 153 to 0"),
    (&[154, 0, 0], "0: 154 to 0"),
    (&[155, 0, 0], "0: 155 to 0"),
    (&[156, 0, 0], "0: 156 to 0"),
    (&[157, 0, 0], "0: 157 to 0"),
    (&[158, 0, 0], "0: 158 to 0"),
    (&[159, 0, 0], "0: 159 to 0"),
    (&[160, 0, 0], "0: 160 to 0"),
    (&[161, 0, 0], "0: 161 to 0"),
    (&[162, 0, 0], "0: 162 to 0"),
    (&[163, 0, 0], "0: 163 to 0"),
    (&[164, 0, 0], "0: 164 to 0"),
    (&[165, 0, 0], "0: 165 to 0"),
    (&[166, 0, 0], "0: 166 to 0"),
    (&[167, 0, 0], "0: 167 to 0"),
    (&[198, 0, 0], "0: 198 to 0"),
    (&[199, 0, 0], "0: 199 to 0"),
    (&[200, 0, 0, 0, 0], "0: 200 to 0"),
    (
        &[
            170, 7, 7, 7, 0, 0, 0, 0, 255, 255, 255, 255, 0, 0, 0, 1, 0, 0, 0, 0, 0, 0, 0, 0, 0, 0,
            0, 0,
        ],
        "0: 170 -1:0 0:0 1:0 else 0",
    ),
    (
        &[
            170, 0, 0, 0, 0, 0, 0, 0, 127, 255, 255, 255, 127, 255, 255, 255, 0, 0, 0, 0,
        ],
        "0: 170 2147483647:0 else 0",
    ),
    (&[171, 7, 7, 7, 0, 0, 0, 0, 0, 0, 0, 0], "0: 171 else 0"),
    (
        &[
            171, 0, 0, 0, 0, 0, 0, 0, 0, 0, 0, 2, 128, 0, 0, 0, 0, 0, 0, 0, 127, 255, 255, 255, 0,
            0, 0, 0,
        ],
        "0: 171 -2147483648:0 2147483647:0 else 0",
    ),
    (&[178, 0, 65], "0: 178 number 65"),
    (&[179, 0, 85], "0: 179 number 85"),
    (&[183, 1, 33], "0: 183 number 289"),
    (&[184, 0, 145], "0: 184 number 145"),
    (&[187, 0, 13], "0: 187 number 13"),
    (&[188, 10], "0: 188"),
    (&[196, 21, 255, 255], "0: wide 21 local 65535"),
    (&[196, 25, 255, 255], "0: wide 25 local 65535"),
    (&[196, 54, 255, 255], "0: wide 54 local 65535"),
    (&[196, 58, 255, 255], "0: wide 58 local 65535"),
    (&[196, 132, 1, 0, 128, 0], "0: wide 132 local 256 by -32768"),
    (
        &[196, 132, 255, 255, 127, 255],
        "0: wide 132 local 65535 by 32767",
    ),
];

/// Adds what differs of the first bytes of the instructions of `WHOLE`, for each number of them.
fn cuts_differ(
    alloc: Global,
    differing: &mut String,
    pool: &Pool<'_>,
    row: u16,
    code: &[u8],
) -> Result<(), AllocError> {
    for size in 1..code.len() {
        let text = told(alloc, pool, &code[..size], &[], Asked::All)?;
        compare(differing, row, text.as_str(), "no code: Cut at 91")?;
    }
    Ok(())
}

/// Adds what differs of each instruction of `WHOLE`, whole and cut.
fn operands_differ(
    alloc: Global,
    differing: &mut String,
    pool: &Pool<'_>,
) -> Result<(), AllocError> {
    for ((code, want), row) in WHOLE.iter().zip(0_u16..) {
        let text = told(alloc, pool, code, &[], Asked::All)?;
        compare(differing, row, text.as_str(), want)?;
        cuts_differ(alloc, differing, pool, row, code)?;
    }
    Ok(())
}

/// What differs.
fn differing(alloc: Global) -> Result<String, Fail> {
    let bytes = pool_bytes(alloc)?;
    let mut cursor = Cursor::new(&bytes);
    let pool = read_pool(alloc, &mut cursor)?;
    let mut differing = String::new(alloc);
    alone_differ(alloc, &mut differing, &pool)?;
    operands_differ(alloc, &mut differing, &pool)?;
    Ok(differing)
}

#[test]
fn opcodes_of_the_subset_are_decoded_or_cut(rt: HostRuntime) -> Result<(), Fail> {
    let differing = differing(rt.alloc())?;
    assert!(rt; differing.is_empty(), "{differing}");
    Ok(())
}
