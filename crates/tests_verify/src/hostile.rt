//! Codes that take long to verify.

use crate::telling::{compare, outcome};
use crate::writing::{STATIC, Written, add_code, class_with};
use ms_pool::Out;
use std::alloc::{AllocError, Global};
use std::fmt::Write;
use std::test::Fail;

/// Branches that each lead behind themselves, and then a code of this end.
fn forward(alloc: Global, end: &str) -> Result<Vec<u8>, AllocError> {
    let mut code = Out::new(alloc);
    for _ in 0..16_383 {
        code.slice(&[3, 153, 0, 3])?;
    }
    add_code(&mut code, end)?;
    Ok(code.into_bytes())
}

/// As many branches as can lead to the start.
fn back(alloc: Global) -> Result<Vec<u8>, AllocError> {
    let mut code = Out::new(alloc);
    for number in 0..8_192_u16 {
        let by = 4 * number + 1;
        code.slice(&[3, 153])?;
        code.u2(by.wrapping_neg())?;
    }
    code.u1(177)?;
    Ok(code.into_bytes())
}

/// A switch with as many targets as there are instructions behind it, and as fit.
fn switch(alloc: Global) -> Result<Vec<u8>, AllocError> {
    let mut code = Out::new(alloc);
    // at offset 3 the switch, whose targets begin at 16; the last instruction stands at 16 + 5 * 13,000
    code.slice(&[3, 0, 0, 170])?;
    code.u4(13 + 5 * 13_000)?;
    code.u4(0)?;
    code.u4(12_999)?;
    for number in 0..13_000 {
        code.u4(13 + 4 * 13_000 + number)?;
    }
    for _ in 0..13_000 {
        code.u1(0)?;
    }
    code.u1(177)?;
    Ok(code.into_bytes())
}

/// How many locals change.
const CHANGING: u8 = 32;

/// A loop of five hundred instructions, at whose end one of 32 locals is changed: null to an array, that to any
/// reference, and that to nothing known.
fn changing(alloc: Global) -> Result<Vec<u8>, AllocError> {
    let mut code = Out::new(alloc);
    for local in 0..CHANGING {
        code.slice(&[1, 58, local])?;
    }
    for _ in 0..499 {
        code.u1(0)?;
    }
    // how far the change stands behind the loop's start
    let mut by: u32 = 499;
    for (value, store) in [("getstatic f:[I", 58), ("ldc 4a", 58), ("iconst_0", 54)] {
        for local in 0..CHANGING {
            by = add_change(&mut code, by, value, store, local)?;
        }
    }
    code.u1(177)?;
    Ok(code.into_bytes())
}

/// Adds a change of a local, and the jump back to the start of the loop, which is this far from the change. It says
/// how far the next one is.
fn add_change(
    code: &mut Out,
    by: u32,
    value: &str,
    store: u8,
    local: u8,
) -> Result<u32, AllocError> {
    let length = match value {
        "getstatic f:[I" => 3,
        "ldc 4a" => 2,
        _ => 1,
    };
    // behind the branch and the change stands a `goto_w` of five bytes
    code.slice(&[3, 153, 0, 10 + length])?;
    add_code(code, value)?;
    code.slice(&[store, local, 200])?;
    let far = by.saturating_add(6 + u32::from(length));
    code.u4(far.wrapping_neg())?;
    Ok(far.saturating_add(5))
}

/// A code of so many instructions, and what its handlers do.
fn covered(alloc: Global, instructions: u16) -> Result<Vec<u8>, AllocError> {
    let mut code = Out::new(alloc);
    for _ in 1..instructions {
        code.u1(0)?;
    }
    code.slice(&[177, 87, 177])?;
    Ok(code.into_bytes())
}

/// So many handlers that cover so many instructions.
fn handlers(alloc: Global, instructions: u16, count: u16) -> Result<Vec<u8>, AllocError> {
    let mut table = Out::new(alloc);
    for _ in 0..count {
        table.u2(0)?;
        table.u2(instructions)?;
        table.u2(instructions)?;
        table.u2(0)?;
    }
    Ok(table.into_bytes())
}

/// Adds what is said of a code.
fn tell(
    alloc: Global,
    text: &mut String,
    max_locals: u16,
    code: &[u8],
    table: &[u8],
) -> Result<(), AllocError> {
    let method = Written {
        flags: STATIC,
        desc: "()V",
        max_stack: 1,
        max_locals,
        code,
        table,
    };
    let said = outcome(alloc, class_with(alloc, &method)?)?;
    let said = said.as_str();
    let length = code.len();
    write!(text, "{length} {said}; ")
}

/// Adds what is said of codes with many handlers.
fn tell_covered(
    alloc: Global,
    text: &mut String,
    instructions: u16,
    count: u16,
) -> Result<(), AllocError> {
    let code = covered(alloc, instructions)?;
    let table = handlers(alloc, instructions, count)?;
    tell(alloc, text, 16, code.as_slice(), table.as_slice())
}

/// What is said of all these codes.
fn all_told(alloc: Global) -> Result<String, AllocError> {
    let mut text = String::new(alloc);
    let code = forward(alloc, "nop nop return")?;
    tell(alloc, &mut text, 256, code.as_slice(), &[])?;
    let code = forward(alloc, "nop nop nop")?;
    tell(alloc, &mut text, 256, code.as_slice(), &[])?;
    let code = back(alloc)?;
    tell(alloc, &mut text, 256, code.as_slice(), &[])?;
    let code = switch(alloc)?;
    tell(alloc, &mut text, 256, code.as_slice(), &[])?;
    let code = changing(alloc)?;
    tell(alloc, &mut text, 32, code.as_slice(), &[])?;
    tell_covered(alloc, &mut text, 65_000, 2)?;
    tell_covered(alloc, &mut text, 2, 65_000)?;
    Ok(text)
}

/// What is to be said: how many bytes each code has, and whether its method is verified.
const WANTED: &str =
    "65535 ok; 65535 FallOff at 65534; 32769 ok; 65017 ok; 1844 ok; 65002 ok; 4 ok; ";

#[test]
fn long_codes_are_verified(rt: HostRuntime) -> Result<(), Fail> {
    let text = all_told(rt.alloc())?;
    let mut differing = String::new(rt.alloc());
    compare(&mut differing, "long codes", text.as_str(), WANTED)?;
    assert!(rt; differing.is_empty(), "{differing}");
    Ok(())
}
