//! Large codes, what is printed of faults, and the laws.

use crate::telling::{Asked, Entry, compare, told};
use ms_code::{CodeFault, codes_are_decoded_foreign_or_at_fault, decoded_codes_are_whole};
use ms_pool::{Cursor, read_pool};
use ms_words::descriptors_spell_types;
use std::alloc::{AllocError, Global};
use std::test::Fail;

/// How many bytes the largest code has, and how many entries the largest table.
const MOST: u16 = 65_535;

/// A large code: its first bytes, others that stand so many times behind these, and its last ones.
type Large = (&'static [u8], u16, &'static [u8], &'static [u8]);

/// Large codes, how many entries their tables have, and what is said of them.
static LARGE: [(Large, u16, &str); 9] = [
    // nop alone, with as many entries, and with one too many
    (
        (&[], MOST, &[0], &[]),
        MOST,
        "65535 instructions; 65535 handlers",
    ),
    (
        (&[], MOST - 1, &[0], &[]),
        MOST,
        "no code: Target at 524472",
    ),
    // wide alone, and goto alone
    ((&[], MOST, &[196], &[]), 0, "foreign"),
    ((&[], MOST / 3, &[167, 0, 0], &[]), 0, "21845 instructions"),
    // goto_w from the end to the beginning, and the other way
    (
        (&[], MOST - 5, &[0], &[200, 255, 255, 0, 6]),
        0,
        "65531 instructions",
    ),
    (
        (&[200, 0, 0, 255, 254], MOST - 5, &[0], &[]),
        0,
        "65531 instructions",
    ),
    // a tableswitch of the keys from -8,000 to 7,999, and one of all ints
    (
        (
            &[170, 0, 0, 0, 0, 0, 0, 0, 255, 255, 224, 192, 0, 0, 31, 63],
            16_000,
            &[0, 0, 0, 0],
            &[177],
        ),
        0,
        "2 instructions, 16000 cases",
    ),
    (
        (
            &[170, 0, 0, 0, 0, 0, 0, 0, 128, 0, 0, 0, 127, 255, 255, 255],
            16_000,
            &[0, 0, 0, 0],
            &[177],
        ),
        0,
        "no code: Cut at 91",
    ),
    // a lookupswitch of 8,000 equal keys
    (
        (
            &[171, 0, 0, 0, 0, 0, 0, 0, 0, 0, 31, 64],
            8_000,
            &[0, 0, 0, 7, 0, 0, 0, 0],
            &[177],
        ),
        0,
        "no code: Switch at 91",
    ),
];

/// The bytes of a large code.
fn code_of(alloc: Global, large: Large) -> Result<Vec<u8>, AllocError> {
    let (first, many, bytes, last) = large;
    let mut code = Vec::from_slice(alloc, first)?;
    for _ in 0..many {
        code.extend_from_slice(bytes)?;
    }
    code.extend_from_slice(last)?;
    Ok(code)
}

/// So many entries: each covers an instruction of one byte, and is handled at the beginning.
fn entries(alloc: Global, many: u16) -> Result<Vec<Entry>, AllocError> {
    let mut entries = Vec::new(alloc);
    for start in 0..many {
        entries.push((start, start.saturating_add(1), 0, 0))?;
    }
    Ok(entries)
}

/// Adds what differs of the large codes.
fn large_differ(alloc: Global, differing: &mut String) -> Result<(), Fail> {
    let mut cursor = Cursor::new(&[0, 1]);
    let pool = read_pool(alloc, &mut cursor)?;
    for ((large, many, want), row) in LARGE.iter().zip(0_u16..) {
        let code = code_of(alloc, *large)?;
        let entries = entries(alloc, *many)?;
        let text = told(alloc, &pool, &code, &entries, Asked::Numbers)?;
        compare(differing, row, text.as_str(), want)?;
    }
    Ok(())
}

#[test]
fn large_codes_are_decoded(rt: HostRuntime) -> Result<(), Fail> {
    let mut differing = String::new(rt.alloc());
    large_differ(rt.alloc(), &mut differing)?;
    assert!(rt; differing.is_empty(), "{differing}");
    Ok(())
}

#[test]
fn faults_are_printed(rt: HostRuntime) -> Result<(), Fail> {
    let memory = CodeFault::NoMemory;
    let text = format!(in rt.alloc(); "{memory}")?;
    assert!(rt; text.as_str() == "memory ran out", "{text}");
    Ok(())
}

#[test]
fn laws_do_nothing(_rt: HostRuntime) {
    codes_are_decoded_foreign_or_at_fault();
    decoded_codes_are_whole();
    descriptors_spell_types();
}
