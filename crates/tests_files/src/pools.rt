//! Constant pools, and numbers as bytes.

use ms_pool::{
    Cursor, Handlers, Member, Out, PoolFault, PoolIndex, RawHandler, Short,
    pools_are_whole_or_have_a_fault, pools_hold_what_they_name, read_pool,
};
use std::alloc::{AllocError, Global};
use std::test::Fail;

#[test]
fn laws_do_nothing(_rt: HostRuntime) {
    pools_are_whole_or_have_a_fault();
    pools_hold_what_they_name();
}

#[test]
fn a_cursor_tells_its_place(rt: HostRuntime) {
    let mut cursor = Cursor::new(&[1, 2, 3, 4]);
    assert_eq!(rt; cursor.u2(), Ok(0x0102));
    assert_eq!(rt; cursor.u4(), Err(Short { at: 2 }));
    assert_eq!(rt; cursor.at(), 2);
}

/// The faults of a constant pool, and what is said of each.
static FAULTS: [(PoolFault, &str); 4] = [
    (
        PoolFault::Short { at: 7 },
        "the bytes end within what begins at 7",
    ),
    (
        PoolFault::Pool { at: 8 },
        "the pool can't be as the number at 8 says",
    ),
    (
        PoolFault::Index { at: 9 },
        "the pool's entry at 9 names a number without the wanted tag",
    ),
    (PoolFault::NoMemory, "memory ran out"),
];

#[test]
fn faults_of_pools_are_printed(rt: HostRuntime) -> Result<(), Fail> {
    for (fault, want) in &FAULTS {
        let text = format!(in rt.alloc(); "{fault}")?;
        assert_eq!(rt; text.as_str(), *want);
    }
    Ok(())
}

#[test]
fn numbers_are_written_with_their_highest_byte_first(rt: HostRuntime) -> Result<(), Fail> {
    let mut out = Out::new(rt.alloc());
    out.u1(255)?;
    out.u2(258)?;
    out.u4(0x0304_0506)?;
    out.slice(b"T")?;
    let bytes = out.into_bytes();
    assert_eq!(rt; bytes.as_slice(), [255, 1, 2, 3, 4, 5, 6, 84].as_slice());
    let mut rows = Vec::new(rt.alloc());
    rows.push(RawHandler {
        start: 0,
        end: 3,
        handler: 4,
        catch_type: 0,
    })?;
    let handlers = Handlers::new(rows);
    assert_eq!(rt; handlers.rows().len(), 1);
    Ok(())
}

/// A pool with an entry of each tag, and a byte behind it. Its entries have the numbers 1 to 18.
static EVERY: [u8; 96] = [
    0, 19, // the count
    1, 0, 1, 84, // 1: Utf8 T, at 2
    3, 255, 255, 255, 254, // 2: Integer -2, at 6
    4, 0, 0, 0, 1, // 3: Float, at 11
    5, 0, 0, 0, 0, 0, 0, 0, 9, // 4: Long, at 16
    6, 0, 0, 0, 0, 0, 0, 0, 9, // 6: Double, at 25
    7, 0, 1, // 8: Class T, at 34
    8, 0, 1, // 9: String T, at 37
    9, 0, 8, 0, 13, // 10: Fieldref, at 40
    10, 0, 8, 0, 13, // 11: Methodref, at 45
    11, 0, 8, 0, 13, // 12: InterfaceMethodref, at 50
    12, 0, 18, 0, 1, // 13: NameAndType, at 55
    15, 6, 0, 99, // 14: MethodHandle of nothing, at 60
    16, 0, 99, // 15: MethodType of nothing, at 64
    18, 0, 0, 0, 99, // 16: InvokeDynamic of nothing, at 67
    1, 0, 0, // 17: Utf8, empty, at 72
    1, 0, 16, 106, 97, 118, 97, 47, 108, 97, 110, 103, 47, 79, 98, 106, 101, 99, 116, // 18, at 75
    77, 77,
];

/// Where the part of `EVERY` begins that is cut where this many bytes are left.
static CUT: [u64; 94] = [
    0, 0, 2, 3, 3, 5, 6, 7, 7, 7, 7, 11, 12, 12, 12, 12, 16, 17, 17, 17, 17, 17, 17, 17, 17, 25,
    26, 26, 26, 26, 26, 26, 26, 26, 34, 35, 35, 37, 38, 38, 40, 41, 41, 43, 43, 45, 46, 46, 48, 48,
    50, 51, 51, 53, 53, 55, 56, 56, 58, 58, 60, 61, 62, 62, 64, 65, 65, 67, 68, 68, 70, 70, 72, 73,
    73, 75, 76, 76, 78, 78, 78, 78, 78, 78, 78, 78, 78, 78, 78, 78, 78, 78, 78, 78,
];

/// The tag of each number of `EVERY`, and 0 where no entry has it.
static TAGS: [u8; 20] = [
    0, 1, 3, 4, 5, 0, 6, 0, 7, 8, 9, 10, 11, 12, 15, 16, 18, 1, 1, 0,
];

static OBJECT: &[u8] = b"java/lang/Object";

/// What is read of these bytes, and where the cursor is then.
fn read(alloc: Global, bytes: &[u8]) -> Result<(PoolIndex, u64), PoolFault> {
    let mut cursor = Cursor::new(bytes);
    let pool = read_pool(alloc, &mut cursor)?;
    Ok((pool.into_index(), cursor.at()))
}

/// The texts that a number of `EVERY` gives: of a Utf8, of a class, of a string.
fn texts_of(
    number: u16,
) -> (
    Option<&'static [u8]>,
    Option<&'static [u8]>,
    Option<&'static [u8]>,
) {
    match number {
        1 => (Some(b"T"), None, None),
        8 => (None, Some(b"T"), None),
        9 => (None, None, Some(b"T")),
        17 => (Some(b""), None, None),
        18 => (Some(OBJECT), None, None),
        _ => (None, None, None),
    }
}

/// What a member of `EVERY` gives.
fn member_is(member: Option<Member<'_>>, number: u16, tag: u8) -> bool {
    match member {
        Some(found) => {
            (10..13).contains(&number)
                && found.tag == tag
                && found.class == b"T".as_slice()
                && found.name == OBJECT
                && found.desc == b"T".as_slice()
        }
        None => !(10..13).contains(&number),
    }
}

#[test]
fn every_entry_gives_what_it_holds(rt: HostRuntime) -> Result<(), Fail> {
    let mut cursor = Cursor::new(&EVERY);
    let pool = read_pool(rt.alloc(), &mut cursor)?;
    assert_eq!(rt; cursor.at(), 94);
    assert_eq!(rt; pool.count(), 19);
    for (number, tag) in (0_u16..20).zip(&TAGS) {
        let (utf8, class_name, text) = texts_of(number);
        assert_eq!(rt; pool.tag(number).unwrap_or(0), *tag, "tag of {number}");
        assert_eq!(rt; pool.utf8(number), utf8, "text of {number}");
        assert_eq!(rt; pool.class_name(number), class_name, "class of {number}");
        assert_eq!(rt; pool.text(number), text, "string of {number}");
        assert_eq!(rt;
            pool.integer(number),
            if number == 2 { Some(-2) } else { None }
        );
        assert!(rt;
            member_is(pool.member(number), number, *tag),
            "member of {number}"
        );
    }
    Ok(())
}

#[test]
fn an_index_gives_the_same(rt: HostRuntime) -> Result<(), Fail> {
    let (index, _) = read(rt.alloc(), &EVERY)?;
    assert_eq!(rt; index.count(), 19);
    for (number, tag) in (0_u16..20).zip(&TAGS) {
        let (utf8, class_name, text) = texts_of(number);
        assert_eq!(rt;
            index.tag(&EVERY, number).unwrap_or(0),
            *tag,
            "tag of {number}"
        );
        assert_eq!(rt; index.utf8(&EVERY, number), utf8, "text of {number}");
        assert_eq!(rt;
            index.class_name(&EVERY, number),
            class_name,
            "class of {number}"
        );
        assert_eq!(rt; index.text(&EVERY, number), text, "string of {number}");
        assert_eq!(rt;
            index.integer(&EVERY, number),
            if number == 2 { Some(-2) } else { None }
        );
        assert!(rt;
            member_is(index.member(&EVERY, number), number, *tag),
            "member of {number}"
        );
    }
    Ok(())
}

#[test]
fn each_cut_of_a_pool_is_short(rt: HostRuntime) -> Result<(), Fail> {
    for (at, place) in CUT.iter().enumerate() {
        let fault = read(rt.alloc(), &EVERY[..at]).err();
        assert_eq!(rt; fault, Some(PoolFault::Short { at: *place }), "cut at {at}");
    }
    Ok(())
}

/// `EVERY` with one more entry, of number 19 and with its tag at 94.
fn with_entry(alloc: Global, entry: &[u8]) -> Result<Vec<u8>, AllocError> {
    let mut bytes = Vec::from_slice(alloc, &EVERY[..94])?;
    bytes[1] = 20;
    bytes.extend_from_slice(entry)?;
    Ok(bytes)
}

/// The tag, its number that is tried and the other one where it has two, whether the first is tried, and
/// the tag that is wanted there.
static REFERENCES: [(u8, Option<u8>, bool, u8); 10] = [
    (7, None, true, 1),
    (8, None, true, 1),
    (9, Some(13), true, 7),
    (9, Some(8), false, 12),
    (10, Some(13), true, 7),
    (10, Some(8), false, 12),
    (11, Some(13), true, 7),
    (11, Some(8), false, 12),
    (12, Some(1), true, 1),
    (12, Some(1), false, 1),
];

#[test]
fn an_entry_names_entries_of_the_wanted_tag(rt: HostRuntime) -> Result<(), Fail> {
    for (tag, other, is_first, wanted) in &REFERENCES {
        for number in 0_u8..21 {
            let entry = match other {
                None => [*tag, 0, number, 77, 77],
                Some(other) => {
                    if *is_first {
                        [*tag, 0, number, 0, *other]
                    } else {
                        [*tag, 0, *other, 0, number]
                    }
                }
            };
            let bytes = with_entry(rt.alloc(), &entry)?;
            let has = if number == 19 {
                *tag
            } else {
                TAGS.get(usize::from(number)).copied().unwrap_or(0)
            };
            let want = if has == *wanted {
                None
            } else {
                Some(PoolFault::Index { at: 94 })
            };
            assert_eq!(rt;
                read(rt.alloc(), &bytes).err(),
                want,
                "tag {tag}, number {number}"
            );
        }
    }
    Ok(())
}

/// Pools, each with its fault or the place behind it.
static POOLS: [(&[u8], Result<u64, PoolFault>); 16] = [
    (&[0, 0], Err(PoolFault::Pool { at: 0 })),
    (&[0, 0, 1], Err(PoolFault::Pool { at: 0 })),
    (&[0, 1], Ok(2)),
    (&[0, 1, 99], Ok(2)),
    (&[0, 2, 1, 0, 0], Ok(5)),
    (&[0, 2, 0, 0, 0], Err(PoolFault::Pool { at: 2 })),
    (&[0, 2, 2, 0, 0], Err(PoolFault::Pool { at: 2 })),
    (&[0, 2, 13, 0, 0], Err(PoolFault::Pool { at: 2 })),
    (&[0, 2, 14], Err(PoolFault::Pool { at: 2 })),
    (&[0, 2, 17], Err(PoolFault::Pool { at: 2 })),
    (&[0, 2, 19], Err(PoolFault::Pool { at: 2 })),
    // a Long and a Double as the last number, with their bytes and without
    (
        &[0, 2, 5, 0, 0, 0, 0, 0, 0, 0, 0],
        Err(PoolFault::Pool { at: 2 }),
    ),
    (&[0, 2, 6], Err(PoolFault::Pool { at: 2 })),
    (
        &[0, 3, 6, 0, 0, 0, 0, 0, 0, 0],
        Err(PoolFault::Short { at: 3 }),
    ),
    (&[0, 3, 6, 0, 0, 0, 0, 0, 0, 0, 0], Ok(11)),
    // two wrong references, of which the first counts, and one before a fault of a later entry
    (&[0, 3, 7, 0, 2, 7, 0, 1], Err(PoolFault::Index { at: 2 })),
];

#[test]
fn pools_have_their_first_fault(rt: HostRuntime) -> Result<(), Fail> {
    for (bytes, want) in &POOLS {
        let got = match read(rt.alloc(), bytes) {
            Ok((_, at)) => Ok(at),
            Err(fault) => Err(fault),
        };
        assert_eq!(rt; got, *want, "{bytes:?}");
    }
    // the entries come before what they name
    let late = read(rt.alloc(), &[0, 3, 7, 0, 9, 2]).err();
    assert_eq!(rt; late, Some(PoolFault::Pool { at: 5 }));
    Ok(())
}

/// As many numbers as there can be, each of an Integer, the last of them 5.
fn integers(alloc: Global) -> Result<Vec<u8>, AllocError> {
    let mut out = Out::new(alloc);
    out.u2(65_535)?;
    for _ in 1_u16..65_534 {
        out.slice(&[3, 0, 0, 0, 0])?;
    }
    out.slice(&[3, 0, 0, 0, 5])?;
    Ok(out.into_bytes())
}

/// A text of 65,535 letters.
fn long_text(alloc: Global) -> Result<Vec<u8>, AllocError> {
    let mut out = Out::new(alloc);
    out.slice(&[0, 2, 1])?;
    out.u2(65_535)?;
    for _ in 0_u16..65_535 {
        out.u1(b'x')?;
    }
    Ok(out.into_bytes())
}

#[test]
fn pools_are_as_large_as_they_can_be(rt: HostRuntime) -> Result<(), Fail> {
    let bytes = integers(rt.alloc())?;
    let (index, at) = read(rt.alloc(), &bytes)?;
    assert_eq!(rt; index.count(), 65_535);
    assert_eq!(rt; at, 327_672);
    assert_eq!(rt; index.integer(&bytes, 65_533), Some(0));
    assert_eq!(rt; index.integer(&bytes, 65_534), Some(5));
    assert_eq!(rt; index.integer(&bytes, 65_535), None);
    let bytes = long_text(rt.alloc())?;
    let (index, at) = read(rt.alloc(), &bytes)?;
    assert_eq!(rt; at, 65_540);
    assert_eq!(rt; index.utf8(&bytes, 1).map(|text| text.len()), Some(65_535));
    let cut = bytes.get(..65_539).unwrap_or(&[]);
    assert_eq!(rt;
        read(rt.alloc(), cut).err(),
        Some(PoolFault::Short { at: 5 })
    );
    Ok(())
}

/// A class file of one class T with one static method f of an int.
static FILE: [u8; 107] = [
    202, 254, 186, 190, 0, 0, 0, 52, 0, 8, 1, 0, 1, 84, 7, 0, 1, 1, 0, 16, 106, 97, 118, 97, 47,
    108, 97, 110, 103, 47, 79, 98, 106, 101, 99, 116, 7, 0, 3, 1, 0, 1, 102, 1, 0, 4, 40, 73, 41,
    73, 1, 0, 4, 67, 111, 100, 101, 0, 33, 0, 2, 0, 4, 0, 0, 0, 0, 0, 1, 0, 9, 0, 5, 0, 6, 0, 1, 0,
    7, 0, 0, 0, 22, 0, 2, 0, 1, 0, 0, 0, 10, 26, 16, 10, 164, 0, 5, 4, 172, 3, 172, 0, 0, 0, 0, 0,
    0,
];

/// A byte of the file that is another, and the fault of the pool then.
static CHANGES: [(usize, u8, PoolFault); 3] = [
    (9, 0, PoolFault::Pool { at: 8 }),
    (10, 2, PoolFault::Pool { at: 10 }),
    (16, 9, PoolFault::Index { at: 14 }),
];

/// The fault of the pool of a class file.
fn fault_behind_the_version(alloc: Global, bytes: &[u8]) -> Result<Option<PoolFault>, Fail> {
    let mut cursor = Cursor::new(bytes);
    cursor.slice(8)?;
    Ok(read_pool(alloc, &mut cursor).err())
}

#[test]
fn a_pool_stands_at_its_place_in_the_file(rt: HostRuntime) -> Result<(), Fail> {
    for (at, byte, want) in &CHANGES {
        let mut bytes = Vec::from_slice(rt.alloc(), &FILE)?;
        bytes[*at] = *byte;
        assert_eq!(rt;
            fault_behind_the_version(rt.alloc(), &bytes)?,
            Some(*want),
            "{at}"
        );
    }
    assert_eq!(rt; fault_behind_the_version(rt.alloc(), &FILE)?, None);
    let mut cursor = Cursor::new(&FILE);
    cursor.slice(8)?;
    let pool = read_pool(rt.alloc(), &mut cursor)?;
    assert_eq!(rt; cursor.at(), 57);
    assert_eq!(rt; pool.class_name(4), Some(OBJECT));
    assert_eq!(rt; pool.into_index().utf8(&FILE, 6), Some(b"(I)I".as_slice()));
    Ok(())
}
