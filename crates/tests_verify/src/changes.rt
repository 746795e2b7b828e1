//! Classes that a compiler made, and what comes of changes in them.

use crate::compiled::SAMPLE;
use crate::telling::{compare, outcome, short_outcome, tell_program};
use ms_program::Program;
use std::alloc::{AllocError, Global};
use std::fmt::Write;
use std::test::Fail;
use tests_files::javac;

/// How many files there are.
const FILES: u16 = 16;

/// The file of this number.
fn file(number: u16) -> &'static [u8] {
    match number {
        0 => &javac::HELLO,
        1 => &javac::LOOPS,
        2 => &javac::CONSTANTS,
        3 => &javac::TRIES,
        4 => &javac::SWITCHES,
        5 => &javac::BOXES,
        6 => &javac::LAMBDAS,
        7 => &javac::OUTER,
        8 => &javac::OUTER_INNER,
        9 => &javac::OUTER_NESTED,
        10 => &javac::SHAPE,
        11 => &javac::MARKED,
        12 => &javac::LONGS,
        13 => &javac::COLOUR,
        14 => &javac::MINE,
        _ => &SAMPLE,
    }
}

/// What is said of each file, and behind them of the program of all those that are class files.
const WHOLE: &str =
    "ok; ok; ok; ok; ok; ok; ok; ok; ok; ok; ok; ok; ok; no class file: Super at 437; no class file: Super at 99; ok; ok";

/// What is said of all files.
fn files_told(alloc: Global) -> Result<String, AllocError> {
    let mut text = String::new(alloc);
    let mut program = Program::new(alloc);
    for number in 0..FILES {
        let file = Vec::from_slice(alloc, file(number))?;
        let _ = program.add(alloc, file.clone()?);
        let said = outcome(alloc, file)?;
        let said = said.as_str();
        write!(text, "{said}; ")?;
    }
    tell_program(alloc, &mut text, program)?;
    Ok(text)
}

/// Methods: the number of the file, where the contents of the method's Code begin, and how many bytes they have
/// up to the end of the table of handlers.
static PLACES: [(u16, u32, u32); 13] = [
    (1, 174, 35), // Loops.sum
    (1, 238, 22), // Loops.odd
    (2, 513, 25), // Constants.<clinit>
    (3, 302, 58), // Tries.f
    (3, 392, 20), // Tries.g
    (4, 166, 48), // Switches.t
    (4, 242, 44), // Switches.l
    (12, 206, 19), // Longs.wide
    (15, 663, 51), // Sample.find
    (15, 751, 122), // Sample.step
    (15, 905, 158), // Sample.put
    (15, 1111, 96), // Sample.same
    (15, 1258, 18), // Sample.<clinit>
];

/// What is said of each method with one bit changed, in two lines for each method and at fifty places for each line:
/// `.` where the class is verified, `f` where it is no class file, else the offset of the fault and its first letter.
const CHANGED: &str = "
    .13Df....8L20Dff..1L..12L..fff....1Kf...8L.17K..f...f.f.....f.
    f..f..1Lffff.f13D.f.ff24L..ff.f20D.......17Kf...6L.ff......1K
    0D.f.0Dfff11L.ff..ff..f7Df1L.f..f0D.f.f..2Df.f.ff...fffff.
    .f.2Df.7D.ff.0Dfff.f2D.f.ff..fff..fff.fff7Df.f.f.fff...
    .ff..f..3L...ff.....f.f.f....f......ff14Df...fff.....
    .ff.....f....ff10L5Lf...f..f10K....f14D...f..f.f.......7D.
    ff22Df..f.f.ffff.f.ff.ff.f3K.fffff.ffff19L.16D....f8L.4Df.2L
    ..5Lffffff.f.12Dfffff.f.fff.ff5Lfffff8Lf.f.11Dfff.13Lfff.ff
    .f.f.3Df..f.f......f..........ff.f..f.......f.....f
    ...f..........f....f.f.fff.f....f...3Dfff.ff..fff..
    32D...fff..ff..f32Df.f.fff.f29Df.29Mfff32D..f..ff.fffffff.ff
    f.ffffffffff.f36M..fff.ff.ffffff.fff29Dff.ffff.f...f1M.
    .30L...ffffff.f.fff..f.ff..f..ffff...f..fff.f.f.fff.
    ..f..f.f...fff.29Df.ff.f..fff....f.fff..fff...ff....
    f...f.....ff.f...f.f.f5Df......f....f.ffff..f.8L5L..f
    .fff..f.f.....f.4Lf.ff.f.f..ff...fff..4L.fff..f.0D.ff
    .ff1Lf.f.39Dff2D.f..ff.11Df...f..35D..f..ff...15L.f36M36M...f6D.25L
    ff..15Lf...ffffff4D.f....f10D...f.33L.....f..ff.0D17K.f...f.
    .fff...40Mf..f.37M..f.ff..f.37D...ff61K...f..f..fff40M...f.f
    .ff105D.f..f54Mff...37D105L.f....fffff55L..f.f.110D101Lff44Df..f.ff..f
    ..f....f..f.107M...f.ff..f32D30L.f56Df.65K.59Lff24K..f..f...f89K51D..
    .107Dfff.ffff.f..ff.50D.f...32Df41Kf.........f............99K
    ff.f48Lf..6Kf45Dff..ff..13Mff.ff.fff..ff25Kf.ffff.f.f.5Dfff.
    f..f..48M.ff15D19Lf48M37K45Kf.fff45Dfff.f.ff37Kfffffff13Mff6K.fffff31D.
    ......f..f.ff.f......ff..ffff.....f..f.f...f.....f
    ff..ff.f..4Kfff.f.ff..f...ff..f...f....ffff..f..f..
";

/// The next number.
fn next(number: u32) -> u32 {
    number.wrapping_mul(1_103_515_245).wrapping_add(12_345)
}

/// A file in which a bit of a byte is another.
fn changed(alloc: Global, file: &[u8], place: usize, bit: u32) -> Result<Vec<u8>, AllocError> {
    let mut bytes = Vec::from_slice(alloc, file)?;
    if let Some(byte) = bytes.get_mut(place) {
        *byte ^= 1 << bit % 8;
    }
    Ok(bytes)
}

/// What is said of a method with fifty changes, and the last number that chose one.
fn changes_told(
    alloc: Global,
    (number, start, length): (u16, u32, u32),
    seed: u32,
) -> Result<(String, u32), AllocError> {
    let mut text = String::new(alloc);
    let mut seed = seed;
    for _ in 0..50 {
        seed = next(seed);
        let place = start.saturating_add((seed >> 16) % length.max(1));
        seed = next(seed);
        let bytes = changed(alloc, file(number), place as usize, seed >> 16)?;
        text.push_str(short_outcome(alloc, bytes)?.as_str())?;
    }
    Ok((text, seed))
}

/// What differs.
fn changes_differ(alloc: Global) -> Result<String, AllocError> {
    let mut differing = String::new(alloc);
    let mut lines = CHANGED.trim().lines();
    for (method, row) in PLACES.iter().zip(0_u32..) {
        let mut seed = row;
        for _ in 0..2 {
            let (text, last) = changes_told(alloc, *method, seed)?;
            seed = last;
            let want = lines.next().unwrap_or("").trim();
            compare(&mut differing, "changes", text.as_str(), want)?;
        }
    }
    Ok(differing)
}

#[test]
fn compiled_classes_are_verified(rt: HostRuntime) -> Result<(), Fail> {
    let text = files_told(rt.alloc())?;
    let mut differing = changes_differ(rt.alloc())?;
    compare(&mut differing, "files", text.as_str(), WHOLE)?;
    assert!(rt; differing.is_empty(), "{differing}");
    Ok(())
}
