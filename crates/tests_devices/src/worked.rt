//! The worked class file, and files that differ from it.

use std::alloc::{AllocError, Global};

/// The file of a class T whose one method, `f` of two ints, adds them.
pub static ADDS: [u8; 102] = [
    202, 254, 186, 190, 0, 0, 0, 52, 0, 8, 1, 0, 1, 84, 7, 0, 1, 1, 0, 16, 106, 97, 118, 97, 47,
    108, 97, 110, 103, 47, 79, 98, 106, 101, 99, 116, 7, 0, 3, 1, 0, 1, 102, 1, 0, 5, 40, 73, 73,
    41, 73, 1, 0, 4, 67, 111, 100, 101, 0, 33, 0, 2, 0, 4, 0, 0, 0, 0, 0, 1, 0, 9, 0, 5, 0, 6, 0,
    1, 0, 7, 0, 0, 0, 16, 0, 2, 0, 2, 0, 0, 0, 4, 26, 27, 96, 172, 0, 0, 0, 0, 0, 0,
];

/// Other bytes for some of the worked file's: the place of the first, how many they are, and what
/// stands there instead.
pub type Change = (usize, usize, &'static [u8]);

/// The worked file with these changes, which stand in the order of their places.
pub fn changed(alloc: Global, changes: &[Change]) -> Result<Vec<u8>, AllocError> {
    let mut file = Vec::new(alloc);
    let mut at = 0;
    for (place, removed, put) in changes {
        file.extend_from_slice(ADDS.get(at..*place).unwrap_or(&[]))?;
        file.extend_from_slice(put)?;
        at = place.saturating_add(*removed);
    }
    file.extend_from_slice(ADDS.get(at..).unwrap_or(&[]))?;
    Ok(file)
}

/// A number in four bytes, its highest byte first.
fn four(number: usize) -> [u8; 4] {
    [
        (number / 16_777_216 % 256) as u8,
        (number / 65_536 % 256) as u8,
        (number / 256 % 256) as u8,
        (number % 256) as u8,
    ]
}

/// The worked file with another descriptor, other limits and other code. The limits are below 65,536
/// and the descriptor is shorter.
pub fn thin(
    alloc: Global,
    descriptor: &[u8],
    max_stack: usize,
    max_locals: usize,
    code: &[u8],
) -> Result<Vec<u8>, AllocError> {
    let mut file = Vec::from_slice(alloc, &ADDS[..44])?;
    file.extend_from_slice(&four(descriptor.len())[2..])?;
    file.extend_from_slice(descriptor)?;
    file.extend_from_slice(&ADDS[51..80])?;
    file.extend_from_slice(&four(code.len().saturating_add(12)))?;
    file.extend_from_slice(&four(max_stack)[2..])?;
    file.extend_from_slice(&four(max_locals)[2..])?;
    file.extend_from_slice(&four(code.len()))?;
    file.extend_from_slice(code)?;
    file.extend_from_slice(&ADDS[96..])?;
    Ok(file)
}

/// The worked file with one more attribute of the class, of so many bytes.
pub fn lengthened(alloc: Global, size: usize) -> Result<Vec<u8>, AllocError> {
    let mut file = Vec::from_slice(alloc, &ADDS[..100])?;
    file.extend_from_slice(&[0, 1, 0, 1])?;
    file.extend_from_slice(&four(size))?;
    for _ in 0..size {
        file.push(0)?;
    }
    Ok(file)
}

/// The line that calls a method of this descriptor with these words.
pub fn line_for(alloc: Global, descriptor: &str, words: &str) -> Result<String, AllocError> {
    format!(in alloc; "once T.class f {descriptor}{words}")
}
