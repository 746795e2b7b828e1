//! A constant pool, and which opcodes take its numbers.

use crate::telling::{Asked, compare, told};
use ms_pool::{Cursor, Out, Pool, read_pool};
use std::alloc::{AllocError, Global};
use std::fmt::Write;
use std::test::Fail;

/// The first entries, of the numbers 1 to 11, without the count.
static FIRST: &[u8] = &[
    3, 0, 0, 0, 7, // 1: Integer
    8, 0, 3, // 2: String
    1, 0, 1, 120, // 3: Utf8
    4, 63, 192, 0, 0, // 4: Float
    5, 0, 0, 0, 0, 0, 0, 0, 9, // 5: Long
    6, 0, 0, 0, 0, 0, 0, 0, 9, // 7: Double
    16, 0, 3, // 9: MethodType
    15, 6, 0, 99, // 10: MethodHandle
    18, 0, 0, 0, 99, // 11: InvokeDynamic
];

/// The opcodes that take the numbers from 0 to 11, and what a handler catches that has the number.
static TAKERS: [&str; 12] = [
    "caught Throwable",
    "ldc ldc_w ",
    "ldc ldc_w ",
    "",
    "",
    "",
    "",
    "",
    "",
    "",
    "",
    "",
];

/// Names of classes, and the same of the number of a Class of that name. Each has two numbers, from 12
/// on: that of the name, and that of the Class.
static CLASSES: [(&str, &str); 25] = [
    ("java/lang/Throwable", "new caught Throwable"),
    ("java/lang/Exception", "new caught Exception"),
    ("java/lang/Error", "new caught Error"),
    ("java/lang/RuntimeException", "new caught RuntimeException"),
    ("java/lang/ArithmeticException", "new caught Arithmetic"),
    (
        "java/lang/IndexOutOfBoundsException",
        "new caught IndexOutOfBounds",
    ),
    (
        "java/lang/NegativeArraySizeException",
        "new caught NegativeArraySize",
    ),
    ("java/lang/NullPointerException", "new caught NullPointer"),
    (
        "java/lang/IllegalArgumentException",
        "new caught IllegalArgument",
    ),
    ("java/lang/IllegalStateException", "new caught IllegalState"),
    (
        "java/lang/UnsupportedOperationException",
        "new caught UnsupportedOperation",
    ),
    (
        "java/lang/ArrayIndexOutOfBoundsException",
        "new caught ArrayIndexOutOfBounds",
    ),
    ("T", ""),
    ("java/lang/Object", ""),
    ("java/lang/String", ""),
    ("java/lang/ClassCastException", ""),
    ("java/lang/StackOverflowError", ""),
    ("java/lang/Throwabl", ""),
    ("java/lang/Throwables", ""),
    ("java/lang/throwable", ""),
    ("java.lang.Throwable", ""),
    ("Throwable", ""),
    ("Ljava/lang/Error;", ""),
    ("[Ljava/lang/Error;", ""),
    ("", ""),
];

/// Members: the tag, the number of the class, the name, the descriptor, and the opcodes that take the
/// number. Each has four numbers, from 62 on, of which the last is the member's.
static MEMBERS: [(u8, u16, &str, &str, &str); 73] = [
    (9, 37, "f", "Z", "getstatic putstatic "),
    (9, 37, "f", "B", "getstatic putstatic "),
    (9, 37, "f", "C", "getstatic putstatic "),
    (9, 37, "f", "S", "getstatic putstatic "),
    (9, 37, "f", "I", "getstatic putstatic "),
    (9, 37, "f", "[I", "getstatic putstatic "),
    (9, 37, "f", "J", ""),
    (9, 37, "f", "F", ""),
    (9, 37, "f", "D", ""),
    (9, 37, "f", "Ljava/lang/String;", ""),
    (9, 37, "f", "[J", ""),
    (9, 37, "f", "[Z", ""),
    (9, 37, "f", "[[I", ""),
    (9, 37, "f", "V", ""),
    (9, 37, "f", "[", ""),
    (9, 37, "f", "", ""),
    (9, 37, "f", "II", ""),
    (9, 37, "f", "[II", ""),
    (9, 37, "f", "i", ""),
    (10, 37, "m", "()V", "invokestatic "),
    (10, 37, "m", "(I)I", "invokestatic "),
    (10, 37, "m", "(ZBCSI[I)[I", "invokestatic "),
    (10, 37, "m", "([I[I)Z", "invokestatic "),
    (10, 37, "m", "(II)B", "invokestatic "),
    (10, 37, "m", "()C", "invokestatic "),
    (10, 37, "m", "()S", "invokestatic "),
    (10, 37, "m", "(J)V", ""),
    (10, 37, "m", "(D)I", ""),
    (10, 37, "m", "()J", ""),
    (10, 37, "m", "()F", ""),
    (10, 37, "m", "(Ljava/lang/String;)V", ""),
    (10, 37, "m", "()Ljava/lang/String;", ""),
    (10, 37, "m", "([J)V", ""),
    (10, 37, "m", "([[I)V", ""),
    (10, 37, "m", "()[[I", ""),
    (10, 37, "m", "()[J", ""),
    (10, 37, "m", "([Z)V", ""),
    (10, 37, "m", "(V)V", ""),
    (10, 37, "m", "()VV", ""),
    (10, 37, "m", "()II", ""),
    (10, 37, "m", "()", ""),
    (10, 37, "m", "(I", ""),
    (10, 37, "m", "I)V", ""),
    (10, 37, "m", "([)V", ""),
    (10, 37, "m", "", ""),
    (10, 37, "m", "(", ""),
    (10, 37, "m", ")V", ""),
    (10, 37, "m", "(I))V", ""),
    (10, 37, "m", "([I[)V", ""),
    (10, 37, "m", "()[", ""),
    (10, 37, "m", "I", ""),
    (10, 37, "m", "((I)V", ""),
    (10, 37, "m", "(I)V ", ""),
    (11, 37, "m", "()V", ""),
    (9, 37, "m", "()V", ""),
    (10, 37, "f", "I", ""),
    (10, 13, "<init>", "()V", "invokespecial invokestatic "),
    (10, 35, "<init>", "(Ljava/lang/String;)V", "invokespecial "),
    (10, 17, "<init>", "(I)V", "invokestatic "),
    (10, 17, "<init>", "(Ljava/lang/Throwable;)V", ""),
    (10, 39, "<init>", "()V", "invokestatic "),
    (10, 37, "<init>", "()V", "invokestatic "),
    (10, 43, "<init>", "()V", "invokestatic "),
    (10, 13, "fill", "()V", "invokestatic "),
    (10, 13, "init", "()V", "invokestatic "),
    (10, 13, "<clinit>", "()V", "invokestatic "),
    (10, 13, "<init>", "()I", "invokestatic "),
    (10, 13, "<init>", "(Ljava/lang/String;)", ""),
    (10, 13, "<init>", "(Ljava/lang/Object;)V", ""),
    (10, 13, "<init>", "(Ljava/lang/String;I)V", ""),
    (11, 13, "<init>", "()V", ""),
    (11, 13, "<init>", "(Ljava/lang/String;)V", ""),
    (9, 13, "<init>", "I", "getstatic putstatic "),
];

/// The pool's count: 12, two for each class and four for each member.
const COUNT: u16 = 12 + 2 * 25 + 4 * 73;

fn utf8(out: &mut Out, text: &str) -> Result<(), AllocError> {
    let [high, low] = u16::try_from(text.len()).unwrap_or(0).to_be_bytes();
    out.slice(&[1, high, low])?;
    out.slice(text.as_bytes())
}

/// Writes the classes. The first of them has this number.
fn classes(out: &mut Out, first: u16) -> Result<(), AllocError> {
    let mut number = first;
    for (name, _) in &CLASSES {
        let [high, low] = number.to_be_bytes();
        utf8(out, name)?;
        out.slice(&[7, high, low])?;
        number = number.saturating_add(2);
    }
    Ok(())
}

/// Writes the members. The name of the first of them has this number.
fn members(out: &mut Out, first: u16) -> Result<(), AllocError> {
    let mut number = first;
    for (tag, class, name, desc, _) in &MEMBERS {
        let [name_high, name_low] = number.to_be_bytes();
        let [desc_high, desc_low] = number.saturating_add(1).to_be_bytes();
        let [both_high, both_low] = number.saturating_add(2).to_be_bytes();
        let [class_high, class_low] = class.to_be_bytes();
        utf8(out, name)?;
        utf8(out, desc)?;
        out.slice(&[12, name_high, name_low, desc_high, desc_low])?;
        out.slice(&[*tag, class_high, class_low, both_high, both_low])?;
        number = number.saturating_add(4);
    }
    Ok(())
}

/// The bytes of the pool.
pub fn pool_bytes(alloc: Global) -> Result<Vec<u8>, AllocError> {
    let mut out = Out::new(alloc);
    out.u2(COUNT)?;
    out.slice(FIRST)?;
    classes(&mut out, 12)?;
    members(&mut out, 62)?;
    Ok(out.into_bytes())
}

/// Opcodes with a number of the pool in two bytes, by their names.
static TAKING: [(&str, u8); 6] = [
    ("ldc_w ", 19),
    ("getstatic ", 178),
    ("putstatic ", 179),
    ("invokespecial ", 183),
    ("invokestatic ", 184),
    ("new ", 187),
];

/// Adds the name of an opcode, where it takes its number.
fn tell_taker(
    alloc: Global,
    text: &mut String,
    pool: &Pool<'_>,
    name: &str,
    code: &[u8],
) -> Result<(), AllocError> {
    let told = told(alloc, pool, code, &[], Asked::All)?;
    if told.as_str() != "foreign" {
        text.push_str(name)?;
    }
    Ok(())
}

/// Adds what a handler catches that has the number.
fn tell_caught(
    alloc: Global,
    text: &mut String,
    pool: &Pool<'_>,
    number: u16,
) -> Result<(), AllocError> {
    let told = told(alloc, pool, &[177], &[(0, 1, 0, number)], Asked::All)?;
    if let Some(caught) = told.as_str().strip_prefix("0: 177; 0 to 1 at 0 ") {
        write!(text, "caught {caught}")?;
    }
    Ok(())
}

/// Adds what takes the number.
fn tell_takers(
    alloc: Global,
    text: &mut String,
    pool: &Pool<'_>,
    number: u16,
) -> Result<(), AllocError> {
    let [high, low] = number.to_be_bytes();
    if high == 0 {
        tell_taker(alloc, text, pool, "ldc ", &[18, low])?;
    }
    for (name, op) in &TAKING {
        tell_taker(alloc, text, pool, name, &[*op, high, low])?;
    }
    tell_caught(alloc, text, pool, number)
}

/// Adds the number, where it isn't taken as wanted.
fn differ(
    alloc: Global,
    differing: &mut String,
    pool: &Pool<'_>,
    number: u16,
    want: &str,
) -> Result<(), AllocError> {
    let mut text = String::new(alloc);
    tell_takers(alloc, &mut text, pool, number)?;
    compare(differing, number, text.as_str(), want)
}

/// Adds each number below 62 that isn't taken as wanted.
fn classes_differ(
    alloc: Global,
    differing: &mut String,
    pool: &Pool<'_>,
) -> Result<(), AllocError> {
    for (number, want) in (0_u16..12).zip(&TAKERS) {
        differ(alloc, differing, pool, number, want)?;
    }
    let mut number: u16 = 12;
    for (_, want) in &CLASSES {
        differ(alloc, differing, pool, number, "")?;
        differ(alloc, differing, pool, number.saturating_add(1), want)?;
        number = number.saturating_add(2);
    }
    Ok(())
}

/// Adds each number from 62 on that isn't taken as wanted.
fn members_differ(
    alloc: Global,
    differing: &mut String,
    pool: &Pool<'_>,
) -> Result<(), AllocError> {
    let mut number: u16 = 62;
    for (_, _, _, _, want) in &MEMBERS {
        differ(alloc, differing, pool, number, "")?;
        differ(alloc, differing, pool, number.saturating_add(1), "")?;
        differ(alloc, differing, pool, number.saturating_add(2), "")?;
        differ(alloc, differing, pool, number.saturating_add(3), want)?;
        number = number.saturating_add(4);
    }
    differ(alloc, differing, pool, number, "")?;
    differ(alloc, differing, pool, 65_535, "")
}

/// What differs.
fn differing(alloc: Global) -> Result<String, Fail> {
    let bytes = pool_bytes(alloc)?;
    let mut cursor = Cursor::new(&bytes);
    let pool = read_pool(alloc, &mut cursor)?;
    let mut differing = String::new(alloc);
    classes_differ(alloc, &mut differing, &pool)?;
    members_differ(alloc, &mut differing, &pool)?;
    Ok(differing)
}

#[test]
fn opcodes_take_numbers_of_the_pool(rt: HostRuntime) -> Result<(), Fail> {
    let differing = differing(rt.alloc())?;
    assert!(rt; differing.is_empty(), "{differing}");
    Ok(())
}
