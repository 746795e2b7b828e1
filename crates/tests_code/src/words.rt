//! The operators of words, signatures of descriptors, and the tree of throwables. The expected words were computed by a Java virtual machine (JVMS SE 8, section
//! 6.5); no such machine divides by zero.

use ms_words::{Bin, FieldType, Signature, Thrown, Un, apply1, apply2, known_signature};
use std::alloc::{AllocError, Global};
use std::fmt::Write;
use std::test::Fail;

/// The words of each operator of two words, of 7 and -2, -7 and 2, -2^31 and -1, 65,536 and 65,537, -1 and
/// 33, 200 and 31.
static OF_TWO: &str = "\
    5 -5 2147483647 131073 32 231; 9 -9 -2147483647 -1 -34 169; -14 -14 -2147483648 65536 -33 6200; \
    -3 -3 -2147483648 0 0 6; 1 -1 0 65536 -1 14; -1073741824 -28 0 131072 -2 0; 0 -2 -1 32768 -1 0; \
    0 1073741822 1 32768 2147483647 0; 6 0 -2147483648 65536 33 8; -1 -5 -1 65537 -1 223; \
    -7 -5 2147483647 1 -34 215; ";

/// The words of each operator of one word, of 200, -1, 70,000, 40,000, -2^31 and -129.
static OF_ONE: &str = "\
    -200 1 -70000 -40000 -2147483648 129; -56 -1 112 64 0 127; 200 65535 4464 40000 0 65407; \
    200 -1 4464 -25536 0 -129; ";

/// Adds a word, behind a space unless it is the first.
fn add(text: &mut String, i: usize, word: i32) -> Result<(), AllocError> {
    if i == 0 {
        write!(text, "{word}")
    } else {
        write!(text, " {word}")
    }
}

/// What each operator of two words gives.
fn of_two(alloc: Global) -> Result<String, AllocError> {
    let mut text = String::new(alloc);
    let ops = [
        Bin::Add,
        Bin::Sub,
        Bin::Mul,
        Bin::Div,
        Bin::Rem,
        Bin::Shl,
        Bin::Shr,
        Bin::Ushr,
        Bin::And,
        Bin::Or,
        Bin::Xor,
    ];
    let words = [
        (7, -2),
        (-7, 2),
        (i32::MIN, -1),
        (65_536, 65_537),
        (-1, 33),
        (200, 31),
    ];
    for op in ops {
        for (i, (a, b)) in words.iter().enumerate() {
            add(&mut text, i, apply2(op, *a, *b))?;
        }
        text.push_str("; ")?;
    }
    Ok(text)
}

/// What each operator of one word gives.
fn of_one(alloc: Global) -> Result<String, AllocError> {
    let mut text = String::new(alloc);
    for op in [Un::Neg, Un::I2b, Un::I2c, Un::I2s] {
        let words = [200, -1, 70_000, 40_000, i32::MIN, -129];
        for (i, a) in words.iter().enumerate() {
            add(&mut text, i, apply1(op, *a))?;
        }
        text.push_str("; ")?;
    }
    Ok(text)
}

#[test]
fn operators_compute_as_the_machine(rt: HostRuntime) -> Result<(), Fail> {
    let two = of_two(rt.alloc())?;
    assert!(rt; two.as_str() == OF_TWO, "{two}");
    let one = of_one(rt.alloc())?;
    assert!(rt; one.as_str() == OF_ONE, "{one}");
    Ok(())
}

/// Adds a type, as a descriptor spells it.
fn tell_type(text: &mut String, field_type: FieldType) -> Result<(), AllocError> {
    match field_type {
        FieldType::Int(kind) => write!(text, "{kind:?} "),
        FieldType::IntArray => text.push_str("[I "),
    }
}

/// Adds what a method takes and returns.
fn tell_signature(text: &mut String, signature: &Signature) -> Result<(), AllocError> {
    for field_type in signature.parameters() {
        tell_type(text, *field_type)?;
    }
    text.push_str("to ")?;
    match signature.result() {
        Some(field_type) => tell_type(text, field_type),
        None => text.push_str("nothing "),
    }
}

/// What methods with these descriptors take and return.
fn signatures(alloc: Global) -> Result<String, AllocError> {
    let mut text = String::new(alloc);
    let descriptors = [
        b"()V".as_slice(),
        b"(I[IZ)[I",
        b"([I[IBCS)I",
        b"(J)I",
        b"([[I)V",
        b"(I)VV",
        b"(I",
        b"I",
        b"",
    ];
    for descriptor in descriptors {
        match known_signature(alloc, descriptor)? {
            Some(signature) => tell_signature(&mut text, &signature)?,
            None => text.push_str("unknown ")?,
        }
        text.push_str("; ")?;
    }
    Ok(text)
}

#[test]
fn signatures_are_read(rt: HostRuntime) -> Result<(), Fail> {
    let text = signatures(rt.alloc())?;
    let wanted = "to nothing ; I [I Z to [I ; [I [I B C S to I ; unknown ; unknown ; unknown ; \
        unknown ; unknown ; unknown ; ";
    assert!(rt; text.as_str() == wanted, "{text}");
    Ok(())
}

/// What some throwables are, as the documentation of `java.lang` has it.
fn lineages(alloc: Global) -> Result<String, AllocError> {
    let mut text = String::new(alloc);
    let classes = [
        Thrown::Throwable,
        Thrown::Exception,
        Thrown::Error,
        Thrown::RuntimeException,
        Thrown::Arithmetic,
        Thrown::IndexOutOfBounds,
        Thrown::NegativeArraySize,
        Thrown::NullPointer,
        Thrown::IllegalArgument,
        Thrown::IllegalState,
        Thrown::UnsupportedOperation,
        Thrown::ArrayIndexOutOfBounds,
    ];
    for class in [
        Thrown::ArrayIndexOutOfBounds,
        Thrown::Error,
        Thrown::IllegalState,
        Thrown::Throwable,
    ] {
        for other in classes {
            if class.is_a(other) {
                write!(text, "{other:?} ")?;
            }
        }
        text.push_str("; ")?;
    }
    Ok(text)
}

#[test]
fn throwables_stand_below_others(rt: HostRuntime) -> Result<(), Fail> {
    let text = lineages(rt.alloc())?;
    let wanted = "Throwable Exception RuntimeException IndexOutOfBounds ArrayIndexOutOfBounds ; \
        Throwable Error ; Throwable Exception RuntimeException IllegalState ; Throwable ; ";
    assert!(rt; text.as_str() == wanted, "{text}");
    Ok(())
}
