//! The codes of the compiled classes: how many instructions each has, or that it is foreign, as `javap -c`
//! lists them.

use crate::javac;
use ms_classfile::{MethodRow, read_class};
use ms_code::{Coded, Decoded, decode};
use ms_pool::{CodeRow, Pool};
use std::alloc::Global;
use std::fmt::Write;
use std::test::Fail;

/// How many instructions a code has.
fn count(decoded: &Decoded) -> u32 {
    let mut count: u32 = 0;
    let mut offset = 0;
    for _ in 0..u16::MAX {
        if decoded.at(offset).is_none() {
            break;
        }
        count = count.saturating_add(1);
        match decoded.next(offset) {
            Some(next) => offset = next,
            None => break,
        }
    }
    count
}

/// Adds what is said of a code.
fn tell_code(
    alloc: Global,
    text: &mut String,
    row: &CodeRow<'_>,
    pool: &Pool<'_>,
) -> Result<(), Fail> {
    if row.code.len() > 65_535 || row.code_at > 1_000_000 || row.table_at > 1_000_000 {
        return Ok(());
    }
    if row.table.rows().len() > 65_535 {
        return Ok(());
    }
    match decode(alloc, row, pool)? {
        Coded::Decoded(decoded) => {
            let count = count(&decoded);
            write!(text, " {count}, ")?;
        }
        Coded::Foreign => text.push_str(" foreign, ")?,
    }
    Ok(())
}

/// Adds what is said of a method.
fn tell_method(
    alloc: Global,
    text: &mut String,
    method: &MethodRow<'_>,
    pool: &Pool<'_>,
) -> Result<(), Fail> {
    text.push_str(str::from_utf8(method.name)?)?;
    match &method.code {
        Some(row) => tell_code(alloc, text, row, pool)?,
        None => text.push_str(" none, ")?,
    }
    Ok(())
}

/// Adds what is said of the methods of a file.
fn tell_file(alloc: Global, text: &mut String, file: &[u8]) -> Result<(), Fail> {
    let class = read_class(alloc, file)?;
    for method in class.methods.rows() {
        tell_method(alloc, text, method, &class.pool)?;
    }
    text.push_str("\n")?;
    Ok(())
}

/// The files, and why a code of theirs is foreign.
fn tell_files(alloc: Global, text: &mut String) -> Result<(), Fail> {
    // the constructor of Object; a field of another type, invokevirtual
    tell_file(alloc, text, &javac::HELLO)?;
    // the constructor of Object, as in most of the others
    tell_file(alloc, text, &javac::LOOPS)?;
    tell_file(alloc, text, &javac::CONSTANTS)?;
    tell_file(alloc, text, &javac::TRIES)?;
    tell_file(alloc, text, &javac::SWITCHES)?;
    // getfield, invokeinterface; checkcast, invokevirtual
    tell_file(alloc, text, &javac::BOXES)?;
    // invokedynamic, twice; a field of another type
    tell_file(alloc, text, &javac::LAMBDAS)?;
    tell_file(alloc, text, &javac::OUTER)
}

/// The other files.
fn tell_more_files(alloc: Global, text: &mut String) -> Result<(), Fail> {
    // putfield
    tell_file(alloc, text, &javac::OUTER_INNER)?;
    tell_file(alloc, text, &javac::OUTER_NESTED)?;
    // abstract, without a code
    tell_file(alloc, text, &javac::SHAPE)?;
    // native, without a code; doubles
    tell_file(alloc, text, &javac::MARKED)?;
    // longs
    tell_file(alloc, text, &javac::LONGS)
}

#[test]
fn codes_of_compiled_classes_are_decoded_or_foreign(rt: HostRuntime) -> Result<(), Fail> {
    let mut text = String::new(rt.alloc());
    tell_files(rt.alloc(), &mut text)?;
    tell_more_files(rt.alloc(), &mut text)?;
    assert_eq!(rt; text.as_str(), CODES);
    Ok(())
}

/// What is said of each file, a line each.
const CODES: &str =
    "<init> foreign, main foreign, \n<init> foreign, sum 15, odd 8, \n<init> foreign, <clinit> 12, \n<init> foreign, f 17, g 5, \n<init> foreign, t 10, l 8, \n<init> foreign, compareTo foreign, compareTo foreign, \n<init> foreign, r foreign, f foreign, lambda$r$0 foreign, \n<init> foreign, \n<init> foreign, \n<init> foreign, \narea none, name 2, \n<init> foreign, n none, s 1, d foreign, \n<init> foreign, f foreign, wide 8, \n";
