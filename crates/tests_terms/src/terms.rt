//! Tables of terms.

use ms_terms::Terms;
use ms_words::{Bin, Input, Kind, Kinds, Un};
use std::alloc::{AllocError, Global};
use std::fmt::Write;
use std::test::Fail;

/// Whether the sum of two parameters, made twice, has one number; its parameters, and how many terms there are.
fn made_twice(alloc: Global) -> Result<String, AllocError> {
    let mut text = String::new(alloc);
    let mut terms = Terms::new(alloc);
    let p = terms.param(0, Kind::I)?;
    let q = terms.param(7, Kind::B)?;
    let sum = terms.binary(Bin::Add, p, q)?;
    let again = terms.binary(Bin::Add, p, q)?;
    let turned = terms.binary(Bin::Add, q, p)?;
    let one = sum == again;
    let other = sum == turned;
    let params = terms.params(sum);
    let count = terms.count();
    write!(text, "{one} {other} {params} {count}")?;
    Ok(text)
}

#[test]
fn equal_terms_have_one_number(rt: HostRuntime) -> Result<(), Fail> {
    let text = made_twice(rt.alloc())?;
    assert!(rt; text.as_str() == "true false 129 4", "{text}");
    Ok(())
}

/// The words of operators of constants, and of one with a parameter.
fn of_constants(alloc: Global) -> Result<String, AllocError> {
    let mut text = String::new(alloc);
    let mut terms = Terms::new(alloc);
    let p = terms.param(1, Kind::I)?;
    let least = terms.constant(i32::MIN)?;
    let negated = terms.unary(Un::Neg, least)?;
    let minus = terms.constant(-1)?;
    let quotient = terms.binary(Bin::Div, least, minus)?;
    let mixed = terms.binary(Bin::Mul, p, minus)?;
    let negated = terms.is_constant(negated).unwrap_or(0);
    let quotient = terms.is_constant(quotient).unwrap_or(0);
    let mixed_word = terms.is_constant(mixed).unwrap_or(0);
    let params = terms.params(mixed);
    let count = terms.count();
    write!(text, "{negated} {quotient} {mixed_word} {params} {count}")?;
    Ok(text)
}

#[test]
fn operators_of_constants_are_constants(rt: HostRuntime) -> Result<(), Fail> {
    let text = of_constants(rt.alloc())?;
    assert!(rt; text.as_str() == "-2147483648 -2147483648 0 2 4", "{text}");
    Ok(())
}

/// The word of (p0 - p1) as a byte, where p0 is 300 and p1 is 1, and where there is no p1.
fn valued(alloc: Global) -> Result<String, AllocError> {
    let mut text = String::new(alloc);
    let mut terms = Terms::new(alloc);
    let p = terms.param(0, Kind::I)?;
    let q = terms.param(1, Kind::I)?;
    let difference = terms.binary(Bin::Sub, p, q)?;
    let byte = terms.unary(Un::I2b, difference)?;
    let mut kinds = Kinds::new();
    let _ = kinds.push(Kind::I);
    if let Some(x) = Input::of(kinds, &[300]) {
        let word = terms.value(alloc, byte, &x)?;
        write!(text, "{word} ")?;
    }
    let _ = kinds.push(Kind::I);
    if let Some(x) = Input::of(kinds, &[300, 1]) {
        let word = terms.value(alloc, byte, &x)?;
        write!(text, "{word}")?;
    }
    Ok(text)
}

#[test]
fn terms_have_values(rt: HostRuntime) -> Result<(), Fail> {
    let text = valued(rt.alloc())?;
    assert!(rt; text.as_str() == "44 43", "{text}");
    Ok(())
}
