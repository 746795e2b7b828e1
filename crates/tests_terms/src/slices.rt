//! Slices.

use ms_pathcond::{
    Condition, Literal, Literals, least_inputs_are_put_together, slices_are_put_together, support,
    tables_that_grow_keep_slices, takers_make_slices_true,
};
use ms_terms::{Term, Terms};
use ms_words::{Kind, Rel};
use std::alloc::{AllocError, Global};
use std::fmt::Write;
use std::test::Fail;

/// Adds the relation of a literal, and its parameters.
fn tell(text: &mut String, literal: Literal) -> Result<(), AllocError> {
    match literal.rel {
        Rel::Eq => text.push_str("eq "),
        Rel::Ne => text.push_str("ne "),
        Rel::Gt => text.push_str("gt "),
        Rel::Lt => text.push_str("lt "),
        _ => text.push_str("? "),
    }
}

/// The slice, from a place on, of p0 > 10, p1 < 10, p0 = p2, p2 != 10.
fn sliced(alloc: Global, first: u32) -> Result<String, AllocError> {
    let mut text = String::new(alloc);
    let mut terms = Terms::new(alloc);
    let ten = terms.constant(10)?;
    let p = terms.param(0, Kind::I)?;
    let q = terms.param(1, Kind::I)?;
    let r = terms.param(2, Kind::I)?;
    let mut condition = Condition::new(alloc);
    condition.push(Literal {
        rel: Rel::Gt,
        a: p,
        b: ten,
    })?;
    condition.push(Literal {
        rel: Rel::Lt,
        a: q,
        b: ten,
    })?;
    condition.push(Literal {
        rel: Rel::Eq,
        a: p,
        b: r,
    })?;
    condition.push(Literal {
        rel: Rel::Ne,
        a: r,
        b: ten,
    })?;
    let slice = condition.slice(alloc, &terms, first)?;
    for literal in slice.literals() {
        tell(&mut text, *literal)?;
    }
    let params = slice.params();
    write!(text, "{params}")?;
    Ok(text)
}

#[test]
fn slices_have_the_literals_that_share_parameters(rt: HostRuntime) -> Result<(), Fail> {
    let alloc = rt.alloc();
    let one = sliced(alloc, 1)?;
    assert!(rt; one.as_str() == "gt lt eq ne 7", "{one}");
    let three = sliced(alloc, 3)?;
    assert!(rt; three.as_str() == "gt eq ne 5", "{three}");
    let none = sliced(alloc, 4)?;
    assert!(rt; none.as_str() == "0", "{none}");
    Ok(())
}

/// The slice, from the last one on, of literals that lead from p7 to p0, p1 < p0 the last, and of one between
/// constants.
fn chained(alloc: Global) -> Result<String, AllocError> {
    let mut text = String::new(alloc);
    let mut terms = Terms::new(alloc);
    let ten = terms.constant(10)?;
    let p0 = terms.param(0, Kind::Z)?;
    let p1 = terms.param(1, Kind::B)?;
    let p2 = terms.param(2, Kind::C)?;
    let p7 = terms.param(7, Kind::S)?;
    let mut condition = Condition::new(alloc);
    condition.push(Literal {
        rel: Rel::Ne,
        a: ten,
        b: ten,
    })?;
    condition.push(Literal {
        rel: Rel::Gt,
        a: p7,
        b: p2,
    })?;
    condition.push(Literal {
        rel: Rel::Eq,
        a: p2,
        b: p1,
    })?;
    condition.push(Literal {
        rel: Rel::Lt,
        a: p1,
        b: p0,
    })?;
    let slice = condition.slice(alloc, &terms, 3)?;
    for literal in slice.literals() {
        tell(&mut text, *literal)?;
    }
    let params = slice.params();
    write!(text, "{params}")?;
    Ok(text)
}

#[test]
fn sharing_is_transitive(rt: HostRuntime) -> Result<(), Fail> {
    let text = chained(rt.alloc())?;
    assert!(rt; text.as_str() == "gt eq lt 135", "{text}");
    Ok(())
}

/// How many literals the slice of 100,000 has, from the last one on: p0 against a constant and p1 against another
/// in turn, the last of p1.
#[tactic(auto, using(crate::proofs::More::of_more))]
fn many(alloc: Global) -> Result<usize, AllocError> {
    let mut terms = Terms::new(alloc);
    let ten = terms.constant(10)?;
    let p0 = terms.param(0, Kind::I)?;
    let p1 = terms.param(1, Kind::I)?;
    let mut condition = Condition::new(alloc);
    for _ in 0_u32..50_000 {
        condition.push(Literal {
            rel: Rel::Gt,
            a: p0,
            b: ten,
        })?;
        condition.push(Literal {
            rel: Rel::Lt,
            a: p1,
            b: ten,
        })?;
    }
    let slice = condition.slice(alloc, &terms, 99_999)?;
    Ok(slice.literals().len())
}

#[test]
fn many_literals_are_sliced(rt: HostRuntime) -> Result<(), Fail> {
    let count = many(rt.alloc())?;
    assert!(rt; count == 50_000);
    Ok(())
}

/// The parameters in a literal, as a list lends it, and those of its first term.
fn listed(alloc: Global) -> Result<String, AllocError> {
    let mut text = String::new(alloc);
    let mut terms = Terms::new(alloc);
    let p3 = terms.param(3, Kind::I)?;
    let p4 = terms.param(4, Kind::I)?;
    let mut list = Literals::new(alloc);
    list.push(Literal {
        rel: Rel::Uge,
        a: p3,
        b: p4,
    })?;
    let params = support(
        &terms,
        Literal {
            rel: Rel::Uge,
            a: p3,
            b: p4,
        },
    );
    let count = list.get().len();
    if let Term::Param { index, .. } = terms.term(p4) {
        write!(text, "{count} {params} {index}")?;
    }
    Ok(text)
}

#[test]
fn literals_are_listed(rt: HostRuntime) -> Result<(), Fail> {
    let text = listed(rt.alloc())?;
    assert!(rt; text.as_str() == "1 24 4", "{text}");
    Ok(())
}

/// How many literals a condition has before and after two are added, and those that it lends.
fn counted(alloc: Global) -> Result<String, AllocError> {
    let mut text = String::new(alloc);
    let mut terms = Terms::new(alloc);
    let ten = terms.constant(10)?;
    let p = terms.param(0, Kind::I)?;
    let mut condition = Condition::new(alloc);
    let before = condition.len();
    condition.push(Literal {
        rel: Rel::Gt,
        a: p,
        b: ten,
    })?;
    condition.push(Literal {
        rel: Rel::Ne,
        a: ten,
        b: p,
    })?;
    for literal in condition.literals() {
        tell(&mut text, *literal)?;
    }
    let after = condition.len();
    write!(text, "{before} {after}")?;
    Ok(text)
}

#[test]
fn conditions_are_counted_and_lent(rt: HostRuntime) -> Result<(), Fail> {
    let text = counted(rt.alloc())?;
    assert!(rt; text.as_str() == "gt ne 0 2", "{text}");
    Ok(())
}

#[test]
fn laws_do_nothing(_rt: HostRuntime) {
    slices_are_put_together();
    least_inputs_are_put_together();
    takers_make_slices_true();
    tables_that_grow_keep_slices();
}
