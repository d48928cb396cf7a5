// What is said of three variables.
use alloy_syntax::tree::Quantifier;
use body_lowering::kernel_parts::binders::{add_differences, add_domains, quantified};
use rel_formula::{Connective, Expression, Formula, Quantifier as Binder};
use std::alloc::{AllocError, Global};
use std::test::Fail;

fn some() -> Formula {
    Formula::AtLeast(1, Expression::Rel(0))
}

// The kind of a formula.
fn kind(formula: &Formula) -> &'static str {
    match formula {
        Formula::Quantified(binder, ..) => word(*binder),
        Formula::Junction(Connective::And, _) => "and",
        Formula::Not(_) => "not",
        _ => "another kind",
    }
}

fn word(binder: Binder) -> &'static str {
    match binder {
        Binder::All => "all",
        Binder::Exists => "some",
        Binder::Lone => "lone",
    }
}

// The domains of three variables.
fn three_domains(alloc: Global) -> Result<Vec<Expression>, AllocError> {
    let mut domains = Vec::new(alloc);
    add_domains(alloc, &mut domains, &Expression::Rel(0), 3)?;
    Ok(domains)
}

// That three variables differ.
fn three_differ(alloc: Global) -> Result<Vec<Formula>, AllocError> {
    let mut apart = Vec::new(alloc);
    add_differences(alloc, &mut apart, 3, 0, 3)?;
    Ok(apart)
}

// What is said of three variables beside their bodies: that they differ, or nothing.
fn apart(alloc: Global, disjoint: bool) -> Result<Vec<Formula>, AllocError> {
    if disjoint {
        three_differ(alloc)
    } else {
        Ok(Vec::new(alloc))
    }
}

// What a quantifier over three variables is, which differ or need not.
fn over_three(
    alloc: Global,
    quantifier: Quantifier,
    disjoint: bool,
) -> Result<&'static str, AllocError> {
    let domains = three_domains(alloc)?;
    let apart = apart(alloc, disjoint)?;
    Ok(kind(&quantified(alloc, quantifier, domains, apart, some())?))
}

// `one` is two quantifiers.
#[test]
fn quantifiers(rt: HostRuntime) -> Result<(), Fail> {
    for (quantifier, disjoint, expected) in [
        (Quantifier::All, true, "all"),
        (Quantifier::Some, true, "some"),
        (Quantifier::No, false, "not"),
        (Quantifier::Lone, true, "lone"),
        (Quantifier::One, false, "and"),
    ] {
        assert_eq!(rt; over_three(rt.alloc(), quantifier, disjoint)?, expected);
    }
    Ok(())
}

#[test]
fn three_variables_that_differ(rt: HostRuntime) -> Result<(), Fail> {
    assert_eq!(rt; three_differ(rt.alloc())?.len(), 3);
    Ok(())
}
