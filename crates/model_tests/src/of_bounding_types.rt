// The types of operators, of joins and of closures.
use alloy_syntax::tree::{Operator, Prefix};
use model_types::bounding_types::operators::{join_type, operator_type, prefix_type};
use model_types::bounding_types::{BoundingType, Work};
use std::alloc::{AllocError, Global};
use std::process::Abort;
use std::test::Fail;

/// These lists.
pub fn lists(alloc: Global, rows: &[&[usize]]) -> Result<BoundingType, AllocError> {
    let mut lists = BoundingType::new(alloc);
    for row in rows {
        lists.put(Vec::from_slice(alloc, *row)?)?;
    }
    Ok(lists)
}

// Each list as a line.
fn told(alloc: Global, lists: &BoundingType) -> Result<String, Fail> {
    let mut text = String::new(alloc);
    for row in lists.as_slice() {
        push_row(alloc, &mut text, row)?;
    }
    Ok(text)
}

fn push_row(alloc: Global, text: &mut String, row: &[usize]) -> Result<(), Fail> {
    for number in row {
        push_number(alloc, text, *number)?;
    }
    text.push_str("/")?;
    Ok(())
}

fn push_number(alloc: Global, text: &mut String, number: usize) -> Result<(), Fail> {
    let written = format!(in alloc; "{number} ")?;
    text.push_str(&written)?;
    Ok(())
}

fn pairs(alloc: Global) -> Result<BoundingType, AllocError> {
    lists(alloc, &[&[0, 1], &[1, 2], &[3, 3]])
}

fn tells_prefixes(rt: &impl Abort, alloc: Global, rows: &[(Prefix, &str)]) -> Result<(), Fail> {
    for (prefix, expected) in rows {
        let found = of_prefix(alloc, *prefix)?;
        assert_eq!(*rt; found.as_str(), *expected);
    }
    Ok(())
}

#[test]
fn prefixes_have_types(rt: HostRuntime) -> Result<(), Fail> {
    tells_prefixes(
        &rt,
        rt.alloc(),
        &[
            (Prefix::Transpose, "1 0 /2 1 /3 3 /"),
            (Prefix::Closure, "0 1 /1 2 /3 3 /0 2 /"),
            (
                Prefix::ReflexiveClosure,
                "0 1 /1 2 /3 3 /0 2 /0 0 /1 1 /2 2 /",
            ),
            (Prefix::Not, ""),
        ],
    )
}

fn of_prefix(alloc: Global, prefix: Prefix) -> Result<String, Fail> {
    let mut work = Work::new();
    let pairs = pairs(alloc)?;
    let lists = prefix_type(alloc, &mut work, &[0, 1, 2, 3], prefix, pairs)?;
    told(alloc, &lists)
}

fn tells_operators(rt: &impl Abort, alloc: Global, rows: &[(Operator, &str)]) -> Result<(), Fail> {
    for (operator, expected) in rows {
        let found = of_operator(alloc, *operator)?;
        assert_eq!(*rt; found.as_str(), *expected);
    }
    Ok(())
}

#[test]
fn operators_have_types(rt: HostRuntime) -> Result<(), Fail> {
    tells_operators(
        &rt,
        rt.alloc(),
        &[
            (Operator::Union, "0 1 /1 2 /3 3 /1 /"),
            (Operator::Minus, "0 1 /1 2 /3 3 /"),
            (Operator::Override, "0 1 /1 2 /3 3 /1 /"),
            (Operator::Meet, "3 3 /"),
            (
                Operator::Product,
                "0 1 3 3 /0 1 1 /1 2 3 3 /1 2 1 /3 3 3 3 /3 3 1 /",
            ),
            (Operator::Domain, ""),
            (Operator::Range, "0 1 /"),
            (Operator::And, ""),
        ],
    )
}

fn of_operator(alloc: Global, operator: Operator) -> Result<String, Fail> {
    let others = lists(alloc, &[&[3, 3], &[1]])?;
    told(alloc, &with_pairs(alloc, operator, &others)?)
}

// The type of the operator between the pairs and the others.
fn with_pairs(
    alloc: Global,
    operator: Operator,
    others: &BoundingType,
) -> Result<BoundingType, AllocError> {
    let mut work = Work::new();
    let pairs = pairs(alloc)?;
    operator_type(alloc, &mut work, operator, pairs, others)
}

#[test]
fn joins_have_types(rt: HostRuntime) -> Result<(), Fail> {
    let found = of_join(rt.alloc(), &[&[0], &[3]])?;
    assert_eq!(rt; found.as_str(), "1 /3 /");
    let found = of_join(rt.alloc(), &[&[2, 1]])?;
    assert_eq!(rt; found.as_str(), "2 2 /");
    Ok(())
}

fn of_join(alloc: Global, rows: &[&[usize]]) -> Result<String, Fail> {
    let left = lists(alloc, rows)?;
    told(alloc, &joined_with_pairs(alloc, &left)?)
}

fn joined_with_pairs(alloc: Global, left: &BoundingType) -> Result<BoundingType, AllocError> {
    let mut work = Work::new();
    let pairs = pairs(alloc)?;
    join_type(alloc, &mut work, left, &pairs)
}
