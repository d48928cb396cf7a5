// Which field is chosen where memory is ample.
use alloy_lex::Place;
use alloy_syntax::tree::Operator;
use model_types::TypeFault;
use model_types::bounding_types::BoundingType;
use overload_resolution::shared_fields::Fields;
use overload_resolution::shared_fields::tops::{ends_of, tops_behind};
use std::alloc::{AllocError, Global};
use std::process::Abort;
use std::test::Fail;

// Two fields of one name, of the top-level signatures 0 and 1, and another one between them.
fn fields(alloc: Global) -> Result<Fields, AllocError> {
    let mut fields = Fields::new(alloc);
    for (name, top) in [("f", 0), ("g", 0), ("f", 1)] {
        fields.push(alloc, name, top, 2)?;
    }
    Ok(fields)
}

// So many fields of one name, of the top-level signatures from 0.
fn many(alloc: Global, count: usize) -> Result<Fields, AllocError> {
    let mut fields = Fields::new(alloc);
    for top in 0..count {
        fields.push(alloc, "f", top, 2)?;
    }
    Ok(fields)
}

// A type of one list.
fn of(alloc: Global, list: &[usize]) -> Result<BoundingType, AllocError> {
    let mut lists = BoundingType::new(alloc);
    lists.put(Vec::from_slice(alloc, list)?)?;
    Ok(lists)
}

fn place() -> Place {
    Place { line: 1, column: 1 }
}

fn ambiguous() -> Result<usize, TypeFault> {
    Err(TypeFault::Ambiguous { place: place() })
}

// Which field is chosen that belongs to the end of a list.
fn at_the_end(alloc: Global, list: &[usize]) -> Result<Result<usize, TypeFault>, AllocError> {
    let tops = ends_of(alloc, &of(alloc, list)?)?;
    Ok(fields(alloc)?.chosen(&tops, place(), 0))
}

#[test]
fn the_last_signature_tells_the_field(rt: HostRuntime) -> Result<(), Fail> {
    for (list, expected) in [([0, 1], Ok(2)), ([1, 0], Ok(0)), ([0, 2], ambiguous())] {
        let found = at_the_end(rt.alloc(), &list)?;
        assert_eq!(rt; found, expected);
    }
    Ok(())
}

// Which field is chosen behind an operator.
fn behind(
    alloc: Global,
    operator: Operator,
    list: &[usize],
) -> Result<Result<usize, TypeFault>, AllocError> {
    let tops = tops_behind(alloc, operator, &of(alloc, list)?)?;
    Ok(fields(alloc)?.chosen(&tops, place(), 2))
}

fn tells_behind(
    rt: &impl Abort,
    alloc: Global,
    rows: &[(Operator, &[usize], Result<usize, TypeFault>)],
) -> Result<(), Fail> {
    for (operator, list, expected) in rows {
        let found = behind(alloc, *operator, list)?;
        assert_eq!(*rt; found, *expected);
    }
    Ok(())
}

#[test]
fn a_single_signature_tells_the_field_behind_a_restriction(rt: HostRuntime) -> Result<(), Fail> {
    tells_behind(
        &rt,
        rt.alloc(),
        &[
            (Operator::Domain, &[1], Ok(2)),
            (Operator::Domain, &[0, 1], ambiguous()),
            (Operator::Range, &[1], ambiguous()),
        ],
    )
}

// A type of two lists of one signature each.
fn of_two(alloc: Global, first: usize, second: usize) -> Result<BoundingType, AllocError> {
    let mut lists = of(alloc, &[first])?;
    lists.put(Vec::from_slice(alloc, &[second])?)?;
    Ok(lists)
}

// Which of many fields of one name is chosen that belongs to one of two signatures.
fn of_many(
    alloc: Global,
    first: usize,
    second: usize,
) -> Result<Result<usize, TypeFault>, AllocError> {
    let tops = ends_of(alloc, &of_two(alloc, first, second)?)?;
    Ok(many(alloc, 200)?.chosen(&tops, place(), 5))
}

#[test]
fn one_of_many_fields_is_told(rt: HostRuntime) -> Result<(), Fail> {
    for (second, expected) in [(150, Ok(150)), (200, Ok(150)), (3, ambiguous())] {
        let found = of_many(rt.alloc(), 150, second)?;
        assert_eq!(rt; found, expected, "{second}");
    }
    Ok(())
}

fn of_no_field(alloc: Global) -> Result<Result<usize, TypeFault>, AllocError> {
    let tops = ends_of(alloc, &of(alloc, &[0])?)?;
    Ok(fields(alloc)?.chosen(&tops, place(), 3))
}

#[test]
fn a_number_of_no_field_has_no_name(rt: HostRuntime) -> Result<(), Fail> {
    let found = of_no_field(rt.alloc())?;
    assert_eq!(rt; found, ambiguous());
    Ok(())
}

#[test]
fn fields_have_arities(rt: HostRuntime) -> Result<(), Fail> {
    let fields = fields(rt.alloc())?;
    assert_eq!(rt; fields.arity(1), Some(2));
    assert_eq!(rt; fields.arity(3), None);
    Ok(())
}
