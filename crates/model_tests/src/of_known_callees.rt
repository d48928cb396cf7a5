// What stands for a part with a fault, and for calls that never end.
use crate::small_models::{
    SET, called, function, has_body, has_parameters, joined, kind_at, model, name, pairs,
};
use alloy_types::known_callees::declared;
use model_types::part_sorts::Kind;
use named_model::named::{Callee, Named};
use named_model::phrase::{Phrase, Referent};
use overload_resolution::typed_scopes::Scope;
use std::alloc::{AllocError, Global};
use std::test::Fail;

// A model with one function.
fn alone(alloc: Global, callee: Callee) -> Result<Named, AllocError> {
    let mut callees = Vec::new(alloc);
    callees.push(callee)?;
    model(alloc, callees)
}

// A.A, which has no column left.
fn nothing(alloc: Global) -> Result<Phrase, AllocError> {
    joined(alloc, SET, SET)
}

// fun g [x: A]: range { x }
fn with_range(alloc: Global, range: Phrase) -> Result<Named, AllocError> {
    alone(
        alloc,
        function(alloc, SET, range, name(Referent::Local(0)))?,
    )
}

// What a call of it is, with pairs and with a fault for a range.
fn with_pairs(alloc: Global) -> Result<Option<Kind>, AllocError> {
    kind(alloc, pairs(alloc)?)
}

fn with_fault(alloc: Global) -> Result<Option<Kind>, AllocError> {
    kind(alloc, nothing(alloc)?)
}

fn kind(alloc: Global, range: Phrase) -> Result<Option<Kind>, AllocError> {
    kind_at(alloc, &with_range(alloc, range)?, 0)
}

#[test]
fn a_range_with_a_fault_is_unary(rt: HostRuntime) -> Result<(), Fail> {
    let sound = with_pairs(rt.alloc())?;
    assert_eq!(rt; sound, Some(Kind::Relation(2)));
    let faulty = with_fault(rt.alloc())?;
    assert_eq!(rt; faulty, Some(Kind::Relation(1)));
    Ok(())
}

// fun g [x: parameter]: A { body }
fn one(alloc: Global, parameter: Phrase, body: Phrase) -> Result<Named, AllocError> {
    alone(alloc, function(alloc, parameter, SET, body)?)
}

fn with_faulty_body(alloc: Global) -> Result<Option<bool>, AllocError> {
    let model = one(alloc, SET, nothing(alloc)?)?;
    has_body(alloc, &model, 0)
}

#[test]
fn a_body_with_a_fault_is_none(rt: HostRuntime) -> Result<(), Fail> {
    let found = with_faulty_body(rt.alloc())?;
    assert_eq!(rt; found, Some(false));
    Ok(())
}

fn with_faulty_domain(alloc: Global) -> Result<bool, AllocError> {
    let model = one(alloc, nothing(alloc)?, SET)?;
    has_parameters(alloc, &model, 0, &[None])
}

#[test]
fn a_domain_with_a_fault_has_no_arity(rt: HostRuntime) -> Result<(), Fail> {
    let found = with_faulty_domain(rt.alloc())?;
    assert!(rt; found);
    Ok(())
}

// Whether anything is known of a function that calls itself.
fn with_itself(alloc: Global) -> Result<bool, AllocError> {
    let model = one(alloc, SET, called(alloc, 0, SET)?)?;
    Ok(declared(alloc, &mut Scope::new(alloc), &model).is_ok())
}

#[test]
fn what_calls_itself_is_not_known(rt: HostRuntime) -> Result<(), Fail> {
    let known = with_itself(rt.alloc())?;
    assert!(rt; !known);
    Ok(())
}
