// Functions that call others more than once, where a shared name asks for their types.
use crate::small_models::{PLACE, domain, joined, name};
use alloy_lex::{Place, Text};
use alloy_syntax::tree::{Operator, Prefix};
use alloy_types::check_types;
use alloy_types::known_callees::declared;
use named_model::named::{Callee, Field, Formulas, Meaning, Named, Signature};
use named_model::phrase::{Link, Phrase, Referent};
use overload_resolution::typed_scopes::Scope;
use std::alloc::{AllocError, Global};
use std::test::Fail;

fn signature(alloc: Global, name: &str) -> Result<Signature, AllocError> {
    Ok(Signature {
        name: Text::of(alloc, name)?,
        place: PLACE,
        is_abstract: false,
        mark: None,
        parent: None,
    })
}

fn set(number: usize) -> Phrase {
    name(Referent::Signature(number))
}

// A field f of a signature to itself.
fn field(alloc: Global, owner: usize) -> Result<Field, AllocError> {
    Ok(Field {
        name: Text::of(alloc, "f")?,
        place: PLACE,
        owner,
        mark: None,
        left: None,
        right: None,
        bound: set(owner),
    })
}

// sig A { f: A } sig B { f: B }, with these functions and facts.
fn model(alloc: Global, callees: Vec<Callee>, facts: Vec<Formulas>) -> Result<Named, AllocError> {
    let mut signatures = Vec::new(alloc);
    let mut fields = Vec::new(alloc);
    for (number, text) in ["A", "B"].iter().enumerate() {
        signatures.push(signature(alloc, text)?)?;
        fields.push(field(alloc, number)?)?;
    }
    Ok(Named {
        signatures,
        fields,
        callees,
        facts,
        fact_names: Vec::new(alloc),
        assertions: Vec::new(alloc),
        commands: Vec::new(alloc),
        parts: Vec::new(alloc),
    })
}

// fun [x: A]: A { body }, or without the parameter.
fn function_of(alloc: Global, parameters: usize, body: Phrase) -> Result<Callee, AllocError> {
    let mut all = Vec::new(alloc);
    if parameters > 0 {
        all.push(domain(parameters, set(0)))?;
    }
    Ok(Callee {
        place: PLACE,
        parameters: all,
        meaning: Meaning::Value(set(0), body),
    })
}

// A call of the function of a number, with so many arguments.
fn call(
    alloc: Global,
    number: usize,
    parameters: usize,
    argument: Referent,
) -> Result<Phrase, AllocError> {
    let mut arguments = Vec::new(alloc);
    for _argument in 0..parameters {
        arguments.push(name(argument))?;
    }
    Ok(Phrase::Called(PLACE, number, arguments))
}

// a + b
fn union(alloc: Global, left: Phrase, right: Phrase) -> Result<Phrase, AllocError> {
    let mut links = Vec::new(alloc);
    links.push(Link {
        operator: Operator::Union,
        place: PLACE,
        operand: right,
    })?;
    Ok(Phrase::Chain(Box::new(alloc, left)?, links))
}

// Two calls of the function of a number.
fn doubled(alloc: Global, number: usize, parameters: usize) -> Result<Phrase, AllocError> {
    let left = call(alloc, number, parameters, Referent::Local(0))?;
    let right = call(alloc, number, parameters, Referent::Local(0))?;
    union(alloc, left, right)
}

// A function that is A, and behind it so many others: each calls the one before it twice.
fn doubling(alloc: Global, count: usize, parameters: usize) -> Result<Vec<Callee>, AllocError> {
    let mut callees = Vec::new(alloc);
    callees.push(function_of(alloc, parameters, set(0))?)?;
    for number in 0..count {
        let body = doubled(alloc, number, parameters)?;
        callees.push(function_of(alloc, parameters, body)?)?;
    }
    Ok(callees)
}

// What is behind `.f`, a name of two fields.
fn fields_of(alloc: Global, head: Phrase) -> Result<Phrase, AllocError> {
    joined(alloc, head, name(Referent::Shared(0)))
}

// some g.f
fn fact(alloc: Global, number: usize, parameters: usize) -> Result<Formulas, AllocError> {
    let called = call(alloc, number, parameters, Referent::Signature(0))?;
    let some = Phrase::Prefixed(
        Prefix::Some,
        PLACE,
        Box::new(alloc, fields_of(alloc, called)?)?,
    );
    let mut formulas = Vec::new(alloc);
    formulas.push(some)?;
    Ok(Formulas { formulas })
}

// So many such facts of one function.
fn facts(
    alloc: Global,
    number: usize,
    parameters: usize,
    uses: usize,
) -> Result<Vec<Formulas>, AllocError> {
    let mut facts = Vec::new(alloc);
    for _fact in 0..uses {
        facts.push(fact(alloc, number, parameters)?)?;
    }
    Ok(facts)
}

// Whether a model has types in which so many facts ask for that of the last of so many functions, each of which calls the one
// before it twice.
fn has_types(
    alloc: Global,
    count: usize,
    parameters: usize,
    uses: usize,
) -> Result<bool, AllocError> {
    let callees = doubling(alloc, count, parameters)?;
    let facts = facts(alloc, count, parameters, uses)?;
    Ok(check_types(alloc, model(alloc, callees, facts)?).is_ok())
}

#[test]
fn types_of_functions_without_parameters_are_kept(rt: HostRuntime) -> Result<(), Fail> {
    for (count, uses) in [(3, 1), (24, 1), (24, 100), (2_000, 100)] {
        assert!(rt; has_types(rt.alloc(), count, 0, uses)?);
    }
    Ok(())
}

// A function that is `g[A].f`, behind so many functions of one parameter that double, where g is the last of them.
fn with_value(alloc: Global, count: usize) -> Result<Vec<Callee>, AllocError> {
    let mut callees = doubling(alloc, count, 1)?;
    let called = call(alloc, count, 1, Referent::Signature(0))?;
    callees.push(function_of(alloc, 0, fields_of(alloc, called)?)?)?;
    Ok(callees)
}

// How many looks of so many are left where it is known what is declared.
fn looks_left(alloc: Global, count: usize, looks: u32) -> Result<u32, AllocError> {
    let model = model(alloc, with_value(alloc, count)?, Vec::new(alloc))?;
    let mut scope = Scope::new(alloc);
    scope.work.left = looks;
    let _setting = declared(alloc, &mut scope, &model)?;
    Ok(scope.work.left)
}

#[test]
fn looks_at_what_is_declared_are_taken_from_the_scope(rt: HostRuntime) -> Result<(), Fail> {
    for (count, looks, few) in [
        (0, 50, true),
        (4, 50, false),
        (4, 500, true),
        (10, 500, false),
    ] {
        assert_eq!(rt; looks_left(rt.alloc(), count, looks).is_ok(), few);
    }
    assert!(rt; looks_left(rt.alloc(), 4, 500)? < 400);
    Ok(())
}
