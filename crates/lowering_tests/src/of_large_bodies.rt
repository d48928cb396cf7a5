// Bodies that ask for more than there is room for.
use alloy_lex::{Place, Text};
use alloy_syntax::tree::Operator;
use body_lowering::Room;
use body_lowering::bodies::{block, expression, predicate};
use lowering_rules::LowerStop;
use named_model::Named;
use named_model::named::{Callee, Meaning, Signature};
use named_model::phrase::{Domain, Link, Phrase, Referent};
use std::alloc::{AllocError, Global};
use std::test::Fail;

const PLACE: Place = Place { line: 1, column: 1 };

const TOO_LARGE: Option<LowerStop> = Some(LowerStop::TooLarge);

// The first signature.
const FIRST: Phrase = Phrase::Refers(PLACE, Referent::Signature(0));

// The innermost name.
const INNERMOST: Phrase = Phrase::Refers(PLACE, Referent::Local(0));

fn signature(alloc: Global, name: &str) -> Result<Signature, AllocError> {
    Ok(Signature {
        name: Text::of(alloc, name)?,
        place: PLACE,
        is_abstract: false,
        mark: None,
        parent: None,
    })
}

// One variable that stands for atoms of the first signature.
fn parameters(alloc: Global) -> Result<Vec<Domain>, AllocError> {
    let mut parameters = Vec::new(alloc);
    parameters.push(Domain {
        disjoint: false,
        count: 1,
        mark: None,
        domain: FIRST,
    })?;
    Ok(parameters)
}

// A predicate or function of one parameter.
fn callee(alloc: Global, meaning: Meaning) -> Result<Callee, AllocError> {
    Ok(Callee {
        place: PLACE,
        parameters: parameters(alloc)?,
        meaning,
    })
}

fn signatures(alloc: Global) -> Result<Vec<Signature>, AllocError> {
    let mut signatures = Vec::new(alloc);
    signatures.push(signature(alloc, "A")?)?;
    signatures.push(signature(alloc, "B")?)?;
    Ok(signatures)
}

fn model_with(alloc: Global, callees: Vec<Callee>) -> Result<Named, AllocError> {
    Ok(Named {
        signatures: signatures(alloc)?,
        fields: Vec::new(alloc),
        callees,
        facts: Vec::new(alloc),
        fact_names: Vec::new(alloc),
        assertions: Vec::new(alloc),
        commands: Vec::new(alloc),
        parts: Vec::new(alloc),
    })
}

// A call of a predicate with the innermost variable.
fn call(alloc: Global, number: usize) -> Result<Phrase, AllocError> {
    let mut given = Vec::new(alloc);
    given.push(INNERMOST)?;
    Ok(Phrase::Called(PLACE, number, given))
}

// So many calls of a predicate.
fn calls(alloc: Global, number: usize, times: usize) -> Result<Vec<Phrase>, AllocError> {
    let mut formulas = Vec::new(alloc);
    for _call in 0..times {
        formulas.push(call(alloc, number)?)?;
    }
    Ok(formulas)
}

// A predicate that calls another one so many times.
fn caller(alloc: Global, number: usize, times: usize) -> Result<Callee, AllocError> {
    callee(alloc, Meaning::Formulas(calls(alloc, number, times)?))
}

// A predicate that says nothing, and behind it so many others: each calls the one before it so many times.
fn callers(alloc: Global, count: usize, times: usize) -> Result<Vec<Callee>, AllocError> {
    let mut callees = Vec::new(alloc);
    callees.push(caller(alloc, 0, 0)?)?;
    for number in 0..count {
        callees.push(caller(alloc, number, times)?)?;
    }
    Ok(callees)
}

// Why a call of a predicate isn't lowered.
fn stop_of_call(
    alloc: Global,
    model: &Named,
    number: usize,
) -> Result<Option<LowerStop>, AllocError> {
    let phrases = calls(alloc, number, 1)?;
    Ok(block(alloc, model, &mut Room::new(), &phrases).err())
}

// Why a call of the last one of so many predicates isn't lowered, each of which calls the one before it so many times.
fn stop_of_calls(
    alloc: Global,
    count: usize,
    times: usize,
) -> Result<Option<LowerStop>, AllocError> {
    let model = model_with(alloc, callers(alloc, count, times)?)?;
    stop_of_call(alloc, &model, count)
}

#[test]
fn calls_that_double_are_bounded(rt: HostRuntime) -> Result<(), Fail> {
    for (count, expected) in [(3, None), (10, None), (30, TOO_LARGE)] {
        assert_eq!(rt; stop_of_calls(rt.alloc(), count, 2)?, expected);
    }
    Ok(())
}

#[test]
fn calls_in_a_row_are_bounded(rt: HostRuntime) -> Result<(), Fail> {
    for (count, expected) in [(100, None), (250, None), (5_000, TOO_LARGE)] {
        assert_eq!(rt; stop_of_calls(rt.alloc(), count, 1)?, expected);
    }
    Ok(())
}

fn link(operator: Operator) -> Link {
    Link {
        operator,
        place: PLACE,
        operand: FIRST,
    }
}

fn links(alloc: Global, operator: Operator, count: usize) -> Result<Vec<Link>, AllocError> {
    let mut links = Vec::new(alloc);
    for _link in 0..count {
        links.push(link(operator))?;
    }
    Ok(links)
}

// A chain of so many links.
fn chain(alloc: Global, operator: Operator, count: usize) -> Result<Phrase, AllocError> {
    let first = Box::new(alloc, FIRST)?;
    Ok(Phrase::Chain(first, links(alloc, operator, count)?))
}

// Why an expression isn't lowered.
fn stop_of_expression(alloc: Global, phrase: &Phrase) -> Result<Option<LowerStop>, AllocError> {
    let model = model_with(alloc, Vec::new(alloc))?;
    Ok(expression(alloc, &model, &mut Room::new(), 0, phrase).err())
}

// Why a chain isn't lowered.
fn stop_of_chain(
    alloc: Global,
    operator: Operator,
    count: usize,
) -> Result<Option<LowerStop>, AllocError> {
    let chain = chain(alloc, operator, count)?;
    stop_of_expression(alloc, &chain)
}

#[test]
fn long_chains_are_bounded(rt: HostRuntime) -> Result<(), Fail> {
    for (operator, count, expected) in [
        (Operator::Union, 1_900, None),
        (Operator::Union, 87_000, TOO_LARGE),
        (Operator::And, 87_000, None),
        (Operator::Iff, 10, None),
        (Operator::Iff, 100, TOO_LARGE),
    ] {
        assert_eq!(rt; stop_of_chain(rt.alloc(), operator, count)?, expected);
    }
    Ok(())
}

// x + x, where x is the innermost name.
fn doubled(alloc: Global) -> Result<Phrase, AllocError> {
    let mut links = Vec::new(alloc);
    links.push(Link {
        operator: Operator::Union,
        place: PLACE,
        operand: INNERMOST,
    })?;
    Ok(Phrase::Chain(Box::new(alloc, INNERMOST)?, links))
}

// The innermost of so many names behind the first, each of which is twice the one before it.
fn doubled_values(alloc: Global, count: usize) -> Result<Phrase, AllocError> {
    let mut values = Vec::new(alloc);
    values.push(FIRST)?;
    for _value in 0..count {
        values.push(doubled(alloc)?)?;
    }
    Ok(Phrase::Let(PLACE, values, Box::new(alloc, INNERMOST)?))
}

// The last value has 2 ^ (count + 1) - 1 nodes, and what is named takes some three times as many.
#[test]
fn values_are_counted_where_they_are_named(rt: HostRuntime) -> Result<(), Fail> {
    for (count, expected) in [
        (1, None),
        (10, None),
        (19, None),
        (20, TOO_LARGE),
        (30, TOO_LARGE),
    ] {
        let body = doubled_values(rt.alloc(), count)?;
        assert_eq!(rt; stop_of_expression(rt.alloc(), &body)?, expected);
    }
    Ok(())
}

// A predicate of so many parameters, which says nothing.
fn predicate_of(alloc: Global, count: usize) -> Result<Callee, AllocError> {
    let mut parameters = Vec::new(alloc);
    parameters.push(Domain {
        disjoint: false,
        count,
        mark: None,
        domain: FIRST,
    })?;
    Ok(Callee {
        place: PLACE,
        parameters,
        meaning: Meaning::Formulas(Vec::new(alloc)),
    })
}

// Why a predicate of so many parameters isn't lowered where it is run.
fn stop_of_run(alloc: Global, count: usize) -> Result<Option<LowerStop>, AllocError> {
    let model = model_with(alloc, Vec::new(alloc))?;
    let callee = predicate_of(alloc, count)?;
    Ok(predicate(alloc, &model, &mut Room::new(), &callee).err())
}

#[test]
fn parameters_are_levels(rt: HostRuntime) -> Result<(), Fail> {
    for (count, expected) in [
        (1, None),
        (2_048, None),
        (2_049, TOO_LARGE),
        (14_000, TOO_LARGE),
    ] {
        assert_eq!(rt; stop_of_run(rt.alloc(), count)?, expected);
    }
    Ok(())
}
