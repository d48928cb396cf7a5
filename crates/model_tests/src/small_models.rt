// A model with one signature, one field, and predicates and functions.
use alloy_lex::{Place, Text};
use alloy_syntax::tree::Operator;
use alloy_types::known_callees::declared;
use model_types::part_sorts::Kind;
use named_model::named::{Callee, Field, Meaning, Named, Signature};
use named_model::phrase::{Domain, Link, Phrase, Referent, Step};
use overload_resolution::typed_scopes::{Scope, Setting};
use std::alloc::{AllocError, Global};

pub const PLACE: Place = Place { line: 1, column: 1 };

/// The signature, as a part.
pub const SET: Phrase = Phrase::Refers(PLACE, Referent::Signature(0));

pub fn name(referent: Referent) -> Phrase {
    Phrase::Refers(PLACE, referent)
}

fn signature(alloc: Global) -> Result<Signature, AllocError> {
    Ok(Signature {
        name: Text::of(alloc, "A")?,
        place: PLACE,
        is_abstract: false,
        mark: None,
        parent: None,
    })
}

// f: A
fn field(alloc: Global) -> Result<Field, AllocError> {
    Ok(Field {
        name: Text::of(alloc, "f")?,
        place: PLACE,
        owner: 0,
        mark: None,
        left: None,
        right: None,
        bound: SET,
    })
}

/// So many parameters with this domain.
pub fn domain(count: usize, domain: Phrase) -> Domain {
    Domain {
        disjoint: false,
        count,
        mark: None,
        domain,
    }
}

/// A part, and another one behind a join.
pub fn joined(alloc: Global, head: Phrase, operand: Phrase) -> Result<Phrase, AllocError> {
    let mut steps = Vec::new(alloc);
    steps.push(Step::Join(PLACE, operand))?;
    Ok(Phrase::Path(Box::new(alloc, head)?, steps))
}

/// A -> A
pub fn pairs(alloc: Global) -> Result<Phrase, AllocError> {
    let mut links = Vec::new(alloc);
    links.push(Link {
        operator: Operator::Product,
        place: PLACE,
        operand: SET,
    })?;
    Ok(Phrase::Chain(Box::new(alloc, SET)?, links))
}

/// A call of the predicate or function of that number, with one argument.
pub fn called(alloc: Global, number: usize, argument: Phrase) -> Result<Phrase, AllocError> {
    let mut arguments = Vec::new(alloc);
    arguments.push(argument)?;
    Ok(Phrase::Called(PLACE, number, arguments))
}

/// A function of one parameter.
pub fn function(
    alloc: Global,
    parameter: Phrase,
    range: Phrase,
    body: Phrase,
) -> Result<Callee, AllocError> {
    let mut parameters = Vec::new(alloc);
    parameters.push(domain(1, parameter))?;
    Ok(Callee {
        place: PLACE,
        parameters,
        meaning: Meaning::Value(range, body),
    })
}

fn signatures(alloc: Global) -> Result<Vec<Signature>, AllocError> {
    let mut signatures = Vec::new(alloc);
    signatures.push(signature(alloc)?)?;
    Ok(signatures)
}

fn fields(alloc: Global) -> Result<Vec<Field>, AllocError> {
    let mut fields = Vec::new(alloc);
    fields.push(field(alloc)?)?;
    Ok(fields)
}

/// The model with these predicates and functions.
pub fn model(alloc: Global, callees: Vec<Callee>) -> Result<Named, AllocError> {
    Ok(Named {
        signatures: signatures(alloc)?,
        fields: fields(alloc)?,
        callees,
        facts: Vec::new(alloc),
        fact_names: Vec::new(alloc),
        assertions: Vec::new(alloc),
        commands: Vec::new(alloc),
        parts: Vec::new(alloc),
    })
}

/// Whether the predicate or function of a number has parameters of these arities.
pub fn has_parameters(
    alloc: Global,
    model: &Named,
    number: usize,
    arities: &[Option<usize>],
) -> Result<bool, AllocError> {
    let setting = declared(alloc, &mut Scope::new(alloc), model)?;
    Ok(are_parameters(&setting, number, arities))
}

fn are_parameters(setting: &Setting, number: usize, arities: &[Option<usize>]) -> bool {
    match setting.headers.get(number) {
        Some(header) => header.parameters.as_slice() == arities,
        None => false,
    }
}

/// What a call of it is.
pub fn kind_at(alloc: Global, model: &Named, number: usize) -> Result<Option<Kind>, AllocError> {
    let setting = declared(alloc, &mut Scope::new(alloc), model)?;
    Ok(kind_in(&setting, number))
}

fn kind_in(setting: &Setting, number: usize) -> Option<Kind> {
    match setting.headers.get(number) {
        Some(header) => Some(header.kind),
        None => None,
    }
}

/// Whether it has a body.
pub fn has_body(alloc: Global, model: &Named, number: usize) -> Result<Option<bool>, AllocError> {
    let setting = declared(alloc, &mut Scope::new(alloc), model)?;
    Ok(has_body_in(&setting, number))
}

fn has_body_in(setting: &Setting, number: usize) -> Option<bool> {
    match setting.types.bodies.get(number) {
        Some(body) => Some(body.is_some()),
        None => None,
    }
}
