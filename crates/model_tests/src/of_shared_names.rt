// Where shared names stand, and what arguments owe.
use alloy_lex::Place;
use model_types::TypeFault;
use model_types::part_sorts::Kind;
use named_model::phrase::{Phrase, Referent};
use overload_resolution::shared_names::asking::is_shared;
use overload_resolution::shared_names::walk::is_in;
use overload_resolution::shared_names::{Header, call_kind};
use std::alloc::{AllocError, Global};
use std::process::Abort;
use std::test::Fail;

fn place() -> Place {
    Place { line: 1, column: 1 }
}

// A name in brackets.
fn in_brackets(alloc: Global, referent: Referent) -> Result<Phrase, AllocError> {
    let name = Phrase::Refers(place(), referent);
    Ok(Phrase::Bracketed(place(), Box::new(alloc, name)?))
}

// A header with one parameter of an arity, and another one of any.
fn header(alloc: Global) -> Result<Header, AllocError> {
    Ok(Header {
        parameters: Vec::from_slice(alloc, &[Some(2), None])?,
        kind: Kind::Formula,
    })
}

// What a call with arguments of these arities is.
fn called(alloc: Global, arities: &[usize]) -> Result<Result<Kind, TypeFault>, AllocError> {
    let mut arguments = Vec::new(alloc);
    for arity in arities {
        arguments.push((*arity, place()))?;
    }
    let header = header(alloc)?;
    Ok(call_kind(place(), Some(&header), &arguments))
}

// Whether a shared name is found in a name in brackets, and whether that is one itself.
fn is_found(alloc: Global, referent: Referent) -> Result<(bool, bool), AllocError> {
    let phrase = in_brackets(alloc, referent)?;
    Ok((is_in(&phrase), is_shared(&phrase)))
}

#[test]
fn a_shared_name_is_found_in_brackets(rt: HostRuntime) -> Result<(), Fail> {
    for (referent, expected) in [
        (Referent::Shared(0), (true, true)),
        (Referent::Field(0), (false, false)),
    ] {
        let found = is_found(rt.alloc(), referent)?;
        assert_eq!(rt; found, expected);
    }
    Ok(())
}

fn tells_calls(
    rt: &impl Abort,
    alloc: Global,
    rows: &[(&[usize], Result<Kind, TypeFault>)],
) -> Result<(), Fail> {
    for (arities, expected) in rows {
        let found = called(alloc, arities)?;
        assert_eq!(*rt; found, *expected);
    }
    Ok(())
}

#[test]
fn arguments_are_as_many_and_as_wide_as_parameters(rt: HostRuntime) -> Result<(), Fail> {
    tells_calls(
        &rt,
        rt.alloc(),
        &[
            (&[2, 3], Ok(Kind::Formula)),
            (&[1, 3], Err(TypeFault::Arity { place: place() })),
            (&[2], Err(TypeFault::Sort { place: place() })),
        ],
    )
}
