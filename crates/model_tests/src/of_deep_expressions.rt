// Parts that lie too deep have no type.
use crate::of_bounding_types::lists;
use alloy_lex::Place;
use model_types::bounding_types::{BoundingType, Work};
use named_model::phrase::{Phrase, Referent, Step};
use overload_resolution::expression_types::{Known, type_of};
use std::alloc::{AllocError, Global};
use std::test::Fail;

const PLACE: Place = Place { line: 1, column: 1 };

fn local() -> Phrase {
    Phrase::Refers(PLACE, Referent::Local(0))
}

fn path(alloc: Global, head: Phrase, step: Step) -> Result<Phrase, AllocError> {
    let mut steps = Vec::new(alloc);
    steps.push(step)?;
    Ok(Phrase::Path(Box::new(alloc, head)?, steps))
}

fn fields(alloc: Global) -> Result<Vec<BoundingType>, AllocError> {
    let mut fields = Vec::new(alloc);
    fields.push(lists(alloc, &[&[0, 0]])?)?;
    Ok(fields)
}

// One signature, with a field to itself.
fn known(alloc: Global) -> Result<Known, AllocError> {
    Ok(Known {
        tops: Vec::from_slice(alloc, &[0])?,
        over: Vec::from_slice(alloc, &[0])?,
        fields: fields(alloc)?,
        bodies: Vec::new(alloc),
        kept: Vec::new(alloc),
    })
}

fn locals(alloc: Global) -> Result<Vec<BoundingType>, AllocError> {
    let mut locals = Vec::new(alloc);
    locals.push(lists(alloc, &[&[0]])?)?;
    Ok(locals)
}

// Joins in joins.
fn nested(alloc: Global, count: usize) -> Result<Phrase, AllocError> {
    let mut phrase = local();
    for _ in 0..count {
        let field = Phrase::Refers(PLACE, Referent::Field(0));
        phrase = path(alloc, field, Step::Join(PLACE, phrase))?;
    }
    Ok(phrase)
}

fn has_type(alloc: Global, phrase: &Phrase) -> Result<bool, AllocError> {
    let mut work = Work::new();
    let known = known(alloc)?;
    let locals = locals(alloc)?;
    Ok(type_of(alloc, &mut work, &known, 0, &locals, phrase).is_ok())
}

fn nested_has_type(alloc: Global, count: usize) -> Result<bool, AllocError> {
    has_type(alloc, &nested(alloc, count)?)
}

#[test]
fn parts_that_lie_too_deep_have_none(rt: HostRuntime) -> Result<(), Fail> {
    for (count, expected) in [(500, true), (600, false)] {
        let found = nested_has_type(rt.alloc(), count)?;
        assert_eq!(rt; found, expected);
    }
    Ok(())
}
