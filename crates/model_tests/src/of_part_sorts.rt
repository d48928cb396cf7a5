// The tables of top-level signatures, where some signatures are their own parents too.
use alloy_lex::{Place, Text};
use alloy_syntax::tree::Manner;
use model_types::part_sorts::tables::{top_signatures, tops_over};
use named_model::named::Signature;
use std::alloc::{AllocError, Global};
use std::test::Fail;

const PLACE: Place = Place { line: 1, column: 1 };

fn signature(alloc: Global, parent: Option<(Manner, usize)>) -> Result<Signature, AllocError> {
    Ok(Signature {
        name: Text::of(alloc, "A")?,
        place: PLACE,
        is_abstract: false,
        mark: None,
        parent,
    })
}

// Signatures with these parents.
fn signatures(
    alloc: Global,
    parents: &[Option<(Manner, usize)>],
) -> Result<Vec<Signature>, AllocError> {
    let mut signatures = Vec::new(alloc);
    for parent in parents {
        signatures.push(signature(alloc, *parent)?)?;
    }
    Ok(signatures)
}

// A top-level signature, three below it, one beside them, and two that are each other's parents.
const FAMILY: [Option<(Manner, usize)>; 7] = [
    Some((Manner::Extends, 2)),
    None,
    Some((Manner::In, 3)),
    Some((Manner::Extends, 4)),
    None,
    Some((Manner::Extends, 6)),
    Some((Manner::Extends, 5)),
];

fn tops_of_family(alloc: Global) -> Result<Vec<usize>, AllocError> {
    let family = signatures(alloc, &FAMILY)?;
    top_signatures(alloc, &family)
}

#[test]
fn the_top_level_signatures_are_told(rt: HostRuntime) -> Result<(), Fail> {
    let numbers = tops_of_family(rt.alloc())?;
    assert_eq!(rt; numbers.as_slice(), [1, 4].as_slice());
    Ok(())
}

fn table_of_family(alloc: Global) -> Result<Vec<usize>, AllocError> {
    let family = signatures(alloc, &FAMILY)?;
    tops_over(alloc, &family)
}

#[test]
fn each_signature_is_below_its_top(rt: HostRuntime) -> Result<(), Fail> {
    let table = table_of_family(rt.alloc())?;
    assert_eq!(rt; table.as_slice(), [4, 1, 4, 4, 4, 6, 5].as_slice());
    Ok(())
}
