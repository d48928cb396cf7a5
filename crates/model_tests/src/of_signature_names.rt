// Signatures and fields: texts with how many there are, where there is room for them.
use crate::crossed_names::crossed;
use crate::reading::tree;
use alloy_syntax::tree::Paragraph;
use name_tables::Names;
use name_tables::signature_names::{Declared, declarations};
use named_model::NameFault;
use std::alloc::{AllocError, Global};
use std::process::Abort;
use std::test::Fail;

// The names A and B.
fn names(alloc: Global) -> Result<Names, AllocError> {
    let mut names = Names::new(alloc);
    names.declare_signature(alloc, "A")?;
    names.declare_signature(alloc, "B")?;
    Ok(names)
}

fn declared(alloc: Global, paragraphs: &[Paragraph]) -> Result<Declared, NameFault> {
    let names = names(alloc)?;
    declarations(alloc, &names, paragraphs)
}

fn told(alloc: Global, text: &str) -> Result<Declared, NameFault> {
    match tree(alloc, text) {
        Some(model) => declared(alloc, &model.paragraphs),
        None => Err(NameFault::NoScope),
    }
}

// How many signatures and fields there are, and the number of the last field's signature.
fn counted(alloc: Global, text: &str) -> (usize, usize, usize) {
    match told(alloc, text) {
        Ok(declared) => counts(&declared),
        Err(_) => (999, 999, 999),
    }
}

fn counts(declared: &Declared) -> (usize, usize, usize) {
    (
        declared.signatures.len(),
        declared.fields.len(),
        owner_of_last(declared),
    )
}

fn owner_of_last(declared: &Declared) -> usize {
    match declared.fields.last() {
        Some(field) => field.owner,
        None => 999,
    }
}

fn tells_counts(
    rt: &impl Abort,
    alloc: Global,
    rows: &[(&str, (usize, usize, usize))],
) -> Result<(), Fail> {
    for (text, want) in rows {
        let found = counted(alloc, text);
        assert_eq!(*rt; found, *want, "{text}");
    }
    Ok(())
}

#[test]
fn a_field_of_two_signatures_is_two(rt: HostRuntime) -> Result<(), Fail> {
    tells_counts(
        &rt,
        rt.alloc(),
        &[
            ("sig A, B { f: A }", (2, 2, 1)),
            ("sig A, B { f, g: A }", (2, 4, 1)),
            ("sig A { f: A, g: A -> lone A } sig B {}", (2, 2, 0)),
        ],
    )
}

// How many there are in `sig A, A, .. { ff..: A }`, with so many names behind the first one, and so many letters behind the first.
fn counted_of(
    alloc: Global,
    more: usize,
    letters: usize,
) -> Result<(usize, usize, usize), AllocError> {
    let text = crossed(alloc, more, "f", letters)?;
    Ok(counted(alloc, &text))
}

#[test]
fn more_than_there_is_room_for_is_want_of_memory(rt: HostRuntime) -> Result<(), Fail> {
    for (more, want) in [(99, (100, 100, 0)), (109, (999, 999, 999))] {
        let found = counted_of(rt.alloc(), more, 9_999)?;
        assert_eq!(rt; found, want, "{more}");
    }
    Ok(())
}
