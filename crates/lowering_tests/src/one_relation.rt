// Formulas of a relation `f` between two atoms, of which there are 16.
use crate::counting::counted;
use std::alloc::{AllocError, Global};
use std::process::Abort;
use std::test::Fail;

const FRONT: &str =
    "sig A { f: set A } pred p [x: A] { x in x.f } fun g [x: A]: set A { x.f } run { ";

// The model whose command has this formula.
fn text_of(alloc: Global, formula: &str) -> Result<String, AllocError> {
    let mut text = String::from_str(alloc, FRONT)?;
    text.push_str(formula)?;
    text.push_str(" } for exactly 2 A")?;
    Ok(text)
}

// How many of the relations make this formula true.
fn counted_of(alloc: Global, formula: &str) -> Result<u32, Fail> {
    let text = text_of(alloc, formula)?;
    counted(alloc, &text, 1, None)
}

/// Whether each of these formulas is true of so many of the 16 relations.
pub fn counts(rt: &impl Abort, alloc: Global, rows: &[(&str, u32)]) -> Result<(), Fail> {
    for (formula, expected) in rows {
        let count = counted_of(alloc, formula)?;
        assert_eq!(*rt; count, *expected, "{formula}");
    }
    Ok(())
}
