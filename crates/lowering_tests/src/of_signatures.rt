// That signatures mean what their words and sizes say: the instances of small models, counted.
use crate::counting::counted;
use crate::lowered::refusal;
use lowering_rules::LowerFault;
use named_model::NameFault;
use std::alloc::{AllocError, Global};
use std::process::Abort;
use std::test::Fail;

const EXTENDED: &str = "abstract sig A {} one sig B extends A {} sig C extends A {}";

const TOO_LARGE: LowerFault = LowerFault::Scope(NameFault::ScopeTooLarge);

// Some facts, and a command under that scope, behind these signatures.
fn with_facts(alloc: Global, signatures: &str, scope: &str) -> Result<String, AllocError> {
    let mut text = String::from_str(alloc, signatures)?;
    text.push_str(" fact { some A } fact { lone A } fact { no B } run {} ")?;
    text.push_str(scope)?;
    Ok(text)
}

// How many instances there are without the facts.
fn counted_without(alloc: Global, signatures: &str, scope: &str) -> Result<u32, Fail> {
    let text = with_facts(alloc, signatures, scope)?;
    counted(alloc, &text, 1, Some(&[]))
}

// Whether each of these rows of signatures has so many instances under that scope.
fn counts(rt: &impl Abort, alloc: Global, scope: &str, rows: &[(&str, u32)]) -> Result<(), Fail> {
    for (signatures, expected) in rows {
        let count = counted_without(alloc, signatures, scope)?;
        assert_eq!(rt; count, *expected, "{signatures}");
    }
    Ok(())
}

// two places each, or one
#[test]
fn words(rt: HostRuntime) -> Result<(), Fail> {
    counts(
        &rt,
        rt.alloc(),
        "for 2",
        &[
            ("sig A {} sig B, C {}", 4 * 4 * 4),
            ("sig A {} one sig B, C {}", 4),
            ("sig A {} lone sig B, C {}", 4 * 2 * 2),
            ("sig A {} some sig B, C {}", 4 * 3 * 3),
        ],
    )
}

#[test]
fn words_under_a_scope(rt: HostRuntime) -> Result<(), Fail> {
    counts(
        &rt,
        rt.alloc(),
        "for 2 but 1 B",
        &[
            ("sig A {} sig B, C {}", 4 * 2 * 4),
            ("sig A {} one sig B, C {}", 4),
            ("sig A {} lone sig B, C {}", 4 * 2 * 2),
            ("sig A {} some sig B, C {}", 4 * 1 * 3),
        ],
    )
}

#[test]
fn words_under_an_exact_scope(rt: HostRuntime) -> Result<(), Fail> {
    counts(
        &rt,
        rt.alloc(),
        "for 2 but exactly 2 B",
        &[
            ("sig A {} sig B, C {}", 4 * 1 * 4),
            ("sig A {} one sig B, C {}", 0),
            ("sig A {} lone sig B, C {}", 0),
            ("sig A {} some sig B, C {}", 4 * 1 * 3),
        ],
    )
}

// each place is no atom, or one of A, of B and of C as they allow
#[test]
fn parents(rt: HostRuntime) -> Result<(), Fail> {
    counts(
        &rt,
        rt.alloc(),
        "for 2",
        &[
            ("sig A {} sig B, C extends A {}", 4 * 4),
            ("abstract sig A {} sig B, C extends A {}", 3 * 3),
            ("sig A {} sig B, C in A {}", 5 * 5),
            ("abstract sig A {} sig B, C in A {}", 5 * 5),
        ],
    )
}

#[test]
fn words_below_a_parent(rt: HostRuntime) -> Result<(), Fail> {
    counts(
        &rt,
        rt.alloc(),
        "for 2",
        &[
            ("sig A {} one sig B, C extends A {}", 2),
            ("sig A {} lone sig B, C extends A {}", 4 + 2 * 4 + 2),
            ("sig A {} some sig B, C extends A {}", 2),
        ],
    )
}

#[test]
fn sizes_below_a_parent(rt: HostRuntime) -> Result<(), Fail> {
    for (scope, expected) in [
        ("for 2 but 1 B", 3 * 3 + 2 * 2 * 3),
        ("for 2 but exactly 1 B", 2 * 2 * 3),
    ] {
        let count = counted_without(rt.alloc(), "sig A {} sig B, C in A {}", scope)?;
        assert_eq!(rt; count, expected);
    }
    Ok(())
}

// two places of A
#[test]
fn sums_of_extensions(rt: HostRuntime) -> Result<(), Fail> {
    counts(
        &rt,
        rt.alloc(),
        "for 1",
        &[("abstract sig A {} one sig B, C extends A {}", 2)],
    )
}

#[test]
fn words_of_the_first(rt: HostRuntime) -> Result<(), Fail> {
    counts(
        &rt,
        rt.alloc(),
        "for 2",
        &[
            ("one sig A {} sig B, C {}", 4 * 4),
            ("some sig A {} sig B, C {}", 3 * 4 * 4),
        ],
    )
}

#[test]
fn no_scope(rt: HostRuntime) -> Result<(), Fail> {
    let text = with_facts(rt.alloc(), "sig A {} sig B, C {}", "for 2 B")?;
    let fault = refusal(rt.alloc(), &text, 1, Some(&[]))?;
    assert_eq!(rt; fault, Some(LowerFault::Scope(NameFault::NoScope)));
    Ok(())
}

// `sig A, AA, AAA, .. {} run {} for 0`, with so many signatures
fn many(alloc: Global, count: usize) -> Result<String, AllocError> {
    let mut text = String::from_str(alloc, "sig ")?;
    for number in 0..count {
        if number > 0 {
            text.push_str(", ")?;
        }
        for _letter in 0..number + 1 {
            text.push_str("A")?;
        }
    }
    text.push_str(" {} run {} for 0")?;
    Ok(text)
}

#[test]
fn too_many_relations(rt: HostRuntime) -> Result<(), Fail> {
    for (count, expected) in [(128, None), (129, Some(LowerFault::TooManyRelations))] {
        let text = many(rt.alloc(), count)?;
        let fault = refusal(rt.alloc(), &text, 1, None)?;
        assert_eq!(rt; fault, expected);
    }
    Ok(())
}

// an abstract signature has the places of its extensions, of which there are at most 32
#[test]
fn too_large_a_scope(rt: HostRuntime) -> Result<(), Fail> {
    for (scope, expected) in [
        ("for 1 but 31 C", None),
        ("for 1 but 32 C", Some(TOO_LARGE)),
        ("for 33 but 2 C", Some(TOO_LARGE)),
    ] {
        let text = with_facts(rt.alloc(), EXTENDED, scope)?;
        let fault = refusal(rt.alloc(), &text, 1, None)?;
        assert_eq!(rt; fault, expected, "{scope}");
    }
    Ok(())
}
