// That fields mean what the words of their bounds say: the instances of small models, counted.
use crate::counting::counts;
use crate::lowered::refusal;
use lowering_rules::LowerFault;
use std::test::Fail;

// where there is no atom, where there is one, of which there are two cases, and where there are two
#[test]
fn sets(rt: HostRuntime) -> Result<(), Fail> {
    counts(
        &rt,
        rt.alloc(),
        &[
            ("sig A { f: A } run {} for 2", 1 + 2 * 1 + 2 * 2),
            ("sig A { f: one A } run {} for 2", 1 + 2 * 1 + 2 * 2),
            ("sig A { f: lone A } run {} for 2", 1 + 2 * 2 + 3 * 3),
            ("sig A { f: some A } run {} for 2", 1 + 2 * 1 + 3 * 3),
            ("sig A { f: set A } run {} for 2", 1 + 2 * 2 + 4 * 4),
        ],
    )
}

// one `A`, if any, from which the field leads to two `B`
#[test]
fn right_sides(rt: HostRuntime) -> Result<(), Fail> {
    counts(
        &rt,
        rt.alloc(),
        &[
            (
                "sig A { f: A -> B } sig B {} run {} for 1 but exactly 2 B",
                1 + 4,
            ),
            (
                "sig A { f: A -> one B } sig B {} run {} for 1 but exactly 2 B",
                1 + 2,
            ),
            (
                "sig A { f: A -> lone B } sig B {} run {} for 1 but exactly 2 B",
                1 + 3,
            ),
            (
                "sig A { f: A -> some B } sig B {} run {} for 1 but exactly 2 B",
                1 + 3,
            ),
            (
                "sig A { f: A -> set B } sig B {} run {} for 1 but exactly 2 B",
                1 + 4,
            ),
        ],
    )
}

// one `A`, if any, which leads to each of two `B`, or not
#[test]
fn left_sides(rt: HostRuntime) -> Result<(), Fail> {
    counts(
        &rt,
        rt.alloc(),
        &[
            (
                "sig A { f: A -> B } sig B {} run {} for 1 but exactly 2 B",
                1 + 4,
            ),
            (
                "sig A { f: A one -> B } sig B {} run {} for 1 but exactly 2 B",
                1 + 1,
            ),
            (
                "sig A { f: A lone -> B } sig B {} run {} for 1 but exactly 2 B",
                1 + 4,
            ),
            (
                "sig A { f: A some -> B } sig B {} run {} for 1 but exactly 2 B",
                1 + 1,
            ),
            (
                "sig A { f: A set -> B } sig B {} run {} for 1 but exactly 2 B",
                1 + 4,
            ),
        ],
    )
}

// two `A`, each with a partial map from `A` to one `B`, or none
#[test]
fn both_sides(rt: HostRuntime) -> Result<(), Fail> {
    counts(
        &rt,
        rt.alloc(),
        &[
            (
                "sig A { f: A one -> lone B } sig B {} run {} for 2 but exactly 1 B",
                1 + 2 * 1 + 2 * 2,
            ),
            (
                "sig A { f: A lone -> one B } sig B {} run {} for 2 but exactly 1 B",
                1 + 2 * 1,
            ),
        ],
    )
}

// 16 + 16 * 16 * 15 cells, and 16 + 16 * 16 * 16; 16 * 16 * 16, where `A` is exact, and one of `B` beside them
#[test]
fn too_many_cells(rt: HostRuntime) -> Result<(), Fail> {
    for (text, expected) in [
        (
            "sig A { f: A -> B } sig B {} run {} for 16 but exactly 15 B",
            None,
        ),
        (
            "sig A { f: A -> B } sig B {} run {} for 16 but exactly 16 B",
            Some(LowerFault::TooManyCells),
        ),
        ("sig A { f: A -> A } run {} for exactly 16 A", None),
        (
            "sig A { f: A -> A } sig B {} run {} for 1 but exactly 16 A",
            Some(LowerFault::TooManyCells),
        ),
    ] {
        let fault = refusal(rt.alloc(), text, 1, None)?;
        assert_eq!(rt; fault, expected, "{text}");
    }
    Ok(())
}
