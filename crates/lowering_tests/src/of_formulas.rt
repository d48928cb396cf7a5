// Formulas of a relation `f` between two atoms.
use crate::one_relation::counts;
use std::test::Fail;

#[test]
fn words_count_tuples(rt: HostRuntime) -> Result<(), Fail> {
    counts(
        &rt,
        rt.alloc(),
        &[("some f", 15), ("no f", 1), ("lone f", 5), ("one f", 4)],
    )
}

#[test]
fn sizes_are_compared(rt: HostRuntime) -> Result<(), Fail> {
    counts(
        &rt,
        rt.alloc(),
        &[
            ("#f >= 2", 11),
            ("#f > 2", 5),
            ("#f < 2", 5),
            ("#f =< 2", 11),
            ("#f = 2", 6),
            ("#f != 2", 10),
        ],
    )
}

#[test]
fn connectives(rt: HostRuntime) -> Result<(), Fail> {
    counts(
        &rt,
        rt.alloc(),
        &[
            ("!(some f)", 1),
            ("not some f", 1),
            ("some f && lone f", 4),
            ("some f and lone f", 4),
            ("some f lone f", 4),
            ("no f || one f", 5),
            ("no f or one f", 5),
        ],
    )
}

#[test]
fn implications(rt: HostRuntime) -> Result<(), Fail> {
    counts(
        &rt,
        rt.alloc(),
        &[
            ("some f => one f", 5),
            ("some f implies one f", 5),
            ("some f => one f else no f", 5),
            ("some f => one f else some f", 4),
            ("some f <=> one f", 5),
            ("some f iff one f", 5),
        ],
    )
}

#[test]
fn comparisons(rt: HostRuntime) -> Result<(), Fail> {
    counts(
        &rt,
        rt.alloc(),
        &[
            ("f in iden", 4),
            ("f !in iden", 12),
            ("f not in iden", 12),
            ("f = iden", 1),
            ("f != iden", 15),
        ],
    )
}
