// Variables, names for values, and calls beside a relation `f` between two atoms.
use crate::one_relation::counts;
use std::test::Fail;

#[test]
fn for_all_and_for_some(rt: HostRuntime) -> Result<(), Fail> {
    counts(
        &rt,
        rt.alloc(),
        &[
            ("all x: A | one x.f", 4),
            ("all x, y: A | x->y in f", 1),
            ("some x: A | x in x.f", 12),
            ("some x, y: A | x->y in f", 15),
        ],
    )
}

#[test]
fn for_none_one_and_at_most_one(rt: HostRuntime) -> Result<(), Fail> {
    counts(
        &rt,
        rt.alloc(),
        &[
            ("no x: A | x in x.f", 4),
            ("no x, y: A | x->y in f", 1),
            ("lone x: A | x in x.f", 12),
            ("one x: A | x in x.f", 8),
        ],
    )
}

#[test]
fn variables_that_differ(rt: HostRuntime) -> Result<(), Fail> {
    counts(
        &rt,
        rt.alloc(),
        &[
            ("all disj x, y: A | x->y in f", 4),
            ("some disj x, y: A | x->y in f", 12),
            ("no disj x, y: A | x->y in f", 4),
            ("all disj x, y, z: A | x->y in f", 16),
            ("some disj x, y, z: A | x->y in f", 0),
        ],
    )
}

#[test]
fn names_for_values(rt: HostRuntime) -> Result<(), Fail> {
    counts(
        &rt,
        rt.alloc(),
        &[
            ("let g1 = ~f | f = g1", 8),
            ("let s = A.f, t = s.f | s = t", 14),
        ],
    )
}

#[test]
fn calls(rt: HostRuntime) -> Result<(), Fail> {
    counts(
        &rt,
        rt.alloc(),
        &[
            ("all x: A | p[x]", 4),
            ("some x: A | p[x]", 12),
            ("all x: A | x in g[x]", 4),
            ("all x: A | some g[x]", 9),
            ("all x: A | g[x] = x", 1),
        ],
    )
}
