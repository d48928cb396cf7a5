// Relations beside a relation `f` between two atoms.
use crate::one_relation::counts;
use std::test::Fail;

#[test]
fn sets_of_tuples(rt: HostRuntime) -> Result<(), Fail> {
    counts(
        &rt,
        rt.alloc(),
        &[
            ("f + iden = A -> A", 4),
            ("no f - iden", 4),
            ("no f & iden", 4),
            ("f = A -> A", 1),
            ("f = none -> none", 1),
            ("f = univ -> univ", 1),
        ],
    )
}

#[test]
fn joins(rt: HostRuntime) -> Result<(), Fail> {
    counts(
        &rt,
        rt.alloc(),
        &[
            ("A.f = A", 9),
            ("f.A = A", 9),
            ("no A.f", 1),
            ("f.f in f", 13),
            ("A[f] = A", 9),
        ],
    )
}

#[test]
fn turned_and_closed(rt: HostRuntime) -> Result<(), Fail> {
    counts(
        &rt,
        rt.alloc(),
        &[
            ("f = ~f", 8),
            ("no ^f & iden", 3),
            ("^f = f", 13),
            ("*f = A -> A", 4),
        ],
    )
}

#[test]
fn pairs_that_go_before(rt: HostRuntime) -> Result<(), Fail> {
    counts(
        &rt,
        rt.alloc(),
        &[("iden ++ f = f", 9), ("f ++ iden = f", 1)],
    )
}

#[test]
fn restrictions(rt: HostRuntime) -> Result<(), Fail> {
    counts(
        &rt,
        rt.alloc(),
        &[
            ("(A - A.f) <: f = f", 3),
            ("f :> f.A = f", 12),
            ("f = f.A -> A.f", 10),
        ],
    )
}
