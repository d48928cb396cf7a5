// What belongs together where no bracket says it: with other groups the numbers would be others, or the text would be no model.
use crate::one_relation::counts;
use std::test::Fail;

#[test]
fn connectives_by_their_levels(rt: HostRuntime) -> Result<(), Fail> {
    counts(
        &rt,
        rt.alloc(),
        &[
            ("some f || no f <=> one f", 15),
            ("no f <=> one f => some f", 1),
            ("no f && one f => some f", 16),
            ("one f || some f && no f", 4),
            ("no f => one f => no f", 16),
            ("(no f => one f) => no f", 1),
            ("some f => one f => no f else some f", 12),
        ],
    )
}

#[test]
fn prefixes_by_their_levels(rt: HostRuntime) -> Result<(), Fail> {
    counts(
        &rt,
        rt.alloc(),
        &[
            ("!no f && one f", 4),
            ("!f in iden", 12),
            ("some f - iden", 12),
            ("#f ++ iden = 2", 16),
            ("~f.f in iden", 9),
            ("*f.f = f", 13),
            ("^~f = f", 5),
        ],
    )
}

#[test]
fn operators_by_their_levels(rt: HostRuntime) -> Result<(), Fail> {
    counts(
        &rt,
        rt.alloc(),
        &[
            ("f - iden + f = f", 16),
            ("f - iden ++ f = f", 1),
            ("f ++ f - iden = f", 4),
            ("f ++ iden & f = f", 9),
            ("f - f & iden = f", 4),
            ("f & A -> A.f = f", 16),
            ("A.f <: f = f", 12),
        ],
    )
}

#[test]
fn bodies_reach_to_the_end(rt: HostRuntime) -> Result<(), Fail> {
    counts(
        &rt,
        rt.alloc(),
        &[
            ("one x: A | x in x.f || no f", 8),
            ("no f && one x: A | x in x.f || some f", 0),
        ],
    )
}
