// Literals on the trail, cuts and copies.
use cnf_core::Lit;
use std::alloc::Global;
use std::process::Abort;
use std::test::Fail;
use unit_propagation::assignment_trail::{Assigned, Assignment};
use unit_propagation::clause_store::code_of;

const A: Lit = Lit {
    var: 1,
    positive: true,
};

const NOT_B: Lit = Lit {
    var: 2,
    positive: false,
};

// Makes the literal true, which is open.
fn assign(now: &mut Assignment, lit: Lit, level: u32) -> Result<(), Fail> {
    if lit.var < 1 || lit.var > now.vars() {
        Err("no such variable")?
    }
    match now.value(code_of(lit)) {
        None => now.assign(Assigned {
            lit,
            level,
            reason: None,
        }),
        Some(_) => Err("not open")?,
    }
    Ok(())
}

// An assignment of three variables where these literals are true, each at its level.
fn assigned(alloc: Global, lits: &[(Lit, u32)]) -> Result<Assignment, Fail> {
    let mut now = Assignment::none(alloc, 3)?;
    for (lit, level) in lits {
        assign(&mut now, *lit, *level)?;
    }
    Ok(now)
}

// The number of literals that are true, and the level of the newest.
fn state_of(now: &Assignment) -> (usize, u32) {
    (now.len(), now.level())
}

// That the literals of these numbers have these values.
fn have_values(rt: &impl Abort, now: &Assignment, rows: &[(u32, Option<bool>)]) {
    for (code, value) in rows {
        assert!(rt; *code / 2 <= now.vars());
        assert_eq!(rt; now.value(*code), *value);
    }
}

// That the literals of these numbers have these levels.
fn have_levels(rt: &impl Abort, now: &Assignment, rows: &[(u32, u32)]) {
    for (code, level) in rows {
        assert!(rt; *code / 2 <= now.vars());
        assert_eq!(rt; now.level_of(*code), *level);
    }
}

#[test]
fn literals_have_their_values_and_levels(rt: HostRuntime) -> Result<(), Fail> {
    let now = assigned(rt.alloc(), &[(A, 1), (NOT_B, 2)])?;
    assert_eq!(rt; state_of(&now), (2, 2));
    have_values(
        &rt,
        &now,
        &[
            (3, Some(true)),
            (2, Some(false)),
            (4, Some(true)),
            (7, None),
        ],
    );
    have_levels(&rt, &now, &[(2, 1), (4, 2)]);
    Ok(())
}

#[test]
fn no_literal_is_true_at_first(rt: HostRuntime) -> Result<(), Fail> {
    let now = assigned(rt.alloc(), &[])?;
    assert_eq!(rt; now.vars(), 3);
    assert_eq!(rt; state_of(&now), (0, 0));
    Ok(())
}

#[test]
fn a_cut_undoes_the_newest_literals(rt: HostRuntime) -> Result<(), Fail> {
    let mut now = assigned(rt.alloc(), &[(A, 1), (NOT_B, 2)])?;
    now.cut(1);
    assert_eq!(rt; state_of(&now), (1, 1));
    have_values(&rt, &now, &[(3, Some(true)), (4, None)]);
    let first = Assigned {
        lit: A,
        level: 1,
        reason: None,
    };
    assert_eq!(rt; now.literals(), [first].as_slice());
    Ok(())
}

#[test]
fn a_copy_has_the_same_literals(rt: HostRuntime) -> Result<(), Fail> {
    let now = assigned(rt.alloc(), &[(A, 1)])?;
    let mut copy = now.copy(rt.alloc())?;
    assign(&mut copy, NOT_B, 2)?;
    assert_eq!(rt; state_of(&copy), (2, 2));
    assert_eq!(rt; now.len(), 1);
    Ok(())
}
