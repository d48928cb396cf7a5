// That names stand for what is worked out by hand, in a problem of one set.
use rel_formula::{Expression, Formula, Problem};
use sample_problems::set_between;
use session_state::tuple_names::{Named, what_is_named};
use session_words::AtomName;
use std::alloc::{AllocError, Global};
use std::test::Fail;
use tuple_core::Name;

// The names of the atoms at these places.
fn names(alloc: Global, top: &str, places: &[u32]) -> Result<Vec<AtomName>, AllocError> {
    let mut names = Vec::new(alloc);
    for place in places {
        let top = Name::of(alloc, top)?;
        names.push(AtomName { top, place: *place })?;
    }
    Ok(names)
}

// The number of the cell that these names stand for, 1000 for a tuple that is there for sure, and 2000 for none.
fn stand_for(
    alloc: Global,
    problem: &Problem,
    relation: &str,
    top: &str,
    places: &[u32],
) -> Result<u32, AllocError> {
    let relation = Name::of(alloc, relation)?;
    let names = names(alloc, top, places)?;
    Ok(match what_is_named(problem, &relation, names.as_slice()) {
        Named::Nothing => 2000,
        Named::Always => 1000,
        Named::Cell(number) => number,
    })
}

// A set A of at least the atom at place 1, and at most those at 0, 1 and 3.
fn one_set(alloc: Global) -> Result<Problem, Fail> {
    let formula = Formula::AtLeast(1, Expression::Rel(0));
    set_between(alloc, &[1], &[0, 1, 3], formula)
}

#[test]
fn atoms_of_one_set(rt: HostRuntime) -> Result<(), Fail> {
    let alloc = rt.alloc();
    let problem = one_set(alloc)?;
    let rows = [
        (0, 0),
        (1, 1000),
        (3, 1),
        (2, 2000),
        (4, 2000),
        (65_536, 2000),
        (65_539, 2000),
    ];
    for (place, stands_for) in rows {
        let found = stand_for(alloc, &problem, "A", "A", &[place])?;
        assert_eq!(rt; found, stands_for, "place {place}");
    }
    Ok(())
}

#[test]
fn names_of_nothing(rt: HostRuntime) -> Result<(), Fail> {
    let alloc = rt.alloc();
    let problem = one_set(alloc)?;
    assert_eq!(rt; stand_for(alloc, &problem, "B", "A", &[0])?, 2000);
    assert_eq!(rt; stand_for(alloc, &problem, "A", "B", &[0])?, 2000);
    assert_eq!(rt; stand_for(alloc, &problem, "A", "A", &[0, 0])?, 2000);
    assert_eq!(rt; stand_for(alloc, &problem, "A", "A", &[])?, 2000);
    Ok(())
}
