// That the clauses can be satisfied exactly at the instances, and those of the swaps exactly where no swap makes a scenario
// earlier: sets of a few atoms, scenario by scenario.
use cnf_core::Cnf;
use rel_formula::{Scenario, holds};
use sample_problems::scenario_of;
use samples::sample_translations::translated_sets;
use std::alloc::{AllocError, Global};
use std::process::Abort;
use std::test::Fail;
use swap_symmetry::{is_settled_beside, is_settled_by};
use translation::Translation;

// The values that these cells force, variable by variable from 1 on: true, false, or none where a variable is open.
fn forced(
    rt: &impl Abort,
    alloc: Global,
    formula: &Cnf,
    cells: u32,
    scenario: &Scenario,
) -> Result<Vec<Option<bool>>, AllocError> {
    let mut values = Vec::new(alloc);
    for var in 0..formula.vars() {
        values.push(if var < cells {
            Some(scenario.has(var))
        } else {
            None
        })?;
    }
    for _ in 0..=formula.vars() {
        for number in 1..=formula.len() {
            force(rt, formula, number, &mut values);
        }
    }
    Ok(values)
}

// Gives the last open literal of a clause its value, where all others are false.
fn force(rt: &impl Abort, formula: &Cnf, number: u32, values: &mut Vec<Option<bool>>) {
    assert!(rt; 1 <= number);
    assert!(rt; number <= formula.len());
    let mut last = None;
    for lit in formula.clause(number).lits() {
        assert!(rt; 1 <= lit.var);
        assert!(rt; lit.var as usize <= values.len());
        match values[lit.var as usize - 1] {
            Some(value) => {
                if value == lit.positive {
                    return;
                }
            }
            None => {
                if last.is_some() {
                    return;
                }
                last = Some(*lit);
            }
        }
    }
    if let Some(lit) = last {
        assert!(rt; 1 <= lit.var);
        assert!(rt; lit.var as usize <= values.len());
        values[lit.var as usize - 1] = Some(lit.positive);
    }
}

// Whether the values, where open ones are false, satisfy each clause.
fn is_satisfied(rt: &impl Abort, formula: &Cnf, values: &[Option<bool>]) -> bool {
    for number in 1..=formula.len() {
        let mut is_true = false;
        for lit in formula.clause(number).lits() {
            assert!(rt; 1 <= lit.var);
            assert!(rt; lit.var as usize <= values.len());
            if values[lit.var as usize - 1].unwrap_or(false) == lit.positive {
                is_true = true;
            }
        }
        if !is_true {
            return false;
        }
    }
    true
}

// Whether the cells of the scenario can satisfy the formula, by what they force.
fn can_satisfy(
    rt: &impl Abort,
    alloc: Global,
    formula: &Cnf,
    cells: u32,
    scenario: &Scenario,
) -> Result<bool, AllocError> {
    let values = forced(rt, alloc, formula, cells, scenario)?;
    Ok(is_satisfied(rt, formula, values.as_slice()))
}

// Whether the cells can satisfy the clauses of each swap of two atoms that stand in no cell of the floor.
fn can_satisfy_swaps(
    rt: &impl Abort,
    alloc: Global,
    made: &Translation,
    floor: &[u16],
    scenario: &Scenario,
) -> Result<bool, AllocError> {
    let cells = made.problem().cells();
    for place in 0..made.pairs().len().min(64) {
        let pair = &made.pairs()[place];
        let free = !floor.contains(&pair.0.place) && !floor.contains(&pair.1.place);
        if free && !can_satisfy(rt, alloc, made.swap(place as u32), cells, scenario)? {
            return Ok(false);
        }
    }
    Ok(true)
}

#[test]
fn every_scenario_of_two_sets(rt: HostRuntime) -> Result<(), Fail> {
    let alloc = rt.alloc();
    let made = translated_sets(alloc, &[0, 1])?;
    let cells = made.problem().cells();
    assert_eq!(rt; (cells, made.pairs().len()), (4, 1));
    for bits in 0..16 {
        let scenario = scenario_of(alloc, made.problem(), bits)?;
        let is = can_satisfy(&rt, alloc, made.cnf(), cells, &scenario)?;
        assert_eq!(rt; is, holds(alloc, made.problem(), &scenario)?);
    }
    Ok(())
}

// Whether the clauses of the swaps beside the floor of these bits, where these atoms stand, say what is settled there,
// and so does the table of images.
fn says_what_is_settled(
    rt: &impl Abort,
    alloc: Global,
    made: &Translation,
    atoms: &[u16],
    bits: u32,
    scenario: &Scenario,
) -> Result<bool, AllocError> {
    let floor = scenario_of(alloc, made.problem(), bits)?;
    let free = can_satisfy_swaps(rt, alloc, made, atoms, scenario)?;
    let beside = is_settled_beside(made.problem(), &floor, scenario);
    let by = is_settled_by(made.problem(), made.images(), &floor, scenario);
    Ok(free == beside && free == by)
}

// The floors are none, and the cells of P of each atom.
#[test]
fn settled_beside_floors(rt: HostRuntime) -> Result<(), Fail> {
    let alloc = rt.alloc();
    let made = translated_sets(alloc, &[0, 1, 2])?;
    assert_eq!(rt; (made.problem().cells(), made.pairs().len()), (6, 2));
    for bits in 0..64 {
        let scenario = scenario_of(alloc, made.problem(), bits)?;
        assert!(rt; says_what_is_settled(&rt, alloc, &made, &[], 0, &scenario)?);
        for place in 0..3 {
            let is = says_what_is_settled(&rt, alloc, &made, &[place], 1 << place, &scenario)?;
            assert!(rt; is);
        }
    }
    Ok(())
}

// Two sets of two atoms: four cells, and a disjunction of two of them.
#[test]
fn clauses_are_few(rt: HostRuntime) -> Result<(), Fail> {
    let alloc = rt.alloc();
    let made = translated_sets(alloc, &[0, 1])?;
    assert_eq!(rt; (made.cnf().vars(), made.cnf().len()), (5, 4));
    assert!(rt; made.pairs().len() == 1);
    let swap = made.swap(0);
    assert_eq!(rt; (swap.vars(), swap.len()), (8, 7));
    Ok(())
}
