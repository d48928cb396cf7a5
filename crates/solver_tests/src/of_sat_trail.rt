// Propagation and learning over four variables.
ghost use Rattle.std.specs.Prelude.{◌≡◌, ◌≤◌, length};
ghost use Rattle.cnf_core.specs.Literal.{HasVarsUpTo};
ghost use Rattle.refutation_check.specs.Chain.{IsChain, Refutes};
ghost use Rattle.unit_propagation.specs.Assignments.Trail.{falses_of};

use cnf_core::{Clause, Cnf, Lit, Valuation};
use refutation_check::{Log, Step};
use sat_trail::{Propagated, SavedPhases, Trail, learn};
use std::alloc::Global;
use std::process::Abort;

// All four clauses of two variables, which no valuation satisfies.
const SQUARE: [[i8; 2]; 4] = [[1, 2], [1, -2], [-1, 2], [-1, -2]];

// Clauses by which a variable forces a second one, and that forces two others that cannot both be true.
const IMPLICATIONS: [[i8; 2]; 4] = [[-1, 2], [-2, 3], [-2, 4], [-3, -4]];

// The literal of one of four variables by its number in the DIMACS format.
fn literal(number: i8) -> Lit
    ensures from_one { 1 ≤ result.var }
    ensures in_range { result.var ≤ 4 }
{
    Lit {
        var: u32::from(number.unsigned_abs()).clamp(1, 4),
        positive: number > 0,
    }
}

fn clause(rt: &impl Abort, alloc: Global, numbers: [i8; 2]) -> Clause
    ensures { HasVarsUpTo 4 result }
{
    let lits = [literal(numbers[0]), literal(numbers[1])];
    let clause = Clause::of(alloc, &lits).expect(rt, "memory");
    clause.expect(rt, "no tautology")
}

// Puts the clause of these literals at the end of a formula of four variables.
fn add(rt: &impl Abort, alloc: Global, formula: &mut Cnf, numbers: [i8; 2]) {
    let clause = clause(rt, alloc, numbers);
    assert!(rt; formula.vars() == 4 && formula.len() < 4);
    formula.push(clause).expect(rt, "memory");
}

// A formula of these clauses of four variables.
fn formula_of(rt: &impl Abort, alloc: Global, clauses: &[[i8; 2]]) -> Cnf {
    let mut formula = Cnf::new(alloc, 4);
    for numbers in clauses {
        add(rt, alloc, &mut formula, *numbers);
    }
    formula
}

// A trail over these clauses of four variables.
fn trail_of(rt: &impl Abort, alloc: Global, clauses: &[[i8; 2]]) -> Trail
    ensures { length result.clauses ≡ 4 }
{
    let formula = formula_of(rt, alloc, clauses);
    assert!(rt; formula.len() == 4);
    let none = Log::new(alloc);
    Trail::of(alloc, &formula, &none, &[]).expect(rt, "memory")
}

// Makes the literal of this number true, which is open.
fn decide(rt: &impl Abort, trail: &mut Trail, number: i8)
    ensures { trail.new.clauses ≡ trail.old.clauses }
{
    let lit = literal(number);
    assert!(rt; trail.vars() >= 4);
    match trail.value(lit.var) {
        None => trail.decide(lit),
        Some(_) => panic!(rt; "not open"),
    }
}

// The clause that propagation finds falsified.
fn conflict(rt: &impl Abort, trail: &mut Trail) -> u32
    ensures clauses { trail.new.clauses ≡ trail.old.clauses }
    ensures refuted { Refutes trail.new.clauses (falses_of trail.new.assigned) result }
{
    match trail.propagate() {
        Propagated::Conflict(number) => number,
        Propagated::Closed => rt.panic("no conflict"),
    }
}

// What is learnt from that clause.
fn learnt(rt: &impl Abort, alloc: Global, trail: &mut Trail) -> Step
    ensures clauses { trail.new.clauses ≡ trail.old.clauses }
    ensures chain { IsChain trail.new.clauses result.clause result.hints }
    ensures in_range { HasVarsUpTo trail.new.vars result.clause }
{
    let number = conflict(rt, trail);
    learn(alloc, trail, number).expect(rt, "memory")
}

// Goes back to level 0 and adds the step there, which is the fifth clause.
fn add_fifth(rt: &impl Abort, trail: &mut Trail, step: Step)
    requires few { length trail.old.clauses ≡ 4 }
    requires chain { IsChain trail.old.clauses step.clause step.hints }
    requires in_range { HasVarsUpTo trail.old.vars step.clause }
{
    trail.back_to(0);
    let number = trail.add(step).expect(rt, "memory");
    assert_eq!(rt; number, 5);
}

// Whether the step has the literals of these numbers, and these hints.
fn is_step(step: &Step, numbers: &[i8], hints: &[u32]) -> bool {
    let lits = step.clause.lits();
    lits.len() == numbers.len()
        && lits
            .iter()
            .zip(numbers)
            .all(|(lit, number)| *lit == literal(*number))
        && step.hints.numbers() == hints
}

fn value(rt: &impl Abort, trail: &Trail, var: u32) -> Option<bool> {
    assert!(rt; 1 <= var && var <= trail.vars());
    trail.value(var)
}

// The level, and the values of the first two variables.
fn state_of(rt: &impl Abort, trail: &Trail) -> (u32, Option<bool>, Option<bool>) {
    (trail.level(), value(rt, trail, 1), value(rt, trail, 2))
}

// The trail over these clauses with its first step, which is learnt after this decision. The step's literals have
// these numbers, and it has these hints.
fn trail_with_step(
    rt: &impl Abort,
    alloc: Global,
    clauses: &[[i8; 2]],
    decision: i8,
    (numbers, hints): (&[i8], &[u32]),
) -> Trail {
    let mut trail = trail_of(rt, alloc, clauses);
    decide(rt, &mut trail, decision);
    let step = learnt(rt, alloc, &mut trail);
    assert!(rt; is_step(&step, numbers, hints));
    add_fifth(rt, &mut trail, step);
    trail
}

#[test]
fn the_first_implication_point_is_learnt(rt: HostRuntime) {
    let step: (&[i8], &[u32]) = (&[-2], &[3, 2, 4]);
    trail_with_step(&rt, rt.alloc(), &IMPLICATIONS, 1, step);
}

#[test]
fn two_conflicts_refute_the_square(rt: HostRuntime) {
    let first: (&[i8], &[u32]) = (&[1], &[2, 1]);
    let mut trail = trail_with_step(&rt, rt.alloc(), &SQUARE, -1, first);
    let last = learnt(&rt, rt.alloc(), &mut trail);
    assert!(rt; is_step(&last, &[], &[5, 4, 3]));
}

// A trail over the four clauses of two variables, from which nothing follows, with the first decided false.
fn decided_square(rt: &impl Abort, alloc: Global) -> Trail {
    let mut trail = trail_of(rt, alloc, &SQUARE);
    assert_eq!(rt; trail.propagate(), Propagated::Closed);
    decide(rt, &mut trail, -1);
    trail
}

#[test]
fn going_back_opens_what_was_forced(rt: HostRuntime) {
    let mut trail = decided_square(&rt, rt.alloc());
    assert_eq!(rt; conflict(&rt, &mut trail), 1);
    assert_eq!(rt; state_of(&rt, &trail), (1, Some(false), Some(false)));
    trail.back_to(0);
    assert_eq!(rt; state_of(&rt, &trail), (0, None, None));
}

// The number of the literal that is decided next, or 0 where there is none.
fn next_decided(trail: &mut Trail, leaning: &SavedPhases) -> i64 {
    match trail.decide_next(leaning) {
        Some(lit) if lit.positive => i64::from(lit.var),
        Some(lit) => -i64::from(lit.var),
        None => 0,
    }
}

#[test]
fn the_first_variable_is_decided_where_nothing_was_met(rt: HostRuntime) {
    let mut trail = trail_of(&rt, rt.alloc(), &IMPLICATIONS);
    let leaning = SavedPhases::towards(rt.alloc(), false);
    assert_eq!(rt; next_decided(&mut trail, &leaning), -1);
    assert_eq!(rt; value(&rt, &trail, 1), Some(false));
}

// What is decided in five turns, where variables lean to false.
fn decided(rt: &impl Abort, alloc: Global, trail: &mut Trail) -> Vec<i64> {
    let leaning = SavedPhases::towards(alloc, false);
    let mut numbers = Vec::new(alloc);
    for _ in 0..5 {
        numbers
            .push(next_decided(trail, &leaning))
            .expect(rt, "memory");
    }
    numbers
}

// A trail over these clauses of four variables and one local clause, from a trail over them and five variables.
fn grown_trail(rt: &impl Abort, alloc: Global, local: &[Clause]) -> Trail {
    let formula = formula_of(rt, alloc, &SQUARE);
    assert!(rt; formula.len() == 4 && local.len() < 9);
    let base = Trail::over(alloc, &formula, 5).expect(rt, "memory");
    let none = Log::new(alloc);
    base.grown(alloc, &formula, &none, local)
        .expect(rt, "memory")
}

#[test]
fn a_grown_trail_has_the_local_clauses(rt: HostRuntime) {
    let local = [clause(&rt, rt.alloc(), [3, 4])];
    let mut trail = grown_trail(&rt, rt.alloc(), &local);
    assert!(rt; trail.vars() >= 5);
    decide(&rt, &mut trail, -3);
    assert_eq!(rt; trail.propagate(), Propagated::Closed);
    assert_eq!(rt; value(&rt, &trail, 4), Some(true));
}

#[test]
fn what_leans_to_true_is_decided_true(rt: HostRuntime) {
    let leaning = SavedPhases::towards(rt.alloc(), true);
    let mut trail = trail_of(&rt, rt.alloc(), &IMPLICATIONS);
    assert_eq!(rt; next_decided(&mut trail, &leaning), 1);
    assert!(rt; leaning.value(5));
}

// What leans to a valuation in which the one variable is true, and else to false.
fn followed(rt: &impl Abort, alloc: Global) -> SavedPhases {
    let mut leaning = SavedPhases::towards(alloc, false);
    let values = vec![in alloc; true; 1].expect(rt, "memory");
    leaning
        .follow(alloc, &Valuation::of(values))
        .expect(rt, "memory");
    leaning
}

#[test]
fn a_valuation_is_followed(rt: HostRuntime) {
    let leaning = followed(&rt, rt.alloc());
    assert!(rt; leaning.value(1));
    assert!(rt; !leaning.value(2));
}

#[test]
fn what_a_step_met_is_decided_first(rt: HostRuntime) {
    let step: (&[i8], &[u32]) = (&[-2], &[3, 2, 4]);
    let mut trail = trail_with_step(&rt, rt.alloc(), &IMPLICATIONS, 1, step);
    let numbers = decided(&rt, rt.alloc(), &mut trail);
    assert_eq!(rt; numbers.as_slice(), [-2, -3, -4, -1, 0].as_slice());
}

// That after a decision of the first literal the first clause is the one that is falsified.
fn falsifies_the_first(rt: &impl Abort, trail: &mut Trail) {
    decide(rt, trail, -1);
    assert_eq!(rt; conflict(rt, trail), 1);
}

#[test]
fn a_copy_is_decided_by_itself(rt: HostRuntime) {
    let trail = trail_of(&rt, rt.alloc(), &SQUARE);
    let mut copy = trail.copy(rt.alloc()).expect(&rt, "memory");
    falsifies_the_first(&rt, &mut copy);
    assert_eq!(rt; state_of(&rt, &trail), (0, None, None));
}

#[test]
fn a_clause_is_added_where_decisions_stand(rt: HostRuntime) {
    let mut trail = trail_of(&rt, rt.alloc(), &IMPLICATIONS);
    decide(&rt, &mut trail, -1);
    assert_eq!(rt; trail.propagate(), Propagated::Closed);
    let more = clause(&rt, rt.alloc(), [1, 2]);
    added_falsifies_the_fifth(&rt, &mut trail, &more);
}

// That a clause added behind four others undoes the decisions, and is falsified where its first literal is decided false.
fn added_falsifies_the_fifth(rt: &impl Abort, trail: &mut Trail, more: &Clause)
    requires few { length trail.old.clauses ≡ 4 }
    requires vars { HasVarsUpTo 4 more.now }
{
    assert!(rt; trail.vars() >= 4);
    trail.add_given(more).expect(rt, "memory");
    assert_eq!(rt; state_of(rt, trail), (0, None, None));
    decide(rt, trail, -1);
    assert_eq!(rt; conflict(rt, trail), 4);
}

#[test]
fn a_clause_of_two_open_literals_undoes_nothing(rt: HostRuntime) {
    let mut trail = trail_of(&rt, rt.alloc(), &IMPLICATIONS);
    decide(&rt, &mut trail, -1);
    let more = clause(&rt, rt.alloc(), [2, 3]);
    added_undoes_nothing(&rt, &mut trail, &more);
}

// That a clause added behind four others leaves the decision of the first variable.
fn added_undoes_nothing(rt: &impl Abort, trail: &mut Trail, more: &Clause)
    requires few { length trail.old.clauses ≡ 4 }
    requires vars { HasVarsUpTo 4 more.now }
{
    assert!(rt; trail.vars() >= 4);
    trail.add_given(more).expect(rt, "memory");
    assert_eq!(rt; state_of(rt, trail), (1, Some(false), None));
}

// Decides the lowest open variable up to this one false.
fn decide_low(rt: &impl Abort, trail: &mut Trail, limit: u32) -> Option<Lit> {
    assert!(rt; trail.vars() >= limit);
    let lit = trail.decide_low(0, limit)?;
    Some(lit)
}

#[test]
fn the_lowest_open_variable_is_decided_false(rt: HostRuntime) {
    let mut trail = trail_of(&rt, rt.alloc(), &IMPLICATIONS);
    decide(&rt, &mut trail, 2);
    assert_eq!(rt; decide_low(&rt, &mut trail, 4), Some(literal(-1)));
    assert_eq!(rt; decide_low(&rt, &mut trail, 2), None);
    assert_eq!(rt; decide_low(&rt, &mut trail, 4), Some(literal(-3)));
    assert_eq!(rt; trail.level(), 3);
}
