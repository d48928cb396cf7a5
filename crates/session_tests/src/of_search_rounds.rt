// That rounds show each due scenario once, and end: small problems at every floor, beside the search of all sets of cells.
ghost use Rattle.std.specs.Prelude.{◌≡◌, ◌≤◌, ℕ, List, All, IfOk, OnOk, IsTrue, length};
ghost use Rattle.cnf_core.specs.Literal.{HasVarsUpTo};
ghost use Rattle.rel_formula.specs.Instance.{AreCells};
ghost use Rattle.swap_symmetry.specs.Due.{IsDue};
ghost use Rattle.session_rules.specs.ProofOfEnd.{ProofOfEnd};
ghost use Rattle.session_rules.specs.Proofs.{IsCopy};
ghost use Rattle.session_state.specs.declared.search_rounds.next.Found.TheVariants.{Shown, Ended};

use cnf_core::{Clause, Cnf};
use refutation_check::{Log, Part, Scratch, Step, Verdict, check};
use rel_formula::Scenario;
use sample_problems::{bits_of, scenario_of, two_sets_of};
use samples::exhaustive_search::all_due;
use samples::sample_translations::translated_sets;
use session_rules::EndProof;
use session_state::search_rounds::{Found, KeptTrails, NextAt, StepCount, locals_of, next_at};
use std::alloc::{AllocError, Global};
use std::test::Fail;
use translation::Translation;

// What one call answers: the bits of the scenario that it shows, that the floor ends, or that the budget is spent.
#[derive(Clone, Copy, PartialEq, Eq)]
enum Told {
    Shown(u32),
    Ended,
    Spent,
}

// Looks for the next scenario by searches that go on with what is kept.
fn searched(
    alloc: Global,
    made: &Translation,
    floor: &Scenario,
    shown: &[Scenario],
    copies: &[Scenario],
    budget: u64,
    kept: &mut KeptTrails,
) -> Result<NextAt, AllocError>
    requires floor { AreCells made.now.problem floor.now }
    requires shown { All (IsDue made.now.problem floor.now) shown.now }
    requires copies { All (IsCopy made.now.problem floor.now shown.now) copies.now }
    requires few_shown { length shown.now ≤ 1000 }
    requires few_copies { length copies.now ≤ 1000 }
    requires budget { budget ≤ 1000 }
    ensures copies { IfOk result (λ next. All (IsCopy made.now.problem floor.now shown.now) next.copies) }
    ensures shown { IfOk result (λ next. (s : List ℕ) → next.found ≡ Shown s → IsDue made.now.problem floor.now s) }
    ensures ended { IfOk result (λ next. (proof : ProofOfEnd) → next.found ≡ Ended proof → All (AreCells made.now.problem) proof.blocked) }
{
    let pool = Log::new(alloc);
    let mut count = StepCount::new();
    let next = next_at(
        alloc, made, &pool, floor, shown, copies, budget, kept, &mut count,
    )?;
    Ok(next)
}

// Remembers the scenario that was found, and checks the proof of an end.
fn taken(
    alloc: Global,
    made: &Translation,
    floor: &Scenario,
    found: Found,
    shown: &mut Vec<Scenario>,
) -> Result<Told, Fail>
    requires floor { AreCells made.now.problem floor.now }
    requires known { All (IsDue made.now.problem floor.now) shown.old.items }
    requires shown { (s : List ℕ) → found ≡ Shown s → IsDue made.now.problem floor.now s }
    requires ended { (proof : ProofOfEnd) → found ≡ Ended proof → All (AreCells made.now.problem) proof.blocked }
    ensures shown { OnOk result (All (IsDue made.now.problem floor.now) shown.new.items) }
    ensures copies { OnOk result ((copy : List ℕ) → IsCopy made.now.problem floor.now shown.old.items copy → IsCopy made.now.problem floor.now shown.new.items copy) }
{
    match found {
        Found::Shown { scenario } => {
            let bits = bits_of(scenario.numbers());
            shown.push(scenario)?;
            Ok(Told::Shown(bits))
        }
        Found::Ended { proof } => {
            if !is_accepted(alloc, made, floor, &proof)? {
                Err("a proof that isn't accepted")?;
            }
            Ok(Told::Ended)
        }
        Found::Spent => Ok(Told::Spent),
    }
}

// Asks for the next scenario by searches that nothing was left for, and remembers it, and the copies that were found.
fn ask(
    alloc: Global,
    made: &Translation,
    floor: &Scenario,
    shown: &mut Vec<Scenario>,
    copies: &mut Vec<Scenario>,
    budget: u64,
) -> Result<(Told, u64), Fail>
    requires floor { AreCells made.now.problem floor.now }
    requires shown { All (IsDue made.now.problem floor.now) shown.old.items }
    requires copies { All (IsCopy made.now.problem floor.now shown.old.items) copies.old.items }
    ensures shown { OnOk result (All (IsDue made.now.problem floor.now) shown.new.items) }
    ensures copies { OnOk result (All (IsCopy made.now.problem floor.now shown.new.items) copies.new.items) }
{
    let mut kept = KeptTrails::new(alloc);
    ask_on(alloc, made, floor, shown, copies, budget, &mut kept)
}

// Asks for the next scenario by searches that go on with what is kept, and remembers it, and the copies that were found. The units are
// counted step by step.
fn ask_on(
    alloc: Global,
    made: &Translation,
    floor: &Scenario,
    shown: &mut Vec<Scenario>,
    copies: &mut Vec<Scenario>,
    budget: u64,
    kept: &mut KeptTrails,
) -> Result<(Told, u64), Fail>
    requires floor { AreCells made.now.problem floor.now }
    requires shown { All (IsDue made.now.problem floor.now) shown.old.items }
    requires copies { All (IsCopy made.now.problem floor.now shown.old.items) copies.old.items }
    ensures shown { OnOk result (All (IsDue made.now.problem floor.now) shown.new.items) }
    ensures copies { OnOk result (All (IsCopy made.now.problem floor.now shown.new.items) copies.new.items) }
{
    if shown.len() > 1000 || copies.len() > 1000 || budget > 1000 {
        Err("too many scenarios or units")?;
    }
    let next = searched(
        alloc,
        made,
        floor,
        shown.as_slice(),
        copies.as_slice(),
        budget,
        kept,
    )?;
    let NextAt {
        found,
        parts,
        copies: more,
    } = next;
    let units = units_in(made, parts.parts(), more.scenarios());
    let mut more = more.into_scenarios();
    copies.append(&mut more)?;
    let told = taken(alloc, made, floor, found, shown)?;
    Ok((told, units))
}

// How many units the parts and the new copies take.
fn units_in(made: &Translation, parts: &[Part], copies: &[Scenario]) -> u64 {
    novel_steps(made, parts).saturating_add(copies.len() as u64)
}

// How many steps contain no clause of what they were derived from. Nothing was imported.
fn novel_steps(made: &Translation, parts: &[Part]) -> u64 {
    let mut count = 0_u64;
    for part in parts {
        let steps = part.log().steps();
        count = count.saturating_add(novel_steps_of(made.cnf(), part, steps));
    }
    count
}

// How many of these steps over these clauses do.
fn novel_steps_of(cnf: &Cnf, part: &Part, steps: &[Step]) -> u64 {
    let mut count = 0_u64;
    for (place, step) in steps.iter().enumerate() {
        if !is_known(cnf, part, &steps[..place], &step.clause) {
            count = count.saturating_add(1);
        }
    }
    count
}

// Whether some clause, local one or earlier step is a part of this clause.
fn is_known(cnf: &Cnf, part: &Part, earlier: &[Step], clause: &Clause) -> bool {
    has_part_of(cnf, clause)
        || has_local_part_of(part, clause)
        || earlier.iter().any(|step| is_part(&step.clause, clause))
}

// Whether some local clause is a part of this one.
fn has_local_part_of(part: &Part, clause: &Clause) -> bool {
    for place in 0..part.local_len() {
        if is_part(part.local(place), clause) {
            return true;
        }
    }
    false
}

// Whether some clause of the translation is a part of this one.
fn has_part_of(cnf: &Cnf, clause: &Clause) -> bool {
    for number in 0..cnf.len() {
        if is_part(cnf.clause(number + 1), clause) {
            return true;
        }
    }
    false
}

// Whether each literal of the first clause stands in the second.
fn is_part(first: &Clause, second: &Clause) -> bool {
    first
        .lits()
        .iter()
        .all(|lit| second.lits().iter().any(|other| *other == *lit))
}

const VARS: u32 = 1000;

// Whether the check of logs accepts the proof, over the clauses and the local ones of the floor.
fn is_accepted(
    alloc: Global,
    made: &Translation,
    floor: &Scenario,
    proof: &EndProof,
) -> Result<bool, Fail>
    requires floor { AreCells made.now.problem floor.now }
    requires blocked { All (AreCells made.now.problem) proof.now.blocked }
{
    let locals = locals_of(alloc, made, floor, proof.blocked())?;
    is_refuted(alloc, made.cnf(), locals.as_slice(), proof.log())
}

// Whether the check accepts the log over the clauses and the local ones.
fn is_refuted(alloc: Global, cnf: &Cnf, locals: &[Clause], log: &Log) -> Result<bool, Fail> {
    let formula = all_clauses(alloc, cnf, locals)?;
    if !are_within(log) {
        Err("a variable too many")?;
    }
    let mut scratch = Scratch::for_vars(alloc, VARS)?;
    Ok(check(&formula, log, &mut scratch) == Verdict::Accepted)
}

// The clauses and the local ones, of variables up to `VARS`.
fn all_clauses(alloc: Global, cnf: &Cnf, locals: &[Clause]) -> Result<Cnf, Fail>
    ensures { IfOk result (λ formula. formula.vars ≡ VARS) }
{
    let mut formula = Cnf::new(alloc, VARS);
    for number in 0..cnf.len() {
        add_clause(alloc, &mut formula, cnf.clause(number + 1))?;
    }
    for clause in locals {
        add_clause(alloc, &mut formula, clause)?;
    }
    Ok(formula)
}

// Adds a clause of variables up to `VARS`.
fn add_clause(alloc: Global, formula: &mut Cnf, clause: &Clause) -> Result<(), Fail>
    requires { formula.old.vars ≡ VARS }
    ensures { formula.new.vars ≡ VARS }
{
    if formula.len() >= 100000 || !is_within(clause) {
        Err("a clause too many")?;
    }
    formula.push(clause.copy(alloc)?)?;
    Ok(())
}

fn is_within(clause: &Clause) -> bool
    ensures { IsTrue result → HasVarsUpTo VARS clause.now }
{
    for lit in clause.lits() {
        if lit.var > VARS {
            return false;
        }
    }
    true
}

fn are_within(log: &Log) -> bool
    ensures { IsTrue result → All (λ s. HasVarsUpTo VARS s.clause) log.now }
{
    for step in log.steps() {
        if !is_within(&step.clause) {
            return false;
        }
    }
    true
}

// What a floor is found to have, until it ends: the bits of what was shown, and of the copies.
#[derive(Drop)]
struct AtFloor {
    shown: Vec<u32>,
    copies: Vec<u32>,
}

impl AtFloor {
    // Whether these were shown, and these are the copies, each once and in any order.
    fn has(&self, shown: &[u32], copies: &[u32]) -> bool {
        are(self.shown.as_slice(), shown) && are(self.copies.as_slice(), copies)
    }
}

// Whether the numbers found are these different ones, in any order.
fn are(found: &[u32], wanted: &[u32]) -> bool {
    found.len() == wanted.len() && wanted.iter().all(|bits| found.contains(bits))
}

// What is found for two sets of the atoms at these places, at the floor of these bits.
fn all_at(alloc: Global, places: &[u16], bits: u32) -> Result<AtFloor, Fail> {
    let made = translated_sets(alloc, places)?;
    let floor = scenario_of(alloc, made.problem(), bits)?;
    until_it_ends(alloc, &made, &floor)
}

fn until_it_ends(alloc: Global, made: &Translation, floor: &Scenario) -> Result<AtFloor, Fail>
    requires { AreCells made.now.problem floor.now }
{
    let mut shown = Vec::new(alloc);
    let mut copies = Vec::new(alloc);
    'asking: for _ in 0..20 {
        let (told, _) = ask(alloc, made, floor, &mut shown, &mut copies, 100)?;
        if told == Told::Ended {
            return listed(alloc, shown.as_slice(), copies.as_slice());
        }
    }
    Err("no end")?
}

// What so many calls in a row find, where what the searches of each leave serves those of the next one.
fn in_a_row(
    alloc: Global,
    made: &Translation,
    floor: &Scenario,
    calls: u32,
) -> Result<AtFloor, Fail>
    requires { AreCells made.now.problem floor.now }
{
    let mut kept = KeptTrails::new(alloc);
    let mut shown = Vec::new(alloc);
    let mut copies = Vec::new(alloc);
    'asking: for _ in 0..calls {
        ask_on(alloc, made, floor, &mut shown, &mut copies, 100, &mut kept)?;
    }
    listed(alloc, shown.as_slice(), copies.as_slice())
}

fn listed(alloc: Global, shown: &[Scenario], copies: &[Scenario]) -> Result<AtFloor, Fail> {
    Ok(AtFloor {
        shown: all_bits(alloc, shown)?,
        copies: all_bits(alloc, copies)?,
    })
}

// The bits of each scenario.
fn all_bits(alloc: Global, scenarios: &[Scenario]) -> Result<Vec<u32>, AllocError> {
    let mut bits = Vec::new(alloc);
    for scenario in scenarios {
        bits.push(bits_of(scenario.numbers()))?;
    }
    Ok(bits)
}

// Two atoms: Q of the first is shown, and Q of the second is a copy of it, found below P of the first and Q of the second.
#[test]
fn one_scenario_and_its_copy(rt: HostRuntime) -> Result<(), Fail> {
    let found = all_at(rt.alloc(), &[0, 1], 0)?;
    assert!(rt; found.has(&[0b0100], &[0b1000]));
    Ok(())
}

// What the search of all sets of cells finds at the bottom.
fn due_at_bottom(alloc: Global, places: &[u16]) -> Result<Vec<u32>, Fail> {
    let problem = two_sets_of(alloc, places)?;
    if problem.cells() > 12 {
        Err("too many cells")?;
    }
    let due = all_due(alloc, &problem)?;
    Ok(all_bits(alloc, due.as_slice())?)
}

// At the bottom, all that the search of all sets of cells finds, for up to four atoms with gaps.
#[test]
fn all_that_is_due(rt: HostRuntime) -> Result<(), Fail> {
    let rows: [&[u16]; 4] = [&[3], &[0, 1], &[1, 4, 5], &[0, 2, 3, 7]];
    for places in rows {
        let found = all_at(rt.alloc(), places, 0)?;
        let due = due_at_bottom(rt.alloc(), places)?;
        assert!(rt; are(found.shown.as_slice(), due.as_slice()));
    }
    Ok(())
}

// An atom that stands in the floor isn't swapped: with P of the first of two atoms, Q of either is due; of three atoms, the two
// that don't stand in the floor are alike.
#[test]
fn beside_a_floor(rt: HostRuntime) -> Result<(), Fail> {
    let alloc = rt.alloc();
    assert!(rt; all_at(alloc, &[0, 1], 0b0001)?.has(&[0b0101, 0b1001], &[]));
    assert!(rt; all_at(alloc, &[0, 1], 0b0100)?.has(&[0b0100], &[]));
    let three = all_at(alloc, &[0, 1, 2], 0b000001)?;
    assert!(rt; are(three.shown.as_slice(), &[0b001001, 0b010001]));
    Ok(())
}

// Of three atoms, with P of two of them in the floor, Q of each is due: three calls find the same, and four too, the last of which finds
// no more, whether each search begins anew or goes on with what those before left.
#[test]
fn in_a_row_as_anew(rt: HostRuntime) -> Result<(), Fail> {
    let alloc = rt.alloc();
    let made = translated_sets(alloc, &[0, 1, 2])?;
    let floor = scenario_of(alloc, made.problem(), 0b000011)?;
    let anew = until_it_ends(alloc, &made, &floor)?;
    assert!(rt; anew.has(&[0b001011, 0b010011, 0b100011], &[]));
    for calls in 3..5 {
        let found = in_a_row(alloc, &made, &floor, calls)?;
        assert!(rt;
            found.has(anew.shown.as_slice(), anew.copies.as_slice()),
            "{calls} calls"
        );
    }
    Ok(())
}

// What is answered with this budget where two atoms are there and Q of the first was shown.
fn told_with(alloc: Global, made: &Translation, budget: u64) -> Result<(Told, u64), Fail> {
    let floor = scenario_of(alloc, made.problem(), 0)?;
    let mut shown = Vec::new(alloc);
    let mut copies = Vec::new(alloc);
    let (first, _) = ask(alloc, made, &floor, &mut shown, &mut copies, 100)?;
    if first != Told::Shown(0b0100) {
        Err("another one first")?;
    }
    ask(alloc, made, &floor, &mut shown, &mut copies, budget)
}

// Whether all of the budget is spent, or the floor ends with no more of it.
fn is_within_budget(told: Told, units: u64, budget: u64) -> bool {
    match told {
        Told::Ended => units <= budget,
        Told::Spent => units == budget,
        Told::Shown(_) => false,
    }
}

// With too small a budget, all of it is spent; from some budget on there is the answer, and it takes no more than the budget.
#[test]
fn spent_budgets(rt: HostRuntime) -> Result<(), Fail> {
    let alloc = rt.alloc();
    let made = translated_sets(alloc, &[0, 1])?;
    let mut last = Told::Spent;
    for budget in 0..20 {
        let (told, units) = told_with(alloc, &made, budget)?;
        assert!(rt;
            is_within_budget(told, units, budget),
            "a budget of {budget}"
        );
        assert!(rt; last == Told::Spent || told == last, "a budget of {budget}");
        last = told;
    }
    assert!(rt; last == Told::Ended);
    assert!(rt; told_with(alloc, &made, 0)? == (Told::Spent, 0));
    Ok(())
}
