// Sessions from end to end: the subsets of two atoms, all of them or those of at most one.
ghost use Rattle.std.specs.Prelude.{◌≤◌, ◌+◌, ◌∷◌, [], IfOk, OnOk, length};
ghost use Rattle.rel_formula.specs.Shape.{IsProper};
ghost use Rattle.rel_formula.specs.View.{formula_tree};
ghost use Rattle.session_state.specs.Sessions.Fits.{FitsProblem};
ghost use Rattle.session_state.specs.Sessions.Proposed.{IsPlain, NeedsTranslation};

use refutation_check::Log;
use rel_formula::{Expression, Formula};
use sample_problems::{bits_of, set_of};
use samples::sample_translations::translation_of;
use session_rules::{Refusal, Reply};
use session_state::search_rounds::StepCount;
use session_state::session_search::Session;
use session_words::{AtomName, AtomNames, Step};
use std::alloc::{AllocError, Global};
use std::test::Fail;
use translation::Translation;
use tuple_core::Name;

// There are fewer atoms than so many.
fn fewer(alloc: Global, count: u32) -> Result<Formula, AllocError>
    ensures { IfOk result (λ f. IsProper (1 ∷ []) 0 (formula_tree f)) }
{
    let enough = Box::new(alloc, Formula::AtLeast(count, Expression::Rel(0)))?;
    Ok(Formula::Not(enough))
}

// The translation of the sets of fewer than so many of two atoms.
fn translated(alloc: Global, count: u32) -> Result<Translation, Fail> {
    let problem = set_of(alloc, &[0, 1], fewer(alloc, count)?)?;
    translation_of(alloc, problem)
}

// What a session is asked for: an augmentation by the atom at a place.
#[derive(Clone, Copy)]
enum Ask {
    Next,
    Offers,
    Augment(u32),
    Back,
    Budget(u32),
    Proof,
}

// What it answers.
#[derive(Clone, Copy, PartialEq, Eq)]
enum Told {
    Shown,
    Ended,
    Offers,
    Augmented,
    Back,
    Budget,
    Proof,
    NoScenario,
    UnknownTuple,
    Present,
    NoInstance,
    Bottom,
    Deep,
    Spent,
    NoEnd,
    Other,
}

fn told_by(refusal: &Refusal) -> (Told, u32, u32) {
    match refusal {
        Refusal::NoScenario => (Told::NoScenario, 0, 0),
        Refusal::UnknownTuple => (Told::UnknownTuple, 0, 0),
        Refusal::Present => (Told::Present, 0, 0),
        Refusal::NoInstance(_) => (Told::NoInstance, 0, 0),
        Refusal::Bottom => (Told::Bottom, 0, 0),
        Refusal::Deep => (Told::Deep, 0, 0),
        Refusal::Spent(work) => (Told::Spent, work.budget, 0),
        Refusal::NoEnd => (Told::NoEnd, 0, 0),
    }
}

// What a reply tells, with a number and the bits of cells where it has them.
fn told_of(reply: &Reply) -> (Told, u32, u32) {
    match reply {
        Reply::Shown { number, scenario } => (Told::Shown, *number, bits_of(scenario.numbers())),
        Reply::End { number, .. } => (Told::Ended, *number, 0),
        Reply::Offers { cells } => (Told::Offers, 0, bits_of(cells.numbers())),
        Reply::Augmented { floor } => (Told::Augmented, 0, bits_of(floor.numbers())),
        Reply::Back => (Told::Back, 0, 0),
        Reply::BudgetSet(budget) => (Told::Budget, *budget, 0),
        Reply::Proof { .. } => (Told::Proof, 0, 0),
        Reply::Refused(refusal) => told_by(refusal),
        Reply::All { .. } => (Told::Other, 0, 0),
        Reply::Partly { .. } => (Told::Other, 0, 0),
        Reply::Memory => (Told::Other, 0, 0),
    }
}

// The step that is answered by a search.
fn search(
    alloc: Global,
    session: &mut Session,
    made: &Translation,
    step: Step,
) -> Result<(Told, u32, u32), AllocError>
    requires step { NeedsTranslation step }
    requires fits { FitsProblem made.now.problem session.old.kept }
    requires few { length session.old.kept.state.shown ≤ 1000 }
    ensures fits { OnOk result (FitsProblem made.now.problem session.new.kept) }
    ensures few { OnOk result (length session.new.kept.state.shown ≤ length session.old.kept.state.shown + 1) }
{
    let pool = Log::new(alloc);
    let mut count = StepCount::new();
    let proposal = session.propose(alloc, made, &pool, &step, &mut count)?;
    let told = told_of(proposal.reply());
    session.reserve(&proposal)?;
    session.apply(proposal);
    Ok(told)
}

// The step that is answered without one.
fn answer(
    alloc: Global,
    session: &mut Session,
    made: &Translation,
    step: Step,
) -> Result<(Told, u32, u32), AllocError>
    requires step { IsPlain step }
    requires fits { FitsProblem made.now.problem session.old.kept }
    requires few { length session.old.kept.state.shown ≤ 1000 }
    ensures fits { OnOk result (FitsProblem made.now.problem session.new.kept) }
    ensures few { OnOk result (length session.new.kept.state.shown ≤ length session.old.kept.state.shown + 1) }
{
    let _problem = made.problem(); // for the proof
    let pool = Log::new(alloc);
    let mut count = StepCount::new();
    let proposal = session.propose(alloc, made, &pool, &step, &mut count)?;
    let told = told_of(proposal.reply());
    session.reserve(&proposal)?;
    session.apply(proposal);
    Ok(told)
}

// To fix the atom at this place.
fn by_atom(alloc: Global, place: u32) -> Result<Step, AllocError>
    ensures { IfOk result (λ step. NeedsTranslation step) }
{
    let relation = Name::of(alloc, "A")?;
    let top = Name::of(alloc, "A")?;
    let tuple = AtomNames::of(vec![in alloc; AtomName { top, place }]?);
    Ok(Step::Augment { relation, tuple })
}

fn tell(
    alloc: Global,
    session: &mut Session,
    made: &Translation,
    ask: Ask,
) -> Result<(Told, u32, u32), AllocError>
    requires fits { FitsProblem made.now.problem session.old.kept }
    requires few { length session.old.kept.state.shown ≤ 1000 }
    ensures fits { OnOk result (FitsProblem made.now.problem session.new.kept) }
    ensures few { OnOk result (length session.new.kept.state.shown ≤ length session.old.kept.state.shown + 1) }
{
    match ask {
        Ask::Next => search(alloc, session, made, Step::Next),
        Ask::Offers => search(alloc, session, made, Step::Offers),
        Ask::Augment(place) => {
            let step = by_atom(alloc, place)?;
            search(alloc, session, made, step)
        }
        Ask::Back => answer(alloc, session, made, Step::Back),
        Ask::Budget(budget) => answer(alloc, session, made, Step::Budget(budget.min(1000))),
        Ask::Proof => answer(alloc, session, made, Step::Proof),
    }
}

// An ask, what it is to be told, and a number and the bits of cells with it.
type Row = (Ask, Told, u32, u32);

// The answers, one after the other, and how many scenarios are listed then.
fn answers(
    alloc: Global,
    made: &Translation,
    rows: &[Row],
) -> Result<(Vec<(Told, u32, u32)>, usize), Fail>
    requires { length rows.now ≤ 100 }
{
    let mut session = Session::new(alloc, 1, 2, 1000)?;
    let mut told = Vec::new(alloc);
    for (ask, ..) in rows {
        let one = tell(alloc, &mut session, made, *ask)?;
        told.push(one)?;
    }
    let listed = session.listed(alloc)?;
    Ok((told, listed.len()))
}

// Whether each ask is told what it is to be, where fewer than so many atoms are there, and so many scenarios are listed then.
fn is_told(alloc: Global, count: u32, rows: &[Row], listed: usize) -> Result<bool, Fail> {
    if rows.len() > 100 {
        Err("too many asks")?;
    }
    let made = translated(alloc, count)?;
    let (told, found) = answers(alloc, &made, rows)?;
    Ok(found == listed && are_told(told.as_slice(), rows))
}

fn are_told(told: &[(Told, u32, u32)], rows: &[Row]) -> bool {
    told.len() == rows.len()
        && told.iter().zip(rows).all(|(one, row)| one.0 == row.1
            && one.1 == row.2
            && one.2 == row.3)
}

#[test]
fn nothing_was_shown(rt: HostRuntime) -> Result<(), Fail> {
    let alloc = rt.alloc();
    let session = Session::new(alloc, 1, 2, 100)?;
    assert_eq!(rt; session.owner(), 1);
    assert_eq!(rt; session.key(), 2);
    assert!(rt; session.floor().is_empty());
    Ok(())
}

// Of the subsets the empty one is minimal, and at the floor of one atom the set of it.
const UP_AND_BACK: [Row; 8] = [
    (Ask::Next, Told::Shown, 1, 0b00),
    (Ask::Offers, Told::Offers, 0, 0b11),
    (Ask::Augment(1), Told::Augmented, 0, 0b10),
    (Ask::Next, Told::Shown, 1, 0b10),
    (Ask::Next, Told::Ended, 1, 0),
    (Ask::Proof, Told::Proof, 0, 0),
    (Ask::Back, Told::Back, 0, 0),
    (Ask::Next, Told::Ended, 1, 0),
];

#[test]
fn a_floor_up_and_back(rt: HostRuntime) -> Result<(), Fail> {
    assert!(rt; is_told(rt.alloc(), 3, &UP_AND_BACK, 1)?);
    Ok(())
}

// With at most one atom no second one can be added; without a budget that is not known.
const AT_MOST_ONE: [Row; 9] = [
    (Ask::Next, Told::Shown, 1, 0b00),
    (Ask::Augment(0), Told::Augmented, 0, 0b01),
    (Ask::Next, Told::Shown, 1, 0b01),
    (Ask::Budget(0), Told::Budget, 0, 0),
    (Ask::Offers, Told::Spent, 0, 0),
    (Ask::Augment(1), Told::Spent, 0, 0),
    (Ask::Budget(10), Told::Budget, 10, 0),
    (Ask::Offers, Told::Offers, 0, 0),
    (Ask::Augment(1), Told::NoInstance, 0, 0),
];

#[test]
fn at_most_one(rt: HostRuntime) -> Result<(), Fail> {
    assert!(rt; is_told(rt.alloc(), 2, &AT_MOST_ONE, 1)?);
    Ok(())
}

const REFUSALS: [Row; 9] = [
    (Ask::Augment(0), Told::NoScenario, 0, 0),
    (Ask::Offers, Told::NoScenario, 0, 0),
    (Ask::Back, Told::Bottom, 0, 0),
    (Ask::Proof, Told::NoEnd, 0, 0),
    (Ask::Next, Told::Shown, 1, 0b00),
    (Ask::Augment(7), Told::UnknownTuple, 0, 0),
    (Ask::Augment(0), Told::Augmented, 0, 0b01),
    (Ask::Next, Told::Shown, 1, 0b01),
    (Ask::Augment(0), Told::Present, 0, 0),
];

#[test]
fn refusals(rt: HostRuntime) -> Result<(), Fail> {
    assert!(rt; is_told(rt.alloc(), 3, &REFUSALS, 1)?);
    Ok(())
}
