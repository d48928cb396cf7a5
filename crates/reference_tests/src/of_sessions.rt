// That sessions answer what the machine may.
ghost use Rattle.std.specs.Prelude.{◌≤◌, ◌<◌, ◌+◌, ◌∷◌, [], IfOk, OnOk, length};
ghost use Rattle.rel_formula.specs.Bounds.{cells_of};
ghost use Rattle.rel_formula.specs.Shape.{IsProper};
ghost use Rattle.rel_formula.specs.View.{formula_tree};
ghost use Rattle.session_state.specs.Sessions.Fits.{FitsProblem};

use crate::asks::{Ask, ENOUGH, any_ask};
use crate::judge::Judge;
use crate::kinds::ALL_KINDS;
use crate::serving::answer;
use rand_pcg::Pcg32;
use rel_formula::{Expression, Formula};
use sample_problems::set_of;
use samples::sample_links::{
    all_turned, arrows_of_the_set, each_leads_on, fewer_arrows, links, no_cycle, one_leads_on,
};
use samples::sample_translations::{translated_sets, translation_of};
use session_rules::{Refusal, Reply};
use session_state::session_search::Session;
use std::alloc::{AllocError, Global};
use std::process::Abort;
use std::test::Fail;
use translation::Translation;

// Serves one step of the list of this seed, and says whether the budget was spent.
fn step(
    rt: &impl Abort,
    alloc: Global,
    made: &Translation,
    session: &mut Session,
    judge: &mut Judge,
    ask: Ask,
    seed: u64,
) -> Result<bool, Fail>
    requires cells { length (cells_of made.now.problem) ≤ 12 }
    requires fits { FitsProblem made.now.problem session.old.kept }
    requires few { length session.old.kept.state.shown ≤ 1000 }
    ensures fits { OnOk result (FitsProblem made.now.problem session.new.kept) }
    ensures few { OnOk result (length session.new.kept.state.shown ≤ length session.old.kept.state.shown + 1) }
{
    let reply = answer(alloc, session, made, ask)?;
    let may = judge.may_answer(alloc, made.problem(), ask, &reply)?;
    assert!(rt; may, "the list of seed {seed}, at {ask:?}");
    judge.take(alloc, &reply)?;
    let listed = session.listed(alloc)?;
    assert!(rt;
        judge.lists(listed.as_slice()),
        "the list of seed {seed}, after {ask:?}"
    );
    assert_eq!(rt;
        session.floor().numbers(),
        judge.floor().numbers(),
        "the list of seed {seed}, after {ask:?}"
    );
    Ok(is_spent(&reply))
}

fn is_spent(reply: &Reply) -> bool {
    match reply {
        Reply::Refused(Refusal::Spent(_)) => true,
        _ => false,
    }
}

// Serves one step, and where it spends the budget, sets one that is enough, and serves it again.
fn turn(
    rt: &impl Abort,
    alloc: Global,
    made: &Translation,
    session: &mut Session,
    judge: &mut Judge,
    ask: Ask,
    seed: u64,
) -> Result<(), Fail>
    requires cells { length (cells_of made.now.problem) ≤ 12 }
    requires fits { FitsProblem made.now.problem session.old.kept }
    requires few { length session.old.kept.state.shown ≤ 100 }
    ensures fits { OnOk result (FitsProblem made.now.problem session.new.kept) }
    ensures few { OnOk result (length session.new.kept.state.shown ≤ length session.old.kept.state.shown + 3) }
{
    let spent = step(rt, alloc, made, session, judge, ask, seed)?;
    if spent {
        step(rt, alloc, made, session, judge, Ask::Budget(ENOUGH), seed)?;
        step(rt, alloc, made, session, judge, ask, seed)?;
    }
    Ok(())
}

// Serves the list of 16 random commands of this seed, and gives the kinds of the answers.
fn serve(rt: &impl Abort, alloc: Global, made: &Translation, seed: u64) -> Result<u32, Fail> {
    assert!(rt; made.problem().cells() <= 12);
    let mut rng = Pcg32::new(seed, 54);
    let mut session = Session::new(alloc, 0, 0, ENOUGH)?;
    let mut judge = Judge::new(alloc, ENOUGH);
    for _time in 0..16_u32 {
        let ask = any_ask(&mut rng, made.problem());
        turn(rt, alloc, made, &mut session, &mut judge, ask, seed)?;
    }
    Ok(judge.kinds())
}

// Serves lists of commands, by seeds from this one on, and gives the kinds of the answers: four lists, or one where there are
// more than six cells.
fn serve_lists(rt: &impl Abort, alloc: Global, made: &Translation, first: u64) -> Result<u32, Fail>
    requires { first < 1000 }
{
    let lists = if made.problem().cells() > 6 { 1 } else { 4 };
    let mut kinds = 0;
    for seed in first..first + lists {
        kinds |= serve(rt, alloc, made, seed)?;
    }
    Ok(kinds)
}

// Serves lists over two sets of the atoms at these places.
fn of_two_sets(rt: &impl Abort, alloc: Global, places: &[u16], first: u64) -> Result<u32, Fail>
    requires { first < 1000 }
{
    let made = translated_sets(alloc, places)?;
    serve_lists(rt, alloc, &made, first)
}

// Serves lists over any set of the atoms at these places, with a formula about it.
fn of_a_set(
    rt: &impl Abort,
    alloc: Global,
    places: &[u16],
    formula: Formula,
    first: u64,
) -> Result<u32, Fail>
    requires formula { IsProper (1 ∷ []) 0 (formula_tree formula) }
    requires first { first < 1000 }
{
    let made = translation_of(alloc, set_of(alloc, places, formula)?)?;
    serve_lists(rt, alloc, &made, first)
}

// Serves lists over arrows among the atoms at these places, and a set of them, all or any, with a formula about both.
fn of_links(
    rt: &impl Abort,
    alloc: Global,
    places: &[u16],
    whole: bool,
    formula: Formula,
    first: u64,
) -> Result<u32, Fail>
    requires formula { IsProper (1 ∷ 2 ∷ []) 0 (formula_tree formula) }
    requires first { first < 1000 }
{
    let made = translation_of(alloc, links(alloc, places, whole, formula)?)?;
    serve_lists(rt, alloc, &made, first)
}

// There are fewer atoms than so many.
fn fewer(alloc: Global, count: u32) -> Result<Formula, AllocError>
    ensures { IfOk result (λ f. IsProper (1 ∷ []) 0 (formula_tree f)) }
{
    let enough = Box::new(alloc, Formula::AtLeast(count, Expression::Rel(0)))?;
    Ok(Formula::Not(enough))
}

#[test]
fn two_sets(rt: HostRuntime) -> Result<(), Fail> {
    let alloc = rt.alloc();
    of_two_sets(&rt, alloc, &[0, 1], 100)?;
    of_two_sets(&rt, alloc, &[1, 4, 5], 110)?;
    of_two_sets(&rt, alloc, &[3], 120)?;
    Ok(())
}

#[test]
fn at_least_some_atoms(rt: HostRuntime) -> Result<(), Fail> {
    let alloc = rt.alloc();
    of_a_set(
        &rt,
        alloc,
        &[0, 1, 2, 3],
        Formula::AtLeast(2, Expression::Rel(0)),
        200,
    )?;
    of_a_set(
        &rt,
        alloc,
        &[0, 3],
        Formula::AtLeast(3, Expression::Rel(0)),
        210,
    )?;
    Ok(())
}

#[test]
fn at_most_some_atoms(rt: HostRuntime) -> Result<(), Fail> {
    let alloc = rt.alloc();
    of_a_set(&rt, alloc, &[0, 1, 2], fewer(alloc, 2)?, 220)?;
    of_a_set(&rt, alloc, &[0, 1, 2, 3], fewer(alloc, 4)?, 230)?;
    Ok(())
}

#[test]
fn at_most_some_arrows(rt: HostRuntime) -> Result<(), Fail> {
    let alloc = rt.alloc();
    of_links(&rt, alloc, &[0, 1], true, fewer_arrows(alloc, 3)?, 300)?;
    of_links(&rt, alloc, &[0, 1], false, fewer_arrows(alloc, 2)?, 310)?;
    Ok(())
}

#[test]
fn arrows_that_lead_on(rt: HostRuntime) -> Result<(), Fail> {
    let alloc = rt.alloc();
    of_links(&rt, alloc, &[0, 1], true, each_leads_on(alloc)?, 320)?;
    of_links(&rt, alloc, &[0, 1], false, each_leads_on(alloc)?, 330)?;
    Ok(())
}

#[test]
fn arrows_that_lead_on_from_one(rt: HostRuntime) -> Result<(), Fail> {
    let alloc = rt.alloc();
    of_links(&rt, alloc, &[0, 1], true, one_leads_on(alloc)?, 340)?;
    of_links(&rt, alloc, &[0, 1], false, one_leads_on(alloc)?, 350)?;
    Ok(())
}

#[test]
fn arrows_among_the_atoms_of_the_set(rt: HostRuntime) -> Result<(), Fail> {
    let alloc = rt.alloc();
    of_links(&rt, alloc, &[0, 1], false, arrows_of_the_set(alloc)?, 360)?;
    Ok(())
}

#[test]
fn arrows_without_a_cycle(rt: HostRuntime) -> Result<(), Fail> {
    let alloc = rt.alloc();
    of_links(&rt, alloc, &[0, 2], true, no_cycle(alloc)?, 370)?;
    of_links(&rt, alloc, &[0, 1], false, no_cycle(alloc)?, 380)?;
    Ok(())
}

#[test]
fn arrows_both_ways(rt: HostRuntime) -> Result<(), Fail> {
    let alloc = rt.alloc();
    of_links(&rt, alloc, &[0, 1], true, all_turned(alloc)?, 390)?;
    of_links(&rt, alloc, &[1, 2, 5], true, all_turned(alloc)?, 400)?;
    Ok(())
}

#[test]
fn three_atoms_that_lead_on(rt: HostRuntime) -> Result<(), Fail> {
    let alloc = rt.alloc();
    of_links(&rt, alloc, &[0, 1, 2], true, each_leads_on(alloc)?, 410)?;
    Ok(())
}

// In the lists of these tests all kinds of answers come.
#[test]
fn all_kinds(rt: HostRuntime) -> Result<(), Fail> {
    let alloc = rt.alloc();
    let kinds = of_links(&rt, alloc, &[0, 1], true, fewer_arrows(alloc, 3)?, 300)?;
    let more = of_links(&rt, alloc, &[0, 1], false, one_leads_on(alloc)?, 350)?;
    assert_eq!(rt; kinds | more, ALL_KINDS);
    Ok(())
}
