// A journal of two sessions on a problem whose one scenario is empty.
ghost use Rattle.std.specs.Prelude.{◌≡◌, ◌<◌, ◌+◌, [], ◌∷◌, Some, None, IfOk, OnOk, All, length, slice_get};
ghost use mathlib.Core.List.{IsPrefix};
ghost use Rattle.refutation_check.specs.Chain.{IsAccepted};
ghost use Rattle.rel_formula.specs.Kernel.{conjunction, no_formulas};
ghost use Rattle.hub_state.specs.Journal.Journal.{pool_of};
ghost use Rattle.hub_state.specs.HubView.{HasTranslation};

use cnf_core::{Clause, Cnf};
use hub_lock::{Pass, Turns, turns};
use hub_state::{Entry, Event, Hub};
use refutation_check::{Hints, Log, Step};
use rel_formula::{Formula, Problem, Scenario};
use session_rules::{EndProof, Reply, Scenarios};
use std::alloc::{AllocError, Global};
use std::sync::{Arc, Wait};
use std::test::Fail;
use translation::Translation;

// The problem without relations whose formula is always true.
fn always(alloc: Global) -> Result<Problem, AllocError>
    ensures { IfOk result (λ p. p ≡ record { relations = []; tops = []; formula = conjunction no_formulas }) }
{
    let formula = Formula::all_of(Vec::new(alloc));
    Ok(Problem::of(alloc, Vec::new(alloc), Vec::new(alloc), formula)?)
}

// Its translation.
pub(crate) fn translated(alloc: Global) -> Result<Arc<Translation>, Fail>
    ensures { IfOk result (λ t. t.value.problem ≡ record { relations = []; tops = []; formula = conjunction no_formulas }) }
{
    let made = Translation::build(alloc, always(alloc)?)?;
    Ok(Arc::new(alloc, made)?)
}

// A hub of this problem.
pub(crate) fn hub_of_one(alloc: Global) -> Result<Hub, Fail>
    ensures { IfOk result (λ h. h ≡ record { problems = record { relations = []; tops = []; formula = conjunction no_formulas } ∷ []; journal = [] }) }
{
    let mut problems = Vec::new(alloc);
    problems.push(always(alloc)?)?;
    Ok(Hub::new(alloc, problems)?)
}

// The clause without literals.
fn empty_clause(alloc: Global) -> Result<Clause, Fail>
    ensures { IfOk result (λ clause. clause ≡ []) }
{
    match Clause::of(alloc, &[])? {
        Some(clause) => Ok(clause),
        None => Err("a tautology")?,
    }
}

// The log of one step, with one hint.
fn one_step(alloc: Global, clause: Clause, hint: u32) -> Result<Log, AllocError>
    ensures { IfOk result (λ log. log ≡ record { clause = clause; hints = hint ∷ [] } ∷ []) }
{
    let mut numbers = Vec::new(alloc);
    numbers.push(hint)?;
    let hints = Hints::of(numbers);
    let mut log = Log::new(alloc);
    log.push(Step { clause, hints })?;
    Ok(log)
}

// The proof that the empty scenario is all: blocked, it leaves an empty clause behind those of the translation.
fn end_proof(alloc: Global, cnf: &Cnf) -> Result<EndProof, Fail>
    ensures { IfOk result (λ p. p ≡ record { imported = 0; blocked = [] ∷ []; pool = []; log = record { clause = []; hints = (length cnf.now.clauses + 1) ∷ [] } ∷ [] }) }
{
    let mut scenarios = Vec::new(alloc);
    scenarios.push(Scenario::new(alloc))?;
    let log = one_step(alloc, empty_clause(alloc)?, cnf.len() + 1)?;
    Ok(EndProof::of(alloc, 0, Scenarios::of(scenarios), Log::new(alloc), log)?)
}

// So many steps that say the first clause again.
pub(crate) fn restated(alloc: Global, cnf: &Cnf, n: u32) -> Result<Log, Fail>
    requires { n < 100000 }
    ensures { IfOk result (λ log. IsAccepted cnf.now.clauses log) }
{
    if cnf.len() == 0 {
        Err("no clauses")?;
    }
    let first = cnf.clause(1);
    let mut log = Log::new(alloc);
    for made in 0..n {
        let _ = made; // for the proof
        let hints = Hints::of([1].to_vec(alloc)?);
        let clause = first.copy(alloc)?;
        log.push(Step { clause, hints })?;
    }
    Ok(log)
}

// Publishes the translation, and shares so many steps that say its first clause again.
fn publish_and_share(alloc: Global, hub: &mut Hub, t: Arc<Translation>, n: u32) -> Result<u32, Fail>
    requires problem { slice_get hub.old.problems 0 ≡ Some t.value.problem }
    requires few { n < 100000 }
    ensures problems { hub.new.problems ≡ hub.old.problems }
    ensures published { OnOk result (HasTranslation hub.new.journal 0) }
    ensures grows { OnOk result (IsPrefix (pool_of 0 hub.old.journal) (pool_of 0 hub.new.journal)) }
{
    let kept = hub.publish(1, 0, t)?;
    let free = restated(alloc, kept.cnf(), n)?;
    Ok(hub.share(alloc, 1, 0, 0, &free)?)
}

// Shares so many steps, and imports what came behind those that are had: how many are had then.
fn share_and_import(
    alloc: Global,
    hub: &mut Hub,
    t: Arc<Translation>,
    n: u32,
    have: &mut Log,
) -> Result<usize, Fail>
    requires problem { slice_get hub.old.problems 0 ≡ Some t.value.problem }
    requires few { n < 100000 }
    requires begins { IsPrefix have.old (pool_of 0 hub.old.journal) }
    ensures problems { OnOk result (hub.new.problems ≡ hub.old.problems) }
    ensures begins { OnOk result (IsPrefix have.new (pool_of 0 hub.new.journal)) }
{
    publish_and_share(alloc, hub, t, n)?;
    hub.import_behind(alloc, 2, 0, have)?;
    Ok(have.steps().len())
}

// Shares three steps, two and none, and imports each time what came since: how many are had each time.
fn import_three_times(alloc: Global, hub: &mut Hub) -> Result<(usize, usize, usize), Fail>
    requires { hub.old ≡ record { problems = record { relations = []; tops = []; formula = conjunction no_formulas } ∷ []; journal = [] } }
{
    let mut have = Log::new(alloc);
    let first = share_and_import(alloc, hub, translated(alloc)?, 3, &mut have)?;
    let second = share_and_import(alloc, hub, translated(alloc)?, 2, &mut have)?;
    let third = share_and_import(alloc, hub, translated(alloc)?, 0, &mut have)?;
    Ok((first, second, third))
}

// The first session: opened, published, imported, a scenario shown, an end with its proof, a step shared.
fn first_session(alloc: Global, hub: &mut Hub, t: &Arc<Translation>) -> Result<(), Fail>
    requires hub { hub.old ≡ record { problems = record { relations = []; tops = []; formula = conjunction no_formulas } ∷ []; journal = [] } }
    requires translation { t.now.value.problem ≡ record { relations = []; tops = []; formula = conjunction no_formulas } }
    ensures problems { IfOk result (λ _. hub.new.problems ≡ record { relations = []; tops = []; formula = conjunction no_formulas } ∷ []) }
    ensures own { IfOk result (λ _. All (λ x. x.by ≡ 1) hub.new.journal) }
    ensures published { IfOk result (λ _. HasTranslation hub.new.journal 0) }
{
    hub.record(1, Event::Opened { key: 0, budget: 5 })?;
    let _ = t.problem(); // for the proof
    hub.publish(1, 0, Arc::try_clone(t)?)?;
    hub.import(alloc, 1, 0)?;
    let shown = Reply::Shown {
        number: 1,
        scenario: Scenario::new(alloc),
    };
    hub.record(
        1,
        Event::Recorded {
            step: session_rules::Step::Next,
            reply: shown,
        },
    )?;
    let end = Reply::End {
        number: 1,
        proof: end_proof(alloc, t.cnf())?,
    };
    hub.record(
        1,
        Event::Recorded {
            step: session_rules::Step::Next,
            reply: end,
        },
    )?;
    let free = restated(alloc, t.cnf(), 1)?;
    hub.share(alloc, 1, 0, 0, &free)?;
    Ok(())
}

// The second session: opened, and what was shared is imported.
fn second_session(alloc: Global, hub: &mut Hub) -> Result<Log, Fail>
    requires problems { hub.old.problems ≡ record { relations = []; tops = []; formula = conjunction no_formulas } ∷ [] }
    requires others { All (λ x. x.by ≡ 1) hub.old.journal }
    requires published { HasTranslation hub.old.journal 0 }
{
    hub.record(2, Event::Opened { key: 0, budget: 7 })?;
    Ok(hub.import(alloc, 2, 0)?)
}

// Opens a session in a turn of the first pass.
fn open_in_turn<R: Wait>(rt: &R, lock: &Turns<Hub>, pass: &mut Pass<Hub>)
    requires own { pass.old.lock ≡ lock.now }
    requires idle { pass.old.view.turn ≡ None }
    requires none { pass.old.view.own ≡ [] }
    requires first { pass.old.view.number ≡ 0 }
    requires base { pass.old.view.base ≡ Some (record { relations = []; tops = []; formula = conjunction no_formulas } ∷ []) }
    ensures own { pass.new.lock ≡ pass.old.lock }
    ensures idle { pass.new.view.turn ≡ None }
    ensures same { (pass.new.view.number ≡ pass.old.view.number) × (pass.new.view.live ≡ pass.old.view.live) }
{
    let mut held = lock.take(rt, pass);
    let _ = held
        .get_mut()
        .record(0, Event::Opened { key: 0, budget: 5 });
    lock.give(pass, held);
}

// The session's number, the place of the event in its list, and a number that it holds.
fn numbers_of(entry: &Entry) -> (u32, u32, u32) {
    match &entry.event {
        Event::Published { key } => (entry.by, 1, *key),
        Event::Imported { key: _, steps } => (entry.by, 2, *steps),
        Event::Shared { key: _, steps } => (entry.by, 3, steps.steps().len().min(9) as u32),
        Event::Opened { key: _, budget } => (entry.by, 4, *budget),
        Event::Recorded { step: _, reply } => match reply {
            Reply::Shown {
                number,
                scenario: _,
            } => (entry.by, 5, *number),
            Reply::End { number, proof: _ } => (entry.by, 6, *number),
            _ => (entry.by, 7, 0),
        },
    }
}

// Whether the journal's entries read as these numbers.
pub(crate) fn reads(hub: &Hub, want: &[(u32, u32, u32)]) -> bool {
    let entries = hub.journal();
    entries.len() == want.len()
        && entries
            .iter()
            .zip(want)
            .all(|(entry, want)| numbers_of(entry) == *want)
}

#[test]
fn two_sessions_share_a_key(rt: HostRuntime) -> Result<(), Fail> {
    let alloc = rt.alloc();
    let mut hub = hub_of_one(alloc)?;
    let t = translated(alloc)?;
    assert!(rt; hub.find(0)?.is_none());
    first_session(alloc, &mut hub, &t)?;
    let imported = second_session(alloc, &mut hub)?;
    assert_eq!(rt; imported.steps().len(), 1);
    assert!(rt;
        reads(
            &hub,
            &[
                (1, 4, 5),
                (1, 1, 0),
                (1, 2, 0),
                (1, 5, 1),
                (1, 6, 1),
                (1, 3, 1),
                (2, 4, 7),
                (2, 2, 1),
            ]
        )
    );
    Ok(())
}

#[test]
fn the_first_publication_stays(rt: HostRuntime) -> Result<(), Fail> {
    let alloc = rt.alloc();
    let mut hub = hub_of_one(alloc)?;
    let first = translated(alloc)?;
    let count = first.cnf().len();
    hub.publish(3, 0, first)?;
    let kept = hub.publish(4, 0, translated(alloc)?)?;
    assert_eq!(rt; kept.cnf().len(), count);
    assert!(rt; hub.find(0)?.is_some());
    assert!(rt; reads(&hub, &[(3, 1, 0)]));
    Ok(())
}

#[test]
fn a_pool_takes_20_000_steps(rt: HostRuntime) -> Result<(), Fail> {
    let alloc = rt.alloc();
    let mut hub = hub_of_one(alloc)?;
    let first = translated(alloc)?;
    assert_eq!(rt; publish_and_share(alloc, &mut hub, first, 19_999)?, 19_999);
    let second = translated(alloc)?;
    assert_eq!(rt; publish_and_share(alloc, &mut hub, second, 3)?, 1);
    assert!(rt; reads(&hub, &[(1, 1, 0), (1, 3, 9), (1, 3, 1)]));
    Ok(())
}

#[test]
fn an_import_brings_what_came_since(rt: HostRuntime) -> Result<(), Fail> {
    let alloc = rt.alloc();
    let mut hub = hub_of_one(alloc)?;
    assert_eq!(rt; import_three_times(alloc, &mut hub)?, (3, 5, 5));
    let want = [
        (1, 1, 0),
        (1, 3, 3),
        (2, 2, 3),
        (1, 3, 2),
        (2, 2, 5),
        (1, 3, 0),
        (2, 2, 5),
    ];
    assert!(rt; reads(&hub, &want));
    Ok(())
}

// Takes what may go to another thread.
fn crossing<T: Send>(value: T) -> T {
    value
}

#[test]
fn a_hub_may_go_to_another_thread(rt: HostRuntime) -> Result<(), Fail> {
    let hub = crossing(hub_of_one(rt.alloc())?);
    assert!(rt; hub.journal().is_empty());
    Ok(())
}

#[test]
fn a_turn_lock_keeps_the_hub(rt: HostRuntime) -> Result<(), Fail> {
    let alloc = rt.alloc();
    let hub = hub_of_one(alloc)?;
    let (lock, mut pass) = turns(alloc, hub)?;
    open_in_turn(&rt, &lock, &mut pass);
    let hub = lock.close(pass);
    assert!(rt; reads(&hub, &[(0, 4, 5)]));
    Ok(())
}
