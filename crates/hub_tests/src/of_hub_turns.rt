// Turns on a hub of a problem whose one scenario is empty.
ghost use Rattle.std.specs.Prelude.{◌≡◌, ◌∷◌, [], Some, IfOk};
ghost use Rattle.rel_formula.specs.Kernel.{conjunction, no_formulas};
ghost use Rattle.hub_turns.specs.Turned.{IsIdle, IsOfKey, WentOn};

use crate::of_hub_state::{hub_of_one, reads, restated, translated};
use hub_lock::{Pass, Turns, turns};
use hub_state::Hub;
use hub_turns::{import, passes_stay_idle, publish, record_opening, record_step, share};
use refutation_check::Log;
use session_rules::{Reply, Step};
use std::alloc::{AllocError, Global};
use std::process::Abort;
use std::sync::{Arc, Wait};
use std::test::Fail;
use translation::Translation;

// Publishes the translation, imports the pool, which is empty, shares two steps that say the first clause again, imports what
// came since, and once more, where nothing did: the translation that is kept, how many steps were shared, and the pool.
fn publish_and_share<R: Wait + Abort>(
    rt: &R,
    alloc: Global,
    lock: &Turns<Hub>,
    pass: &mut Pass<Hub>,
    t: Arc<Translation>,
) -> Result<(Arc<Translation>, u32, Log), Fail>
    requires idle { IsIdle lock.now pass.old }
    requires key { IsOfKey pass.old 0 t.value }
    ensures goes { WentOn lock.now pass.old pass.new }
{
    let kept = publish(rt, lock, pass, 0, t)?;
    let mut pool = Log::new(alloc);
    import(rt, alloc, lock, pass, 0, &mut pool)?;
    assert!(rt; pool.steps().is_empty());
    let steps = restated(alloc, kept.cnf(), 2)?;
    let shared = share(rt, alloc, lock, pass, 0, 0, &steps)?;
    import(rt, alloc, lock, pass, 0, &mut pool)?;
    import(rt, alloc, lock, pass, 0, &mut pool)?;
    Ok((kept, shared, pool))
}

// Opens a session under the pass's number, and sets its budget.
fn open_and_set<R: Wait>(rt: &R, lock: &Turns<Hub>, pass: &mut Pass<Hub>) -> Result<(), AllocError>
    requires idle { IsIdle lock.now pass.old }
    requires none { pass.old.view.own ≡ [] }
    requires base { pass.old.view.base ≡ Some (record { relations = []; tops = []; formula = conjunction no_formulas } ∷ []) }
    ensures goes { WentOn lock.now pass.old pass.new }
{
    record_opening(rt, lock, pass, 0, 50)?;
    record_step(rt, lock, pass, Step::Budget(7), Reply::BudgetSet(7))
}

// Splits a pass off, which opens a session and sets its budget, and takes it back.
fn send_a_session<R: Wait>(
    rt: &R,
    lock: &Turns<Hub>,
    root: &mut Pass<Hub>,
) -> Result<(), AllocError>
    requires idle { IsIdle lock.now root.old }
    requires first { (root.old.view.number ≡ 0) × (root.old.view.made ≡ 0) }
    requires base { root.old.view.base ≡ Some (record { relations = []; tops = []; formula = conjunction no_formulas } ∷ []) }
    ensures idle { IsIdle lock.now root.new }
{
    passes_stay_idle();
    let mut pass = lock.split(root);
    let opened = open_and_set(rt, lock, &mut pass);
    lock.join(root, pass);
    opened
}

#[test]
fn passes_take_turns_on_a_hub(rt: HostRuntime) -> Result<(), Fail> {
    passes_stay_idle();
    let alloc = rt.alloc();
    let t = translated(alloc)?;
    let count = t.cnf().len();
    let (lock, mut root) = turns(alloc, hub_of_one(alloc)?)?;
    let done = publish_and_share(&rt, alloc, &lock, &mut root, t);
    let opened = send_a_session(&rt, &lock, &mut root);
    assert!(rt; root.number() == 0 && root.live() == 0);
    let hub = lock.close(root);
    let (kept, shared, pool) = done?;
    opened?;
    assert_eq!(rt; kept.cnf().len(), count);
    assert!(rt; shared == 2 && pool.steps().len() == 2);
    let want = [
        (0, 1, 0),
        (0, 2, 0),
        (0, 3, 2),
        (0, 2, 2),
        (0, 2, 2),
        (1, 4, 50),
        (1, 7, 0),
    ];
    assert!(rt; reads(&hub, &want));
    Ok(())
}
