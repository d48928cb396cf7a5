// Copies of the first steps of logs.
ghost use Rattle.std.specs.Prelude.{◌≡◌, ◌+◌, ◌<◌, ◌≤◌, ◌^◌, ◌++◌, IfOk, OnOk, length, take};
ghost use Rattle.refutation_check.specs.Lift.{lifted, HasRoomToLift};
ghost use Rattle.clause_pool.specs.Pooled.{steps_of};

use refutation_check::{Log, Step, lift};
use std::alloc::{AllocError, Global};

/// The first so many of the logs' steps, one log after the other.
pub fn first_of(alloc: Global, logs: &[Log], n: u32) -> Result<Log, AllocError>
    requires { n < 2 ^ 30 }
    ensures { IfOk result (λ first. first ≡ take n (steps_of logs.now)) }
{
    let mut first = Log::new(alloc);
    for log in logs {
        add_up_to(alloc, &mut first, log, n)?;
    }
    Ok(first)
}

/// The first so many steps, with the hints above `base` raised by `added`.
pub fn lifted_front(
    alloc: Global,
    log: &Log,
    n: u32,
    base: u32,
    added: u32,
) -> Result<Log, AllocError>
    requires room { HasRoomToLift base added log.now }
    requires few { n ≤ length log.now }
    ensures { IfOk result (λ raised. raised ≡ take n (lifted base added log.now)) }
{
    if n as usize == log.steps().len() {
        return Ok(lift(alloc, log, base, added)?);
    }
    let mut front = Log::new(alloc);
    add_up_to(alloc, &mut front, log, n)?;
    Ok(lift(alloc, &front, base, added)?)
}

// Puts copies of the steps at the end, until there are so many.
fn add_up_to(alloc: Global, to: &mut Log, log: &Log, n: u32) -> Result<(), AllocError>
    requires most { n < 2 ^ 30 }
    requires few { length to.old ≤ n }
    ensures { OnOk result (to.new ≡ take n (to.old ++ log.now)) }
{
    let room = n as usize - to.steps().len();
    let front = first_steps(log.steps(), room);
    for step in front {
        to.push(step.copy(alloc)?)?;
    }
    Ok(())
}

// The first so many steps, or all.
fn first_steps(steps: &[Step], n: usize) -> &[Step]
    ensures { result.now ≡ take n steps.now }
{
    if n < steps.len() { &steps[..n] } else { steps }
}
