// Logs over a formula with more clauses.
ghost use Rattle.std.specs.Prelude.{◌≡◌, ◌+◌, ◌<◌, ◌^◌, All, IfOk, map};
ghost use Rattle.refutation_check.specs.Lift.{lifted_hint, lifted, HasRoomToLift};

use crate::log::{Hints, Log, Step};
use std::alloc::{AllocError, Global};

/// The log with its hints above `base` raised by `added`, so that as many members can come after the
/// first `base`. No raised hint goes above 4,294,967,295.
pub fn lift(alloc: Global, log: &Log, base: u32, added: u32) -> Result<Log, AllocError>
    requires { HasRoomToLift base added log.now }
    ensures { IfOk result (λ raised. raised ≡ lifted base added log.now) }
{
    let steps = log.steps();
    let mut raised = Log::new(alloc);
    for step in steps {
        let hints = raised_hints(alloc, step.hints.numbers(), base, added)?;
        let clause = step.clause.copy(alloc)?;
        raised.push(Step { clause, hints })?;
    }
    Ok(raised)
}

fn raised_hints(alloc: Global, hints: &[u32], base: u32, added: u32) -> Result<Hints, AllocError>
    requires { All (λ hint. base < hint → hint + added < 2 ^ 32) hints.now }
    ensures { IfOk result (λ raised. raised ≡ map (lifted_hint base added) hints.now) }
{
    let mut raised = Vec::with_capacity(alloc, hints.len())?;
    for hint in hints {
        raised.push(if *hint > base { *hint + added } else { *hint })?;
    }
    Ok(Hints::of(raised))
}
