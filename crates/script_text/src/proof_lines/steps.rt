// The log of a proof.
ghost use Rattle.std.specs.Prelude.{◌≡◌, ◌<◌, ◌+◌, ◌^◌, ◌++◌, length, IfOk, OnOk};
ghost use Rattle.refutation_check.specs.Lift.{lifted, HasRoomToLift};

use refutation_check::{Log, Step, lift};
use session_rules::EndProof;
use std::alloc::{AllocError, Global};

/// The imported steps of a proof, with room made for this many members behind the first ones, and then its own steps.
pub fn steps_of(alloc: Global, proof: &EndProof, base: u32, added: u32) -> Result<Log, AllocError>
    requires { HasRoomToLift base added proof.now.pool }
    ensures { IfOk result (λ log. log ≡ lifted base added proof.now.pool ++ proof.now.log) }
{
    let _ = proof.imported(); // for the proof
    let mut log = lift(alloc, proof.pool(), base, added)?;
    add_steps(alloc, &mut log, proof.log().steps())?;
    Ok(log)
}

// Adds steps to a log.
fn add_steps(alloc: Global, log: &mut Log, steps: &[Step]) -> Result<(), AllocError>
    requires { length log.old + length steps.now < 2 ^ 30 }
    ensures { OnOk result (log.new ≡ log.old ++ steps.now) }
{
    for step in steps {
        log.push(step.copy(alloc)?)?;
    }
    Ok(())
}
