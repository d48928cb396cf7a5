// Sessions of scripts, served over one hub.
ghost use Rattle.std.specs.Prelude.{◌≤◌, ◌<◌, ◌+◌, ◌^◌, IfOk, length, All};
ghost use Rattle.explorer_run.specs.Served.{IsServable, IsServableScript, AreServed, allowed_in};

use crate::calls::Explorer;
use hub_lock::Gate;
use rel_formula::Problem;
use session_rules::{SessionScript, Transcript};
use session_turns::StepCount;
use std::alloc::{AllocError, Global};
use std::sync::{Arc, Wait};
use std::thread::Threads;
use translation::Translation;

/// What sessions were answered, in the order of their scripts, and the translation of each key.
#[derive(Drop)]
pub struct Served {
    pub translations: Vec<Arc<Translation>>,
    pub transcripts: Vec<Transcript>,
}

/// Serves the sessions of scripts over one hub of these problems, each by one of so many workers, in threads of their own: first
/// the workers make the translations of the keys side by side, and each is published; then the sessions are opened in order, and
/// the workers serve them side by side. The key of a problem is its place. The gate is passed before each command, with the
/// session's place and the command's. The count is raised by the steps that the sessions' searches learn, which are no more than
/// their commands may take. The error comes only for want of memory.
pub fn serve_sessions<R: Threads + Wait + Sync, G: Gate + Sync>(
    rt: &R,
    alloc: Global,
    gate: &G,
    problems: Vec<Problem>,
    scripts: &[SessionScript],
    workers: u32,
    count: &mut StepCount,
) -> Result<Served, AllocError>
    requires workers { (1 ≤ workers) × (workers ≤ 16) }
    requires problems { (length problems.items < 2 ^ 32) × All IsServable problems.items }
    requires scripts { All (IsServableScript (length problems.items)) scripts.now }
    requires few { length scripts.now < 2 ^ 32 }
    ensures served { IfOk result (λ s. AreServed problems.items scripts.now s) }
    ensures spent { count.new ≤ count.old + allowed_in scripts.now }
{
    match Explorer::new(rt, alloc, problems, gate, workers) {
        Ok((explorer, mut root)) => {
            let transcripts = explorer.serve_all(rt, alloc, &mut root, scripts, workers, count);
            let (_hub, translations) = explorer.finish(root);
            Ok(Served {
                translations,
                transcripts: transcripts?,
            })
        }
        Err(error) => Err(error),
    }
}
