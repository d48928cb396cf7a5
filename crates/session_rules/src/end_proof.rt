// Proofs of ends.
ghost use Rattle.std.specs.Prelude.{◌≡◌, ◌+◌, ◌≤◌, ◌^◌, IfOk, length};

use crate::lists::Scenarios;
use refutation_check::Log;
use rel_formula::Scenario;
use std::alloc::{AllocError, Global};
use std::marker::Model;
use std::sync::Arc;

/// What a proof shows: that nothing is left to be found at a floor, or that no instance contains it.
#[derive(Drop, Clone, Copy, PartialEq, Eq, Debug)]
pub enum ProofKind {
    End,
    NoInstance,
}

/// A refutation which shows that nothing is left to be shown, or that no instance has what was asked for: how many steps
/// were imported, the scenarios that were blocked, the imported steps, and the log that refutes. The blocked scenarios and
/// the steps are at most 268,435,456 together. Its copies share what it holds.
#[derive(Drop)]
pub struct EndProof {
    held: Arc<Held>,
}

// What the copies of a proof share.
#[derive(Drop)]
struct Held {
    imported: u32,
    blocked: Scenarios,
    pool: Log,
    log: Log,
}

impl Model for EndProof {
    ghost use Rattle.std.specs.Prelude.{◌+◌, ◌≤◌, ◌^◌, length};
    ghost use Rattle.session_rules.specs.ProofOfEnd.{ProofOfEnd};

    ghost Value = { ProofOfEnd };

    ghost view = { λ p. record { imported = p.held.value.imported; blocked = p.held.value.blocked; pool = p.held.value.pool; log = p.held.value.log } };

    ghost invariant = { λ p. length p.held.value.blocked + length p.held.value.pool + length p.held.value.log ≤ 2 ^ 28 };
}

impl EndProof {
    /// The proof of these parts. The error comes only for want of memory.
    pub fn of(
        alloc: Global,
        imported: u32,
        blocked: Scenarios,
        pool: Log,
        log: Log,
    ) -> Result<EndProof, AllocError>
        requires { length blocked + length pool + length log ≤ 2 ^ 28 }
        ensures { IfOk result (λ p. p ≡ record { imported = imported; blocked = blocked; pool = pool; log = log }) }
    {
        let parts = Held {
            imported,
            blocked,
            pool,
            log,
        };
        let held = Arc::new(alloc, parts)?;
        Ok(EndProof { held })
    }

    /// How many steps were imported.
    pub fn imported(&self) -> u32
        ensures imported { result ≡ self.now.imported }
        ensures few { length self.now.blocked + length self.now.pool + length self.now.log ≤ 2 ^ 28 }
    {
        self.held.imported
    }

    /// The scenarios that were blocked.
    pub fn blocked(&self) -> &[Scenario]
        ensures { result.now ≡ self.now.blocked }
    {
        self.held.blocked.scenarios()
    }

    /// The imported steps.
    pub fn pool(&self) -> &Log
        ensures { result.now ≡ self.now.pool }
    {
        &self.held.pool
    }

    /// The log that refutes.
    pub fn log(&self) -> &Log
        ensures { result.now ≡ self.now.log }
    {
        &self.held.log
    }

    /// The same proof. It shares what this one holds, and takes no memory.
    pub fn copy(&self) -> Result<EndProof, AllocError>
        ensures { IfOk result (λ p. p ≡ self.now) }
    {
        let held = Arc::try_clone(&self.held)?;
        Ok(EndProof { held })
    }
}
