// Replies, and why a step changes nothing.
ghost use Rattle.std.specs.Prelude.{◌≡◌, IfOk};

use crate::end_proof::EndProof;
use crate::lists::{CellNumbers, Parts, Scenarios};
use rel_formula::Scenario;
use std::alloc::{AllocError, Global};

/// What was done until the budget was spent: the parts of the searches, and the copies of shown scenarios that they found.
#[derive(Drop)]
pub struct WorkDone {
    pub budget: u32,
    pub parts: Parts,
    pub copies: Scenarios,
}

impl WorkDone {
    /// Equal work.
    pub fn copy(&self, alloc: Global) -> Result<WorkDone, AllocError>
        ensures { IfOk result (λ w. w ≡ self.now) }
    {
        let parts = self.parts.copy(alloc)?;
        let copies = self.copies.copy(alloc)?;
        Ok(WorkDone {
            budget: self.budget,
            parts,
            copies,
        })
    }
}

/// Why a step changes nothing.
#[derive(Drop)]
pub enum Refusal {
    /// Nothing was shown at the top floor.
    NoScenario,
    /// The relation and the atoms name no tuple that the relation may have.
    UnknownTuple,
    /// The current scenario has the tuple.
    Present,
    /// No instance has the current scenario and the tuple, as the proof shows.
    NoInstance(EndProof),
    /// The top floor is the bottom.
    Bottom,
    /// There are 64 floors above the bottom.
    Deep,
    /// The budget was spent before there was an answer.
    Spent(WorkDone),
    /// The top floor has not ended.
    NoEnd,
}

impl Refusal {
    /// An equal refusal.
    pub fn copy(&self, alloc: Global) -> Result<Refusal, AllocError>
        ensures { IfOk result (λ r. r ≡ self.now) }
    {
        match self {
            Refusal::NoScenario => Ok(Refusal::NoScenario),
            Refusal::UnknownTuple => Ok(Refusal::UnknownTuple),
            Refusal::Present => Ok(Refusal::Present),
            Refusal::NoInstance(proof) => Ok(Refusal::NoInstance(proof.copy()?)),
            Refusal::Bottom => Ok(Refusal::Bottom),
            Refusal::Deep => Ok(Refusal::Deep),
            Refusal::Spent(work) => Ok(Refusal::Spent(work.copy(alloc)?)),
            Refusal::NoEnd => Ok(Refusal::NoEnd),
        }
    }
}

/// What a session answers. A reply has all that it puts into the session's state.
#[derive(Drop)]
pub enum Reply {
    /// The scenario, and its place, from 1, among those shown at its floor.
    Shown { number: u32, scenario: Scenario },
    /// All that is due at the floor was shown: so many scenarios.
    End { number: u32, proof: EndProof },
    /// The cells that some instance adds to the current scenario, in order.
    Offers { cells: CellNumbers },
    /// The current scenario with the tuple, which is the top floor now.
    Augmented { floor: Scenario },
    /// The floor below is the top floor now.
    Back,
    /// The budget is this one now.
    BudgetSet(u32),
    /// All that was shown at the floor, in order; nothing more is due.
    All { scenarios: Scenarios },
    /// The scenarios that were shown now, and the number of the first.
    Partly { first: u32, scenarios: Scenarios },
    /// The proof of the end of the top floor.
    Proof { proof: EndProof },
    /// Nothing changed, for this reason.
    Refused(Refusal),
    /// There was not enough memory; nothing changed.
    Memory,
}

impl Reply {
    /// An equal reply.
    pub fn copy(&self, alloc: Global) -> Result<Reply, AllocError>
        ensures { IfOk result (λ r. r ≡ self.now) }
    {
        match self {
            Reply::Shown { number, scenario } => Ok(Reply::Shown {
                number: *number,
                scenario: scenario.copy(alloc)?,
            }),
            Reply::End { number, proof } => Ok(Reply::End {
                number: *number,
                proof: proof.copy()?,
            }),
            Reply::Offers { cells } => Ok(Reply::Offers {
                cells: cells.copy(alloc)?,
            }),
            Reply::Augmented { floor } => Ok(Reply::Augmented {
                floor: floor.copy(alloc)?,
            }),
            Reply::Back => Ok(Reply::Back),
            Reply::BudgetSet(budget) => Ok(Reply::BudgetSet(*budget)),
            Reply::All { scenarios } => Ok(Reply::All {
                scenarios: scenarios.copy(alloc)?,
            }),
            Reply::Partly { first, scenarios } => Ok(Reply::Partly {
                first: *first,
                scenarios: scenarios.copy(alloc)?,
            }),
            Reply::Proof { proof } => Ok(Reply::Proof {
                proof: proof.copy()?,
            }),
            Reply::Refused(refusal) => Ok(Reply::Refused(refusal.copy(alloc)?)),
            Reply::Memory => Ok(Reply::Memory),
        }
    }
}
