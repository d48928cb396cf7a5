// Steps of a session.
ghost use Rattle.std.specs.Prelude.{◌≡◌, IfOk};

use crate::atom_names::AtomNames;
use std::alloc::{AllocError, Global};
use tuple_core::Name;

/// What a session is asked for.
#[derive(Drop)]
pub enum Step {
    /// The next scenario that is due and was not shown.
    Next,
    /// The cells that some instance adds to the current scenario.
    Offers,
    /// To fix the current scenario with one tuple more, and to go on above it.
    Augment { relation: Name, tuple: AtomNames },
    /// To leave the top floor.
    Back,
    /// Another budget for the steps to come.
    Budget(u32),
    /// The proof of the end of the top floor.
    Proof,
}

impl Step {
    /// An equal step.
    pub fn copy(&self, alloc: Global) -> Result<Step, AllocError>
        ensures { IfOk result (λ s. s ≡ self.now) }
    {
        match self {
            Step::Next => Ok(Step::Next),
            Step::Offers => Ok(Step::Offers),
            Step::Augment { relation, tuple } => {
                let relation = relation.copy(alloc)?;
                let tuple = tuple.copy(alloc)?;
                Ok(Step::Augment { relation, tuple })
            }
            Step::Back => Ok(Step::Back),
            Step::Budget(budget) => Ok(Step::Budget(*budget)),
            Step::Proof => Ok(Step::Proof),
        }
    }
}
