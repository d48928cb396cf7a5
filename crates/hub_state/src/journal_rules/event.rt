// Entries of the journal.
ghost use Rattle.std.specs.Prelude.{◌≡◌, IfOk};

use refutation_check::Log;
use session_rules::{Reply, Step};
use std::alloc::{AllocError, Global};

/// What happened to what the sessions share.
#[derive(Drop)]
pub enum Event {
    /// The translation of a key's problem was put there.
    Published { key: u32 },
    /// The first so many steps of a key's pool, all that there were, were taken.
    Imported { key: u32, steps: u32 },
    /// These steps were added to a key's pool.
    Shared { key: u32, steps: Log },
    /// A session was opened on a key's problem, with this budget.
    Opened { key: u32, budget: u32 },
    /// A session answered a step.
    Recorded { step: Step, reply: Reply },
}

impl Event {
    /// An equal event.
    pub fn copy(&self, alloc: Global) -> Result<Event, AllocError>
        ensures { IfOk result (λ e. e ≡ self.now) }
    {
        match self {
            Event::Published { key } => Ok(Event::Published { key: *key }),
            Event::Imported { key, steps } => Ok(Event::Imported {
                key: *key,
                steps: *steps,
            }),
            Event::Shared { key, steps } => Ok(Event::Shared {
                key: *key,
                steps: steps.copy(alloc)?,
            }),
            Event::Opened { key, budget } => Ok(Event::Opened {
                key: *key,
                budget: *budget,
            }),
            Event::Recorded { step, reply } => {
                let step = step.copy(alloc)?;
                let reply = reply.copy(alloc)?;
                Ok(Event::Recorded { step, reply })
            }
        }
    }
}

/// An event, and the number of the session that it is of.
#[derive(Drop)]
pub struct Entry {
    pub by: u32,
    pub event: Event,
}

impl Entry {
    /// An equal entry.
    pub fn copy(&self, alloc: Global) -> Result<Entry, AllocError>
        ensures { IfOk result (λ e. e ≡ self.now) }
    {
        Ok(Entry {
            by: self.by,
            event: self.event.copy(alloc)?,
        })
    }
}
