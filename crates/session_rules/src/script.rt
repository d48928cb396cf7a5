// What sessions are asked for in a row, and what they answered.
ghost use Rattle.std.specs.Prelude.{◌≡◌, IfOk};

use crate::lists::{Replies, Scenarios};
use session_words::Commands;
use std::alloc::{AllocError, Global};
use tuple_core::Name;

/// A session: its name, the key of its problem, its budget at the start, and its commands.
#[derive(Drop)]
pub struct SessionScript {
    pub name: Name,
    pub key: u32,
    pub budget: u32,
    pub commands: Commands,
}

impl SessionScript {
    /// An equal session.
    pub fn copy(&self, alloc: Global) -> Result<SessionScript, AllocError>
        ensures { IfOk result (λ s. s ≡ self.now) }
    {
        let name = self.name.copy(alloc)?;
        let commands = self.commands.copy(alloc)?;
        Ok(SessionScript {
            name,
            key: self.key,
            budget: self.budget,
            commands,
        })
    }
}

/// The replies to a session's commands, one for each, and the top floor before each.
#[derive(Drop)]
pub struct Transcript {
    pub replies: Replies,
    pub floors: Scenarios,
}

impl Transcript {
    /// An equal transcript.
    pub fn copy(&self, alloc: Global) -> Result<Transcript, AllocError>
        ensures { IfOk result (λ t. t ≡ self.now) }
    {
        let replies = self.replies.copy(alloc)?;
        let floors = self.floors.copy(alloc)?;
        Ok(Transcript { replies, floors })
    }
}
