// What a script says.
ghost use Rattle.std.specs.Prelude.{◌≡◌};

use session_words::Commands;
use std::marker::Model;
use tuple_core::Name;

/// A model of a script: its name, and its text, each line with a line feed.
#[derive(Drop)]
pub struct ModelEntry {
    pub name: Name,
    pub text: Name,
}

/// A session of a script: its name, the place of its model in the script, from 0, the number of the model's command,
/// from 1, and what the session is asked for.
#[derive(Drop)]
pub struct SessionEntry {
    pub name: Name,
    pub model: u32,
    pub number: u32,
    pub commands: Commands,
}

/// The models of a script, in order. Contracts see the list of them.
#[derive(Drop)]
pub struct ModelEntries {
    entries: Vec<ModelEntry>,
}

impl Model for ModelEntries {
    ghost use Rattle.std.specs.Prelude.{List};
    ghost use Rattle.script_format.specs.declared.entries.ModelEntry.{ModelEntry};

    ghost Value = { List ModelEntry };

    ghost view = { λ s. s.entries.items };
}

impl ModelEntries {
    /// These models.
    pub fn of(entries: Vec<ModelEntry>) -> ModelEntries
        ensures { result ≡ entries.items }
    {
        ModelEntries { entries }
    }

    /// The models, in order.
    pub fn entries(&self) -> &[ModelEntry]
        ensures { result.now ≡ self.now }
    {
        self.entries.as_slice()
    }
}

/// The sessions of a script, in order. Contracts see the list of them.
#[derive(Drop)]
pub struct SessionEntries {
    entries: Vec<SessionEntry>,
}

impl Model for SessionEntries {
    ghost use Rattle.std.specs.Prelude.{List};
    ghost use Rattle.script_format.specs.declared.entries.SessionEntry.{SessionEntry};

    ghost Value = { List SessionEntry };

    ghost view = { λ s. s.entries.items };
}

impl SessionEntries {
    /// These sessions.
    pub fn of(entries: Vec<SessionEntry>) -> SessionEntries
        ensures { result ≡ entries.items }
    {
        SessionEntries { entries }
    }

    /// The sessions, in order.
    pub fn entries(&self) -> &[SessionEntry]
        ensures { result.now ≡ self.now }
    {
        self.entries.as_slice()
    }
}

/// The models and the sessions of a script, each in the order in which they are declared.
#[derive(Drop)]
pub struct Script {
    pub models: ModelEntries,
    pub sessions: SessionEntries,
}
