// Reading a script line by line.
ghost use Rattle.std.specs.Prelude.{◌≡◌, ◌≤◌, ◌<◌, [], length, IfOk};
ghost use Rattle.script_format.specs.declared.line.Line.TheVariants as line;
ghost use Rattle.script_format.specs.Lines.{line_of};
ghost use Rattle.script_format.specs.Keys.{key_of, with_key, keys_of};
ghost use Rattle.script_format.specs.Reading.{Start};
ghost use Rattle.script_format.specs.Read.{reading_of, Takes};
ghost use Rattle.script_format.specs.Sound.{IsSound};

use crate::draft::Draft;
use crate::entries::{ModelEntries, ModelEntry, Script, SessionEntries, SessionEntry};
use crate::fault::{Kind, Stop};
use crate::keys::{Key, add_key, keys_of};
use crate::line::{Line, Open, line_of};
use crate::sessions::{
    add_command, add_model, add_session, add_text, asks, model_named, session_named,
};
use session_words::Command;
use std::alloc::{AllocError, Global};
use tuple_core::Name;

const MOST_MODELS: usize = 16;

const MOST_KEYS: usize = 16;

const MOST_SESSIONS: usize = 64;

const MOST_COMMANDS: u32 = 4096;

const MOST_ASKED: u32 = 20_000;

/// What was read so far.
#[derive(Drop)]
pub struct Reader {
    models: Vec<Draft>,
    sessions: Vec<SessionEntry>,
    began: Open,
    commands: u32,
    asked: u32,
}

impl Reader {
    /// Nothing was read.
    pub fn new(alloc: Global) -> Reader
        ensures { reading_of result ≡ Start }
    {
        Reader {
            models: Vec::new(alloc),
            sessions: Vec::new(alloc),
            began: Open::Nothing,
            commands: 0,
            asked: 0,
        }
    }

    /// Takes the next line.
    pub fn take(&mut self, alloc: Global, text: &str) -> Result<(), Stop>
        requires { IsSound (reading_of self.old) }
        ensures { Takes (reading_of self.old) text.now (line_of self.old.began text.now) result (reading_of self.new) }
    {
        match line_of(alloc, self.began, text)? {
            Line::Idle => Ok(()),
            Line::Text { model } => Ok(add_text(&mut self.models, model, text)?),
            Line::Stray => Err(Stop::Fault(Kind::StrayText)),
            Line::Model { name } => self.take_model(alloc, name),
            Line::Session {
                name,
                model,
                number,
            } => self.take_session(alloc, name, &model, number),
            Line::More { name } => self.take_more(&name),
            Line::Command { session, command } => self.take_command(session, command),
            Line::BadNumber => Err(Stop::Fault(Kind::BadNumber)),
            Line::Unknown => Err(Stop::Fault(Kind::BadDirective)),
        }
    }

    // A model's text begins.
    #[tactic(auto, unfolding(crate::specs::Reading::fault_of, crate::specs::Reading::after))]
    fn take_model(&mut self, alloc: Global, name: Name) -> Result<(), Stop>
        requires { IsSound (reading_of self.old) }
        ensures { Takes (reading_of self.old) [] (line.Model name) result (reading_of self.new) }
    {
        if model_named(&self.models, name.text()).is_some() {
            return Err(Stop::Fault(Kind::Twice));
        }
        let place = self.models.len();
        if place >= MOST_MODELS {
            return Err(Stop::Fault(Kind::TooMany));
        }
        add_model(alloc, &mut self.models, name)?;
        self.began = Open::Model(place as u32);
        Ok(())
    }

    // A session begins.
    #[tactic(auto, unfolding(crate::specs::Reading::fault_of, crate::specs::Reading::after))]
    fn take_session(
        &mut self,
        alloc: Global,
        name: Name,
        model: &Name,
        number: Option<u32>,
    ) -> Result<(), Stop>
        requires { IsSound (reading_of self.old) }
        ensures { Takes (reading_of self.old) [] (line.Session name model.now number) result (reading_of self.new) }
    {
        let Some(number) = number else {
            return Err(Stop::Fault(Kind::BadNumber));
        };
        let Some(model) = model_named(&self.models, model.text()) else {
            return Err(Stop::Fault(Kind::UnknownModel));
        };
        if session_named(&self.sessions, name.text()).is_some() {
            return Err(Stop::Fault(Kind::Twice));
        }
        let place = self.sessions.len();
        let keys = count_keys(alloc, &self.sessions, Key { model, number })?;
        if place >= MOST_SESSIONS || keys > MOST_KEYS {
            return Err(Stop::Fault(Kind::TooMany));
        }
        add_session(alloc, &mut self.sessions, name, Key { model, number })?;
        self.began = Open::Session(place as u32);
        Ok(())
    }

    // Further commands of a session begin.
    #[tactic(auto, unfolding(crate::specs::Reading::fault_of, crate::specs::Reading::after))]
    fn take_more(&mut self, name: &Name) -> Result<(), Stop>
        requires { IsSound (reading_of self.old) }
        ensures { Takes (reading_of self.old) [] (line.More name.now) result (reading_of self.new) }
    {
        match session_named(&self.sessions, name.text()) {
            Some(place) => {
                self.began = Open::Session(place);
                Ok(())
            }
            None => Err(Stop::Fault(Kind::UnknownSession)),
        }
    }

    // A command of the session at this place.
    #[tactic(auto, unfolding(crate::specs::Reading::fault_of, crate::specs::Reading::after))]
    fn take_command(&mut self, session: u32, command: Command) -> Result<(), Stop>
        requires sound { IsSound (reading_of self.old) }
        requires place { session < length self.old.sessions.items }
        ensures { Takes (reading_of self.old) [] (line.Command session command) result (reading_of self.new) }
    {
        let count = asks(&command);
        if self.commands >= MOST_COMMANDS || count > MOST_ASKED - self.asked {
            return Err(Stop::Fault(Kind::TooMany));
        }
        add_command(&mut self.sessions, session, command)?;
        self.commands += 1;
        self.asked += count;
        Ok(())
    }

    /// The script that was read.
    pub fn script(self, alloc: Global) -> Result<Script, AllocError>
        ensures { IfOk result (λ s. (s.models ≡ self.models.items) × (s.sessions ≡ self.sessions.items)) }
    {
        let models = entries_of(alloc, &self.models)?;
        Ok(Script {
            models: ModelEntries::of(models),
            sessions: SessionEntries::of(self.sessions),
        })
    }
}

// How many pairs of a model and a command the sessions and one more name.
fn count_keys(alloc: Global, sessions: &[SessionEntry], key: Key) -> Result<usize, AllocError>
    ensures { IfOk result (λ n. n ≡ length (with_key (keys_of sessions.now) key)) }
{
    let mut keys = keys_of(alloc, sessions)?;
    add_key(&mut keys, key)?;
    Ok(keys.len())
}

// The models with the texts that were read.
fn entries_of(alloc: Global, drafts: &[Draft]) -> Result<Vec<ModelEntry>, AllocError>
    ensures { IfOk result (λ entries. entries.items ≡ drafts.now) }
{
    let mut entries = Vec::new(alloc);
    for draft in drafts {
        entries.push(draft.entry(alloc)?)?;
    }
    Ok(entries)
}
