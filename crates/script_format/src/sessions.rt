// Models and sessions by their names, and the commands of a session.
ghost use Rattle.std.specs.Prelude.{◌≡◌, ◌<◌, ◌++◌, ◌∷◌, [], map, length, IfOk};
ghost use Rattle.script_format.specs.Reading.{place_from, changed, with_text, with_command, asks_step, asks};

use crate::draft::Draft;
use crate::entries::SessionEntry;
use crate::keys::Key;
use session_words::{Command, Commands, Step};
use std::alloc::{AllocError, Global};
use tuple_core::Name;

/// The place of the model with this name.
pub fn model_named(models: &[Draft], name: &str) -> Option<u32>
    requires { length models.now < 4294967296 }
    ensures { result ≡ place_from 0 name.now (map (λ m. m.name) models.now) }
{
    let mut place = 0_u32;
    let mut rest = models;
    'each: while let [model, tail @ ..] = rest {
        if model.name().text() == name {
            return Some(place);
        }
        place += 1;
        rest = tail;
    }
    None
}

/// The place of the session with this name.
pub fn session_named(sessions: &[SessionEntry], name: &str) -> Option<u32>
    requires { length sessions.now < 4294967296 }
    ensures { result ≡ place_from 0 name.now (map (λ s. s.name) sessions.now) }
{
    let mut place = 0_u32;
    let mut rest = sessions;
    'each: while let [session, tail @ ..] = rest {
        if session.name.text() == name {
            return Some(place);
        }
        place += 1;
        rest = tail;
    }
    None
}

/// Adds a model without text.
pub fn add_model(alloc: Global, models: &mut Vec<Draft>, name: Name) -> Result<(), AllocError>
    ensures { IfOk result (λ _. models.new.items ≡ models.old.items ++ record { name = name; text = [] } ∷ []) }
{
    models.push(Draft::new(alloc, name))?;
    Ok(())
}

/// Adds a session without commands.
pub fn add_session(
    alloc: Global,
    sessions: &mut Vec<SessionEntry>,
    name: Name,
    key: Key,
) -> Result<(), AllocError>
    ensures { IfOk result (λ _. sessions.new.items ≡ sessions.old.items ++ record { name = name; model = key.model; number = key.number; commands = [] } ∷ []) }
{
    sessions.push(SessionEntry {
        name,
        model: key.model,
        number: key.number,
        commands: Commands::of(Vec::new(alloc)),
    })?;
    Ok(())
}

/// Adds a line to the text of the model at this place.
pub fn add_text(models: &mut Vec<Draft>, place: u32, text: &str) -> Result<(), AllocError>
    requires { place < length models.old.items }
    ensures { IfOk result (λ _. models.new.items ≡ changed (with_text text.now) place models.old.items) }
{
    models[place as usize].add_line(text)?;
    Ok(())
}

/// Adds a command to the session at this place.
pub fn add_command(
    sessions: &mut Vec<SessionEntry>,
    place: u32,
    command: Command,
) -> Result<(), AllocError>
    requires { place < length sessions.old.items }
    ensures { IfOk result (λ _. sessions.new.items ≡ changed (with_command command) place sessions.old.items) }
{
    sessions[place as usize].commands.push(command)?;
    Ok(())
}

/// How many scenarios a command asks for.
pub fn asks(command: &Command) -> u32
    ensures { result ≡ asks command.now }
{
    match command {
        Command::All(count) => *count,
        Command::Step(Step::Next) => 1,
        Command::Step(_) => 0,
    }
}
