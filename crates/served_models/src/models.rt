// The models of a script.
ghost use Rattle.std.specs.Prelude.{◌≡◌, ◌≤◌, length, All, IfOk, IfErr};
ghost use Rattle.lowering_rules.specs.declared.fault.LowerStop.TheVariants as stop;
ghost use Rattle.served_models.specs.Served.{AreFound, IsFound, SaysLargeCommand, HasLargeModel, model_line};

use crate::commands::{Commands, ServedCommand, served};
use crate::purposes::Purpose;
use lowering_rules::LowerStop;
use model_texts::typed_texts::{ModelText, read_model};
use script_format::{ModelEntry, SessionEntry};
use std::alloc::{AllocError, Global};

/// What the models of a script are.
#[derive(Drop)]
pub enum Models {
    /// Models in order, in which each command on which sessions are has a problem that can be used: of each model the problems of
    /// these.
    Ready(Vec<Vec<ServedCommand>>),
    /// One of them can't be used: the line that refuses the first of these.
    Refused(Vec<u8>),
}

/// Reads the models of a script, whose texts have at most 1,048,576 bytes, in order, used or not, and gives the problems of
/// commands on which sessions are. A command whose problem can't be used for this is refused as one that has none.
pub fn read_models(
    alloc: Global,
    purpose: Purpose,
    entries: &[ModelEntry],
    sessions: &[SessionEntry],
) -> Result<Models, LowerStop>
    requires { All (λ m. length m.text ≤ 1048576) entries.now }
    ensures found { IfOk result (AreFound purpose sessions.now entries.now) }
    ensures large { IfErr result (λ e. e ≡ stop.TooLarge → HasLargeModel sessions.now entries.now) }
{
    let mut models = Vec::new(alloc);
    for (place, entry) in entries.iter().enumerate() {
        match read_served(alloc, purpose, entry.text.text(), place, sessions)? {
            Commands::Ready(made) => models.push(made)?,
            Commands::Refused(words) => {
                let line = model_line(alloc, entry.name.text(), &words)?;
                return Ok(Models::Refused(line));
            }
        }
    }
    Ok(Models::Ready(models))
}

// Reads the text of the model at this place.
fn read_served(
    alloc: Global,
    purpose: Purpose,
    text: &str,
    place: usize,
    sessions: &[SessionEntry],
) -> Result<Commands, LowerStop>
    requires { length text.now ≤ 1048576 }
    ensures found { IfOk result (IsFound purpose sessions.now place text.now) }
    ensures large { IfErr result (λ e. e ≡ stop.TooLarge → SaysLargeCommand sessions.now place text.now) }
{
    match read_model(alloc, text)? {
        ModelText::Typed(model) => Ok(served(alloc, purpose, &model, place, sessions)?),
        ModelText::Faulty(words) => Ok(Commands::Refused(words)),
    }
}

/// The line that refuses the model of this name, with what is wrong with it. The error comes only for want of memory.
pub fn model_line(alloc: Global, name: &str, words: &[u8]) -> Result<Vec<u8>, AllocError>
    ensures { IfOk result (λ text. text.items ≡ model_line name.now words.now) }
{
    let mut text = Vec::from_slice(alloc, b"fault model ")?;
    text.extend_from_slice(name.as_bytes())?;
    text.extend_from_slice(b" ")?;
    text.extend_from_slice(words)?;
    text.extend_from_slice(b"\n")?;
    Ok(text)
}
