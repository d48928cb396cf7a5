// The pairs of a model and a command that sessions name.
ghost use Rattle.std.specs.Prelude.{◌≡◌, IfOk};
ghost use Rattle.std.specs.List.{list_any};
ghost use Rattle.script_format.specs.Keys.{key_of, is_key, with_key, keys_of};

use crate::entries::SessionEntry;
use std::alloc::{AllocError, Global};

/// A model, by its place in the script, from 0, and the number of one of its commands, from 1.
#[derive(Clone, Copy, Debug, PartialEq, Eq)]
pub struct Key {
    pub model: u32,
    pub number: u32,
}

/// The pairs of a model and a command that sessions name, each once, in the order in which they are named first.
pub fn keys_of(alloc: Global, sessions: &[SessionEntry]) -> Result<Vec<Key>, AllocError>
    ensures { IfOk result (λ keys. keys.items ≡ keys_of sessions.now) }
{
    let mut keys = Vec::new(alloc);
    for session in sessions {
        add_key(&mut keys, key_of(session))?;
    }
    Ok(keys)
}

fn key_of(session: &SessionEntry) -> Key
    ensures { result ≡ key_of session.now }
{
    Key {
        model: session.model,
        number: session.number,
    }
}

/// Adds a pair at the end, where it isn't there yet.
pub fn add_key(keys: &mut Vec<Key>, key: Key) -> Result<(), AllocError>
    ensures { IfOk result (λ _. keys.new.items ≡ with_key keys.old.items key) }
{
    if !has_key(keys, key) {
        keys.push(key)?;
    }
    Ok(())
}

fn has_key(keys: &[Key], key: Key) -> bool
    ensures { result ≡ list_any (is_key key) keys.now }
{
    let mut rest = keys;
    'each: while let [other, tail @ ..] = rest {
        if key.model == other.model && key.number == other.number {
            return true;
        }
        rest = tail;
    }
    false
}
