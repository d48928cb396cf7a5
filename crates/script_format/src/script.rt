// Reading scripts.
ghost use Rattle.std.specs.Prelude.{◌≡◌, ◌⊎◌, ◌≤◌, ◌<◌, map, length, All, IfOk, IfErr, Ok, Err};
ghost use Rattle.std.specs.Str.Lines.{lines};
ghost use Rattle.script_format.specs.declared.entries.Script.{Script as ScriptRecord};
ghost use Rattle.script_format.specs.declared.fault.ScriptFault.{ScriptFault as FaultData};
ghost use Rattle.script_format.specs.declared.fault.ScriptFault.TheVariants.{Memory};
ghost use Rattle.script_format.specs.Script.{IsScript, HasFault};
ghost use Rattle.script_format.specs.Read.{reading_of, TakesAt, Reads};
ghost use Rattle.script_format.specs.Sound.{IsSound};

use crate::entries::Script;
use crate::fault::{ScriptFault, Stop};
use crate::reader::Reader;
use crate::words::lines_of;
use std::alloc::Global;

/// At most so many bytes are a script.
pub const MOST_BYTES: usize = 1_048_576;

/// Reads a script, or tells the first fault: `TooLong`, `NotText`, or that of the first line with one.
pub fn read_script(alloc: Global, bytes: &[u8]) -> Result<Script, ScriptFault>
    // The bytes are the script, or have the fault.
    ensures script { IfOk result (λ s. IsScript bytes.now s) }
    ensures fault { IfErr result (λ f. (f ≡ Memory) ⊎ HasFault bytes.now f) }
    // Of what bytes are, or have, just that is answered, unless memory is wanting.
    ensures only_script { (s : ScriptRecord) → IsScript bytes.now s → (result ≡ Ok s) ⊎ (result ≡ Err Memory) }
    ensures only_fault { (f : FaultData) → HasFault bytes.now f → (result ≡ Err f) ⊎ (result ≡ Err Memory) }
    // Sessions are on models of the script, whose texts are no longer than a script may be.
    ensures named { IfOk result (λ s. All (λ x. x.model < length s.models) s.sessions) }
    ensures small { IfOk result (λ s. All (λ m. length m.text ≤ 1048576) s.models) }
{
    if bytes.len() > MOST_BYTES {
        return Err(ScriptFault::TooLong);
    }
    match std::str::from_utf8(bytes) {
        Ok(text) => read_lines(alloc, &lines_of(alloc, text)?),
        Err(_) => Err(ScriptFault::NotText),
    }
}

// Reads the lines of a script.
fn read_lines(alloc: Global, lines: &[&str]) -> Result<Script, ScriptFault>
    requires { length lines.now ≤ 1048577 }
    ensures { Reads (map (λ line. line.now) lines.now) result }
{
    let mut reader = Reader::new(alloc);
    let mut number = 0_u32;
    for line in lines {
        number += 1;
        take_at(alloc, &mut reader, line, number)?;
    }
    Ok(reader.script(alloc)?)
}

// Takes the line with this number.
fn take_at(alloc: Global, reader: &mut Reader, text: &str, number: u32) -> Result<(), ScriptFault>
    requires { IsSound (reading_of reader.old) }
    ensures { TakesAt (reading_of reader.old) text.now number result (reading_of reader.new) }
{
    match reader.take(alloc, text) {
        Ok(()) => Ok(()),
        Err(Stop::Fault(kind)) => Err(kind.at(number)),
        Err(Stop::Memory) => Err(ScriptFault::Memory),
    }
}
