// Fields, which are declared under the top-level signatures over their own.
ghost use Rattle.std.specs.Prelude.{◌≡◌, ◌++◌, List, map, flat_map, IfOk, OnOk};
ghost use Rattle.alloy_syntax.specs.View.{field_view};
ghost use Rattle.named_model.specs.Faults as faults;
ghost use Rattle.named_model.specs.Faults.{Child, Stated, fields_stated};
ghost use Rattle.name_tables.specs.Repeats.Numbered.{Grows};
ghost use Rattle.name_tables.specs.Repeats.Coded.{IsSpace, AreSpaces, IsReading, space_of, space_under, fields_under};

use crate::repeated_names::stated::{Coded, Reading, Space};
use crate::repeated_names::tops::top;
use alloy_syntax::tree::{Field, Name};
use std::alloc::{AllocError, Global};

/// Adds the names of fields, each once for each of these signatures.
pub fn add_fields(
    alloc: Global,
    reading: &mut Reading,
    owners: &[Name],
    fields: &[Field],
) -> Result<(), AllocError>
    ensures { OnOk result ((cs : List Child) (before : List Stated) → IsReading cs reading.old before → IsReading cs reading.new (before ++ flat_map (fields_stated cs owners.now) (map field_view fields.now))) }
{
    if fields.is_empty() {
        return Ok(());
    }
    let spaces = spaces(alloc, reading, owners)?;
    for field in fields {
        add_field(alloc, reading, &spaces, field)?;
    }
    Ok(())
}

// Where the fields of these signatures are declared.
fn spaces(alloc: Global, reading: &mut Reading, owners: &[Name]) -> Result<Vec<Space>, AllocError>
    ensures { IfOk result (λ spaces. (cs : List Child) (before : List Stated) → IsReading cs reading.old before → (IsReading cs reading.new before) × (AreSpaces reading.new.words spaces.items (map (space_of cs) owners.now))) }
{
    let mut spaces = Vec::new(alloc);
    for owner in owners {
        let space = space(alloc, reading, owner)?;
        spaces.push(space)?;
    }
    Ok(spaces)
}

fn space(alloc: Global, reading: &mut Reading, owner: &Name) -> Result<Space, AllocError>
    ensures grows { OnOk result (Grows reading.old.words reading.new.words) }
    ensures place { IfOk result (λ space. (cs : List Child) (before : List Stated) → IsReading cs reading.old before → (IsReading cs reading.new before) × (IsSpace reading.new.words space (space_of cs owner.now))) }
{
    let number = reading.words.meet(alloc, owner.text.text())?;
    let top = top(&reading.parents, &mut reading.steps, number)?;
    Ok(space_under(top))
}

// Where the fields under a top-level signature are declared, if there is one.
fn space_under(top: Option<usize>) -> Space
    ensures { result ≡ space_under top }
{
    match top {
        Some(number) => Space::Under(number),
        None => Space::Loose,
    }
}

// Adds the names of the fields of one bound.
fn add_field(
    alloc: Global,
    reading: &mut Reading,
    spaces: &[Space],
    field: &Field,
) -> Result<(), AllocError>
    ensures { OnOk result ((cs : List Child) (before : List Stated) (ts : List faults.Space) → IsReading cs reading.old before → AreSpaces reading.old.words spaces.now ts → (IsReading cs reading.new (before ++ flat_map (fields_under ts) (field_view field.now).names)) × (AreSpaces reading.new.words spaces.now ts)) }
{
    for name in &field.names {
        add_name(alloc, reading, spaces, name)?;
    }
    Ok(())
}

// Adds the fields of one name.
fn add_name(
    alloc: Global,
    reading: &mut Reading,
    spaces: &[Space],
    name: &Name,
) -> Result<(), AllocError>
    ensures { OnOk result ((cs : List Child) (before : List Stated) (ts : List faults.Space) → IsReading cs reading.old before → AreSpaces reading.old.words spaces.now ts → (IsReading cs reading.new (before ++ fields_under ts name.now)) × (AreSpaces reading.new.words spaces.now ts)) }
{
    let word = reading.words.meet(alloc, name.text.text())?;
    reading.fields = reading.fields.checked_sub(spaces.len()).ok_or(AllocError)?;
    for space in spaces {
        reading.coded.push(Coded {
            space: *space,
            word,
            place: name.place,
        })?;
    }
    Ok(())
}
