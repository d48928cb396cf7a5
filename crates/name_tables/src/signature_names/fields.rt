// Fields with their bounds.
ghost use Rattle.std.specs.Prelude.{◌≡◌, ◌++◌, [], map, flat_map};
ghost use Rattle.alloy_syntax.specs.Tree as tree;
ghost use Rattle.alloy_syntax.specs.View.{bound_view, field_view};
ghost use Rattle.named_model.specs.Declarations.{field_named};
ghost use Rattle.named_model.specs.Faults.{bound_faults};
ghost use Rattle.named_model.specs.View as seen;
ghost use Rattle.name_tables.specs.Told.{Answers};
ghost use Rattle.name_tables.specs.Signatures.Named.{fields_of};

use crate::Names;
use crate::signature_names::bounds::{bound, words_beside};
use crate::signature_names::room::{ROOM, spend};
use alloy_syntax::tree::{Field as Written, Name};
use named_model::NameFault;
use named_model::named::Field;
use std::alloc::Global;

// The field of one name and one signature.
fn field(
    alloc: Global,
    names: &Names,
    room: &mut usize,
    written: &Written,
    name: &Name,
    owner: &Name,
) -> Result<Field, NameFault>
    requires { bound_faults names.now.globals (bound_view written.now.bound) ≡ [] }
    ensures { Answers result [] (λ x. seen.field_view x ≡ field_named names.now.globals (field_view written.now) name.now owner.now) }
{
    spend(room, name.text.text().len())?;
    let text = name.text.copy(alloc)?;
    let bound = bound(alloc, names, room, &written.bound)?;
    let (left, right) = words_beside(&written.bound);
    Ok(Field {
        name: text,
        place: name.place,
        owner: names.signature(owner.text.text()).unwrap_or(0),
        mark: written.mark,
        left,
        right,
        bound,
    })
}

// Adds the fields of one name, one for each of these signatures.
fn add_owners(
    alloc: Global,
    names: &Names,
    room: &mut usize,
    written: &Written,
    name: &Name,
    owners: &[Name],
    fields: &mut Vec<Field>,
) -> Result<(), NameFault>
    requires { bound_faults names.now.globals (bound_view written.now.bound) ≡ [] }
    ensures { Answers result [] (λ _. map seen.field_view fields.new.items ≡ map seen.field_view fields.old.items ++ map (field_named names.now.globals (field_view written.now) name.now) owners.now) }
{
    for owner in owners {
        let another = field(alloc, names, room, written, name, owner)?;
        fields.push(another)?;
    }
    Ok(())
}

// Adds the fields of one bound, name by name.
fn add_names(
    alloc: Global,
    names: &Names,
    room: &mut usize,
    written: &Written,
    owners: &[Name],
    fields: &mut Vec<Field>,
) -> Result<(), NameFault>
    requires { bound_faults names.now.globals (bound_view written.now.bound) ≡ [] }
    ensures { Answers result [] (λ _. map seen.field_view fields.new.items ≡ map seen.field_view fields.old.items ++ fields_of names.now.globals owners.now (field_view written.now)) }
{
    for name in &written.names {
        add_owners(alloc, names, room, written, name, owners, fields)?;
    }
    Ok(())
}

// Adds the fields of one bound, unless a name of it is no signature's.
fn add_field(
    alloc: Global,
    names: &Names,
    room: &mut usize,
    written: &Written,
    owners: &[Name],
    fields: &mut Vec<Field>,
) -> Result<(), NameFault>
    ensures { Answers result (bound_faults names.now.globals (field_view written.now).bound) (λ _. map seen.field_view fields.new.items ≡ map seen.field_view fields.old.items ++ fields_of names.now.globals owners.now (field_view written.now)) }
{
    let mut once = ROOM;
    bound(alloc, names, &mut once, &written.bound)?;
    add_names(alloc, names, room, written, owners, fields)
}

/// Adds the fields of these signatures.
pub fn add_fields(
    alloc: Global,
    names: &Names,
    room: &mut usize,
    written: &[Written],
    owners: &[Name],
    fields: &mut Vec<Field>,
) -> Result<(), NameFault>
    ensures { Answers result (flat_map (λ (f : tree.FieldTree). bound_faults names.now.globals f.bound) (map field_view written.now)) (λ _. map seen.field_view fields.new.items ≡ map seen.field_view fields.old.items ++ flat_map (fields_of names.now.globals owners.now) (map field_view written.now)) }
{
    for each in written {
        add_field(alloc, names, room, each, owners, fields)?;
    }
    Ok(())
}
