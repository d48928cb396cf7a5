// What the paragraphs of a model declare.
ghost use Rattle.std.specs.Prelude.{◌≡◌, ◌++◌, map, flat_map};
ghost use Rattle.alloy_syntax.specs.View.{signatures_view, paragraph_view};
ghost use Rattle.named_model.specs.Declarations.{signatures_named, fields_named};
ghost use Rattle.named_model.specs.Faults.{signature_faults};
ghost use Rattle.named_model.specs.View.{field_view};
ghost use Rattle.name_tables.specs.Told.{Answers};
ghost use Rattle.name_tables.specs.Signatures.Named.{AreDeclared, Adds};

use crate::Names;
use crate::signature_names::fields::add_fields;
use crate::signature_names::room::ROOM;
use crate::signature_names::signatures::{add_signatures, parent};
use alloy_syntax::tree::{Paragraph, Signatures};
use named_model::NameFault;
use named_model::named::{Field, Signature};
use std::alloc::Global;

/// The signatures and the fields of a model, in order of declaration.
#[derive(Drop)]
pub struct Declared {
    pub signatures: Vec<Signature>,
    pub fields: Vec<Field>,
}

/// The signatures and the fields that the paragraphs declare, or the first name of a parent or a bound that is no signature's:
/// paragraph by paragraph, the parent before the bounds. A field of several signatures is as many fields; if all fields
/// together had more than 1,048,576 bytes of names and parts of bounds, that is want of memory.
pub fn declarations(
    alloc: Global,
    names: &Names,
    paragraphs: &[Paragraph],
) -> Result<Declared, NameFault>
    ensures { Answers result (flat_map (signature_faults names.now.globals) (map paragraph_view paragraphs.now)) (AreDeclared names.now.globals (map paragraph_view paragraphs.now)) }
{
    let mut room = ROOM;
    let mut declared = Declared {
        signatures: Vec::new(alloc),
        fields: Vec::new(alloc),
    };
    for paragraph in paragraphs {
        add_paragraph(alloc, names, &mut room, paragraph, &mut declared)?;
    }
    Ok(declared)
}

fn add_paragraph(
    alloc: Global,
    names: &Names,
    room: &mut usize,
    paragraph: &Paragraph,
    declared: &mut Declared,
) -> Result<(), NameFault>
    ensures { Answers result (signature_faults names.now.globals (paragraph_view paragraph.now)) (λ _. Adds names.now.globals (paragraph_view paragraph.now) declared.old declared.new) }
{
    match paragraph {
        Paragraph::Signatures(written) => Ok(add_declaration(
            alloc, names, room, written, declared,
        )?),
        Paragraph::Fact(_, _) => Ok(()),
        Paragraph::Predicate(_, _, _) => Ok(()),
        Paragraph::Function(_) => Ok(()),
        Paragraph::Assertion(_, _) => Ok(()),
        Paragraph::Command(_) => Ok(()),
    }
}

fn add_declaration(
    alloc: Global,
    names: &Names,
    room: &mut usize,
    written: &Signatures,
    declared: &mut Declared,
) -> Result<(), NameFault>
    ensures { Answers result (signature_faults names.now.globals (signatures_view written.now)) (λ _. Adds names.now.globals (signatures_view written.now) declared.old declared.new) }
{
    let parent = parent(names, &written.parent)?;
    add_signatures(
        alloc,
        written.is_abstract,
        written.mark,
        parent,
        &written.names,
        &mut declared.signatures,
    )?;
    add_fields(
        alloc,
        names,
        room,
        &written.fields,
        &written.names,
        &mut declared.fields,
    )?;
    Ok(())
}
