// The names of the paragraphs, declared one by one.
ghost use Rattle.std.specs.Prelude.{◌≡◌, ◌+◌, [], map, flat_map, length, OnOk, IfOk};
ghost use Rattle.alloy_syntax.specs.View.{declaration_view, field_view, signatures_view, paragraph_view};
ghost use Rattle.named_model.specs.Declarations.{texts, parameter_names, globals_of};
ghost use Rattle.name_tables.specs.InForce.{with_callee};
ghost use Rattle.name_tables.specs.Globals.Grown.{owned, with_signatures, with_fields, with_paragraph};

use crate::global_names::room::has_room;
use crate::{Header, Names};
use alloy_syntax::tree::{Declaration, Field, Name, Paragraph, Signatures};
use std::alloc::{AllocError, Global};

/// The names that stand for something everywhere, each kind in order of declaration, and no local name. A model with more than
/// 1,048,576 fields, of which n signatures with m names have n * m, is answered as want of memory.
pub fn global_names(alloc: Global, paragraphs: &[Paragraph]) -> Result<Names, AllocError>
    ensures { IfOk result (λ names. names ≡ record { globals = globals_of (map paragraph_view paragraphs.now); locals = [] }) }
{
    if !has_room(paragraphs) {
        return Err(AllocError);
    }
    let mut names = Names::new(alloc);
    for paragraph in paragraphs {
        declare(alloc, &mut names, paragraph)?;
    }
    Ok(names)
}

// What a paragraph declares.
fn declare(alloc: Global, names: &mut Names, paragraph: &Paragraph) -> Result<(), AllocError>
    ensures { OnOk result (names.new ≡ with_paragraph names.old (paragraph_view paragraph.now)) }
{
    match paragraph {
        Paragraph::Signatures(signatures) => Ok(declare_signatures(alloc, names, signatures)?),
        Paragraph::Predicate(name, parameters, _) => {
            Ok(declare_callee(alloc, names, name, false, parameters)?)
        }
        Paragraph::Function(function) => {
            Ok(declare_callee(alloc, names, &function.name, true, &function.parameters)?)
        }
        Paragraph::Assertion(name, _) => Ok(names.declare_assertion(alloc, name.text.text())?),
        Paragraph::Fact(_, _) => Ok(()),
        Paragraph::Command(_) => Ok(()),
    }
}

// Signatures with their fields.
fn declare_signatures(
    alloc: Global,
    names: &mut Names,
    signatures: &Signatures,
) -> Result<(), AllocError>
    ensures { OnOk result (names.new ≡ with_paragraph names.old (signatures_view signatures.now)) }
{
    enter_signatures(alloc, names, &signatures.names)?;
    enter_fields(alloc, names, &signatures.names, &signatures.fields)?;
    Ok(())
}

fn enter_signatures(alloc: Global, names: &mut Names, new: &[Name]) -> Result<(), AllocError>
    ensures { OnOk result (names.new ≡ with_signatures names.old (texts new.now)) }
{
    for name in new {
        names.declare_signature(alloc, name.text.text())?;
    }
    Ok(())
}

fn enter_fields(
    alloc: Global,
    names: &mut Names,
    owners: &[Name],
    fields: &[Field],
) -> Result<(), AllocError>
    ensures { OnOk result (names.new ≡ with_fields names.old (texts (flat_map (owned owners.now) (map field_view fields.now)))) }
{
    for field in fields {
        enter_field(alloc, names, owners, &field.names)?;
    }
    Ok(())
}

// The names of one declaration of fields.
fn enter_field(
    alloc: Global,
    names: &mut Names,
    owners: &[Name],
    new: &[Name],
) -> Result<(), AllocError>
    ensures { OnOk result (names.new ≡ with_fields names.old (texts (flat_map (λ n. map (λ owner. n) owners.now) new.now))) }
{
    for name in new {
        enter_each(alloc, names, owners, name)?;
    }
    Ok(())
}

// A field's name, once for each of its signatures.
fn enter_each(
    alloc: Global,
    names: &mut Names,
    owners: &[Name],
    name: &Name,
) -> Result<(), AllocError>
    ensures { OnOk result (names.new ≡ with_fields names.old (texts (map (λ owner. name.now) owners.now))) }
{
    for _ in owners {
        names.declare_field(alloc, name.text.text())?;
    }
    Ok(())
}

// A predicate or a function.
fn declare_callee(
    alloc: Global,
    names: &mut Names,
    name: &Name,
    is_function: bool,
    parameters: &[Declaration],
) -> Result<(), AllocError>
    ensures { OnOk result (names.new ≡ with_callee names.old (record { name = name.now.text; is_function = is_function; parameters = length (parameter_names (map declaration_view parameters.now)) })) }
{
    let header = Header {
        is_function,
        parameters: count(parameters)?,
    };
    names.declare_callee(alloc, name.text.text(), header)?;
    Ok(())
}

// How many parameters are declared.
fn count(declarations: &[Declaration]) -> Result<usize, AllocError>
    ensures { IfOk result (λ n. n ≡ length (parameter_names (map declaration_view declarations.now))) }
{
    let mut total: usize = 0;
    for declaration in declarations {
        total = sum(total, declaration.names.len())?;
    }
    Ok(total)
}

fn sum(a: usize, b: usize) -> Result<usize, AllocError>
    ensures { IfOk result (λ n. n ≡ a + b) }
{
    match a.checked_add(b) {
        Some(sum) => Ok(sum),
        None => Err(AllocError),
    }
}
