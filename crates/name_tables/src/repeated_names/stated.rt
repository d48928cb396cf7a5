// What the paragraphs of a model declare, by numbers.
ghost use Rattle.std.specs.Prelude.{◌≡◌, ◌++◌, ◌∷◌, [], ℕ, List, map, flat_map, IfOk, OnOk};
ghost use Rattle.alloy_syntax.specs.View.{declaration_view, signatures_view, paragraph_view};
ghost use Rattle.named_model.specs.Declarations.{parameter_names};
ghost use Rattle.named_model.specs.Faults as faults;
ghost use Rattle.named_model.specs.Faults.{Child, Stated, children, stated, stated_in, stated_from, global, assertions, parameters};
ghost use Rattle.name_tables.specs.Repeats.Numbered.{AreLinks};
ghost use Rattle.name_tables.specs.Repeats.Coded.{IsSpace, IsReading};

use crate::MOST_FIELDS;
use crate::repeated_names::fields::add_fields;
use crate::repeated_names::links::links;
use crate::repeated_names::tops::{Parents, parents_of};
use crate::repeated_names::words::Words;
use alloy_lex::Place;
use alloy_syntax::tree::{Declaration, Name, Paragraph, Signatures};
use std::alloc::{AllocError, Global};

// How many steps may be made from signatures with fields to the top-level signatures over them.
const STEPS: usize = 268_435_456;

/// Where a name is declared: among the global names; among them as a field, under the top-level signature of that number, or
/// where parents go round in a circle; among the assertions; or among the parameters of the paragraph of that number.
#[derive(Clone, Copy)]
pub enum Space {
    Global,
    Under(usize),
    Loose,
    Assertions,
    Parameters(usize),
}

/// A name that is declared, by its number.
#[derive(Clone, Copy)]
pub struct Coded {
    pub space: Space,
    pub word: usize,
    pub place: Place,
}

/// What is read of a model: the texts that were met, the parents, how many steps and fields there may still be, and the names
/// that are declared.
#[derive(Drop)]
pub struct Reading {
    pub words: Words,
    pub parents: Parents,
    pub steps: usize,
    pub fields: usize,
    pub coded: Vec<Coded>,
}

/// The names that the paragraphs declare.
pub fn read(alloc: Global, paragraphs: &[Paragraph]) -> Result<Reading, AllocError>
    ensures { IfOk result (λ r. IsReading (flat_map children (map paragraph_view paragraphs.now)) r (stated_from (flat_map children (map paragraph_view paragraphs.now)) 0 (map paragraph_view paragraphs.now))) }
{
    let mut words = Words::new(alloc);
    let links = links(alloc, &mut words, paragraphs)?;
    let mut reading = Reading {
        words,
        parents: parents_of(alloc, &links)?,
        steps: STEPS,
        fields: MOST_FIELDS,
        coded: Vec::new(alloc),
    };
    for number in 0..paragraphs.len() {
        add_paragraph(alloc, &mut reading, number, &paragraphs[number])?;
    }
    Ok(reading)
}

// Adds the names that the paragraph of that number declares.
fn add_paragraph(
    alloc: Global,
    reading: &mut Reading,
    number: usize,
    paragraph: &Paragraph,
) -> Result<(), AllocError>
    ensures { OnOk result ((cs : List Child) (before : List Stated) → IsReading cs reading.old before → IsReading cs reading.new (before ++ stated_in cs number (paragraph_view paragraph.now))) }
{
    match paragraph {
        Paragraph::Signatures(written) => Ok(add_signatures(alloc, reading, written)?),
        Paragraph::Fact(_, _) => Ok(()),
        Paragraph::Predicate(name, declarations, _) => {
            Ok(add_callee(alloc, reading, number, name, declarations)?)
        }
        Paragraph::Function(written) => {
            Ok(add_callee(alloc, reading, number, &written.name, &written.parameters)?)
        }
        Paragraph::Assertion(name, _) => Ok(add_assertion(alloc, reading, name)?),
        Paragraph::Command(_) => Ok(()),
    }
}

// Adds signatures and their fields.
fn add_signatures(
    alloc: Global,
    reading: &mut Reading,
    written: &Signatures,
) -> Result<(), AllocError>
    ensures { OnOk result ((cs : List Child) (before : List Stated) (number : ℕ) → IsReading cs reading.old before → IsReading cs reading.new (before ++ stated_in cs number (signatures_view written.now))) }
{
    add_names(alloc, reading, Space::Global, &written.names)?;
    add_fields(alloc, reading, &written.names, &written.fields)?;
    Ok(())
}

// Adds a predicate or a function, and its parameters.
fn add_callee(
    alloc: Global,
    reading: &mut Reading,
    number: usize,
    name: &Name,
    declarations: &[Declaration],
) -> Result<(), AllocError>
    ensures { OnOk result ((cs : List Child) (before : List Stated) → IsReading cs reading.old before → IsReading cs reading.new (before ++ (stated global (name.now ∷ []) ++ stated (parameters number) (parameter_names (map declaration_view declarations.now))))) }
{
    add_name(alloc, reading, Space::Global, name)?;
    add_parameters(alloc, reading, number, declarations)?;
    Ok(())
}

fn add_assertion(alloc: Global, reading: &mut Reading, name: &Name) -> Result<(), AllocError>
    ensures { OnOk result ((cs : List Child) (before : List Stated) → IsReading cs reading.old before → IsReading cs reading.new (before ++ stated assertions (name.now ∷ []))) }
{
    add_name(alloc, reading, Space::Assertions, name)?;
    Ok(())
}

// Adds the names of the parameters of the paragraph of that number.
fn add_parameters(
    alloc: Global,
    reading: &mut Reading,
    number: usize,
    declarations: &[Declaration],
) -> Result<(), AllocError>
    ensures { OnOk result ((cs : List Child) (before : List Stated) → IsReading cs reading.old before → IsReading cs reading.new (before ++ stated (parameters number) (parameter_names (map declaration_view declarations.now)))) }
{
    for declaration in declarations {
        add_declaration(alloc, reading, number, declaration)?;
    }
    Ok(())
}

fn add_declaration(
    alloc: Global,
    reading: &mut Reading,
    number: usize,
    declaration: &Declaration,
) -> Result<(), AllocError>
    ensures { OnOk result ((cs : List Child) (before : List Stated) → IsReading cs reading.old before → IsReading cs reading.new (before ++ stated (parameters number) (declaration_view declaration.now).names)) }
{
    add_names(
        alloc,
        reading,
        Space::Parameters(number),
        &declaration.names,
    )?;
    Ok(())
}

// Adds names that are declared in one place that is no signature's.
fn add_names(
    alloc: Global,
    reading: &mut Reading,
    space: Space,
    names: &[Name],
) -> Result<(), AllocError>
    ensures { OnOk result ((s : faults.Space) → ((ws : List (List ℕ)) → IsSpace ws space s) → (cs : List Child) (before : List Stated) → IsReading cs reading.old before → IsReading cs reading.new (before ++ stated s names.now)) }
{
    for name in names {
        add_name(alloc, reading, space, name)?;
    }
    Ok(())
}

fn add_name(
    alloc: Global,
    reading: &mut Reading,
    space: Space,
    name: &Name,
) -> Result<(), AllocError>
    ensures { OnOk result ((s : faults.Space) → ((ws : List (List ℕ)) → IsSpace ws space s) → (cs : List Child) (before : List Stated) → IsReading cs reading.old before → IsReading cs reading.new (before ++ record { space = s; name = name.now } ∷ [])) }
{
    let word = reading.words.meet(alloc, name.text.text())?;
    reading.coded.push(Coded {
        space,
        word,
        place: name.place,
    })?;
    Ok(())
}
