// A model with every name tied to its declaration.
ghost use Rattle.std.specs.Prelude.{◌≡◌, map, None, Some, MatchResult};
ghost use Rattle.alloy_syntax.specs.View.{model_view, paragraph_view};
ghost use Rattle.named_model.specs.Declarations.{globals_of, named_of};
ghost use Rattle.named_model.specs.Faults.{faults_in};
ghost use Rattle.named_model.specs.View.{named_view};
ghost use Rattle.name_tables.specs.Told.{Answers};
ghost use Rattle.name_tables.specs.Signatures.Named.{AreDeclared};
ghost use Rattle.sig_resolve.specs.Paragraphs.Bodies.{AreBodies};
ghost use Rattle.sig_resolve.specs.Stages.{names_of, declared_faults, said_faults};

use crate::command_names::first_fault;
use crate::fact_names::fact_names;
use crate::paragraph_bodies::{Said, bodies};
use crate::parts::parts;
use alloy_syntax::tree::{Model, Paragraph};
use name_tables::Names;
use name_tables::global_names::global_names;
use name_tables::parent_cycles::first_cycle;
use name_tables::repeated_names::first_repeated;
use name_tables::signature_names::{Declared, declarations};
use named_model::{NameFault, Named};
use reference_cycles::recursive_calls::first_recursive;
use std::alloc::Global;

/// The model with every name tied to its declaration. Else the first fault, in this order: names that stand for the second time,
/// names of parents and bounds that are no signatures, signatures above themselves, names in bodies, predicates and functions
/// that call themselves, and the names of commands; within each in the order of the text. Want of memory may be answered in
/// place of any.
pub fn resolve(alloc: Global, tree: &Model) -> Result<Named, NameFault>
    ensures { Answers result (faults_in (model_view tree.now)) (λ x. named_view x ≡ named_of (model_view tree.now)) }
{
    let paragraphs = tree.paragraphs.as_slice();
    let mut names = global_names(alloc, paragraphs)?;
    let declared = checked_declarations(alloc, &names, paragraphs)?;
    let said = checked_bodies(alloc, &mut names, paragraphs)?;
    let fact_names = fact_names(alloc, paragraphs)?;
    let parts = parts(alloc, paragraphs)?;
    Ok(Named {
        signatures: declared.signatures,
        fields: declared.fields,
        callees: said.callees,
        facts: said.facts,
        fact_names,
        assertions: said.assertions,
        commands: said.commands,
        parts,
    })
}

// The signatures and fields, where no name stands for the second time, each parent and bound is known and no signature is
// above itself.
fn checked_declarations(
    alloc: Global,
    names: &Names,
    paragraphs: &[Paragraph],
) -> Result<Declared, NameFault>
    requires { names.now ≡ names_of (map paragraph_view paragraphs.now) }
    ensures { Answers result (declared_faults (map paragraph_view paragraphs.now)) (AreDeclared (globals_of (map paragraph_view paragraphs.now)) (map paragraph_view paragraphs.now)) }
{
    none_of(first_repeated(alloc, paragraphs)?)?;
    let declared = declarations(alloc, names, paragraphs)?;
    none_of(first_cycle(alloc, names, paragraphs)?)?;
    Ok(declared)
}

// What the paragraphs say, where the names of bodies are known, nothing calls itself and the names of commands are known.
fn checked_bodies(
    alloc: Global,
    names: &mut Names,
    paragraphs: &[Paragraph],
) -> Result<Said, NameFault>
    requires { names.old ≡ names_of (map paragraph_view paragraphs.now) }
    ensures { Answers result (said_faults (map paragraph_view paragraphs.now)) (AreBodies (globals_of (map paragraph_view paragraphs.now)) (map paragraph_view paragraphs.now)) }
{
    let said = bodies(alloc, names, paragraphs)?;
    none_of(first_recursive(alloc, &said.callees)?)?;
    none_of(first_fault(alloc, names, paragraphs)?)?;
    Ok(said)
}

// The fault, if there is one.
fn none_of(fault: Option<NameFault>) -> Result<(), NameFault>
    ensures { MatchResult result (λ _. fault ≡ None) (λ e. fault ≡ Some e) }
{
    match fault {
        None => Ok(()),
        Some(fault) => Err(fault),
    }
}
