// The first fault of the commands.
ghost use Rattle.std.specs.Prelude.{◌≡◌, List, map, flat_map, IfOk};
ghost use Rattle.alloy_syntax.specs.Tree.{ParagraphTree};
ghost use Rattle.alloy_syntax.specs.View.{command_view, paragraph_view};
ghost use Rattle.named_model.specs.Answers.{first_in};
ghost use Rattle.named_model.specs.Faults.{command_faults};
ghost use Rattle.sig_resolve.specs.Commands.Predicates.{run_of, AreRuns, name_faults, check_faults};

use crate::command_names::predicates::{Predicates, predicates_of};
use alloy_syntax::tree::{Command, CommandKind, Name, Paragraph, Target};
use name_tables::Names;
use named_model::NameFault;
use std::alloc::{AllocError, Global};

/// The first fault of a command's name, if there is one: what it runs is no predicate, or one with a parameter that need not be
/// a single atom; or what it checks is no assertion.
pub fn first_fault(
    alloc: Global,
    names: &Names,
    paragraphs: &[Paragraph],
) -> Result<Option<NameFault>, AllocError>
    ensures { IfOk result (λ fault. fault ≡ first_in (flat_map (command_faults (map paragraph_view paragraphs.now) names.now.globals) (map paragraph_view paragraphs.now))) }
{
    let predicates = predicates_of(alloc, paragraphs)?;
    Ok(first_of(&predicates, names, paragraphs))
}

// The first fault, by the table of predicates.
fn first_of(predicates: &Predicates, names: &Names, paragraphs: &[Paragraph]) -> Option<NameFault>
    ensures { (ps : List ParagraphTree) → AreRuns (flat_map run_of ps) predicates.now.names predicates.now.higher.items → result ≡ first_in (flat_map (command_faults ps names.now.globals) (map paragraph_view paragraphs.now)) }
{
    for paragraph in paragraphs {
        let fault = fault_of(predicates, names, paragraph);
        if fault.is_some() {
            return fault;
        }
    }
    None
}

// What is wrong with the name of a command, if the paragraph is one.
fn fault_of(predicates: &Predicates, names: &Names, paragraph: &Paragraph) -> Option<NameFault>
    ensures { (ps : List ParagraphTree) → AreRuns (flat_map run_of ps) predicates.now.names predicates.now.higher.items → result ≡ first_in (command_faults ps names.now.globals (paragraph_view paragraph.now)) }
{
    match paragraph {
        Paragraph::Command(command) => command_fault(predicates, names, command),
        Paragraph::Signatures(_) => None,
        Paragraph::Fact(_, _) => None,
        Paragraph::Predicate(_, _, _) => None,
        Paragraph::Function(_) => None,
        Paragraph::Assertion(_, _) => None,
    }
}

fn command_fault(predicates: &Predicates, names: &Names, command: &Command) -> Option<NameFault>
    ensures { (ps : List ParagraphTree) → AreRuns (flat_map run_of ps) predicates.now.names predicates.now.higher.items → result ≡ first_in (command_faults ps names.now.globals (command_view command.now)) }
{
    match &command.target {
        Target::Named(name) => name_fault(predicates, names, command.kind, name),
        Target::Block(_, _) => None,
    }
}

fn name_fault(
    predicates: &Predicates,
    names: &Names,
    kind: CommandKind,
    name: &Name,
) -> Option<NameFault>
    ensures { (ps : List ParagraphTree) → AreRuns (flat_map run_of ps) predicates.now.names predicates.now.higher.items → result ≡ first_in (name_faults ps names.now.globals kind name.now) }
{
    match kind {
        CommandKind::Run => predicates.fault(name),
        CommandKind::Check => check_fault(names, name),
    }
}

// What is wrong where the assertion of this name is checked.
fn check_fault(names: &Names, name: &Name) -> Option<NameFault>
    ensures { result ≡ first_in (check_faults names.now.globals name.now) }
{
    match names.assertion(name.text.text()) {
        Some(_) => None,
        None => Some(NameFault::Unknown { place: name.place }),
    }
}
