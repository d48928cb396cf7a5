// What each paragraph says, put behind the rest.
ghost use Rattle.std.specs.Prelude.{◌≡◌, ◌∷◌, ◌++◌, [], map, flat_map, OnOk};
ghost use Rattle.alloy_syntax.specs.Tree as tree;
ghost use Rattle.alloy_syntax.specs.Tree.{trees_of};
ghost use Rattle.alloy_syntax.specs.View as seen;
ghost use Rattle.alloy_syntax.specs.View.{block_view, declaration_view, function_view, paragraph_view};
ghost use Rattle.named_model.specs.Names.{all_faults, all_resolved};
ghost use Rattle.named_model.specs.Declarations.{callees_named, commands_named};
ghost use Rattle.named_model.specs.Faults.{body_faults};
ghost use Rattle.named_model.specs.View.{callee_view, command_view, formulas_view};
ghost use Rattle.name_tables.specs.Told.{Answers};
ghost use Rattle.sig_resolve.specs.Paragraphs.Bodies.{AreBodies, IsLonger};

use crate::body_names::formulas;
use crate::paragraph_bodies::callees::{function, predicate};
use crate::paragraph_bodies::commands::command;
use alloy_syntax::tree::{Block, Command as CommandNode, Declaration, Function, Name, Paragraph};
use name_tables::Names;
use named_model::NameFault;
use named_model::named::{Callee, Command, Formulas};
use std::alloc::Global;

/// What the paragraphs of a model say, each kind in order of declaration.
#[derive(Drop)]
pub struct Said {
    pub callees: Vec<Callee>,
    pub facts: Vec<Formulas>,
    pub assertions: Vec<Formulas>,
    pub commands: Vec<Command>,
}

/// What the paragraphs say, or the first fault of a name in a body. Where a command's name stands for nothing, the command has
/// any number. No local name is in force before or behind it.
pub fn bodies(alloc: Global, names: &mut Names, paragraphs: &[Paragraph]) -> Result<Said, NameFault>
    requires global { names.old.locals ≡ [] }
    ensures value { Answers result (flat_map (body_faults names.old.globals) (map paragraph_view paragraphs.now)) (AreBodies names.old.globals (map paragraph_view paragraphs.now)) }
    ensures names { OnOk result (names.new ≡ names.old) }
{
    let mut all = Said {
        callees: Vec::new(alloc),
        facts: Vec::new(alloc),
        assertions: Vec::new(alloc),
        commands: Vec::new(alloc),
    };
    for paragraph in paragraphs {
        add(alloc, names, paragraph, &mut all)?;
    }
    Ok(all)
}

// What a paragraph says is put behind the others of its kind.
fn add(
    alloc: Global,
    names: &mut Names,
    paragraph: &Paragraph,
    all: &mut Said,
) -> Result<(), NameFault>
    requires global { names.old.locals ≡ [] }
    ensures value { Answers result (body_faults names.old.globals (paragraph_view paragraph.now)) (λ _. IsLonger names.old.globals (paragraph_view paragraph.now) all.old all.new) }
    ensures names { OnOk result (names.new ≡ names.old) }
{
    match paragraph {
        Paragraph::Signatures(_) => Ok(()),
        Paragraph::Fact(_, block) => Ok(add_said(alloc, names, block, &mut all.facts)?),
        Paragraph::Predicate(name, declarations, block) => Ok(add_predicate(
            alloc,
            names,
            name,
            declarations,
            block,
            &mut all.callees,
        )?),
        Paragraph::Function(written) => {
            Ok(add_function(alloc, names, written, &mut all.callees)?)
        }
        Paragraph::Assertion(_, block) => Ok(add_said(alloc, names, block, &mut all.assertions)?),
        Paragraph::Command(written) => Ok(add_command(alloc, names, written, &mut all.commands)?),
    }
}

// The formulas of a fact or an assertion.
fn add_said(
    alloc: Global,
    names: &mut Names,
    block: &Block,
    all: &mut Vec<Formulas>,
) -> Result<(), NameFault>
    requires global { names.old.locals ≡ [] }
    ensures value { Answers result (all_faults names.old.globals [] (trees_of (block_view block.now).formulas)) (λ _. map formulas_view all.new.items ≡ map formulas_view all.old.items ++ all_resolved names.old.globals [] (trees_of (block_view block.now).formulas) ∷ []) }
    ensures names { OnOk result (names.new ≡ names.old) }
{
    let formulas = formulas(alloc, names, &block.formulas)?;
    all.push(Formulas { formulas })?;
    Ok(())
}

fn add_predicate(
    alloc: Global,
    names: &mut Names,
    name: &Name,
    declarations: &[Declaration],
    block: &Block,
    all: &mut Vec<Callee>,
) -> Result<(), NameFault>
    requires global { names.old.locals ≡ [] }
    ensures value { Answers result (body_faults names.old.globals (tree.predicate name.now (map declaration_view declarations.now) (block_view block.now))) (λ _. map callee_view all.new.items ≡ map callee_view all.old.items ++ callees_named names.old.globals (tree.predicate name.now (map declaration_view declarations.now) (block_view block.now))) }
    ensures names { OnOk result (names.new ≡ names.old) }
{
    let callee = predicate(alloc, names, name, declarations, block)?;
    all.push(callee)?;
    Ok(())
}

fn add_function(
    alloc: Global,
    names: &mut Names,
    written: &Function,
    all: &mut Vec<Callee>,
) -> Result<(), NameFault>
    requires global { names.old.locals ≡ [] }
    ensures value { Answers result (body_faults names.old.globals (function_view written.now)) (λ _. map callee_view all.new.items ≡ map callee_view all.old.items ++ callees_named names.old.globals (function_view written.now)) }
    ensures names { OnOk result (names.new ≡ names.old) }
{
    let callee = function(alloc, names, written)?;
    all.push(callee)?;
    Ok(())
}

fn add_command(
    alloc: Global,
    names: &mut Names,
    written: &CommandNode,
    all: &mut Vec<Command>,
) -> Result<(), NameFault>
    requires global { names.old.locals ≡ [] }
    ensures value { Answers result (body_faults names.old.globals (seen.command_view written.now)) (λ _. map command_view all.new.items ≡ map command_view all.old.items ++ commands_named names.old.globals (seen.command_view written.now)) }
    ensures names { OnOk result (names.new ≡ names.old) }
{
    let command = command(alloc, names, written)?;
    all.push(command)?;
    Ok(())
}
