// Commands.
ghost use Rattle.std.specs.Prelude.{◌≡◌, [], ◌∷◌, map, option_map, OnOk, IfOk};
ghost use Rattle.alloy_syntax.specs.Tree as tree;
ghost use Rattle.alloy_syntax.specs.View as tree_view;
ghost use Rattle.named_model.specs.Declarations.{target_named, scope_named, commands_named};
ghost use Rattle.named_model.specs.Faults.{target_faults, body_faults};
ghost use Rattle.named_model.specs.View.{target_view, scope_view, command_view};
ghost use Rattle.name_tables.specs.Told.{Answers};
ghost use Rattle.sig_resolve.specs.Paragraphs.Listed.{listed};

use crate::body_names::formulas;
use alloy_syntax::tree::{
    Command as CommandNode, CommandKind, Entry, Name, Scope as ScopeNode, Target as TargetNode,
};
use name_tables::Names;
use named_model::NameFault;
use named_model::named::{Command, Listing, Scope, Target};
use std::alloc::{AllocError, Global};

// A command. What its name stands for is any where there is no such thing.
pub fn command(
    alloc: Global,
    names: &mut Names,
    command: &CommandNode,
) -> Result<Command, NameFault>
    requires global { names.old.locals ≡ [] }
    ensures value { Answers result (body_faults names.old.globals (tree_view.command_view command.now)) (λ x. command_view x ∷ [] ≡ commands_named names.old.globals (tree_view.command_view command.now)) }
    ensures names { OnOk result (names.new ≡ names.old) }
{
    let target = target(alloc, names, command.kind, &command.target)?;
    let scope = scope_if(alloc, names, &command.scope)?;
    Ok(Command {
        kind: command.kind,
        target,
        scope,
    })
}

fn target(
    alloc: Global,
    names: &mut Names,
    kind: CommandKind,
    target: &TargetNode,
) -> Result<Target, NameFault>
    requires global { names.old.locals ≡ [] }
    ensures value { Answers result (target_faults names.old.globals (tree_view.target_view target.now)) (λ x. target_view x ≡ target_named names.old.globals kind (tree_view.target_view target.now)) }
    ensures names { OnOk result (names.new ≡ names.old) }
{
    match target {
        TargetNode::Named(name) => Ok(named(names, kind, name)),
        TargetNode::Block(_, block) => {
            let body = formulas(alloc, names, &block.formulas)?;
            Ok(Target::Block(body))
        }
    }
}

fn named(names: &Names, kind: CommandKind, name: &Name) -> Target
    ensures { target_view result ≡ target_named names.now.globals kind (tree.at_name name.now) }
{
    match kind {
        CommandKind::Run => Target::Predicate(names.callee(name.text.text()).unwrap_or(0)),
        CommandKind::Check => Target::Assertion(names.assertion(name.text.text()).unwrap_or(0)),
    }
}

fn scope_if(
    alloc: Global,
    names: &Names,
    scope: &Option<ScopeNode>,
) -> Result<Option<Scope>, AllocError>
    ensures { IfOk result (λ x. option_map scope_view x ≡ option_map (scope_named names.now.globals) (option_map tree_view.scope_view scope.now)) }
{
    match scope {
        Some(scope) => Ok(Some(scope_of(alloc, names, scope)?)),
        None => Ok(None),
    }
}

fn scope_of(alloc: Global, names: &Names, scope: &ScopeNode) -> Result<Scope, AllocError>
    ensures { IfOk result (λ x. scope_view x ≡ scope_named names.now.globals (tree_view.scope_view scope.now)) }
{
    let listings = listings(alloc, names, &scope.entries)?;
    Ok(Scope {
        default: scope.default,
        listings,
    })
}

// The sizes that a scope lists.
fn listings(alloc: Global, names: &Names, entries: &[Entry]) -> Result<Vec<Listing>, AllocError>
    ensures { IfOk result (λ xs. xs.items ≡ map (listed names.now.globals) entries.now) }
{
    let mut all = Vec::new(alloc);
    for entry in entries {
        all.push(Listing {
            exactly: entry.exactly,
            number: entry.number,
            place: entry.name.place,
            signature: names.signature(entry.name.text.text()),
        })?;
    }
    Ok(all)
}
