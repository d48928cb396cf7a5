// The graph of signatures and their parents.
ghost use Rattle.std.specs.Prelude.{◌≡◌, ◌++◌, map, flat_map, option_and_then, IfOk, OnOk};
ghost use Rattle.alloy_syntax.specs.View.{paragraph_view};
ghost use Rattle.alloy_syntax.specs.declared.tree.Parent.{Parent};
ghost use Rattle.named_model.specs.Names.{number_of};
ghost use Rattle.named_model.specs.Faults.{children};
ghost use Rattle.name_tables.specs.Parents.Graphs.{row_to, AddsAll, AddsChildren, AreChildren};

use crate::Names;
use alloy_lex::Place;
use alloy_syntax::tree::{Name, Paragraph, Parent};
use std::alloc::{AllocError, Global};

/// For each signature, by its number, the number of its parent, if that is a signature; and where the signature is declared.
#[derive(Drop)]
pub struct Graph {
    pub rows: Vec<Vec<usize>>,
    pub places: Vec<Place>,
}

/// The graph of the signatures that the paragraphs declare.
pub fn graph_of(alloc: Global, names: &Names, paragraphs: &[Paragraph]) -> Result<Graph, AllocError>
    ensures { IfOk result (AreChildren names.now.globals.signatures (flat_map children (map paragraph_view paragraphs.now))) }
{
    let mut graph = Graph {
        rows: Vec::new(alloc),
        places: Vec::new(alloc),
    };
    for paragraph in paragraphs {
        add_children(alloc, names, paragraph, &mut graph)?;
    }
    Ok(graph)
}

fn add_children(
    alloc: Global,
    names: &Names,
    paragraph: &Paragraph,
    graph: &mut Graph,
) -> Result<(), AllocError>
    ensures { OnOk result (AddsChildren names.now.globals.signatures (children (paragraph_view paragraph.now)) graph.old graph.new) }
{
    match paragraph {
        Paragraph::Signatures(written) => {
            let parent = number_of(names, &written.parent);
            Ok(add_names(alloc, parent, &written.names, graph)?)
        }
        Paragraph::Fact(_, _) => Ok(()),
        Paragraph::Predicate(_, _, _) => Ok(()),
        Paragraph::Function(_) => Ok(()),
        Paragraph::Assertion(_, _) => Ok(()),
        Paragraph::Command(_) => Ok(()),
    }
}

// The number of a parent, if it is a signature.
fn number_of(names: &Names, parent: &Option<Parent>) -> Option<usize>
    ensures { result ≡ option_and_then (λ (p : Parent). number_of names.now.globals.signatures p.name.text) parent.now }
{
    match parent {
        Some(parent) => names.signature(parent.name.text.text()),
        None => None,
    }
}

// Adds signatures with that parent.
fn add_names(
    alloc: Global,
    parent: Option<usize>,
    names: &[Name],
    graph: &mut Graph,
) -> Result<(), AllocError>
    ensures { OnOk result (AddsAll parent names.now graph.old graph.new) }
{
    for name in names {
        let row = row(alloc, parent)?;
        graph.rows.push(row)?;
        graph.places.push(name.place)?;
    }
    Ok(())
}

fn row(alloc: Global, parent: Option<usize>) -> Result<Vec<usize>, AllocError>
    ensures { IfOk result (λ row. row.items ≡ row_to parent) }
{
    let mut row = Vec::new(alloc);
    if let Some(number) = parent {
        row.push(number)?;
    }
    Ok(row)
}
