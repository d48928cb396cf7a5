// Signatures with their parents, by the numbers of their names.
ghost use Rattle.std.specs.Prelude.{◌≡◌, ◌++◌, List, ℕ, Option, map, flat_map, option_map, IfOk, OnOk};
ghost use Rattle.alloy_syntax.specs.View.{paragraph_view};
ghost use Rattle.alloy_syntax.specs.declared.tree.Parent.{Parent};
ghost use Rattle.named_model.specs.Faults.{Child, children};
ghost use Rattle.name_tables.specs.Repeats.Numbered.{IsNumbered, AreLinks, child_of, Grows};

use crate::repeated_names::words::Words;
use alloy_syntax::tree::{Name, Paragraph, Parent};
use std::alloc::{AllocError, Global};

/// A signature and its parent, if it has one: the numbers of their names.
#[derive(Clone, Copy)]
pub struct Link {
    pub name: usize,
    pub parent: Option<usize>,
}

/// The signatures that the paragraphs declare.
pub fn links(
    alloc: Global,
    words: &mut Words,
    paragraphs: &[Paragraph],
) -> Result<Vec<Link>, AllocError>
    ensures { IfOk result (λ links. AreLinks words.new links.items (flat_map children (map paragraph_view paragraphs.now))) }
{
    let mut links = Vec::new(alloc);
    for paragraph in paragraphs {
        add_links(alloc, words, paragraph, &mut links)?;
    }
    Ok(links)
}

fn add_links(
    alloc: Global,
    words: &mut Words,
    paragraph: &Paragraph,
    links: &mut Vec<Link>,
) -> Result<(), AllocError>
    ensures { OnOk result ((cs : List Child) → AreLinks words.old links.old.items cs → AreLinks words.new links.new.items (cs ++ children (paragraph_view paragraph.now))) }
{
    match paragraph {
        Paragraph::Signatures(written) => {
            let parent = parent(alloc, words, &written.parent)?;
            Ok(add_names(alloc, words, parent, &written.names, links)?)
        }
        Paragraph::Fact(_, _) => Ok(()),
        Paragraph::Predicate(_, _, _) => Ok(()),
        Paragraph::Function(_) => Ok(()),
        Paragraph::Assertion(_, _) => Ok(()),
        Paragraph::Command(_) => Ok(()),
    }
}

// The number of a parent's name.
fn parent(
    alloc: Global,
    words: &mut Words,
    parent: &Option<Parent>,
) -> Result<Option<usize>, AllocError>
    ensures words { OnOk result (Grows words.old words.new) }
    ensures number { IfOk result (λ n. IsNumbered words.new n (option_map (λ (p : Parent). p.name.text) parent.now)) }
{
    match parent {
        Some(parent) => Ok(Some(words.meet(alloc, parent.name.text.text())?)),
        None => Ok(None),
    }
}

// Adds signatures of these names, which have one parent.
fn add_names(
    alloc: Global,
    words: &mut Words,
    parent: Option<usize>,
    names: &[Name],
    links: &mut Vec<Link>,
) -> Result<(), AllocError>
    ensures { OnOk result ((p : Option (List ℕ)) (cs : List Child) → IsNumbered words.old parent p → AreLinks words.old links.old.items cs → AreLinks words.new links.new.items (cs ++ map (child_of p) names.now)) }
{
    for name in names {
        let number = words.meet(alloc, name.text.text())?;
        links.push(Link {
            name: number,
            parent,
        })?;
    }
    Ok(())
}
