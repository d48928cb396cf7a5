// What each paragraph declares, by numbers.
ghost use Rattle.std.specs.Prelude.{◌≡◌, ◌+◌, [], List, map, length, flat_map, IfOk};
ghost use Rattle.alloy_syntax.specs.Tree as tree;
ghost use Rattle.alloy_syntax.specs.Tree.{ParagraphTree};
ghost use Rattle.alloy_syntax.specs.View.{paragraph_view, signatures_view, field_view};
ghost use Rattle.named_model.specs.Declarations.{field_names, part_behind, parts_behind};
ghost use Rattle.sig_resolve.specs.Counts.{AreCounts, AreMore};

use alloy_syntax::tree::{Field, Paragraph, Signatures};
use named_model::named::Part;
use std::alloc::{AllocError, Global};

// How many things of each kind were declared.
#[derive(Clone, Copy)]
pub struct Counts {
    pub fields: usize,
    pub facts: usize,
    pub callees: usize,
    pub assertions: usize,
    pub commands: usize,
}

// What each of the paragraphs declares.
pub fn parts(alloc: Global, paragraphs: &[Paragraph]) -> Result<Vec<Part>, AllocError>
    ensures { IfOk result (λ xs. xs.items ≡ parts_behind [] (map paragraph_view paragraphs.now)) }
{
    let mut counts = Counts {
        fields: 0,
        facts: 0,
        callees: 0,
        assertions: 0,
        commands: 0,
    };
    let mut all = Vec::new(alloc);
    for paragraph in paragraphs {
        let part = part(counts, paragraph)?;
        all.push(part)?;
        let next = behind(counts, paragraph)?;
        counts = next;
    }
    Ok(all)
}

// What a paragraph declares, behind so many things.
fn part(counts: Counts, paragraph: &Paragraph) -> Result<Part, AllocError>
    ensures { IfOk result (λ x. (before : List ParagraphTree) → AreCounts before counts → x ≡ part_behind before (paragraph_view paragraph.now)) }
{
    match paragraph {
        Paragraph::Signatures(written) => Ok(Part::Fields(counts.fields, fields_in(written)?)),
        Paragraph::Fact(_, _) => Ok(Part::Fact(counts.facts)),
        Paragraph::Predicate(_, _, _) => Ok(Part::Callee(counts.callees)),
        Paragraph::Function(_) => Ok(Part::Callee(counts.callees)),
        Paragraph::Assertion(_, _) => Ok(Part::Assertion(counts.assertions)),
        Paragraph::Command(_) => Ok(Part::Command(counts.commands)),
    }
}

// How many things there are with those of the paragraph.
fn behind(counts: Counts, paragraph: &Paragraph) -> Result<Counts, AllocError>
    ensures { IfOk result (AreMore (paragraph_view paragraph.now) counts) }
{
    match paragraph {
        Paragraph::Signatures(written) => {
            let fields = sum(counts.fields, fields_in(written)?)?;
            Ok(Counts { fields, ..counts })
        }
        Paragraph::Fact(_, _) => {
            let facts = sum(counts.facts, 1)?;
            Ok(Counts { facts, ..counts })
        }
        Paragraph::Predicate(_, _, _) => one_callee(counts),
        Paragraph::Function(_) => one_callee(counts),
        Paragraph::Assertion(_, _) => {
            let assertions = sum(counts.assertions, 1)?;
            Ok(Counts {
                assertions,
                ..counts
            })
        }
        Paragraph::Command(_) => {
            let commands = sum(counts.commands, 1)?;
            Ok(Counts { commands, ..counts })
        }
    }
}

// A predicate or a function more.
fn one_callee(counts: Counts) -> Result<Counts, AllocError>
    ensures { IfOk result (λ x. x ≡ record { fields = counts.fields; facts = counts.facts; callees = counts.callees + 1; assertions = counts.assertions; commands = counts.commands }) }
{
    let callees = sum(counts.callees, 1)?;
    Ok(Counts { callees, ..counts })
}

// How many fields the signatures of a paragraph have together.
fn fields_in(written: &Signatures) -> Result<usize, AllocError>
    ensures { IfOk result (λ n. n ≡ length (field_names (signatures_view written.now))) }
{
    let names = names_in(&written.fields)?;
    match names.checked_mul(written.names.len()) {
        Some(product) => Ok(product),
        None => Err(AllocError),
    }
}

// How many names stand before the bounds.
fn names_in(fields: &[Field]) -> Result<usize, AllocError>
    ensures { IfOk result (λ n. n ≡ length (flat_map (λ (f : tree.FieldTree). f.names) (map field_view fields.now))) }
{
    let mut total: usize = 0;
    for field in fields {
        total = sum(total, field.names.len())?;
    }
    Ok(total)
}

fn sum(a: usize, b: usize) -> Result<usize, AllocError>
    ensures { IfOk result (λ n. n ≡ a + b) }
{
    match a.checked_add(b) {
        Some(sum) => Ok(sum),
        None => Err(AllocError),
    }
}
