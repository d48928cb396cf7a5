// That relations are made where they and their cells are few.
ghost use Rattle.std.specs.Prelude.{◌≡◌, List, length, map, All, IfOk};
ghost use Rattle.named_model.specs.declared.named.Signature.{Signature};
ghost use Rattle.named_model.specs.declared.phrase.Referent.TheVariants as referent;
ghost use Rattle.named_model.specs.Phrase.{refers};
ghost use Rattle.named_model.specs.Model.{FieldTree};
ghost use Rattle.named_model.specs.View.{phrase_view, field_view, named_view};
ghost use Rattle.rel_lower.specs.Bounding.Typed.{HasLists};

use alloy_lex::{Place, Text};
use lowering_rules::LowerFault;
use model_sizes::Size;
use named_model::Named;
use named_model::named::{Field, Signature};
use named_model::phrase::{Phrase, Referent};
use rel_lower::field_bounds::relations::relations;
use std::alloc::{AllocError, Global};
use std::test::Fail;

const PLACE: Place = Place { line: 1, column: 1 };

// So many places of the first top-level signature, and of the second.
fn sizes(first: u16, second: u16) -> [Size; 2] {
    [
        Size {
            signature: 0,
            places: first,
            exact: false,
        },
        Size {
            signature: 1,
            places: second,
            exact: true,
        },
    ]
}

fn signature(alloc: Global, name: &str) -> Result<Signature, AllocError> {
    Ok(Signature {
        name: Text::of(alloc, name)?,
        place: PLACE,
        is_abstract: false,
        mark: None,
        parent: None,
    })
}

// `B`
fn second(place: Place) -> Phrase
    ensures { phrase_view result ≡ refers place (referent.Signature 1) }
{
    Phrase::Refers(place, Referent::Signature(1))
}

// `f: B`, of the first signature
fn field(alloc: Global) -> Result<Field, AllocError>
    ensures { IfOk result (λ f. (xs : List Signature) → HasLists xs (field_view f).bound) }
{
    let bound = second(PLACE);
    Ok(Field {
        name: Text::of(alloc, "f")?,
        place: PLACE,
        owner: 0,
        mark: None,
        left: None,
        right: None,
        bound,
    })
}

// `sig A {} sig B {}`
fn two_signatures(alloc: Global) -> Result<Vec<Signature>, AllocError>
    ensures { IfOk result (λ xs. length xs.items ≡ 2) }
{
    let first = signature(alloc, "A")?;
    let second = signature(alloc, "B")?;
    Ok(vec![in alloc; first, second]?)
}

fn fields(alloc: Global) -> Result<Vec<Field>, AllocError>
    ensures { IfOk result (λ fs. (xs : List Signature) → All (λ (f : FieldTree). HasLists xs f.bound) (map field_view fs.items)) }
{
    let field = field(alloc)?;
    Ok(vec![in alloc; field]?)
}

// `sig A { f: B } sig B {}`
fn model(alloc: Global) -> Result<Named, AllocError>
    ensures signatures { IfOk result (λ n. length n.signatures.items ≡ 2) }
    ensures typed { IfOk result (λ n. All (λ (f : FieldTree). HasLists (named_view n).signatures f.bound) (named_view n).fields) }
{
    Ok(Named {
        signatures: two_signatures(alloc)?,
        fields: fields(alloc)?,
        callees: Vec::new(alloc),
        facts: Vec::new(alloc),
        fact_names: Vec::new(alloc),
        assertions: Vec::new(alloc),
        commands: Vec::new(alloc),
        parts: Vec::new(alloc),
    })
}

// Adds a relation's name, how many tuples it has at least, and how many at most.
fn add(
    alloc: Global,
    text: &mut String,
    name: &str,
    (lower, upper): (usize, usize),
) -> Result<(), AllocError> {
    let row = format!(in alloc; "{name} {lower} {upper};")?;
    text.push_str(row.as_str())
}

// What the relations are, where `A` has two places and `B` three.
fn shown(alloc: Global) -> Result<String, LowerFault> {
    let named = model(alloc)?;
    let relations = relations(alloc, &named, &sizes(2, 3))?;
    let mut text = String::new(alloc);
    for relation in &relations {
        let counts = (relation.lower.len(), relation.upper.len());
        add(alloc, &mut text, relation.name.text(), counts)?;
    }
    Ok(text)
}

#[test]
fn each_relation(rt: HostRuntime) -> Result<(), Fail> {
    let text = shown(rt.alloc())?;
    assert_eq!(rt; text.as_str(), "A 0 2;B 3 3;f 0 6;");
    Ok(())
}

// How many relations there are, where `A` and `B` have so many places.
fn outcome(alloc: Global, first: u16, second: u16) -> Result<usize, LowerFault> {
    let named = model(alloc)?;
    Ok(relations(alloc, &named, &sizes(first, second))?.len())
}

// `B` is exact, so `A` and `f` have all cells.
#[test]
fn cells_of_pairs(rt: HostRuntime) -> Result<(), Fail> {
    for (first, second, expected) in [(16, 255, Ok(3)), (17, 240, Err(LowerFault::TooManyCells))] {
        assert_eq!(rt; outcome(rt.alloc(), first, second), expected);
    }
    Ok(())
}
