// The signature of an ordering.
ghost use Rattle.std.specs.Prelude.{◌≡◌, ◌∷◌, [], map, codes, IfOk};
ghost use Rattle.alloy_syntax.specs.View.{bound_view, field_view, paragraph_view};
ghost use Rattle.order_lib.specs.Library as spec;

use crate::library::names::{one_name, ordered, own, word_at};
use alloy_syntax::tree::{Bound, BoundArrow, Field, Multiplicity, Open, Paragraph, Signatures};
use std::alloc::{AllocError, Global};

// The field of the first atom.
fn first_field(alloc: Global, ordering: &Open) -> Result<Field, AllocError>
    ensures { IfOk result (λ f. field_view f ≡ spec.first_field ordering.now) }
{
    let names = one_name(alloc, own(alloc, ordering, "First")?)?;
    let bound = Bound::Named(ordered(alloc, ordering)?);
    Ok(Field {
        names,
        mark: word_at(ordering, Multiplicity::Lone),
        bound,
    })
}

// The bound of pairs of atoms.
fn pairs_bound(alloc: Global, ordering: &Open) -> Result<Bound, AllocError>
    ensures { IfOk result (λ b. bound_view b ≡ spec.pairs_bound ordering.now) }
{
    let left = Box::new(alloc, Bound::Named(ordered(alloc, ordering)?))?;
    let mut arrows = Vec::new(alloc);
    arrows.push(BoundArrow {
        left: None,
        place: ordering.alias.place,
        right: None,
        side: Bound::Named(ordered(alloc, ordering)?),
    })?;
    Ok(Bound::Arrows(left, arrows))
}

// The field of the pairs of neighbours.
fn next_field(alloc: Global, ordering: &Open) -> Result<Field, AllocError>
    ensures { IfOk result (λ f. field_view f ≡ spec.next_field ordering.now) }
{
    let names = one_name(alloc, own(alloc, ordering, "Next")?)?;
    let bound = pairs_bound(alloc, ordering)?;
    Ok(Field {
        names,
        mark: None,
        bound,
    })
}

fn both_fields(alloc: Global, ordering: &Open) -> Result<Vec<Field>, AllocError>
    ensures { IfOk result (λ fs. map field_view fs.items ≡ spec.first_field ordering.now ∷ spec.next_field ordering.now ∷ []) }
{
    let mut fields = Vec::new(alloc);
    fields.push(first_field(alloc, ordering)?)?;
    fields.push(next_field(alloc, ordering)?)?;
    Ok(fields)
}

/// The signature of the ordering.
pub fn the_signature(alloc: Global, ordering: &Open) -> Result<Paragraph, AllocError>
    ensures { IfOk result (λ p. paragraph_view p ≡ spec.the_signature ordering.now) }
{
    let names = one_name(alloc, own(alloc, ordering, "Ord")?)?;
    let fields = both_fields(alloc, ordering)?;
    Ok(Paragraph::Signatures(Signatures {
        is_abstract: false,
        mark: word_at(ordering, Multiplicity::One),
        names,
        parent: None,
        fields,
    }))
}
