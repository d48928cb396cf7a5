// What types rest on.
ghost use Rattle.std.specs.Prelude.{◌≡◌, slice_index_or, Option, Some, None};
ghost use Rattle.named_model.specs.View.{phrase_view};
ghost use Rattle.overload_resolution.specs.Expressions.Types.{bodies_view, kept_at, kept_with};

use model_types::bounding_types::BoundingType;
use named_model::phrase::Phrase;

/// What the types of expressions rest on. Signatures, fields, and predicates with functions are numbered from 0 in order of
/// declaration.
#[derive(Drop)]
pub struct Known {
    /// The numbers of the top-level signatures, in order of declaration.
    pub tops: Vec<usize>,
    /// For each signature the top-level signature over it.
    pub over: Vec<usize>,
    /// The type of each field.
    pub fields: Vec<BoundingType>,
    /// The body of each function, in which no name is shared; nothing for a predicate, and where none is known.
    pub bodies: Vec<Option<Phrase>>,
    /// The type of each function without parameters, as far as it is kept.
    pub kept: Vec<Option<KeptType>>,
}

/// The type of a call of a function without parameters, which it has where so many calls may be nested, or more.
#[derive(Drop)]
pub struct KeptType {
    pub calls: usize,
    pub lists: BoundingType,
}

impl Known {
    /// The body of a function, where it is known.
    pub fn body(&self, number: usize) -> Option<&Phrase>
        ensures { (elim result [ None ↦ None | Some x ↦ Some (phrase_view x.now) ]) ≡ slice_index_or (bodies_view self.now.bodies.items) number None }
    {
        match self.bodies.get(number) {
            Some(body) => body.as_ref(),
            None => None,
        }
    }

    /// The type of a call of a function without parameters, where it is kept for calls that are nested so deep.
    pub fn kept(&self, number: usize, calls: usize) -> Option<&BoundingType>
        ensures { (elim result [ None ↦ None | Some x ↦ Some x.now ]) ≡ kept_at self.now.kept.items number calls }
    {
        match self.kept.get(number) {
            Some(kept) => lists_within(kept, calls),
            None => None,
        }
    }
}

// The type of a call, where it has it with so many calls nested.
fn lists_within(kept: &Option<KeptType>, calls: usize) -> Option<&BoundingType>
    ensures { (elim result [ None ↦ None | Some x ↦ Some x.now ]) ≡ kept_with kept.now calls }
{
    match kept {
        Some(kept) if kept.calls <= calls => Some(&kept.lists),
        _ => None,
    }
}
