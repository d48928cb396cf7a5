// How many fields a model may have.
use crate::MOST_FIELDS;
use alloy_syntax::tree::{Field, Paragraph};

// Whether the fields of all paragraphs are not too many to be put into tables.
pub fn has_room(paragraphs: &[Paragraph]) -> bool {
    let mut total: usize = 0;
    for paragraph in paragraphs {
        total = total.saturating_add(count(paragraph));
    }
    total <= MOST_FIELDS
}

fn count(paragraph: &Paragraph) -> usize {
    match paragraph {
        Paragraph::Signatures(signatures) => {
            names_in(&signatures.fields).saturating_mul(signatures.names.len())
        }
        _ => 0,
    }
}

fn names_in(fields: &[Field]) -> usize {
    let mut total: usize = 0;
    for field in fields {
        total = total.saturating_add(field.names.len());
    }
    total
}
