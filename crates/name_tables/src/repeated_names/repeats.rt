// The first name that is declared for the second time.
ghost use Rattle.std.specs.Prelude.{◌≡◌, [], map, flat_map, IfOk};
ghost use Rattle.alloy_syntax.specs.View.{paragraph_view};
ghost use Rattle.named_model.specs.Answers.{first_in};
ghost use Rattle.named_model.specs.Faults.{children, stated_from, repeats};

use crate::repeated_names::marks::first_of;
use crate::repeated_names::stated::read;
use alloy_syntax::tree::Paragraph;
use named_model::NameFault;
use std::alloc::{AllocError, Global};

/// The fault of the first name that is declared for the second time, if one is: in the order of the text, a field once for
/// each signature. Signatures, fields, predicates and functions are declared among the same names, assertions among
/// themselves, the parameters of each paragraph among themselves; two fields may have one name, if they stand under two
/// top-level signatures.
///
/// It takes time that grows with the paragraphs, and with the steps from signatures with fields to the top-level signatures
/// over them. More than 268,435,456 such steps, and more than 1,048,576 fields, are want of memory.
pub fn first_repeated(
    alloc: Global,
    paragraphs: &[Paragraph],
) -> Result<Option<NameFault>, AllocError>
    ensures { IfOk result (λ fault. fault ≡ first_in (repeats [] (stated_from (flat_map children (map paragraph_view paragraphs.now)) 0 (map paragraph_view paragraphs.now)))) }
{
    let reading = read(alloc, paragraphs)?;
    Ok(first_of(alloc, &reading.coded)?)
}
