// What is told of a fault of names or of a scope.
ghost use Rattle.std.specs.Prelude.{◌≡◌, IfOk};
ghost use Rattle.named_model.specs.declared.fault.NameFault.TheVariants as name;
ghost use Rattle.model_texts.specs.Words.Words as words;

use crate::fault_words::placed::placed;
use named_model::NameFault;
use std::alloc::{AllocError, Global};

/// The word of a fault of names or of a scope, without its place; for want of memory, which is none, no byte.
pub fn name_kind(fault: NameFault) -> &'static [u8]
    ensures { result.now ≡ words.name_kind fault }
{
    match fault {
        NameFault::Unknown { .. } => b"unknown",
        NameFault::Twice { .. } => b"twice",
        NameFault::Cycle { .. } => b"cycle",
        NameFault::Recursive { .. } => b"recursive",
        NameFault::UnknownScope => b"unknown_scope",
        NameFault::NoScope => b"no_scope",
        NameFault::ScopeTooLarge => b"scope_too_large",
        NameFault::TooManyAtoms => b"too_many_atoms",
        NameFault::Arguments { .. } => b"arguments",
        NameFault::HigherOrder { .. } => b"higher_order",
        NameFault::Memory => b"",
    }
}

/// What is told of a fault of names, with its place where it has one; want of memory is an error.
pub fn name_words(alloc: Global, fault: NameFault) -> Result<Vec<u8>, AllocError>
    ensures words { IfOk result (λ told. told.items ≡ words.name_words fault) }
    ensures told { IfOk result (λ _. fault ≡ name.Memory → ⊥) }
{
    let kind = name_kind(fault);
    match fault {
        NameFault::Unknown { place }
        | NameFault::Twice { place }
        | NameFault::Cycle { place }
        | NameFault::Recursive { place }
        | NameFault::Arguments { place }
        | NameFault::HigherOrder { place } => Ok(placed(alloc, place, kind)?),
        NameFault::UnknownScope
        | NameFault::NoScope
        | NameFault::ScopeTooLarge
        | NameFault::TooManyAtoms => Ok(Vec::from_slice(alloc, kind)?),
        NameFault::Memory => Err(AllocError),
    }
}
