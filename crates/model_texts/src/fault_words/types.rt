// What is told of a fault of types.
ghost use Rattle.std.specs.Prelude.{◌≡◌, IfOk};
ghost use Rattle.model_types.specs.declared.fault.TypeFault.TheVariants as typing;
ghost use Rattle.model_texts.specs.Words.Words as words;

use crate::fault_words::placed::placed;
use model_types::TypeFault;
use std::alloc::{AllocError, Global};

/// What is told of a fault of sorts, arities or shared names; want of memory is an error.
pub fn type_words(alloc: Global, fault: TypeFault) -> Result<Vec<u8>, AllocError>
    ensures words { IfOk result (λ told. told.items ≡ words.type_words fault) }
    ensures told { IfOk result (λ _. fault ≡ typing.Memory → ⊥) }
{
    match fault {
        TypeFault::Arity { place } => Ok(placed(alloc, place, b"arity")?),
        TypeFault::NotUnary { place } => Ok(placed(alloc, place, b"not_unary")?),
        TypeFault::NotBinary { place } => Ok(placed(alloc, place, b"not_binary")?),
        TypeFault::ArityTooLarge { place } => Ok(placed(alloc, place, b"arity_too_large")?),
        TypeFault::Sort { place } => Ok(placed(alloc, place, b"sort")?),
        TypeFault::Ambiguous { place } => Ok(placed(alloc, place, b"ambiguous")?),
        TypeFault::Memory => Err(AllocError),
    }
}
