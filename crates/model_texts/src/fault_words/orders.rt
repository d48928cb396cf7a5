// What is told of a fault of an ordering.
ghost use Rattle.std.specs.Prelude.{◌≡◌, IfOk};
ghost use Rattle.order_lib.specs.declared.fault.OrderFault.TheVariants as order;
ghost use Rattle.model_texts.specs.Words.Words as words;

use crate::fault_words::placed::placed;
use order_lib::OrderFault;
use std::alloc::{AllocError, Global};

/// What is told of a fault of an ordering; want of memory is an error.
pub fn order_words(alloc: Global, fault: OrderFault) -> Result<Vec<u8>, AllocError>
    ensures words { IfOk result (λ told. told.items ≡ words.order_words fault) }
    ensures told { IfOk result (λ _. fault ≡ order.Memory → ⊥) }
{
    match fault {
        OrderFault::Unknown { place } => Ok(placed(alloc, place, b"unknown")?),
        OrderFault::NotPlain { place } => Ok(placed(alloc, place, b"not_plain")?),
        OrderFault::Twice { place } => Ok(placed(alloc, place, b"twice")?),
        OrderFault::Memory => Err(AllocError),
    }
}
