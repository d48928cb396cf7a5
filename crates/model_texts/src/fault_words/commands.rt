// What is told of a command that has no problem.
ghost use Rattle.std.specs.Prelude.{◌≡◌, IfOk, IfErr};
ghost use Rattle.lowering_rules.specs.declared.fault.LowerFault.TheVariants as lower;
ghost use Rattle.lowering_rules.specs.declared.fault.LowerStop.TheVariants as stop;
ghost use Rattle.named_model.specs.declared.fault.NameFault.TheVariants as name;
ghost use Rattle.model_texts.specs.Words.Words as words;

use crate::fault_words::names::name_kind;
use crate::fault_words::placed::push_number;
use lowering_rules::{LowerFault, LowerStop};
use named_model::NameFault;
use std::alloc::Global;

/// What is told of the command of this number, which has no problem; want of memory is an error, and a formula that is too large to
/// build.
pub fn command_words(alloc: Global, number: u32, fault: LowerFault) -> Result<Vec<u8>, LowerStop>
    ensures words { IfOk result (λ told. told.items ≡ words.command_words number fault) }
    ensures told { IfOk result (λ _. (fault ≡ lower.Memory → ⊥) × (fault ≡ lower.TooLarge → ⊥) × (fault ≡ lower.Scope name.Memory → ⊥)) }
    ensures large { IfErr result (λ e. e ≡ stop.TooLarge → fault ≡ lower.TooLarge) }
{
    let kind = match fault {
        LowerFault::TooLarge => return Err(LowerStop::TooLarge),
        LowerFault::Memory | LowerFault::Scope(NameFault::Memory) => {
            return Err(LowerStop::Memory);
        }
        LowerFault::NoCommand => b"no_command".as_slice(),
        LowerFault::Scope(fault) => name_kind(fault),
        LowerFault::TooManyRelations => b"too_many_relations".as_slice(),
        LowerFault::TooManyCells => b"too_many_cells".as_slice(),
        LowerFault::TooManyTerms => b"too_many_terms".as_slice(),
    };
    let mut told = Vec::from_slice(alloc, b"command ")?;
    push_number(&mut told, number)?;
    told.extend_from_slice(b" ")?;
    told.extend_from_slice(kind)?;
    Ok(told)
}
