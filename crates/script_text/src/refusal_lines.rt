// The lines that say why a step changed nothing.
ghost use Rattle.std.specs.Prelude.{◌≡◌, ◌++◌, codes, decimal, IfOk};
ghost use Rattle.script_text.specs.Printed.{refusal_words};

use crate::numbers::push_number;
use session_rules::Refusal;
use std::alloc::AllocError;

/// Adds the line of a refusal.
pub fn push_refused(out: &mut Vec<u8>, refusal: &Refusal) -> Result<(), AllocError>
    ensures { IfOk result (λ _. out.new.items ≡ out.old.items ++ (codes "refused " ++ refusal_words refusal.now ++ codes "\n")) }
{
    out.extend_from_slice(b"refused ")?;
    push_words(out, refusal)?;
    out.extend_from_slice(b"\n")?;
    Ok(())
}

// Adds the words of a refusal.
fn push_words(out: &mut Vec<u8>, refusal: &Refusal) -> Result<(), AllocError>
    ensures { IfOk result (λ _. out.new.items ≡ out.old.items ++ refusal_words refusal.now) }
{
    match refusal {
        Refusal::NoScenario => Ok(out.extend_from_slice(b"no_scenario")?),
        Refusal::UnknownTuple => Ok(out.extend_from_slice(b"unknown_tuple")?),
        Refusal::Present => Ok(out.extend_from_slice(b"present")?),
        Refusal::NoInstance(_) => Ok(out.extend_from_slice(b"no_instance")?),
        Refusal::Bottom => Ok(out.extend_from_slice(b"bottom")?),
        Refusal::Deep => Ok(out.extend_from_slice(b"deep")?),
        Refusal::Spent(work) => Ok(push_spent(out, work.budget)?),
        Refusal::NoEnd => Ok(out.extend_from_slice(b"no_end")?),
    }
}

// Adds that a budget is spent.
fn push_spent(out: &mut Vec<u8>, budget: u32) -> Result<(), AllocError>
    ensures { IfOk result (λ _. out.new.items ≡ out.old.items ++ (codes "spent " ++ decimal budget)) }
{
    out.extend_from_slice(b"spent ")?;
    push_number(out, u64::from(budget))?;
    Ok(())
}
