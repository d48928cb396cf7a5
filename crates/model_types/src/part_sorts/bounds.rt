// The arities of bounds.
ghost use Rattle.std.specs.Prelude.{◌≡◌, ◌+◌, map, IfOk};
ghost use Rattle.named_model.specs.View.{phrase_view, link_view};
ghost use Rattle.named_model.specs.Phrase.{links_of};
ghost use Rattle.model_types.specs.Models.{bound_arity, arrows_arity};
ghost use Rattle.model_types.specs.Parts.Arrows.{is_arrow};

use alloy_syntax::tree::Operator;
use named_model::phrase::{Link, Phrase};
use std::alloc::AllocError;

/// The arity of a bound by its first operands, whatever is wrong with it. One above the largest number is want of memory.
#[cycle(bound)]
pub fn bound_arity(bound: &Phrase) -> Result<usize, AllocError>
    ensures { IfOk result (λ n. n ≡ bound_arity (phrase_view bound.now)) }
{
    match bound {
        Phrase::Bracketed(_, inner) => bound_arity(inner),
        Phrase::Chain(first, links) => {
            let arity = bound_arity(first)?;
            with_arrows(arity, links)
        }
        _ => Ok(1),
    }
}

// The arity of so many columns, and of what stands behind the arrows that follow.
#[cycle(bound)]
fn with_arrows(columns: usize, links: &[Link]) -> Result<usize, AllocError>
    ensures { IfOk result (λ n. n ≡ columns + arrows_arity (links_of (map link_view links.now))) }
{
    let mut arity = columns;
    for link in links {
        if !is_arrow(link.operator) {
            return Ok(arity);
        }
        let behind = bound_arity(&link.operand)?;
        arity = arity.checked_add(behind).ok_or(AllocError)?;
    }
    Ok(arity)
}

fn is_arrow(operator: Operator) -> bool
    ensures { result ≡ is_arrow operator }
{
    matches!(operator, Operator::Product)
}
