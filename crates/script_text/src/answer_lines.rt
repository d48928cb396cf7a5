// The lines of replies that print no proof.
ghost use Rattle.std.specs.Prelude.{◌≡◌, ◌++◌, ℕ, List, IfOk};
ghost use Rattle.translation_rules.specs.Translation.{Translated};
ghost use Rattle.script_text.specs.Printed.{printed};
ghost use Rattle.script_text.specs.Replies.{NamesCellsOf, PrintsNoProof, IsReplyText};

use crate::listed_lines::{push_all, push_partly};
use crate::numbers::push_number_line;
use crate::offer_lines::push_offers;
use crate::refusal_lines::push_refused;
use crate::scenario_lines::push_shown;
use rel_formula::Problem;
use session_rules::Reply;
use std::alloc::{AllocError, Global};

/// Adds the lines of a reply that prints no proof. The cells that it names are the problem's.
pub fn push_answer(
    alloc: Global,
    out: &mut Vec<u8>,
    problem: &Problem,
    reply: &Reply,
) -> Result<(), AllocError>
    requires cells { NamesCellsOf problem.now reply.now }
    requires plain { PrintsNoProof reply.now }
    ensures { IfOk result (λ _. (t : Translated) (floor : List ℕ) → (text : List ℕ) × IsReplyText problem.now (printed t floor reply.now) text × (out.new.items ≡ out.old.items ++ text)) }
{
    match reply {
        Reply::Shown { number, scenario } => {
            Ok(push_shown(alloc, out, problem, *number, scenario)?)
        }
        Reply::End { number, .. } => Ok(push_number_line(out, b"end ", u64::from(*number))?),
        Reply::Offers { cells } => Ok(push_offers(out, problem, cells.numbers())?),
        Reply::Augmented { .. } => Ok(out.extend_from_slice(b"augmented\n")?),
        Reply::Back => Ok(out.extend_from_slice(b"back\n")?),
        Reply::BudgetSet(budget) => Ok(push_number_line(out, b"budget ", u64::from(*budget))?),
        Reply::All { scenarios } => Ok(push_all(alloc, out, problem, scenarios.scenarios())?),
        Reply::Partly { first, scenarios } => {
            Ok(push_partly(alloc, out, problem, *first, scenarios.scenarios())?)
        }
        Reply::Proof { .. } => unreachable!(),
        Reply::Refused(refusal) => Ok(push_refused(out, refusal)?),
        Reply::Memory => Ok(out.extend_from_slice(b"memory\n")?),
    }
}
