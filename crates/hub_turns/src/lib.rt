//! What passes do to the hub that they share: each call takes one turn, in which it publishes, imports, shares, opens or records.
//! And what sessions add to the journal in that way, which is an interleaving of what each of them did (`journal_laws`).
#![tactic(auto)]

mod in_turn;
pub mod journal_laws;
mod laws;
mod turns;

pub use crate::laws::passes_stay_idle;
pub use crate::turns::{import, publish, record_opening, record_step, share};
