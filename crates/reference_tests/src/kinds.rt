// The kinds of answers.
use session_rules::{Refusal, Reply};

// All kinds that steps on few cells have.
pub const ALL_KINDS: u32 = 0b11_1111_1111_1111;

// The bit of the answer's kind; no bit for 64 floors, and for what answers no step.
pub fn kind_of(reply: &Reply) -> u32 {
    match reply {
        Reply::Shown { .. } => 1,
        Reply::End { .. } => 1 << 1,
        Reply::Offers { .. } => 1 << 2,
        Reply::Augmented { .. } => 1 << 3,
        Reply::Back => 1 << 4,
        Reply::BudgetSet(_) => 1 << 5,
        Reply::Proof { .. } => 1 << 6,
        Reply::Refused(refusal) => kind_of_refusal(refusal),
        Reply::All { .. } => 0,
        Reply::Partly { .. } => 0,
        Reply::Memory => 0,
    }
}

fn kind_of_refusal(refusal: &Refusal) -> u32 {
    match refusal {
        Refusal::NoScenario => 1 << 7,
        Refusal::UnknownTuple => 1 << 8,
        Refusal::Present => 1 << 9,
        Refusal::NoInstance(_) => 1 << 10,
        Refusal::Bottom => 1 << 11,
        Refusal::Spent(_) => 1 << 12,
        Refusal::NoEnd => 1 << 13,
        Refusal::Deep => 0,
    }
}
