// Whether two proofs are the same.
use refutation_check::{Log, Step};
use rel_formula::Scenario;
use session_rules::EndProof;

// Whether the one proof imports, blocks and derives what the other does.
pub fn is_same_proof(proof: &EndProof, other: &EndProof) -> bool {
    proof.imported() == other.imported()
        && are_same_scenarios(proof.blocked(), other.blocked())
        && is_same_log(proof.pool(), other.pool())
        && is_same_log(proof.log(), other.log())
}

fn are_same_scenarios(scenarios: &[Scenario], others: &[Scenario]) -> bool {
    scenarios.len() == others.len()
        && scenarios
            .iter()
            .zip(others.iter())
            .all(|(scenario, other)| scenario.numbers() == other.numbers())
}

fn is_same_log(log: &Log, other: &Log) -> bool {
    log.steps().len() == other.steps().len()
        && log
            .steps()
            .iter()
            .zip(other.steps().iter())
            .all(|(step, other)| is_same_step(step, other))
}

fn is_same_step(step: &Step, other: &Step) -> bool {
    step.clause.lits() == other.clause.lits() && step.hints.numbers() == other.hints.numbers()
}
