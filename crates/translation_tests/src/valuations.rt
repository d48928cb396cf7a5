// Valuations of formulas of few variables.
use cnf_core::{Cnf, Lit};
use std::process::Abort;

// Whether the valuation makes one of these literals true.
fn is_true(rt: &impl Abort, lits: &[Lit], valuation: u32) -> bool {
    for lit in lits {
        assert!(rt; 1 <= lit.var && lit.var <= 32);
        if (valuation >> (lit.var - 1)) % 2 == u32::from(lit.positive) {
            return true;
        }
    }
    false
}

/// Whether a valuation, whose bit var - 1 is the value of a variable, satisfies each clause.
pub fn is_satisfied(rt: &impl Abort, formula: &Cnf, valuation: u32) -> bool {
    for number in 1..=formula.len() {
        if !is_true(rt, formula.clause(number).lits(), valuation) {
            return false;
        }
    }
    true
}
