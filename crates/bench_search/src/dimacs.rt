// Clauses in the DIMACS format.
ghost use Rattle.std.specs.Prelude.{◌≤◌, All};

use cnf_core::{Clause, Cnf, Lit};
use itoa::Buffer;
use std::alloc::{AllocError, Global};

/// The clauses of the formula, and further ones, as a text in the DIMACS format.
pub fn text_of(alloc: Global, f: &Cnf, more: &[Clause]) -> Result<String, AllocError> {
    let mut text = String::new(alloc);
    text.push_str("p cnf ")?;
    put_number(&mut text, f.vars())?;
    text.push_str(" ")?;
    put_number(
        &mut text,
        f.len().saturating_add(more.len().min(1_000_000) as u32),
    )?;
    text.push_str("\n")?;
    for number in 1..f.len() + 1 {
        put_clause(&mut text, f.clause(number).lits())?;
    }
    for clause in more {
        put_clause(&mut text, clause.lits())?;
    }
    Ok(text)
}

// Puts a number at the end.
fn put_number(text: &mut String, number: u32) -> Result<(), AllocError> {
    let mut buffer = Buffer::new();
    text.push_str(buffer.format(number))?;
    Ok(())
}

// Puts a line with the literals, and the 0 behind them.
fn put_clause(text: &mut String, lits: &[Lit]) -> Result<(), AllocError> {
    for lit in lits {
        if !lit.positive {
            text.push_str("-")?;
        }
        put_number(text, lit.var)?;
        text.push_str(" ")?;
    }
    text.push_str("0\n")?;
    Ok(())
}
