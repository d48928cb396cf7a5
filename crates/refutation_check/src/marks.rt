// What a clause is where some literals are false.
ghost use Rattle.std.specs.Prelude.{length};
ghost use Rattle.cnf_core.specs.Literal.{IsClause};
ghost use Rattle.refutation_check.specs.Marks.{IsFalseIn, IsSeen, IsWithin};

use cnf_core::Lit;

/// What a clause is where some literals are false.
#[derive(Clone, Copy, Debug, PartialEq, Eq)]
pub enum Sight {
    /// All its literals are false.
    Falsified,
    /// Exactly this literal is not false, and it is not true.
    Unit(Lit),
    /// A literal is true, or more than one is open.
    Neither,
}

/// Looks once at each literal of a clause. The marks are the values of the variables from 0 on.
pub fn look(marks: &[Option<bool>], lits: &[Lit]) -> Sight
    requires clause { IsClause lits.now }
    requires in_range { IsWithin (length marks.now) lits.now }
    ensures { IsSeen (IsFalseIn marks.now) lits.now result }
{
    let mut open: Option<Lit> = None;
    for lit in lits {
        match marks[lit.var as usize] {
            Some(value) if value == lit.positive => return Sight::Neither,
            Some(_) => {}
            None if open.is_some() => return Sight::Neither,
            None => open = Some(*lit),
        }
    }
    match open {
        None => Sight::Falsified,
        Some(lit) => Sight::Unit(lit),
    }
}
