// Valuations.
ghost use Rattle.std.specs.Prelude.{◌≡◌, ◌≤◌, length};
ghost use Rattle.cnf_core.specs.Valuation.{value_of};

use std::marker::Model;

/// A truth value for each variable from 1 on. Contracts see the list of the values.
#[derive(Debug, Drop)]
pub struct Valuation {
    values: Vec<bool>,
}

impl Model for Valuation {
    ghost use Rattle.std.specs.Prelude.{List, Bool};

    ghost Value = { List Bool };

    ghost view = { λ v. v.values.items };
}

impl Valuation {
    /// The valuation with these values of the variables from 1 on.
    pub fn of(values: Vec<bool>) -> Valuation
        ensures { result ≡ values.items }
    {
        Valuation { values }
    }

    /// The number of variables.
    pub fn vars(&self) -> usize
        ensures { result ≡ length self.now }
    {
        self.values.len()
    }

    /// The value of a variable, from 1 to the number of variables.
    pub fn value(&self, var: u32) -> bool
        requires from_one { 1 ≤ var }
        requires in_range { var ≤ length self.now }
        ensures { result ≡ value_of self.now var }
    {
        self.values[var as usize - 1]
    }
}
