// To which values a search decides variables.
ghost use Rattle.std.specs.Prelude.{◌≡◌, ◌<◌, ◌≤◌, ◌^◌, [], IfOk, OnOk, OnErr, length};
ghost use Rattle.sat_trail.specs.Leaned.{leans_to};

use cnf_core::Valuation;
use std::alloc::{AllocError, Global};
use std::marker::Model;

/// The values to which a search decides variables: those of a valuation, and one value for the variables above them. What is
/// found depends on it, and what is true of what is found doesn't. Contracts see both.
#[derive(Debug, Drop)]
pub struct SavedPhases {
    values: Vec<bool>,
    other: bool,
}

impl Model for SavedPhases {
    ghost use Rattle.sat_trail.specs.Leaned.{Leaned};

    ghost Value = { Leaned };

    ghost view = { λ l. record { values = l.values.items; other = l.other } };
}

impl SavedPhases {
    /// All variables lean to this value.
    pub fn towards(alloc: Global, value: bool) -> SavedPhases
        ensures { result ≡ record { values = []; other = value } }
    {
        SavedPhases {
            values: Vec::new(alloc),
            other: value,
        }
    }

    /// The value to which a variable leans; variables count from 1.
    pub fn value(&self, var: u32) -> bool
        requires { 1 ≤ var }
        ensures { result ≡ leans_to self.now var }
    {
        match self.values.get(var as usize - 1) {
            Some(value) => *value,
            None => self.other,
        }
    }

    /// The variables lean to the values of a valuation from now on, which has at most 4,294,967,295.
    pub fn follow(&mut self, alloc: Global, valuation: &Valuation) -> Result<(), AllocError>
        requires { length valuation.now < 2 ^ 32 }
        ensures done { OnOk result (self.new ≡ record self.old { values = valuation.now }) }
        ensures err { OnErr result (self.new ≡ self.old) }
    {
        self.values = values_of(alloc, valuation)?;
        Ok(())
    }
}

// The values of a valuation.
fn values_of(alloc: Global, valuation: &Valuation) -> Result<Vec<bool>, AllocError>
    requires { length valuation.now < 2 ^ 32 }
    ensures { IfOk result (λ values. values.items ≡ valuation.now) }
{
    let mut values = Vec::new(alloc);
    for place in 0..valuation.vars() {
        values.push(valuation.value(place as u32 + 1))?;
    }
    Ok(values)
}
