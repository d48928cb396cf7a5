/// A variable, a number from 1 to 2,147,483,647, or its negation.
#[derive(Clone, Copy, Debug, PartialEq, Eq)]
pub struct Lit {
    pub var: u32,
    pub positive: bool,
}

impl Lit {
    ghost use Rattle.std.specs.Prelude.{◌≡◌};
    ghost use Rattle.cnf_core.specs.Literal.{negation_of};

    /// The literal of the same variable and the other sign.
    pub fn negation(self) -> Lit
        ensures { result ≡ negation_of self }
    {
        Lit {
            var: self.var,
            positive: !self.positive,
        }
    }
}
