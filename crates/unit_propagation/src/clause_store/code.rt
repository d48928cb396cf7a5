// Literals as numbers.
ghost use Rattle.std.specs.Prelude.{◌≡◌, ◌<◌, ◌^◌};
ghost use Rattle.unit_propagation.specs.Clauses.Codes as codes;

use cnf_core::Lit;

/// The number of a literal.
pub fn code_of(l: Lit) -> u32
    requires { l.var < 2 ^ 31 }
    ensures code { result ≡ codes.code_of l }
    ensures literal { codes.literal_of result ≡ l }
{
    2 * l.var + if l.positive { 1 } else { 0 }
}

/// The literal of this number.
pub fn literal_of(code: u32) -> Lit
    ensures { result ≡ codes.literal_of code }
{
    Lit {
        var: code / 2,
        positive: code % 2 == 1,
    }
}
