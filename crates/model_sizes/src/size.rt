// The places of top-level signatures.
ghost use Rattle.std.specs.Prelude.{◌≡◌};

use std::marker::Model;

/// How many places a top-level signature has, and whether each of them is an atom of it.
#[derive(Clone, Copy, Debug, PartialEq, Eq)]
pub struct Size {
    /// The number of the signature, in order of declaration.
    pub signature: usize,
    pub places: u16,
    pub exact: bool,
}

/// The sizes of the top-level signatures, in order of declaration.
#[derive(Drop)]
pub struct Sizes {
    sizes: Vec<Size>,
}

impl Model for Sizes {
    ghost use Rattle.std.specs.Prelude.{List};
    ghost use Rattle.model_sizes.specs.declared.size.Size.{Size};

    ghost Value = { List Size };

    ghost view = { λ s. s.sizes.items };
}

impl Sizes {
    /// These sizes.
    pub fn of(sizes: Vec<Size>) -> Sizes
        ensures { result ≡ sizes.items }
    {
        Sizes { sizes }
    }

    /// The sizes, in order of declaration.
    pub fn as_slice(&self) -> &[Size]
        ensures { result.now ≡ self.now }
    {
        &self.sizes
    }
}
