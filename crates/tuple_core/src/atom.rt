// An atom of a universe.
ghost use Rattle.std.specs.Prelude.{◌≡◌};
ghost use Rattle.tuple_core.specs.Swap.{swap_atoms};

/// A place in a top-level signature. Atoms are ordered by signature, and then by place.
#[derive(Clone, Copy, PartialEq, Eq, PartialOrd, Ord, Hash, Debug, Default)]
pub struct Atom {
    /// The number of the top-level signature, in order of declaration.
    pub top: u16,
    /// The number of the atom among those of its signature.
    pub place: u16,
}

impl Atom {
    /// `b` for `a`, `a` for `b`, and every other atom for itself.
    pub fn swapped(self, a: Atom, b: Atom) -> Atom
        ensures { result ≡ swap_atoms a b self }
    {
        if self == a {
            b
        } else if self == b {
            a
        } else {
            self
        }
    }
}
